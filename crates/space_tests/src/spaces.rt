//! Clients of any space, run over the space of terms themselves and over the store; what is expected was worked out by hand.
use crate::building::run_makers;
use crate::changing::run_changes;
use crate::taking_apart::{run_takers, takes_apart};
use aterm_text::read_term;
use keyed_hash::HashKeys;
use std::alloc::{AllocError, Global};
use std::test::Fail;
use term_model::{Block, Front, Head, Made, Parts, RcSpace, Sym, Term, TermSpace};
use term_store::StoreSpace;

/// Texts of terms, and whether the root of each has a number.
const ROOTS: &[(&[u8], bool)] = &[(b"7{F}", false), (b"[F,F]", false), (b"F{7}", true)];

/// Whether the numbers of the symbol and of a term with it are one, and whether the term is the symbol over two parts alone.
fn is_numbered<S: TermSpace>(
    alloc: Global,
    space: &mut S,
    symbol: &Sym,
) -> Result<bool, AllocError> {
    let mut parts = Vec::new(alloc);
    parts.push(space.int(alloc, 1)?)?;
    parts.push(space.int(alloc, 2)?)?;
    let head = Head::App(symbol.clone()?);
    let Made::Fits(at) = space.make(alloc, head, parts, Vec::new(alloc))? else {
        return Ok(false);
    };
    let name = space.name(alloc, symbol)?;
    let is_two = space.is_app(&at, &name, 2) && !space.is_app(&at, &name, 3);
    Ok(is_two && space.root_number(&at) == Some(space.number(&name)))
}

/// Whether the term has a number.
fn has_number<S: TermSpace>(alloc: Global, space: &mut S, from: &Term) -> Result<bool, AllocError> {
    let at = space.enter(alloc, from)?;
    Ok(space.root_number(&at).is_some())
}

/// The list of the first integers from 0 on.
fn numbers(alloc: Global, count: i64) -> Result<Term, Fail> {
    let mut elements = Vec::new(alloc);
    for value in 0..count {
        elements.push(Term::int(alloc, value)?)?;
    }
    let Made::Fits(list) = Term::list(alloc, elements)? else {
        return Err(Fail::new("oversize"));
    };
    Ok(list)
}

fn store(alloc: Global) -> StoreSpace {
    StoreSpace::new(alloc, HashKeys::known())
}

/// Looks at the numbers of symbols over a space.
fn run_symbols<S: TermSpace>(alloc: Global, space: &mut S) -> Result<(), Fail> {
    if !is_numbered(alloc, space, &Sym::named(alloc, b"F")?)?
        || !is_numbered(alloc, space, &Sym::named(alloc, b"FG")?)?
        || !is_numbered(alloc, space, &Sym::quoted(alloc, b"")?)?
        || !is_numbered(alloc, space, &Sym::tuple())?
    {
        return Err(Fail::new("another number"));
    }
    Ok(())
}

/// Looks at the numbers of roots over a space.
fn run_roots<S: TermSpace>(alloc: Global, space: &mut S) -> Result<(), Fail> {
    for (text, is_symbol) in ROOTS {
        if has_number(alloc, space, &read_term(alloc, text)?)? != *is_symbol {
            return Err(Fail::new(text.escape_ascii()));
        }
    }
    Ok(())
}

/// Runs all clients over a space.
fn run_clients<S: TermSpace + Drop>(alloc: Global, space: S) -> Result<(), Fail> {
    let mut space = space;
    run_symbols(alloc, &mut space)?;
    run_roots(alloc, &mut space)?;
    run_makers(alloc, &mut space)?;
    run_changes(alloc, &mut space)?;
    run_takers(alloc, &mut space)
}

#[test]
fn terms_themselves(rt: HostRuntime) -> Result<(), Fail> {
    run_clients(rt.alloc(), RcSpace)
}

#[test]
fn stored_terms(rt: HostRuntime) -> Result<(), Fail> {
    run_clients(rt.alloc(), store(rt.alloc()))
}

/// A space that says how many shapes it holds.
pub(crate) trait Holds {
    fn held(&self) -> usize;
}

impl Holds for StoreSpace {
    fn held(&self) -> usize {
        self.len()
    }
}

/// Whether the two parts of a pair are one.
fn is_one_twice<S: TermSpace>(
    alloc: Global,
    space: &mut S,
    pair: &Term,
) -> Result<bool, AllocError> {
    let at = space.enter(alloc, pair)?;
    let mut stack = Vec::new(alloc);
    space.push_parts(&at, &mut stack)?;
    if let [first, second] = &stack[..] {
        return Ok(space.same(first, second));
    }
    Ok(false)
}

/// How many shapes the space holds with a pair, with `G` more, and after it goes back; and the pair again.
fn goes_back<S: TermSpace + Holds>(
    alloc: Global,
    space: &mut S,
    pair: &Term,
) -> Result<([usize; 3], Term), AllocError> {
    let at = space.enter(alloc, pair)?;
    let entered = space.held();
    let name = space.name(alloc, &Sym::named(alloc, b"G")?)?;
    let mark = space.mark();
    let _made = space.app(alloc, &name, &[])?;
    let made = space.held();
    space.back_to(mark);
    let left = space.leave(alloc, &at)?;
    Ok(([entered, made, space.held()], left))
}

/// Equal parts are one, and what came after a mark is given back. Returns how many shapes the space holds with the pair, with one more, and
/// after it goes back; nothing if the pair is another then.
fn run_going_back<S: TermSpace + Holds + Drop>(
    alloc: Global,
    space: S,
    text: &[u8],
) -> Result<Option<[usize; 3]>, Fail> {
    let mut space = space;
    let pair = read_term(alloc, text)?;
    if !is_one_twice(alloc, &mut space, &pair)? {
        return Ok(None);
    }
    let (held, left) = goes_back(alloc, &mut space, &pair)?;
    Ok(if left == pair { Some(held) } else { None })
}

/// Pairs, and how many shapes the store holds with them, with one more, and after it goes back. It holds no small integer
/// without annotations.
const PAIRS: &[(&[u8], [usize; 3])] = &[
    (b"F(A(),A())", [2, 3, 2]),
    (b"F(1,1)", [1, 2, 1]),
    (b"F(1{A()},1{A()})", [3, 4, 3]),
    (b"F(1073741823,1073741823)", [1, 2, 1]),
    (b"F(1073741824,1073741824)", [2, 3, 2]),
    (b"F(-1073741824,-1073741824)", [1, 2, 1]),
    (b"F(-1073741825,-1073741825)", [2, 3, 2]),
    (b"F(-9223372036854775808,-9223372036854775808)", [2, 3, 2]),
    (b"F(9223372036854775807,9223372036854775807)", [2, 3, 2]),
];

#[test]
fn equal_parts_are_stored_once(rt: HostRuntime) -> Result<(), Fail> {
    for (index, (text, held)) in PAIRS.iter().enumerate() {
        if run_going_back(rt.alloc(), store(rt.alloc()), text)? != Some(*held) {
            return Err(Fail::new(index));
        }
    }
    Ok(())
}

/// A list is taken apart at each place and put together again: it has the number that it had, and each rest is new. Returns how many shapes
/// the space holds then; nothing where a list has another number.
fn run_lists<S: TermSpace<Ref = u32> + Holds + Drop>(
    alloc: Global,
    space: S,
    count: i64,
) -> Result<Option<usize>, Fail> {
    let mut space = space;
    let list = numbers(alloc, count)?;
    let at = space.enter(alloc, &list)?;
    for place in 0..=list.children().len() {
        if takes_apart(alloc, &mut space, &list, place)? != Some(at) {
            return Ok(None);
        }
    }
    Ok(Some(space.held()))
}

/// Lengths of lists, and how many shapes the space holds then.
const LISTS: &[(i64, usize)] = &[(7, 8), (100, 101)];

#[test]
fn numbers_of_lists(rt: HostRuntime) -> Result<(), Fail> {
    for (count, held) in LISTS {
        if run_lists(rt.alloc(), store(rt.alloc()), *count)? != Some(*held) {
            return Err(Fail::new(count));
        }
    }
    Ok(())
}

/// Blocks of the parts from 2 on, the last first.
const BLOCKS: &[Block<usize>] = &[
    Block {
        front: Front::Three(5, 6, 7),
        rest: 0,
    },
    Block {
        front: Front::Three(2, 3, 4),
        rest: 1,
    },
];

#[test]
fn blocks() -> Result<(), Fail> {
    let first = Block {
        front: Front::One(1),
        rest: 2,
    };
    let parts = Parts::of_block(&first, BLOCKS);
    for i in 0..7 {
        if parts.get(i) != Some(&(i + 1)) {
            return Err(Fail::new(i));
        }
    }
    if parts.len() != 7 || parts.get(7).is_some() {
        return Err(Fail::new("another number of parts"));
    }
    Ok(())
}
