//! `parse` on files whose faults were placed by hand, on both sides of the greatest level, and the shape of a tree.
use crate::front::read;
use crate::mutations::levels::push_times;
use crate::mutations::readings::{Reading, reading_of, reading_of_pieces};
use std::alloc::Global;
use std::test::Fail;
use str_syntax::{
    Arguments, DefinitionForm, File, Name, Origin, Pattern, Primary, RuleDefinition, Section,
    Sequence, Step, Strategy, StrategyDefinition,
};

/// Files of sections of all kinds.
const SECTIONS: &[&str] = &[
    "",
    "signature",
    "rules",
    "strategies",
    "signature sorts",
    "signature sorts A B List(A, B) List(List(A))",
    "signature constructors",
    "signature constructors Nil : List(A) Cons : A * List(A) -> List(A)",
    "signature constructors : A -> B C : A : A * B -> C(D)",
    "signature sorts A constructors C : A sorts B signature sorts C",
    "rules r : x -> x",
    "rules r() : Plus(x, 0) -> x s(f) : _ -> () t(f, g | x, y) : x -> x u(|) : x -> x v(| y) : x -> y",
    "rules r : x -> y where <f> x => y",
    "rules f = id r : 1 -> 2 strategies g = r s : \"a\" -> \"b\"",
];

/// Files with each form of strategies and patterns.
const STRATEGIES: &[&str] = &[
    "strategies main = id",
    "strategies main = fail f = main",
    "strategies main() = id f(s) = s f(s, t | x) = s",
    "strategies main = ?x; ?_; ?y@1; ?-1; ?\"q\"; ?C(); ?C(x, y); ?(x); ?(); ?(x, y)",
    "strategies main = ?[]; ?[x]; ?[x, y]; ?[x | y]; ?[x, y | [z]]",
    "strategies main = !x; !C(<id>); !(<id> 1, 2); ![<f> | <g>]; !<id>",
    "strategies main = !_; !x@y",
    "strategies main = <id> <fail> <f> C(1)",
    "strategies main = (id); (); (id, fail); ((id))",
    "strategies main = {x: id}; {x, y: ?x}",
    "strategies main = where(id); not(id); all(id); one(id); some(id)",
    "strategies main = if id then fail end; if id then fail else id end",
    "strategies main = rec x(x)",
    "strategies main = let f = id in f end",
    "strategies main = let f(s) = s g(| x) = !x in f(g(| 1)) end",
    "strategies main = prim(\"p\"); prim(\"p\", 1, x)",
    "strategies main = \\ x -> x \\; \\ x -> y where !1 => y \\",
    "strategies main = f; f(); f(id); f(id, fail); f(id | 1); f(id, id | 1, x); f(|); f(id |)",
    "strategies main = []; [id]; [id, fail]; [id | fail]; [id, id | id]",
    "strategies main = a <+ b; c <+ d",
    "strategies main = a < b + c",
    "strategies main = a < b <+ c + d < e + f",
    "strategies main = a => x; b => C(x) <+ c",
    "strategies main = ?x <+ s(t|y)",
    "rules f'(s) : x' -> x'",
    "strategies main = !x rules r : x -> x signature sorts A strategies f = main",
];

#[test]
fn files(rt: HostRuntime) -> Result<(), Fail> {
    for table in [SECTIONS, STRATEGIES] {
        for text in table {
            if reading_of(rt.alloc(), text.as_bytes()) != Reading::File {
                return Err(Fail::new(text));
            }
        }
    }
    Ok(())
}

/// Texts that are no files, in two pieces, with the fault between them: in sections.
const NO_SECTIONS: &[(&str, &str)] = &[
    ("", "id"),
    ("", "main = id"),
    ("signature ", "x"),
    ("signature sorts A(", ")"),
    ("signature sorts A(B,", ")"),
    ("signature sorts A(B ", "C)"),
    ("signature constructors C ", "D : A"),
    ("signature constructors ", "f' : A"),
    ("signature constructors : A ", "C : A"),
    ("signature constructors C : A * B ", "D : A"),
    ("signature constructors C : A -> B ", "-> C"),
    ("signature constructors C : ", "* A"),
    ("rules r ", "x -> x"),
    ("rules r : x ", "= x"),
    ("rules r : x -> ", "where id"),
    ("rules r : x -> x where ", "-> x"),
    ("rules r : ", "<id> x -> x"),
    ("rules r(f, ", ") : x -> x"),
    ("rules r(f | x ", "| y) : x -> x"),
    ("strategies f(", "1) = id"),
];

/// In patterns.
const NO_PATTERNS: &[(&str, &str)] = &[
    ("strategies main = ", "_"),
    ("strategies main = !<id> f ", "= id"),
    ("strategies main = ?", "<id>"),
    ("strategies main = ?x@", "; id"),
    ("strategies main = ?C(x,", ")"),
    ("strategies main = ?(x ", "y)"),
    ("strategies main = ?[", "| x]"),
    ("strategies main = ?[x | y", ", z]"),
    ("strategies main = ?1 ", "2"),
    ("strategies main = ?\"q\" ", "\"q\""),
    ("strategies main = ?() ", "()"),
    ("strategies main = !f'", "(1)"),
    ("strategies main = ![<", "1>]"),
];

/// In strategies.
const NO_STRATEGIES: &[(&str, &str)] = &[
    ("strategies main = id ", "id"),
    ("strategies main = fail", ")"),
    ("strategies main = a <+ ", ""),
    ("strategies main = a < b <+ c", ""),
    ("strategies main = a; ", "; b"),
    ("strategies main = a => x ", "=> y"),
    ("strategies main = <id> ", "; id"),
    ("strategies main = (a, ", ")"),
    ("strategies main = [", "| a]"),
    ("strategies main = [a | b", ", c]"),
    ("strategies main = {", ": id}"),
    ("strategies main = where ", "id"),
    ("strategies main = not(", ")"),
    ("strategies main = all(a", ", b)"),
    ("strategies main = one(a; b", ""),
    ("strategies main = some", ""),
    ("strategies main = if a ", "else b end"),
    ("strategies main = if a then b else c ", "else d end"),
    ("strategies main = rec ", "(id)"),
    ("strategies main = let ", "in id end"),
    ("strategies main = let f = id in f", ""),
    ("strategies main = prim(", "p)"),
    ("strategies main = prim(\"p\" ", "1)"),
    ("strategies main = \\ x -> x ", "; id"),
    ("strategies main = f(a ", "b)"),
    ("strategies main = f(a | 1,", ")"),
    ("strategies main = id rules f ", "strategies"),
];

#[test]
fn no_files(rt: HostRuntime) -> Result<(), Fail> {
    for table in [NO_SECTIONS, NO_PATTERNS, NO_STRATEGIES] {
        for (front, back) in table {
            let at = front.len() as u64;
            if reading_of_pieces(rt.alloc(), front, back)? != Reading::Syntax(at) {
                return Err(Fail::new(front));
            }
        }
    }
    Ok(())
}

/// What stands in front, a piece and its number of times, what stands between, a second piece and its number of times, and what the text of
/// all is read as.
type Levels = (
    &'static str,
    (&'static str, usize),
    &'static str,
    (&'static str, usize),
    Reading,
);

const MAIN: &str = "strategies main = ";

const LEVELS: &[Levels] = &[
    (MAIN, ("(", 200), "", (")", 200), Reading::File),
    (MAIN, ("(", 200), "", ("", 0), Reading::Syntax(218)),
    (MAIN, ("(", 201), "", ("", 0), Reading::Nesting(218)),
    (MAIN, ("(", 200), "]", ("", 0), Reading::Syntax(218)),
    (MAIN, ("id;", 199), "id", ("", 0), Reading::File),
    (MAIN, ("id;", 200), "id", ("", 0), Reading::Nesting(618)),
    (MAIN, ("id;", 200), "", ("", 0), Reading::Syntax(618)),
    (MAIN, ("a<+", 199), "a", ("", 0), Reading::File),
    (MAIN, ("a<+", 200), "a", ("", 0), Reading::Nesting(618)),
    (
        "strategies main = ?",
        ("[", 199),
        "",
        ("]", 199),
        Reading::File,
    ),
    (
        "strategies main = ?",
        ("[", 199),
        "<",
        ("", 0),
        Reading::Syntax(218),
    ),
    (
        "strategies main = !",
        ("[", 199),
        "<",
        ("", 0),
        Reading::Nesting(218),
    ),
    (
        "signature sorts ",
        ("A(", 199),
        "A",
        (")", 199),
        Reading::File,
    ),
    (
        "signature sorts ",
        ("A(", 200),
        "A",
        (")", 200),
        Reading::Nesting(416),
    ),
    // A hundred thousand levels.
    (MAIN, ("(", 100_000), "", ("", 0), Reading::Nesting(218)),
    (MAIN, ("a;", 100_000), "", ("", 0), Reading::Nesting(418)),
    (MAIN, ("if ", 100_000), "", ("", 0), Reading::Nesting(618)),
    (
        "strategies main = ?",
        ("[", 100_000),
        "",
        ("", 0),
        Reading::Nesting(218),
    ),
    (
        "strategies main = !",
        ("C(", 100_000),
        "",
        ("", 0),
        Reading::Nesting(417),
    ),
    (
        "rules r : x -> ",
        ("<!", 100_000),
        "",
        ("", 0),
        Reading::Nesting(215),
    ),
    (
        "signature sorts ",
        ("A(", 100_000),
        "",
        ("", 0),
        Reading::Nesting(416),
    ),
    (
        "strategies ",
        ("(", 100_000),
        "",
        ("", 0),
        Reading::Syntax(11),
    ),
];

/// Whether the row is read as it says.
fn is_read_so(alloc: Global, row: &Levels) -> Result<bool, Fail> {
    let (front, (opening, openings), between, (closing, closings), expected) = row;
    let mut text = String::from_str(alloc, front)?;
    push_times(&mut text, opening, *openings)?;
    text.push_str(between)?;
    push_times(&mut text, closing, *closings)?;
    Ok(reading_of(alloc, text.as_bytes()) == *expected)
}

#[test]
fn levels_end_at_200(rt: HostRuntime) -> Result<(), Fail> {
    for row in LEVELS {
        if !is_read_so(rt.alloc(), row)? {
            return Err(Fail::new(row.0));
        }
    }
    Ok(())
}

/// The first definition of a file whose first section has strategies.
fn first_definition(file: &File) -> Option<&StrategyDefinition> {
    let Some(Section::Strategies(definitions)) = file.sections.first() else {
        return None;
    };
    let definition = definitions.first()?;
    match (&definition.origin, &definition.form) {
        (Origin::File, DefinitionForm::Strategy(definition)) => Some(definition),
        _ => None,
    }
}

/// The name of a call without arguments.
fn called_name(step: &Step) -> Option<&Name> {
    let Step::Plain(_, primary) = step else {
        return None;
    };
    match primary.as_ref() {
        Primary::Call(name, Arguments::Absent) => Some(name),
        _ => None,
    }
}

/// The names of two calls in sequence.
fn two_calls(sequence: &Sequence) -> Option<(&Name, &Name)> {
    let Sequence::Then(first, others) = sequence else {
        return None;
    };
    let Sequence::Last(last) = others.as_ref() else {
        return None;
    };
    Some((called_name(first)?, called_name(last)?))
}

/// Whether the name is this one, at this byte.
fn stands_at(name: &Name, bytes: &[u8], offset: u64) -> bool {
    name.bytes() == bytes && name.offset() == offset
}

/// Whether the strategy is the left choice of a; b and c; d, with the names where they stand in the file.
fn is_choice_of_sequences(strategy: &Strategy) -> bool {
    let Strategy::LeftChoice(first, others) = strategy else {
        return false;
    };
    let Strategy::Sequence(second) = others.as_ref() else {
        return false;
    };
    let (Some((a, b)), Some((c, d))) = (two_calls(first), two_calls(second)) else {
        return false;
    };
    stands_at(a, b"a", 18)
        && stands_at(b, b"b", 21)
        && stands_at(c, b"c", 26)
        && stands_at(d, b"d", 29)
}

/// Whether a copy of the strategy is this choice too.
fn copy_is_choice(alloc: Global, strategy: &Strategy) -> Result<bool, Fail> {
    let copy = strategy.copy(alloc)?;
    Ok(is_choice_of_sequences(&copy))
}

#[test]
fn sequences_bind_stronger_than_choices(rt: HostRuntime) -> Result<(), Fail> {
    let file = read(rt.alloc(), "strategies main = a; b <+ c; d")?;
    let Some(definition) = first_definition(&file) else {
        return Err("no definition".into());
    };
    if !stands_at(&definition.head.name, b"main", 11)
        || !is_choice_of_sequences(&definition.body)
        || !copy_is_choice(rt.alloc(), &definition.body)?
    {
        return Err("another tree".into());
    }
    Ok(())
}

/// The first definition of a file whose first section has rules.
fn first_rule(file: &File) -> Option<&RuleDefinition> {
    let Some(Section::Rules(definitions)) = file.sections.first() else {
        return None;
    };
    match &definitions.first()?.form {
        DefinitionForm::Rule(definition) => Some(definition),
        DefinitionForm::Strategy(_) => None,
    }
}

/// Whether the patterns are C(x, _) and x, with each where it stands in the file.
fn are_in_place(left: &Pattern, right: &Pattern) -> bool {
    let (Pattern::Application(constructor, parts), Pattern::Variable(built)) = (left, right) else {
        return false;
    };
    let [Pattern::Variable(matched), Pattern::Wildcard(offset)] = parts.as_slice() else {
        return false;
    };
    stands_at(constructor, b"C", 10)
        && stands_at(matched, b"x", 12)
        && *offset == 15
        && stands_at(built, b"x", 21)
        && matched == built
}

#[test]
fn names_know_their_place(rt: HostRuntime) -> Result<(), Fail> {
    let file = read(rt.alloc(), "rules r : C(x, _) -> x")?;
    let Some(definition) = first_rule(&file) else {
        return Err("no rule".into());
    };
    if !stands_at(&definition.head.name, b"r", 6)
        || !are_in_place(&definition.rule.left, &definition.rule.right)
    {
        return Err("another place".into());
    }
    Ok(())
}
