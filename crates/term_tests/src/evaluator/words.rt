//! Programs as words in postfix order, and what is built of them.
use core_lang::{CallTarget, Coordinate, CoreDef, CorePattern, CoreStrategy, SourcePattern};
use std::alloc::Global;
use std::test::Fail;
use term_model::Sym;

/// A step of building a program: it takes what it is made of from the end of what was built.
#[derive(Clone, Copy)]
pub(crate) enum Word {
    Anything,
    /// The number of layers up, and the slot there.
    Variable(usize, usize),
    Number(i64),
    /// A symbol applied to this number of patterns.
    Tuple(usize),
    Applied(&'static [u8], usize),
    /// A list of this number of elements, and such a list with a pattern of the rest after them.
    List(usize),
    ListAndRest(usize),
    Alias(usize, usize),
    Like(usize, usize),
    /// This number of patterns as annotations of the one before them.
    Annotated(usize),
    Id,
    Match,
    Build,
    /// Two strategies one after another.
    Then,
    Scope(usize),
    AllParts,
    /// The number of layers up and the slot, and how many strategies and patterns are arguments.
    Call(usize, usize, usize, usize),
    /// A definition with these numbers of strategy and term parameters.
    Definition(usize, usize),
    /// This number of definitions, and the strategy that sees them.
    Let(usize),
}

pub(crate) const X: Word = Word::Variable(0, 0);

pub(crate) const Y: Word = Word::Variable(0, 1);

pub(crate) const ONE: Word = Word::Number(1);

pub(crate) const TWO: Word = Word::Number(2);

pub(crate) const PAIR: Word = Word::Tuple(2);

fn last<T>(items: &mut Vec<T>) -> Result<T, Fail> {
    match items.pop() {
        Some(item) => Ok(item),
        None => Err(Fail::new("too few parts")),
    }
}

/// The last items, of this number.
fn last_of<T: Drop>(items: &mut Vec<T>, count: usize) -> Result<Vec<T>, Fail> {
    match items.len().checked_sub(count) {
        Some(at) => Ok(items.split_off(at)?),
        None => Err(Fail::new("too few parts")),
    }
}

fn symbol(alloc: Global, name: &[u8]) -> Result<Sym, Fail> {
    match Sym::plain(alloc, name)? {
        Some(symbol) => Ok(symbol),
        None => Err(Fail::new("not a name")),
    }
}

/// What was built of the words so far.
#[derive(Drop)]
struct Workbench {
    alloc: Global,
    patterns: Vec<CorePattern>,
    strategies: Vec<CoreStrategy>,
    definitions: Vec<CoreDef>,
}

impl Workbench {
    fn add(&mut self, word: Word) -> Result<(), Fail> {
        match word {
            Word::Anything | Word::Variable(_, _) | Word::Number(_) => self.add_leaf(word),
            Word::Tuple(count) => self.apply(Sym::tuple(), count),
            Word::Applied(name, count) => {
                let symbol = symbol(self.alloc, name)?;
                self.apply(symbol, count)
            }
            Word::List(count) => self.list(count),
            Word::ListAndRest(count) => self.list_and_rest(count),
            Word::Alias(layers_up, slot) => self.alias(Coordinate { layers_up, slot }),
            Word::Like(layers_up, slot) => self.like(Coordinate { layers_up, slot }),
            Word::Annotated(count) => self.annotate(count),
            Word::Id | Word::Match | Word::Build => self.add_step(word),
            Word::Then => self.join(),
            Word::Scope(_) | Word::AllParts => self.wrap(word),
            Word::Call(layers_up, slot, strategies, terms) => {
                self.call(Coordinate { layers_up, slot }, strategies, terms)
            }
            Word::Definition(strats, terms) => self.define(strats, terms),
            Word::Let(count) => self.let_in(count),
        }
    }

    fn add_leaf(&mut self, word: Word) -> Result<(), Fail> {
        let leaf = match word {
            Word::Variable(layers_up, slot) => CorePattern::Variable(Coordinate {
                layers_up,
                slot,
            }),
            Word::Number(value) => CorePattern::Integer(value),
            _ => CorePattern::Anything,
        };
        self.patterns.push(leaf)?;
        Ok(())
    }

    fn apply(&mut self, symbol: Sym, count: usize) -> Result<(), Fail> {
        let parts = last_of(&mut self.patterns, count)?;
        self.patterns.push(CorePattern::Applied(symbol, parts))?;
        Ok(())
    }

    fn list(&mut self, count: usize) -> Result<(), Fail> {
        let elements = last_of(&mut self.patterns, count)?;
        self.patterns.push(CorePattern::List(elements, None))?;
        Ok(())
    }

    fn list_and_rest(&mut self, count: usize) -> Result<(), Fail> {
        let rest = Box::new(self.alloc, last(&mut self.patterns)?)?;
        let elements = last_of(&mut self.patterns, count)?;
        self.patterns.push(CorePattern::List(elements, Some(rest)))?;
        Ok(())
    }

    fn alias(&mut self, x: Coordinate) -> Result<(), Fail> {
        let part = Box::new(self.alloc, last(&mut self.patterns)?)?;
        self.patterns.push(CorePattern::Alias(x, part))?;
        Ok(())
    }

    fn like(&mut self, x: Coordinate) -> Result<(), Fail> {
        let part = Box::new(self.alloc, last(&mut self.patterns)?)?;
        self.patterns.push(CorePattern::Like(part, x))?;
        Ok(())
    }

    fn annotate(&mut self, count: usize) -> Result<(), Fail> {
        let annotations = last_of(&mut self.patterns, count)?;
        let part = Box::new(self.alloc, last(&mut self.patterns)?)?;
        self.patterns
            .push(CorePattern::Annotated(part, annotations))?;
        Ok(())
    }

    fn add_step(&mut self, word: Word) -> Result<(), Fail> {
        let step = match word {
            Word::Match => CoreStrategy::Match(self.source_pattern()?),
            Word::Build => CoreStrategy::Build(self.source_pattern()?),
            _ => CoreStrategy::Id,
        };
        self.strategies.push(step)?;
        Ok(())
    }

    fn source_pattern(&mut self) -> Result<SourcePattern, Fail> {
        Ok(SourcePattern::new(last(&mut self.patterns)?, None))
    }

    fn join(&mut self) -> Result<(), Fail> {
        let second = Box::new(self.alloc, last(&mut self.strategies)?)?;
        let first = Box::new(self.alloc, last(&mut self.strategies)?)?;
        let rest = Vec::new(self.alloc);
        self.strategies
            .push(CoreStrategy::Sequence(first, second, rest))?;
        Ok(())
    }

    fn wrap(&mut self, word: Word) -> Result<(), Fail> {
        let body = Box::new(self.alloc, last(&mut self.strategies)?)?;
        let whole = match word {
            Word::Scope(count) => CoreStrategy::Scope(count, body),
            _ => CoreStrategy::All(body),
        };
        self.strategies.push(whole)?;
        Ok(())
    }

    fn call(&mut self, x: Coordinate, strategies: usize, terms: usize) -> Result<(), Fail> {
        let strategies = last_of(&mut self.strategies, strategies)?;
        let terms = last_of(&mut self.patterns, terms)?;
        let target = CallTarget::new(x, None);
        self.strategies
            .push(CoreStrategy::Call(target, strategies, terms))?;
        Ok(())
    }

    fn define(&mut self, strategies: usize, terms: usize) -> Result<(), Fail> {
        let body = last(&mut self.strategies)?;
        self.definitions.push(CoreDef {
            strats: strategies,
            terms,
            body,
        })?;
        Ok(())
    }

    fn let_in(&mut self, count: usize) -> Result<(), Fail> {
        let definitions = last_of(&mut self.definitions, count)?;
        let body = Box::new(self.alloc, last(&mut self.strategies)?)?;
        self.strategies
            .push(CoreStrategy::LetIn(definitions, body))?;
        Ok(())
    }
}

fn workbench_of(alloc: Global, words: &[Word]) -> Result<Workbench, Fail> {
    let mut bench = Workbench {
        alloc,
        patterns: Vec::new(alloc),
        strategies: Vec::new(alloc),
        definitions: Vec::new(alloc),
    };
    for word in words {
        bench.add(*word)?;
    }
    Ok(bench)
}

/// The pattern of these words.
pub(crate) fn pattern(alloc: Global, words: &[Word]) -> Result<Box<CorePattern>, Fail> {
    let mut bench = workbench_of(alloc, words)?;
    Ok(Box::new(alloc, last(&mut bench.patterns)?)?)
}

/// The definitions of a program: main, whose body is the strategy that is left, and those that are left.
pub(crate) fn program(alloc: Global, words: &[Word]) -> Result<Vec<CoreDef>, Fail> {
    let mut bench = workbench_of(alloc, words)?;
    bench.define(0, 0)?;
    let mut definitions = last_of(&mut bench.definitions, 1)?;
    definitions.append(&mut bench.definitions)?;
    Ok(definitions)
}
