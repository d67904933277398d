//! Variables that nothing binds, and the calls of definitions.

use crate::groups::Key;
use crate::line::{MOST_OF_NAME, push_cut};
use crate::warnings::Warning;
use signature_core::Signature;
use std::alloc::{AllocError, Global};
use str_syntax::{
    Arguments, DefinitionForm, Name, Parameters, Pattern, Primary, Rule, Sequence, Step, Strategy,
    StrategyDefinition,
};

/// The most variables of scopes, and the most others, that are kept at once. Once a definition has more, it gets no further warnings about
/// unbound variables.
const MOST_VARIABLES: usize = 200;

/// What a pattern does with its variables.
#[derive(Clone, Copy, Debug, PartialEq, Eq)]
enum Use {
    Match,
    Build,
    /// It is an argument of a call.
    Call,
    /// It is an argument of a primitive.
    Primitive,
}

/// A variable that is seen at some place of a definition.
#[derive(Clone, Copy)]
struct Variable<'a> {
    name: &'a Name,
    /// A match has it, or it always has a value.
    is_bound: bool,
    /// The first use that needs its value.
    used: Option<(u64, Use)>,
}

/// A walk through the definitions of a file.
#[derive(Drop)]
pub(crate) struct Walk<'a> {
    alloc: Global,
    /// The constructors that are declared, if they matter.
    signature: Option<&'a Signature>,
    /// The key of the definition.
    own: Option<Key<'a>>,
    /// Its variables that are in no scope within it.
    outer: Vec<Variable<'a>>,
    /// Those of scopes within it, the innermost last.
    inner: Vec<Variable<'a>>,
    /// Whether the definition uses more variables at once than are kept.
    has_more: bool,
    /// The keys that other definitions call.
    calls: Vec<Key<'a>>,
    /// The byte at which the call stands that is looked for.
    sought: Option<u64>,
    /// Whether the name that is called there is that of a variable.
    is_variable: bool,
    warnings: Vec<Warning>,
}

impl<'a> Walk<'a> {
    /// A walk that has seen nothing, through definitions with this signature.
    pub(crate) fn new(alloc: Global, signature: &'a Signature) -> Walk<'a> {
        let mut walk = Walk::for_calls(alloc);
        walk.signature = Some(signature);
        walk
    }

    /// A walk that has seen nothing, for the calls alone: it takes no variable for a constructor.
    pub(crate) fn for_calls(alloc: Global) -> Walk<'a> {
        Walk {
            alloc,
            signature: None,
            own: None,
            outer: Vec::new(alloc),
            inner: Vec::new(alloc),
            has_more: false,
            calls: Vec::new(alloc),
            sought: None,
            is_variable: false,
            warnings: Vec::new(alloc),
        }
    }

    /// A walk that looks for the call whose name begins with this byte.
    pub(crate) fn to_call(alloc: Global, offset: u64) -> Walk<'a> {
        let mut walk = Walk::for_calls(alloc);
        walk.sought = Some(offset);
        walk
    }

    /// Whether the name of the call that is looked for is that of a variable which stands in front of it.
    pub(crate) fn is_variable_called(&self) -> bool {
        self.is_variable
    }

    /// The keys that definitions with other keys call, and the warnings.
    pub(crate) fn into_parts(self) -> (Vec<Key<'a>>, Vec<Warning>) {
        (self.calls, self.warnings)
    }

    /// Looks at a rule or definition at the top of the file.
    pub(crate) fn look_at(&mut self, form: &'a DefinitionForm) -> Result<(), AllocError> {
        self.has_more = false;
        match form {
            DefinitionForm::Rule(rule) => {
                self.own = Some(Key::of_head(&rule.head));
                self.declare_terms(&rule.head.parameters)?;
                self.in_rule(&rule.rule)?;
            }
            DefinitionForm::Strategy(definition) => {
                self.own = Some(Key::of_head(&definition.head));
                self.declare_terms(&definition.head.parameters)?;
                self.in_strategy(&definition.body)?;
            }
        }
        self.leave(0)?;
        for _ in 0..self.outer.len() {
            if let Some(variable) = self.outer.pop() {
                self.judge(variable)?;
            }
        }
        Ok(())
    }

    /// Adds the warning about a variable of a scope that ends, if there is one.
    fn judge(&mut self, variable: Variable<'a>) -> Result<(), AllocError> {
        let name = variable.name.bytes();
        let (false, Some((offset, used))) = (variable.is_bound || self.has_more, variable.used)
        else {
            return Ok(());
        };
        if self.is_constant(name) {
            return Ok(());
        }
        let mut text = Vec::new(self.alloc);
        push_cut(name, MOST_OF_NAME, &mut text)?;
        text.extend_from_slice(if name.contains(&b'-') {
            b" is one name, which nothing binds: this ".as_slice()
        } else {
            b" is never bound: this ".as_slice()
        })?;
        text.extend_from_slice(match used {
            Use::Call => b"call always fails".as_slice(),
            Use::Primitive => b"primitive always fails".as_slice(),
            _ => b"build always fails".as_slice(),
        })?;
        self.warn(offset, text)
    }

    /// Whether a constructor without parts has the name.
    fn is_constant(&self, name: &[u8]) -> bool {
        match self.signature {
            Some(signature) => signature.arity_known(name, 0),
            None => false,
        }
    }

    fn warn(&mut self, offset: u64, text: Vec<u8>) -> Result<(), AllocError> {
        let offset = usize::try_from(offset).unwrap_or(usize::MAX);
        self.warnings.push(Warning {
            offset,
            text,
            other: None,
        })?;
        Ok(())
    }

    /// Makes a variable, and adds a warning if a constructor without parts has its name.
    fn begin_variable(
        &mut self,
        name: &'a Name,
        is_bound: bool,
    ) -> Result<Variable<'a>, AllocError> {
        if self.is_constant(name.bytes()) {
            let mut text = Vec::new(self.alloc);
            push_cut(name.bytes(), MOST_OF_NAME, &mut text)?;
            text.extend_from_slice(b" is a variable here; the constructor is ")?;
            push_cut(name.bytes(), MOST_OF_NAME, &mut text)?;
            text.extend_from_slice(b"()")?;
            self.warn(name.offset(), text)?;
        }
        Ok(Variable {
            name,
            is_bound,
            used: None,
        })
    }

    /// Puts names into scope.
    fn declare(&mut self, names: &'a [Name], are_bound: bool) -> Result<(), AllocError> {
        for name in names {
            self.declare_one(name, are_bound)?;
        }
        Ok(())
    }

    fn declare_one(&mut self, name: &'a Name, is_bound: bool) -> Result<(), AllocError> {
        if self.inner.len() >= MOST_VARIABLES {
            self.has_more = true;
            return Ok(());
        }
        let variable = self.begin_variable(name, is_bound)?;
        self.inner.push(variable)?;
        Ok(())
    }

    /// Puts term parameters into scope.
    fn declare_terms(&mut self, parameters: &'a Parameters) -> Result<(), AllocError> {
        match parameters {
            Parameters::WithTerms(_, terms) => self.declare(terms, true),
            Parameters::Absent | Parameters::Strategies(_) => Ok(()),
        }
    }

    /// Ends the scopes of all variables but this number.
    fn leave(&mut self, count: usize) -> Result<(), AllocError> {
        for _ in count..self.inner.len() {
            if let Some(variable) = self.inner.pop() {
                self.judge(variable)?;
            }
        }
        Ok(())
    }

    /// Notes that a variable is used.
    fn note(&mut self, name: &'a Name, used: Use) -> Result<(), AllocError> {
        if let Some(index) = position_among(&self.inner, name) {
            return note_at(&mut self.inner, index, name, used);
        }
        let index = match position_among(&self.outer, name) {
            Some(index) => index,
            None if self.outer.len() >= MOST_VARIABLES => {
                self.has_more = true;
                return Ok(());
            }
            None => {
                let variable = self.begin_variable(name, false)?;
                self.outer.push(variable)?;
                self.outer.len().saturating_sub(1)
            }
        };
        note_at(&mut self.outer, index, name, used)
    }

    /// Notes that a definition is called.
    fn note_call(&mut self, name: &Name, key: Key<'a>) -> Result<(), AllocError> {
        if self.sought == Some(name.offset()) {
            let is_inner = position_among(&self.inner, name).is_some();
            self.is_variable = is_inner || position_among(&self.outer, name).is_some();
        }
        if self.own != Some(key) {
            self.calls.push(key)?;
        }
        Ok(())
    }

    /// Puts the variables of a pattern into scope, which have values.
    #[cycle(declares)]
    fn declare_pattern(&mut self, source: &'a Pattern) -> Result<(), AllocError> {
        match source {
            Pattern::Variable(name) => self.declare_one(name, true),
            Pattern::Alias(name, part) => {
                self.declare_one(name, true)?;
                self.declare_pattern(part)
            }
            Pattern::Application(_, parts) | Pattern::Tuple(parts) => self.declare_patterns(parts),
            Pattern::Parenthesized(inner) => self.declare_pattern(inner),
            Pattern::List(elements, rest) => {
                self.declare_patterns(elements)?;
                match rest {
                    Some(rest) => self.declare_pattern(rest),
                    None => Ok(()),
                }
            }
            Pattern::Annotated(part, annotations) => {
                self.declare_pattern(part)?;
                self.declare_patterns(annotations)
            }
            _ => Ok(()),
        }
    }

    #[cycle(declares)]
    fn declare_patterns(&mut self, sources: &'a [Pattern]) -> Result<(), AllocError> {
        for source in sources {
            self.declare_pattern(source)?;
        }
        Ok(())
    }

    #[cycle(walk)]
    fn in_pattern(&mut self, source: &'a Pattern, used: Use) -> Result<(), AllocError> {
        match source {
            Pattern::Variable(name) => self.note(name, used),
            Pattern::Wildcard(_) | Pattern::Integer(_) | Pattern::Quoted(_) => Ok(()),
            Pattern::Alias(name, part) => {
                self.note(name, used)?;
                self.in_pattern(part, used)
            }
            Pattern::Application(_, parts) | Pattern::Tuple(parts) => self.in_patterns(parts, used),
            Pattern::Parenthesized(inner) => self.in_pattern(inner, used),
            Pattern::List(elements, rest) => {
                self.in_patterns(elements, used)?;
                match rest {
                    Some(rest) => self.in_pattern(rest, used),
                    None => Ok(()),
                }
            }
            Pattern::Annotated(part, annotations) => {
                self.in_pattern(part, used)?;
                self.in_patterns(annotations, used)
            }
            Pattern::Applied(inner) => self.in_strategy(inner),
            Pattern::AppliedTo(inner, part) => {
                self.in_pattern(part, Use::Build)?;
                self.in_strategy(inner)
            }
        }
    }

    #[cycle(walk)]
    fn in_patterns(&mut self, sources: &'a [Pattern], used: Use) -> Result<(), AllocError> {
        for source in sources {
            self.in_pattern(source, used)?;
        }
        Ok(())
    }

    #[cycle(walk)]
    fn in_strategy(&mut self, source: &'a Strategy) -> Result<(), AllocError> {
        match source {
            Strategy::Sequence(only) => self.in_sequence(only),
            Strategy::LeftChoice(first, others) => {
                self.in_sequence(first)?;
                self.in_strategy(others)
            }
            Strategy::GuardedChoice(first, second, third) => {
                self.in_sequence(first)?;
                self.in_strategy(second)?;
                self.in_strategy(third)
            }
        }
    }

    #[cycle(walk)]
    fn in_strategies(&mut self, sources: &'a [Strategy]) -> Result<(), AllocError> {
        for source in sources {
            self.in_strategy(source)?;
        }
        Ok(())
    }

    #[cycle(walk)]
    fn in_optional(&mut self, source: &'a Option<Box<Strategy>>) -> Result<(), AllocError> {
        match source {
            Some(only) => self.in_strategy(only),
            None => Ok(()),
        }
    }

    #[cycle(walk)]
    fn in_sequence(&mut self, source: &'a Sequence) -> Result<(), AllocError> {
        match source {
            Sequence::Last(only) => self.in_step(only),
            Sequence::Then(first, others) => {
                self.in_step(first)?;
                self.in_sequence(others)
            }
        }
    }

    #[cycle(walk)]
    fn in_step(&mut self, source: &'a Step) -> Result<(), AllocError> {
        match source {
            Step::Plain(_, only) => self.in_primary(only),
            Step::Matching(_, first, _, pattern) => {
                self.in_primary(first)?;
                self.in_pattern(pattern, Use::Match)
            }
        }
    }

    #[cycle(walk)]
    fn in_primary(&mut self, source: &'a Primary) -> Result<(), AllocError> {
        match source {
            Primary::Id | Primary::Fail => Ok(()),
            Primary::Match(pattern) => self.in_pattern(pattern, Use::Match),
            Primary::Build(pattern) => self.in_pattern(pattern, Use::Build),
            Primary::Apply(inner, part) => {
                self.in_pattern(part, Use::Build)?;
                self.in_strategy(inner)
            }
            Primary::Parenthesized(inner)
            | Primary::Operator(_, inner)
            | Primary::Recursive(_, inner) => self.in_strategy(inner),
            Primary::Scope(names, inner) => self.in_scope(names, inner),
            Primary::If(guard, then, otherwise) => {
                self.in_strategy(guard)?;
                self.in_strategy(then)?;
                self.in_optional(otherwise)
            }
            Primary::Let(definitions, inner) => {
                self.in_definitions(definitions)?;
                self.in_strategy(inner)
            }
            Primary::Primitive(_, parts) => self.in_patterns(parts, Use::Primitive),
            Primary::Lambda(rule) => self.in_lambda(rule),
            Primary::Call(name, arguments) => self.in_call(name, arguments),
            Primary::TupleCongruence(parts) => self.in_strategies(parts),
            Primary::ListCongruence(parts, rest) => {
                self.in_strategies(parts)?;
                self.in_optional(rest)
            }
        }
    }

    #[cycle(walk)]
    fn in_call(&mut self, name: &'a Name, arguments: &'a Arguments) -> Result<(), AllocError> {
        self.note_call(name, Key::of_call(name, arguments))?;
        match arguments {
            Arguments::Absent => Ok(()),
            Arguments::Strategies(strategies) => self.in_strategies(strategies),
            Arguments::WithTerms(strategies, terms) => {
                self.in_strategies(strategies)?;
                self.in_patterns(terms, Use::Call)
            }
        }
    }

    #[cycle(walk)]
    fn in_scope(&mut self, names: &'a [Name], inner: &'a Strategy) -> Result<(), AllocError> {
        let count = self.inner.len();
        self.declare(names, false)?;
        self.in_strategy(inner)?;
        self.leave(count)
    }

    /// A rule in backslashes has variables of its own for the names of its left side.
    #[cycle(walk)]
    fn in_lambda(&mut self, rule: &'a Rule) -> Result<(), AllocError> {
        let count = self.inner.len();
        self.declare_pattern(&rule.left)?;
        self.in_rule(rule)?;
        self.leave(count)
    }

    #[cycle(walk)]
    fn in_rule(&mut self, rule: &'a Rule) -> Result<(), AllocError> {
        self.in_pattern(&rule.left, Use::Match)?;
        self.in_optional(&rule.condition)?;
        self.in_pattern(&rule.right, Use::Build)
    }

    #[cycle(walk)]
    fn in_definitions(&mut self, sources: &'a [StrategyDefinition]) -> Result<(), AllocError> {
        for source in sources {
            let count = self.inner.len();
            self.declare_terms(&source.head.parameters)?;
            self.in_strategy(&source.body)?;
            self.leave(count)?;
        }
        Ok(())
    }
}

/// The index of the last variable of this name.
fn position_among(variables: &[Variable<'_>], name: &Name) -> Option<usize> {
    variables
        .iter()
        .rposition(|variable| variable.name.bytes() == name.bytes())
}

/// Notes that the variable at an index is used where its name stands.
fn note_at<'a>(
    variables: &mut Vec<Variable<'a>>,
    index: usize,
    name: &Name,
    used: Use,
) -> Result<(), AllocError> {
    let Some(variable) = variables.get_mut(index) else {
        return Ok(());
    };
    if used == Use::Match {
        variable.is_bound = true;
    } else if variable.used.is_none() {
        variable.used = Some((name.offset(), used));
    }
    Ok(())
}
