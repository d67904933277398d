//! The parameters of a definition, and how many there are; how many arguments a call has.
ghost use Rattle.std.specs.Prelude.{◌≡◌};
ghost use Rattle.str_syntax.specs.Arity.{given_strategies, given_terms, strategy_names, strategy_parameters, term_names, term_parameters};
ghost use Rattle.str_syntax.specs.Views.{arguments_of, parameters_of};

use crate::strategy::{Arguments, Parameters};
use crate::text::Name;

impl Parameters {
    /// Returns the names of the strategies among the parameters.
    pub fn strategy_names(&self) -> &[Name]
        ensures { result.now ≡ strategy_names (parameters_of self.now) }
    {
        match self {
            Parameters::Absent => &[],
            Parameters::Strategies(fs) => fs,
            Parameters::WithTerms(fs, _) => fs,
        }
    }

    /// Returns the names of the terms among the parameters.
    pub fn term_names(&self) -> &[Name]
        ensures { result.now ≡ term_names (parameters_of self.now) }
    {
        match self {
            Parameters::Absent => &[],
            Parameters::Strategies(_) => &[],
            Parameters::WithTerms(_, xs) => xs,
        }
    }

    /// Returns the number of strategies among the parameters.
    pub fn strategies(&self) -> usize
        ensures { result ≡ strategy_parameters (parameters_of self.now) }
    {
        self.strategy_names().len()
    }

    /// Returns the number of terms among the parameters.
    pub fn terms(&self) -> usize
        ensures { result ≡ term_parameters (parameters_of self.now) }
    {
        self.term_names().len()
    }
}

impl Arguments {
    /// Returns the number of strategies among the arguments.
    #[tactic(auto, using(crate::proofs::ArityLaws::counted))]
    pub fn strategies(&self) -> usize
        ensures { result ≡ given_strategies (arguments_of self.now) }
    {
        match self {
            Arguments::Absent => 0,
            Arguments::Strategies(ss) => ss.len(),
            Arguments::WithTerms(ss, _) => ss.len(),
        }
    }

    /// Returns the number of terms among the arguments.
    #[tactic(auto, using(crate::proofs::ArityLaws::counted))]
    pub fn terms(&self) -> usize
        ensures { result ≡ given_terms (arguments_of self.now) }
    {
        match self {
            Arguments::Absent => 0,
            Arguments::Strategies(_) => 0,
            Arguments::WithTerms(_, ps) => ps.len(),
        }
    }
}
