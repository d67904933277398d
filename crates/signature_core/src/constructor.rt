//! Declared constructors, as the set of declarations has them.
ghost use Rattle.std.specs.Prelude.{◌≡◌};
ghost use Rattle.signature_core.specs.Signature.{arity_of};
ghost use Rattle.signature_core.specs.Views.{declaration};

use std::hash::{Hash, Hasher};
use std::marker::Model;
use str_syntax::{Name, Sort};

/// The name, the sorts of the arguments and the sort of what the constructor makes.
#[derive(Drop)]
pub(crate) struct Constructor {
    name: Name,
    arguments: Vec<Sort>,
    to: Sort,
}

impl Model for Constructor {
    ghost use Rattle.signature_core.specs.Signature.{Declared};
    ghost use Rattle.signature_core.specs.Views.{declaration};

    ghost Value = { Declared };

    ghost use Rattle.signature_core.specs.DeclaredCode.{declared_code};

    ghost coded = { declared_code };

    ghost view = { λ c. declaration c.name c.arguments.items c.to };
}

impl Constructor {
    /// The constructor of this name and these sorts.
    pub(crate) fn new(name: Name, arguments: Vec<Sort>, to: Sort) -> Constructor
        ensures { result ≡ declaration name arguments.items to }
    {
        Constructor {
            name,
            arguments,
            to,
        }
    }

    /// The bytes of the name.
    pub(crate) fn name(&self) -> &[u8]
        ensures { result.now ≡ self.now.name }
    {
        self.name.bytes()
    }

    /// How many arguments there are.
    #[tactic(auto, using(crate::proofs::SortLaws::sorts))]
    pub(crate) fn arity(&self) -> usize
        ensures { result ≡ arity_of self.now }
    {
        self.arguments.len()
    }
}

impl PartialEq for Constructor {
    ghost use Rattle.signature_core.specs.Signature.{same_declaration};
    ghost use Rattle.signature_core.specs.SameDeclaration.{same_declaration_partial_equiv};

    ghost eq = { same_declaration };

    #[tactic(auto, using(crate::proofs::SortLaws::sorts))]
    fn eq(&self, other: &Constructor) -> bool {
        self.name == other.name && self.arguments == other.arguments && self.to == other.to
    }

    ghost laws = { same_declaration_partial_equiv };
}

impl Eq for Constructor {
    ghost use Rattle.signature_core.specs.SameDeclaration.{same_declaration_equiv};

    ghost laws = { same_declaration_equiv };
}

impl Hash for Constructor {
    ghost use Rattle.signature_core.specs.SameDeclaration.{declaration_writes, declaration_writes-same};

    ghost hash_input = { declaration_writes };

    ghost respects_eq = { declaration_writes-same };

    #[tactic(auto, using(crate::proofs::SortLaws::sorts))]
    fn hash<H: Hasher>(&self, state: &mut H) {
        self.name.hash(state);
        self.arguments.hash(state);
        self.to.hash(state);
    }
}
