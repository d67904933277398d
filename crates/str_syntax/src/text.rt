//! Names and quoted texts.
ghost use Rattle.std.specs.Prelude.{◌≡◌, ◌↔◌, IsTrue, IfOk};
ghost use Rattle.term_model.specs.Results.{Returns};

use std::alloc::{AllocError, Global};
use std::hash::{Hash, Hasher};
use std::marker::Model;
use term_model::ShortText;

/// Where the bytes of a text are: short ones stand in place.
#[derive(Drop)]
enum Spelling {
    Short(ShortText),
    Long(Box<Vec<u8>>),
}

/// What a quoted text of a definition file stands for.
#[derive(Drop)]
pub struct Text {
    spelling: Spelling,
}

impl Model for Text {
    ghost use Rattle.std.specs.Prelude.{ℕ, List};

    ghost Value = { List ℕ };

    ghost use Rattle.str_syntax.specs.Spelling.{spelled};

    ghost view = { λ text. spelled text.spelling };
}

impl Text {
    /// Makes the text of these bytes. `AllocError` where the memory for them is refused.
    pub fn new(alloc: Global, bytes: &[u8]) -> Result<Text, AllocError>
        ensures { Returns result bytes.now }
    {
        if let Some(bytes) = ShortText::new(bytes) {
            let spelling = Spelling::Short(bytes);
            return Ok(Text { spelling });
        }
        let bytes = Vec::from_slice(alloc, bytes)?;
        let spelling = Spelling::Long(Box::new(alloc, bytes)?);
        Ok(Text { spelling })
    }

    /// Copies the text. `AllocError` where the memory for it is refused.
    pub fn copy(&self, alloc: Global) -> Result<Text, AllocError>
        ensures { Returns result self.now }
    {
        Text::new(alloc, self.bytes())
    }

    /// Returns the bytes of the text.
    pub fn bytes(&self) -> &[u8]
        ensures { result.now ≡ self.now }
    {
        match &self.spelling {
            Spelling::Short(bytes) => bytes.as_slice(),
            Spelling::Long(bytes) => bytes,
        }
    }
}

/// The name of a sort, a constructor, a definition, a parameter or a variable, and the byte of the file at which it stands.
/// Names are equal where their bytes are, wherever they stand.
#[derive(Drop)]
pub struct Name {
    text: Text,
    offset: u64,
}

impl Model for Name {
    ghost use Rattle.std.specs.Prelude.{ℕ, List};

    ghost Value = { List ℕ };

    ghost view = { λ name. name.text };
}

impl Name {
    /// Makes the name of these bytes, which stands at this offset. `AllocError` where the memory for it is refused.
    pub fn new(alloc: Global, bytes: &[u8], offset: u64) -> Result<Name, AllocError>
        ensures { Returns result bytes.now }
    {
        let text = Text::new(alloc, bytes)?;
        Ok(Name { text, offset })
    }

    /// Copies the name and its offset. `AllocError` where the memory for it is refused.
    pub fn copy(&self, alloc: Global) -> Result<Name, AllocError>
        ensures { Returns result self.now }
    {
        Name::new(alloc, self.bytes(), self.offset)
    }

    /// Returns the bytes of the name.
    pub fn bytes(&self) -> &[u8]
        ensures { result.now ≡ self.now }
    {
        self.text.bytes()
    }

    /// Returns the byte of the file at which the name stands. No contract speaks of it: it says where a fault is.
    pub fn offset(&self) -> u64 {
        self.offset
    }
}

impl PartialEq for Name {
    ghost use Rattle.std.specs.Prelude.{nat_eq};
    ghost use Rattle.std.specs.Cmp.Lexicographic.{pointwise};
    ghost use Rattle.str_syntax.specs.SameName.{same_name};
    ghost use Rattle.str_syntax.specs.NameEquality.{same_name_partial_equiv};

    ghost eq = { same_name };

    #[tactic(auto, using(crate::proofs::NameLaws::equal))]
    fn eq(&self, other: &Name) -> bool
        ensures same { result ≡ same_name self.now other.now }
        ensures equal { IsTrue result ↔ (self.now ≡ other.now) }
    {
        self.bytes() == other.bytes()
    }

    ghost laws = { same_name_partial_equiv };
}

impl Eq for Name {
    ghost use Rattle.str_syntax.specs.NameEquality.{same_name_equiv};

    ghost laws = { same_name_equiv };
}

impl Hash for Name {
    ghost use Rattle.std.specs.Hash as fed;
    ghost use Rattle.std.proofs.Common.{ap};
    ghost use Rattle.str_syntax.specs.NameEquality.{same_name-true};

    ghost hash_input = { λ name. fed.slice fed.u8 name };

    ghost respects_eq = { λ x y same. ap (λ name. fed.slice fed.u8 name)
        (same_name-true x y same) };

    fn hash<H: Hasher>(&self, state: &mut H) {
        self.bytes().hash(state);
    }
}

/// Copies the names.
pub(crate) fn names(alloc: Global, source: &[Name]) -> Result<Vec<Name>, AllocError>
    ensures { IfOk result (λ made. made.items ≡ source.now) }
{
    let mut made = Vec::with_capacity(alloc, source.len())?;
    for name in source {
        made.push(name.copy(alloc)?)?;
    }
    Ok(made)
}
