//! On which side of a rewriting a pattern stands.
ghost use Rattle.std.specs.Prelude.{◌≡◌};

/// Whether a pattern is matched or built.
#[derive(Clone, Copy, Debug, PartialEq, Eq)]
pub enum Side {
    /// In a match: after `?` or `=>`, or on the left side of a rule.
    Match,
    /// In a build: after `!`, as an argument, or on the right side of a rule.
    Build,
}

impl Side {
    ghost use Rattle.scope_check.specs.Complaint.{is_built};

    /// Whether the pattern is built.
    pub(crate) fn is_built(self) -> bool
        ensures { result ≡ is_built self }
    {
        match self {
            Side::Match => false,
            Side::Build => true,
        }
    }
}
