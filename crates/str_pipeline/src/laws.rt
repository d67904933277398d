//! Laws of the definitions, with nothing to run.
ghost use Rattle.std.specs.Prelude.{◌≡◌, ℕ, List};
ghost use Rattle.str_pipeline.specs.declared.status.Status.{Status};
ghost use Rattle.str_pipeline.specs.Joined.{IsSplit};
ghost use Rattle.str_pipeline.specs.Setting.{Setting};
ghost use Rattle.str_pipeline.specs.Written.{IsWritten};
ghost use Rattle.str_pipeline.specs.Alike.{AreAlike};

/// Says that each text of the joined form has a split, and only one.
#[tactic(auto, using(crate::proofs::CutLemmas::one_split, crate::proofs::SplitLaws::some_split))]
pub fn joined_form_law()
    ensures one { (text d t e u : List ℕ) → IsSplit text d t → IsSplit text e u → (d ≡ e) ×
        (t ≡ u) }
    ensures some { (text : List ℕ) → (d : List ℕ) × (t : List ℕ) × IsSplit text d t }
{}

/// Says that definitions and the text of a term have at most one line and one status in a setting, whatever its primitives mean: two
/// statuses that differ are refusals of the same fault, at other places.
#[tactic(auto, using(crate::proofs::OneLine::one_line))]
pub fn one_line_law()
    ensures { (defs term : List ℕ) (S : Setting) (s r : Status) (line other : List ℕ) →
        IsWritten defs term S s line → IsWritten defs term S r other → AreAlike s r ×
        (line ≡ other) }
{}
