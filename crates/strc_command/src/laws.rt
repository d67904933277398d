//! Laws of the definitions, with nothing to run.
ghost use Rattle.std.specs.Prelude.{◌≡◌, ◌∷◌, [], ℕ, List, None, Some, ◌++◌, Ok, codes, true};
ghost use Rattle.term_model.specs.Term.{Tree, IsTerm, Fits};
ghost use Rattle.aterm_text.specs.Grammar.{IsText};
ghost use Rattle.aterm_text.specs.ReadTerm.{IsReading};
ghost use Rattle.aterm_text.specs.Text.{text};
ghost use Rattle.str_pipeline.specs.Written.{line_of};
ghost use Rattle.strc_command.specs.Asked.{asked_of, plain_asked};
ghost use Rattle.strc_command.specs.Pretty.{IsSpaced};

/// Says that what `--pretty` makes of a line spells each term that the line spells, and that it is read as the same term; so what it makes of
/// the line of a result is read as that result. The example is a line and what `--pretty` may make of it.
pub fn pretty_text_law()
    ensures spells { (t : Tree) (line spaced : List ℕ) → IsText t line → IsSpaced line spaced →
        IsText t spaced }
    ensures reads { (t : Tree) (line spaced : List ℕ) → IsReading line (Ok t) →
        IsSpaced line spaced → IsReading spaced (Ok t) }
    ensures result { (t : Tree) (spaced : List ℕ) → IsTerm t → Fits t →
        IsSpaced (line_of (text t)) spaced → IsReading spaced (Ok t) }
    ensures example { IsSpaced (codes "[1]") (line_of (codes "[") ++ line_of (codes "  1") ++
        codes "]") }
{}

/// Says what some words ask for: nothing more where there is none, each of the options that change what is written, a check, and no run
/// where two of them exclude each other.
pub fn words_law()
    ensures no_words { asked_of [] ≡ Some plain_asked }
    ensures options { asked_of (codes "--strict" ∷ codes "--main" ∷ codes "f" ∷ codes "--rules" ∷
        codes "12" ∷ codes "--with=p.str" ∷ codes "d.str" ∷ codes "t.trm" ∷ [])
        ≡ Some (record plain_asked {
          budget = 12;
          main = codes "f";
          is_strict = true;
          libraries = codes "p.str" ∷ [];
          paths = codes "d.str" ∷ codes "t.trm" ∷ [];
        }) }
    ensures check { asked_of (codes "d.str" ∷ codes "--check" ∷ [])
        ≡ Some (record plain_asked { checks = true; paths = codes "d.str" ∷ [] }) }
    ensures excluded { asked_of (codes "--no-limit" ∷ codes "--rules" ∷ codes "5" ∷ []) ≡ None }
{}
