//! Laws of the equations, with nothing to run.
ghost use Rattle.std.specs.Prelude.{◌≡◌, ℕ, Bool, true, List, Some, None};
ghost use Rattle.core_lang.specs.Named.{written};
ghost use Rattle.core_lang.specs.Primitives.{OccursInDefinitions};
ghost use Rattle.core_lang.specs.Resolution.{ResolvesProgram};
ghost use Rattle.core_lang.specs.Resolved.{ResolvedDefinitions};
ghost use Rattle.scope_check.specs.Complaint.{first_fault};
ghost use Rattle.str_syntax.specs.Trees.{FileTree};
ghost use Rattle.str_desugar.specs.FileProgram.{program_of_file};
ghost use Rattle.str_desugar.specs.Frames.{of_definitions, outermost, keys_of, key_position, definitions_at};

/// A file in which no complaint occurs has a program over names whose main is there, and that program is resolved: each variable
/// and each call in it has a coordinate, by the innermost layer that has its name.
#[tactic(auto, using(crate::proofs::FileResolution::checked_program))]
pub fn checked_files_resolve()
    ensures { (has : List ℕ → ℕ → Bool) (f : FileTree) (main : List ℕ) →
        first_fault has f main ≡ None →
        (i : ℕ) × (key_position (keys_of (program_of_file f)) (written main) 0 0 ≡ Some i)
        × ResolvesProgram (program_of_file f) (written main)
        (definitions_at (of_definitions (keys_of (program_of_file f)) outermost)
        (program_of_file f)) i }
{}

/// In a file in which no complaint occurs, where the check was given some primitives, the program uses no others: each primitive that
/// occurs in it, with this name and number of arguments, is one of those.
#[tactic(auto, using(crate::proofs::PrimitivesInFiles::known_primitives))]
pub fn checked_primitives_are_known()
    ensures { (has : List ℕ → ℕ →
        Bool) (f : FileTree) (main : List ℕ) (C : ResolvedDefinitions) (i : ℕ) →
        first_fault has f main ≡ None →
        ResolvesProgram (program_of_file f) (written main) C i → (name : List ℕ) (k : ℕ) →
        OccursInDefinitions name k C → has name k ≡ true }
{}
