//! Laws of code: each function has no body, and its contract is the law.
ghost use Rattle.std.specs.Prelude.{ℕ, List, [], ◌++◌};
ghost use Rattle.core_lang.specs.Resolved.{ResolvedDefinitions};
ghost use Rattle.strat_code.specs.Code.{Instr, Code};
ghost use Rattle.strat_code.specs.CodeOf.{IsCode};
ghost use Rattle.strat_code.specs.StandsFor.{StandsFor};
ghost use Rattle.strat_code.specs.Worked.{merging_code, merging_program, small_code, small_program, walking_code, walking_program};

/// A small program, whose main calls a definition with a strategy argument, has code.
pub fn small_code_stands()
    ensures stands { StandsFor small_code small_program 1 }
    ensures is_code { IsCode small_code [] }
{}

/// A small program, whose main is bottomup(try(rules)), has code with a specialization of bottomup.
pub fn walking_code_stands()
    ensures stands { StandsFor walking_code walking_program 3 }
{}

/// A small program with a let, whose main is some(one(merge)), has code in which merge calls try in place, with an argument that
/// looks at a variable of merge.
pub fn merging_code_stands()
    ensures stands { StandsFor merging_code merging_program 1 }
{}

/// Code that stands for a program does so with further instructions at its end.
pub fn longer_code_stands()
    ensures stands { (code more : Code) (P : ResolvedDefinitions) (i : ℕ) → StandsFor code P i →
        StandsFor (code ++ more) P i }
{}
