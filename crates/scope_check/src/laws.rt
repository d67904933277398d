//! Laws of the judgement: each function has no body, and its contract is the law.
ghost use Rattle.std.specs.Prelude.{◌≡◌, ℕ, Bool, Option, None, Some, false};
ghost use Rattle.scope_check.specs.Complaint.{Complaint, first_fault, occurs};
ghost use Rattle.scope_check.specs.Least.{IsLeast};
ghost use Rattle.str_syntax.specs.Trees.{Bytes, FileTree};
ghost use Rattle.term_model.specs.declared.fault.Fault as refusals;

/// Whatever primitives there are, the fault of a file is that of the least number among the complaints that occur in it, and in a file
/// without a fault no complaint occurs.
pub fn the_least_fault_is_reported()
    ensures some { (has : Bytes → ℕ →
        Bool) (file : FileTree) (main : Bytes) (fault : refusals.Fault) →
        first_fault has file main ≡ Some fault → IsLeast (occurs has file main) fault }
    ensures none { (has : Bytes → ℕ → Bool) (file : FileTree) (main : Bytes) →
        first_fault has file main ≡ None → (k : Complaint) → occurs has file main k ≡ false }
{}
