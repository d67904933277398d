//! Laws of the machine.
ghost use Rattle.std.specs.Prelude.{◌≡◌, ◌↔◌, ℕ, ◌+◌, ◌++◌, List, length, take};
ghost use Rattle.term_model.specs.Flat.{Meaning};
ghost use Rattle.term_model.specs.Term.{Tree};
ghost use Rattle.core_lang.specs.Environment.{Bindings};
ghost use Rattle.core_lang.specs.Ending.{Ending};
ghost use Rattle.core_lang.specs.Resolved.{ResolvedDefinitions, RewritesByCoordinates};
ghost use Rattle.strat_steps.specs.Trail.{Restores};
ghost use Rattle.strat_steps.specs.Binding.{undone, above, down_to};
ghost use Rattle.strat_code.specs.Code.{Code};
ghost use Rattle.strat_code.specs.StandsFor.{StandsFor};
ghost use Rattle.strat_steps.specs.Run.{start, Says};
ghost use Rattle.strat_steps.specs.State.{Result, State, ended};
ghost use Rattle.strat_steps.specs.Listed.{store};
ghost use Rattle.strat_steps.specs.References.{RefState, state_tree};
ghost use Rattle.strat_steps.specs.ReferenceSteps.{StepRef, StepsRef};
ghost use Rattle.strat_steps.specs.Marks.{Holds, Lasts};
ghost use Rattle.strat_steps.specs.Step.{Steps, next};

/// Undoing the trail down to the height of a record gives the places as they were when the record was put on.
pub fn records_restore()
    ensures places { (e f : Bindings) (new T : List ℕ) → Restores (length e) e new f →
        take (length e) (undone (above (length T) (new ++ T)) f) ≡ e }
    ensures trail { (new T : List ℕ) → down_to (length T) (new ++ T) ≡ T }
{}

/// Code that stands for a program runs as the program does: the result, the nodes that were paid for, and few steps.
pub fn code_runs()
    ensures runs { (code : Code) (M : Meaning) (P : ResolvedDefinitions) (i : ℕ) →
        StandsFor code P i → (t : Tree) (budget : ℕ) →
        (r : Result) × (left : ℕ) × (steps : ℕ) ×
        Steps code M steps (start t budget) (ended r left) × Says M P i t budget r left steps }
{}

/// Code has one meaning: all programs for which it stands rewrite the same terms in the same way, by as many nodes, whatever
/// primitives answer.
pub fn code_means_one_thing()
    ensures same { (code : Code) (M : Meaning) (P Q : ResolvedDefinitions) (i j : ℕ) →
        StandsFor code P i → StandsFor code Q j → (t : Tree) (o : Ending Tree) (n : ℕ) →
        RewritesByCoordinates M P i t o n ↔ RewritesByCoordinates M Q j t o n }
{}

/// A run has one end, and each state on the way leads to it.
pub fn runs_are_unique()
    ensures on_the_way { (code : Code) (M : Meaning) (k j : ℕ) (m m1 : State) (r : Result)
        (left : ℕ) →
        Steps code M j m m1 → Steps code M k m (ended r left) → (rest : ℕ) × (k ≡ j + rest) ×
        Steps code M rest m1 (ended r left) }
{}

/// A step over references is the step over the trees that they are, and keeps what the marks must cover; so is a run. Here
/// for a list of trees as the space.
pub fn references_step()
    ensures step { (code : Code) (M : Meaning) (w w1 : List Tree) (m m1 : RefState ℕ ℕ) →
        StepRef store code M w m w1 m1 → Holds store w m →
        (next code M (state_tree (store.term_of w) m) ≡ state_tree (store.term_of w1) m1) ×
        Holds store w1 m1 }
    ensures run { (code : Code) (M : Meaning) (k : ℕ) (w w1 : List Tree) (m m1 : RefState ℕ ℕ) →
        StepsRef store code M k w m w1 m1 → Holds store w m →
        Steps code M k (state_tree (store.term_of w) m) (state_tree (store.term_of w1) m1) ×
        Holds store w1 m1 }
    ensures lasts { (code : Code) (M : Meaning) (k r : ℕ) (w w1 : List Tree) (m m1 : RefState ℕ ℕ) →
        StepsRef store code M k w m w1 m1 → Lasts store r w m →
        (store.term_of w1 r ≡ store.term_of w r) × Lasts store r w1 m1 }
{}
