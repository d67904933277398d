//! Laws of the meaning: each function has no body, and its contract is the law.
ghost use Rattle.std.specs.Prelude.{◌≡◌, ◌↔◌, ℕ, false, Option, Some, List, []};
ghost use Rattle.core_lang.specs.Named.{NamedStrategy, NamedDefinitions, NamedEnvironment, Name, written, by_names, Rewrites};
ghost use Rattle.core_lang.specs.Resolved.{ResolvedStrategy, ResolvedDefinitions, ResolvedEnvironment, by_coordinates, RewritesByCoordinates};
ghost use Rattle.term_model.specs.Term.{Tree};
ghost use Rattle.term_model.specs.Flat.{Meaning};
ghost use Rattle.core_lang.specs.Program.{Pattern, Strategy, Definitions, id};
ghost use Rattle.core_lang.specs.Environment.{Environment, Bindings, Reading, outermost};
ghost use Rattle.core_lang.specs.Matching.{Matches};
ghost use Rattle.core_lang.specs.Tried.{tried};
ghost use Rattle.core_lang.specs.Roots.{Root, has_root, root_of, Begins};
ghost use Rattle.core_lang.specs.Ending.{Ending, ok, failed};
ghost use Rattle.core_lang.specs.Derivation.{Derives};
ghost use Rattle.core_lang.specs.Settled.{Verdict, Settled};
ghost use Rattle.core_lang.specs.Extension.{Extends};
ghost use Rattle.core_lang.specs.declared.coordinate.Coordinate.{Coordinate};
ghost use Rattle.core_lang.specs.Resolution.{Resolves, ResolvesProgram};
ghost use Rattle.core_lang.specs.InRange.{InRange};
ghost use Rattle.core_lang.specs.Primitives.{AnswerSame, OccursInDefinitions};
ghost use Rattle.core_lang.specs.Agreement.{scopes_of, Agree};

/// `id` keeps a term and has one node.
pub fn identity_keeps()
    ensures named { (M : Meaning) (t : Tree) → Derives by_names M outermost id t [] (ok t []) 1 }
    ensures placed { (M : Meaning) (t : Tree) →
        Derives by_coordinates M outermost id t [] (ok t []) 1 }
{}

/// A pattern matches a term under given bindings in at most one way, however variables are looked up.
pub fn patterns_match_one_way<X>()
    ensures each_place { (place : X → Option ℕ) (p : Pattern X) (e e1 e2 : Bindings) (t : Tree) →
        Matches place p e t e1 → Matches place p e t e2 → e1 ≡ e2 }
    ensures named { (place : Name → Option ℕ) (p : Pattern Name) (e e1 e2 : Bindings) (t : Tree) →
        Matches place p e t e1 → Matches place p e t e2 → e1 ≡ e2 }
{}

/// The bindings under which a pattern matches are those that are found from left to right, where each variable is given
/// the term that it stands for or compared with the one that it has.
pub fn matching_goes_left_to_right<X>()
    ensures each_place { (place : X → Option ℕ) (p : Pattern X) (e e1 : Bindings) (t : Tree) →
        Matches place p e t e1 ↔ (tried place p t e ≡ Some e1) }
    ensures named { (place : Name → Option ℕ) (p : Pattern Name) (e e1 : Bindings) (t : Tree) →
        Matches place p e t e1 ↔ (tried place p t e ≡ Some e1) }
{}

/// A strategy ends in at most one way, by derivations of as many nodes: however identifiers are looked up, so by names
/// too, and whatever primitives answer.
pub fn outcomes_are_unique<X, B>()
    ensures each_reading { (R : Reading X B) (M : Meaning) (V : Environment X B) (s : Strategy X B)
        (t : Tree) (e : Bindings) (o o1 : Ending Tree) (n n1 : ℕ) →
        Derives R M V s t e o n → Derives R M V s t e o1 n1 → (o ≡ o1) × (n ≡ n1) }
    ensures named { (M : Meaning) (V : NamedEnvironment) (s : NamedStrategy) (t : Tree)
        (e : Bindings) (o o1 : Ending Tree) (n n1 : ℕ) →
        Derives by_names M V s t e o n → Derives by_names M V s t e o1 n1 → (o ≡ o1) × (n ≡ n1) }
{}

/// Each budget of nodes settles each strategy: it ends within the budget, or no derivation has so few nodes.
pub fn budgets_settle<X, B>()
    ensures each_reading { (R : Reading X B) (M : Meaning) (V : Environment X B) (s : Strategy X B)
        (t : Tree) (e : Bindings) (budget : ℕ) →
        (v : Verdict Tree) × (left : ℕ) × Settled R M V s t e budget v left }
    ensures named { (M : Meaning) (V : NamedEnvironment) (s : NamedStrategy) (t : Tree)
        (e : Bindings) (budget : ℕ) →
        (v : Verdict Tree) × (left : ℕ) × Settled by_names M V s t e budget v left }
{}

/// A pattern that asks for another root than a term has, be it another head or another number of parts, does not match
/// it. A strategy that begins with such a pattern fails, by a number of nodes that depends on the strategy alone.
pub fn other_roots_fail<X, B>()
    ensures each_place { (place : X → Option ℕ) (p : Pattern X) (e e1 : Bindings) (t : Tree) →
        has_root (root_of p) t ≡ false → Matches place p e t e1 → ⊥ }
    ensures each_reading { (R : Reading X B) (M : Meaning) (V : Environment X B) (s : Strategy X B)
        (r : Root) (n : ℕ) (t : Tree) (e : Bindings) →
        Begins s r n → has_root r t ≡ false → Derives R M V s t e failed n }
    ensures named { (M : Meaning) (V : NamedEnvironment) (s : NamedStrategy) (r : Root) (n : ℕ)
        (t : Tree) (e : Bindings) →
        Begins s r n → has_root r t ≡ false → Derives by_names M V s t e failed n }
{}

/// A derivation that is ok has the places that it began with, and each term that these held.
pub fn derivations_keep_bindings<X, B>()
    ensures each_reading { (R : Reading X B) (M : Meaning) (V : Environment X B) (s : Strategy X B)
        (t t1 : Tree) (e e1 : Bindings) (n : ℕ) →
        Derives R M V s t e (ok t1 e1) n → Extends e e1 }
    ensures named { (M : Meaning) (V : NamedEnvironment) (s : NamedStrategy) (t t1 : Tree)
        (e e1 : Bindings) (n : ℕ) →
        Derives by_names M V s t e (ok t1 e1) n → Extends e e1 }
{}

/// A program over coordinates does what the program over names does that it is resolved from, with as many nodes: both
/// rewrite the same terms in the same way, whatever primitives answer. So does each strategy in environments that agree.
pub fn coordinates_stand_for_names()
    ensures programs { (P : NamedDefinitions) (main : Name) (C : ResolvedDefinitions) (i : ℕ) →
        ResolvesProgram P main C i →
        (M : Meaning) (t : Tree) (o : Ending Tree) (n : ℕ) →
        Rewrites M P main t o n ↔ RewritesByCoordinates M C i t o n }
    ensures strategies { (M : Meaning) (V : NamedEnvironment) (W : ResolvedEnvironment)
        (s : NamedStrategy) (z : ResolvedStrategy) →
        Resolves (scopes_of V) s z → Agree V W →
        (t : Tree) (e : Bindings) (o : Ending Tree) (n : ℕ) →
        Derives by_names M V s t e o n ↔ Derives by_coordinates M W z t e o n }
{}

/// A program over coordinates is in range exactly where it is resolved from a program over names. Then there is one whatever
/// name its main is to have.
pub fn programs_in_range_have_names()
    ensures resolved { (C : ResolvedDefinitions) (i : ℕ) (main : List ℕ) →
        InRange C i → (P : NamedDefinitions) × ResolvesProgram P (written main) C i }
    ensures in_range { (P : NamedDefinitions) (main : Name) (C : ResolvedDefinitions) (i : ℕ) →
        ResolvesProgram P main C i → InRange C i }
{}

/// A program over coordinates has the primitives of the program over names that it is resolved from, with as many arguments.
pub fn coordinates_keep_primitives()
    ensures same { (P : NamedDefinitions) (main : Name) (C : ResolvedDefinitions) (i : ℕ) →
        ResolvesProgram P main C i →
        (f : List ℕ) (k : ℕ) → OccursInDefinitions f k P ↔ OccursInDefinitions f k C }
{}

/// Only the primitives that occur in a program matter to it: where two meanings return the same at each of these, to as many
/// arguments, the program rewrites the same terms in the same way, with as many nodes.
pub fn primitives_that_occur_decide()
    ensures named { (M N : Meaning) (P : NamedDefinitions) (main : Name) →
        ((f : List ℕ) (k : ℕ) → OccursInDefinitions f k P → AnswerSame M N f k) →
        (t : Tree) (o : Ending Tree) (n : ℕ) → Rewrites M P main t o n ↔ Rewrites N P main t o n }
    ensures placed { (M N : Meaning) (C : ResolvedDefinitions) (i : ℕ) →
        ((f : List ℕ) (k : ℕ) → OccursInDefinitions f k C → AnswerSame M N f k) →
        (t : Tree) (o : Ending Tree) (n : ℕ) →
        RewritesByCoordinates M C i t o n ↔ RewritesByCoordinates N C i t o n }
{}
