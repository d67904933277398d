//! What small programs do: each function has no body, and its contract has derivations that were built by hand.
ghost use Rattle.std.specs.Prelude.{◌≡◌, [], ◌∷◌, false, Some, pos};
ghost use Rattle.term_model.specs.declared.term.Head.TheVariants as heads;
ghost use Rattle.term_model.specs.Symbol.{Tuple};
ghost use Rattle.term_model.specs.Term.{Tree, node, end, more, fits};
ghost use Rattle.term_model.specs.Flat.{Meaning, number};
ghost use Rattle.core_lang.specs.Program.{variable, id, build, scope, call, no_strategies, more_strategies, no_patterns};
ghost use Rattle.core_lang.specs.Ending.{ok, failed, oversize};
ghost use Rattle.core_lang.specs.Named.{Rewrites};
ghost use Rattle.core_lang.specs.Resolved.{RewritesByCoordinates};
ghost use Rattle.core_lang.specs.Resolution.{ResolvesProgram};
ghost use Rattle.core_lang.specs.InRange.{InRange};
ghost use Rattle.core_lang.specs.Worked as worked;

/// What small programs do, and with how many nodes.
pub fn small_programs()
    ensures first { (M : Meaning) (t : Tree) →
        Rewrites M worked.takes_first worked.main (worked.term_on_two Tuple worked.seven t)
        (ok worked.seven []) 5 }
    ensures other_symbol { (M : Meaning) →
        Rewrites M worked.takes_inner worked.main (worked.term_on_one worked.G worked.seven)
        failed 4 }
    ensures closure { (M : Meaning) →
        Rewrites
        M
        worked.passes_pair
        worked.main
        (worked.term_on_one worked.F worked.two)
        (ok (worked.term_on_two worked.Pair worked.two worked.five) [])
        28 }
    ensures some_parts { (M : Meaning) →
        Rewrites
        M
        worked.changes_ones
        worked.main
        (node
        (heads.App worked.F)
        (more worked.one (more worked.two (more worked.one end)))
        (more (node (heads.App worked.G) end end) end))
        (ok
        (node
        (heads.App worked.F)
        (more worked.nine (more worked.two (more worked.nine end)))
        (more (node (heads.App worked.G) end end) end))
        [])
        10 }
    ensures undone { (M : Meaning) →
        Rewrites M worked.tries_and_builds worked.main (worked.term_on_one worked.Foo worked.one)
        failed 13 }
{}

/// What the other forms of programs do, each in a small one.
pub fn more_programs()
    ensures hands_on { (M : Meaning) (t : Tree) →
        Rewrites M worked.hands_on worked.main t (ok t []) 7 }
    ensures congruence { (M : Meaning) →
        Rewrites
        M
        worked.congruence
        worked.main
        (node (heads.App worked.F) (more worked.one end) worked.marked)
        (ok (node (heads.App worked.F) (more worked.nine end) worked.marked) [])
        11 }
    ensures rest { (M : Meaning) →
        Rewrites
        M
        worked.takes_rest
        worked.main
        (node heads.List (more worked.one (more worked.two (more worked.nine end))) worked.marked)
        (ok (node heads.List (more worked.two (more worked.nine end)) end) [])
        5 }
    ensures in_front { (M : Meaning) →
        Rewrites
        M
        worked.puts_in_front
        worked.main
        (node heads.List (more worked.two end) worked.marked)
        (ok (node heads.List (more worked.one (more worked.two end)) end) [])
        5 }
    ensures same_twice { (M : Meaning) →
        Rewrites M worked.takes_same worked.main (worked.term_on_two Tuple worked.one worked.one)
        (ok worked.one []) 5 }
    ensures not_same { (M : Meaning) →
        Rewrites M worked.takes_same worked.main (worked.term_on_two Tuple worked.one worked.two)
        failed 4 }
    ensures argument { (M : Meaning) →
        Rewrites
        M
        worked.pairs_with
        worked.main
        worked.one
        (ok (worked.term_on_two Tuple worked.one worked.seven) [])
        6 }
    ensures no_argument { (M : Meaning) (t : Tree) →
        Rewrites M worked.lacks_argument worked.main t failed 3 }
    ensures bound_outside { (M : Meaning) →
        Rewrites M worked.binds_outside worked.main worked.seven (ok worked.seven []) 7 }
    ensures one_part { (M : Meaning) →
        Rewrites
        M
        worked.changes_one
        worked.main
        (node (heads.App worked.F) (more worked.one (more worked.two (more worked.two end))) end)
        (ok (node (heads.App worked.F) (more worked.one (more worked.five (more worked.two end)))
        end) [])
        7 }
    ensures primitive { (M : Meaning) (t : Tree) →
        M worked.add (number (pos 3) ∷ number (pos 4) ∷ []) ≡ Some (number (pos 7)) →
        Rewrites M worked.adds worked.main t (ok worked.seven []) 2 }
    ensures too_large { (M : Meaning) (t : Tree) →
        fits (worked.term_on_two Tuple t t) ≡ false →
        Rewrites M worked.doubles worked.main t oversize 6 }
{}

/// A program over coordinates that a program over names is resolved to, which does the same with as many nodes.
pub fn small_program_resolved()
    ensures resolves { ResolvesProgram worked.passes_pair worked.main
        worked.passes_pair_resolved 1 }
    ensures same { (M : Meaning) →
        RewritesByCoordinates
        M
        worked.passes_pair_resolved
        1
        (worked.term_on_one worked.F worked.two)
        (ok (worked.term_on_two worked.Pair worked.two worked.five) [])
        28 }
    ensures in_range { InRange worked.passes_pair_resolved 1 }
{}

/// Programs over coordinates that are not in range, each for a cause of its own.
pub fn small_programs_out_of_range()
    ensures no_main { InRange (worked.alone id) 1 → ⊥ }
    ensures main_with_parameter { InRange worked.fills_parameter 0 → ⊥ }
    ensures no_definition { InRange (worked.alone (worked.call_of (worked.at 1 1))) 0 → ⊥ }
    ensures no_layer { InRange (worked.alone (worked.call_of (worked.at 2 0))) 0 → ⊥ }
    ensures no_parameter { InRange (worked.alone (worked.call_of (worked.at 0 0))) 0 → ⊥ }
    ensures too_many_arguments { InRange
        (worked.alone (call (worked.at 1 0) (more_strategies id no_strategies) no_patterns)) 0 → ⊥ }
    ensures parameter_with_argument { InRange worked.fills_parameter 1 → ⊥ }
    ensures no_variable { InRange (worked.alone (scope 1 (build (variable (worked.at 0 1))))) 0 →
        ⊥ }
    ensures no_layer_of_variables { InRange (worked.alone (build (variable (worked.at 1 0)))) 0 →
        ⊥ }
{}
