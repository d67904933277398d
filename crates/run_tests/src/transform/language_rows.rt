//! Rows of the whole language: declared constructors, scopes, calls, rules and traversals, and what the checks of a file refuse.
use crate::transform::rows::TextRow;

pub(crate) const LANGUAGE_ROWS: &[TextRow] = &[
    // match-build
    (
        "signature constructors F : T -> T strategies main = ?F(x); !x",
        "F(7)",
        "7",
        Some(5),
    ),
    // match-build-fails
    (
        "signature constructors F : T -> T strategies main = ?F(x); !x",
        "G(7)",
        "#failed",
        Some(4),
    ),
    // choice-undoes-bindings
    (
        "signature constructors F : T * T -> T strategies main = (?F(x,1) <+ ?F(1,x)); !x",
        "F(1,2)",
        "2",
        Some(7),
    ),
    // nonlinear
    (
        "signature constructors F : T * T -> T strategies main = ?F(x,x)",
        "F(1,1)",
        "F(1,1)",
        Some(3),
    ),
    // nonlinear-annotations
    (
        "signature constructors F : T * T -> T strategies main = ?F(x,x)",
        "F(1{a},1)",
        "#failed",
        Some(3),
    ),
    // integers-beyond-32-bits-differ
    (
        "strategies main = map(?1; !\"a\" <+ ?4294967297; !\"b\" <+ ?-4294967295; !\"c\" <+ !\"d\")",
        "[1,4294967297,-4294967295,8589934593]",
        "[\"a\",\"b\",\"c\",\"d\"]",
        None,
    ),
    // rules-of-integers-beyond-32-bits
    (
        "rules a: 1 -> \"a\" b: 4294967297 -> \"b\" c: 8589934593 -> \"c\" strategies main = map(a <+ b <+ c <+ id)",
        "[8589934593,4294967297,1,12884901889]",
        "[\"c\",\"b\",\"a\",12884901889]",
        None,
    ),
    // terms-beyond-32-bits-differ
    (
        "strategies main = map(?(x,x); !\"same\" <+ !\"other\")",
        "[(1,4294967297),(4294967297,4294967297),(-1,4294967295)]",
        "[\"other\",\"same\",\"other\"]",
        None,
    ),
    // closure-binds-at-its-maker
    (
        "signature constructors F : T -> T Pair : T * T -> T strategies f(s) = {x: ?F(x); !x; s} main = {x: where(!5; ?x); f(!Pair(<id>,x))}",
        "F(2)",
        "Pair(2,5)",
        Some(28),
    ),
    // guard-does-not-catch
    (
        "signature constructors F : T -> T A : T strategies main = ?F(1) < fail + !A()",
        "F(1)",
        "#failed",
        Some(4),
    ),
    // some
    (
        "strategies main = some(\\ 1 -> 9 \\)",
        "F(1,2,1){n}",
        "F(9,2,9){n}",
        Some(10),
    ),
    // one
    (
        "strategies main = one(\\ 1 -> 9 \\)",
        "F(1,2,1){n}",
        "F(9,2,1){n}",
        Some(5),
    ),
    // all-fails
    (
        "strategies main = all(\\ 1 -> 9 \\)",
        "F(1,2,1){n}",
        "#failed",
        Some(7),
    ),
    // all-on-leaf
    ("strategies main = all(fail)", "[]", "[]", Some(2)),
    // all-keeps-annotations
    (
        "strategies main = all(!0)",
        "F(1,2){n}",
        "F(0,0){n}",
        Some(4),
    ),
    // congruence-keeps-annotations
    (
        "signature constructors F : T * T -> T strategies main = F(id, \\ 2 -> 3 \\)",
        "F(1,2){n}",
        "F(1,3){n}",
        Some(19),
    ),
    // twenty-two-doublings
    (
        "signature constructors F : T * T -> T Done : T strategies d = \\ x -> F(x,x) \\ main = d; d; d; d; d; d; d; d; d; d; d; d; d; d; d; d; d; d; d; d; d; d; !Done()",
        "1",
        "Done",
        Some(134),
    ),
    // twenty-three-doublings
    (
        "signature constructors F : T * T -> T Done : T strategies d = \\ x -> F(x,x) \\ main = d; d; d; d; d; d; d; d; d; d; d; d; d; d; d; d; d; d; d; d; d; d; d; !Done()",
        "1",
        "#oversize",
        Some(139),
    ),
    // undeclared
    (
        "signature constructors Plus : T * T -> T strategies main = ?Plus(x)",
        "1",
        "#refused Undeclared",
        None,
    ),
    // undeclared-before-no-main
    (
        "signature constructors Plus : T * T -> T strategies go = ?Plus(x)",
        "1",
        "#refused Undeclared",
        None,
    ),
    // no-main
    ("strategies go = id", "1", "#refused NoMain", None),
    // wildcard-not-buildable
    (
        "signature constructors F : T -> T strategies main = !F(_)",
        "1",
        "#refused NotBuildable",
        None,
    ),
    // unknown-primitive
    (
        "strategies main = prim(\"nope\")",
        "1",
        "#refused UnknownPrimitive",
        None,
    ),
    // parameters
    (
        "strategies f(s|s) = id main = id",
        "1",
        "#refused Parameters",
        None,
    ),
    // duplicate-declaration
    (
        "signature constructors Zero : Exp Zero : Exp strategies main = id",
        "1",
        "#refused DuplicateDeclaration",
        None,
    ),
    // overload-accepted
    (
        "signature constructors Var : Str -> Exp Var : Str -> Ty strategies main = id",
        "1",
        "1",
        None,
    ),
    // alternatives
    (
        "signature constructors A : T -> T B : T -> T rules r : A(x) -> x r : B(x) -> x main = r",
        "B(3)",
        "3",
        Some(10),
    ),
    // let-definition-shares-scope
    (
        "strategies main = let g = ?x in {x: where(!1; g)}; !x end",
        "5",
        "1",
        Some(15),
    ),
    // least-fault
    (
        "signature constructors Plus : T * T -> T strategies main = ?Plus(x); foo; !_",
        "1",
        "#refused Undeclared",
        None,
    ),
    // scoped-apart
    (
        "strategies main = {x: !(y,2)}; ?(1,z)",
        "1",
        "#failed",
        Some(5),
    ),
    // call-with-bar
    (
        "strategies main = ?x <+ s(t|y)",
        "1",
        "#refused UnknownStrategy",
        None,
    ),
];

/// Files just inside or just outside of what the checks refuse.
pub(crate) const CHECK_ROWS: &[TextRow] = &[
    // overloads of other numbers of sorts
    (
        "signature constructors F : T F : T -> T strategies main = !F(F())",
        "1",
        "F(F)",
        Some(2),
    ),
    // a number of sorts that is not declared
    (
        "signature constructors F : T F : T -> T strategies main = !F(1,2)",
        "1",
        "#refused Undeclared",
        None,
    ),
    // declared twice with the same sorts, in two signatures
    (
        "signature constructors F : T * T -> T signature constructors F : T * T -> T strategies main = id",
        "1",
        "#refused DuplicateDeclaration",
        None,
    ),
    // an injection declares nothing
    (
        "signature constructors : T -> T : T -> T strategies main = id",
        "1",
        "1",
        Some(2),
    ),
    // alternatives with the same parameters
    (
        "strategies f(s|x) = fail f(s|x) = s main = f(id|2)",
        "1",
        "1",
        None,
    ),
    // alternatives with parameters of other names
    (
        "strategies f(s|x) = fail f(t|x) = t main = f(id|2)",
        "1",
        "#refused Parameters",
        None,
    ),
    // keys that differ in a number may name their parameters otherwise
    (
        "strategies f(s) = s f(t|y) = t main = f(id)",
        "1",
        "1",
        None,
    ),
    // a scope with a name twice
    (
        "strategies main = {x, y, x: id}",
        "1",
        "#refused Parameters",
        None,
    ),
    // a term parameter may have the name of a constructor
    (
        "signature constructors e : T strategies f(|e) = !e main = f(|2)",
        "1",
        "2",
        None,
    ),
    // a strategy parameter may not
    (
        "signature constructors e : T strategies f(e) = e main = id",
        "1",
        "#refused Clash",
        None,
    ),
    // nor a rec
    (
        "signature constructors e : T strategies main = rec e(id)",
        "1",
        "#refused Clash",
        None,
    ),
    // a definition that comes later is seen
    ("strategies main = go go = id", "1", "1", None),
    // a rec is seen inside it
    ("strategies main = rec x(?1 <+ !1; x)", "2", "1", None),
    // and not after it
    (
        "strategies main = rec x(id); x",
        "1",
        "#refused UnknownStrategy",
        None,
    ),
    // a definition of a let is seen in the let alone
    (
        "strategies main = let g = id in g end; g",
        "1",
        "#refused UnknownStrategy",
        None,
    ),
    // a call with another number of arguments
    (
        "strategies f(s) = s main = f",
        "1",
        "#refused UnknownStrategy",
        None,
    ),
    // a wildcard in a match inside a build
    ("strategies main = !<?(_,x); !x> (1,2)", "1", "2", None),
    // an alias is not built
    ("strategies main = !x@1", "1", "#refused NotBuildable", None),
    // a definition main with parameters is not run
    ("strategies main(s) = s main = main(id)", "1", "1", None),
    // and is not enough
    (
        "strategies main(s) = s main(|x) = !x",
        "1",
        "#refused NoMain",
        None,
    ),
    // a rule main
    ("rules main : (x,_) -> x", "(1,2)", "1", None),
    // checks come before the term
    ("strategies go = id", "F(1", "#refused NoMain", None),
];
