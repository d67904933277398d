//! Files that call strategies of the library, or have its names. No primitive is registered.
use crate::transform::rows::TextRow;

pub(crate) const LIBRARY_ROWS: &[TextRow] = &[
    // a binding persists out of where
    (
        "signature constructors Foo : T -> T strategies main = where(oncetd(?Foo(x))); !x",
        "G(Foo(1),2)",
        "1",
        Some(19),
    ),
    // a failure undoes the bindings of a strategy argument
    (
        "signature constructors Foo : T -> T strategies f(s) = s main = {x: try(f(?Foo(x); fail)); !x}",
        "Foo(1)",
        "#failed",
        Some(13),
    ),
    (
        "signature constructors F : T * T -> T strategies main = {x: ?F(x,_); topdown(try(?x; !0))}",
        "F(1,G(1))",
        "F(0,G(0))",
        Some(46),
    ),
    (
        "signature constructors F : T * T -> T strategies main = repeat(\\ x -> F(x,x) \\)",
        "1",
        "#oversize",
        Some(231),
    ),
    (
        "signature constructors Zero : T Succ : T -> T Plus : T * T -> T rules E : Plus(Zero(),y) -> y E : Plus(Succ(x),y) -> Succ(Plus(x,y)) strategies main = innermost(E)",
        "Plus(Succ(Zero),Succ(Zero))",
        "Succ(Succ(Zero))",
        Some(220),
    ),
    (
        "strategies main = map(\\ x -> (x,x) \\)",
        "[1,2]{k}",
        "[(1,1),(2,2)]{k}",
        Some(49),
    ),
    // a definition of the file with a key of the library
    (
        "strategies try(s) = s main = id",
        "1",
        "#refused Clash",
        None,
    ),
    // the same with another parameter
    (
        "strategies try(t) = t main = id",
        "1",
        "#refused Parameters",
        None,
    ),
    // its name with other numbers of parameters
    (
        "strategies try = fail main = try <+ try(fail)",
        "1",
        "1",
        None,
    ),
    // a constructor with its name
    (
        "signature constructors map : T strategies main = id",
        "1",
        "#refused Clash",
        None,
    ),
    // a constructor with the name of its parameters
    (
        "signature constructors s : T strategies main = try(fail)",
        "1",
        "1",
        None,
    ),
    // a primitive that is not registered
    (
        "strategies main = ?(x,y); prim(\"add\",x,y)",
        "(2,3)",
        "#refused UnknownPrimitive",
        None,
    ),
];
