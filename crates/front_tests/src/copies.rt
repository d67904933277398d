//! Copies of files with every form have the core programs of their sources.
use crate::front::{core_of, read};
use crate::same::same_definitions;
use std::alloc::Global;
use std::test::Fail;

const FILES: &[&str] = &[
    "signature
      sorts A List(A)
      constructors C : A * List(List(A)) -> A  D : A  : A -> List(A)
    rules
      r : x -> D()
      r(f, g | y) : C(x@_, (1)) -> C(<f> x, y) where <g> y => [a, -2, \"c\"]
    strategies
      main = {x, y: (?x; ?_)} <+ id <+ fail
      s(|) = !(x, \"q\", -1); ![1, <r>]; ![(x) | [<r> 2]]
      t(f | x) = f < all(f) + one(f) <+ some(where(not(f)))",
    "signature constructors C : A * B -> A D : A
    strategies
      main = if id then fail end; if main then main else fail end; <main> D()
      f = \\ x -> C(x, x) where main \\; \\ _ -> D() \\ => C(x, [y | z])
      g(s) = rec k(s; k); let h = s h(t | x) = t in h(s | <h> 1) end
      p = prim(\"p\"); prim(\"p\", 1, <f> x)
      q = D(); C(f, g(f)); (); (f, f); []; [f, f]; [f, f | f]",
    "signature constructors C : A -> A
    rules
      r : x@C(y){z, _{}} -> (<id>){[x]{y, 1}, C(z){}}
    strategies
      main = !<r> 2{<id>}",
];

/// Whether the copy of the file of this text has the core of its source.
fn copy_has_core(alloc: Global, text: &str) -> Result<bool, Fail> {
    let file = read(alloc, text)?;
    let copy = core_of(alloc, file.copy(alloc)?)?;
    let source = core_of(alloc, file)?;
    Ok(same_definitions(copy.defs(), source.defs()))
}

#[test]
fn copies(rt: HostRuntime) -> Result<(), Fail> {
    for text in FILES {
        if !copy_has_core(rt.alloc(), text)? {
            return Err(Fail::new(text));
        }
    }
    Ok(())
}
