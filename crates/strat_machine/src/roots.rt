//! Roots of terms, with the space's names in place of symbols.
ghost use Rattle.std.specs.Prelude.{◌≡◌, ◌↔◌, true, IsTrue};
ghost use Rattle.core_lang.specs.Roots as roots;
ghost use Rattle.strat_machine.specs.Tables.{RootKnown, root_meant};

use crate::tables::LoadedRoot;
use strat_patterns::is_integer;
use term_model::TermSpace;

/// Whether the term has the root.
pub(crate) fn has_root<S: TermSpace>(space: &S, root: &LoadedRoot<S::Name>, at: &S::Ref) -> bool
    requires known { RootKnown (S.space.knows space.now) root.now }
    requires stands { IsTrue (S.space.stands space.now at.now) }
    ensures { IsTrue result ↔ (roots.has_root (root_meant (S.space.symbol_of space.now) root.now)
        (S.space.term_of space.now at.now) ≡ true) }
{
    match root {
        LoadedRoot::Any => true,
        LoadedRoot::Integer(value) => is_integer(space, at, value),
        LoadedRoot::Symbol(name, count) => space.is_app(at, name, *count),
        LoadedRoot::List(count, open) => is_list_of(space, at, *count, *open),
    }
}

/// Whether the term is a list of `count` elements or, where the root is open, of at least `count`.
fn is_list_of<S: TermSpace>(space: &S, at: &S::Ref, count: usize, is_open: bool) -> bool
    requires { IsTrue (S.space.stands space.now at.now) }
    ensures { IsTrue result ↔ (roots.has_root (roots.list_root count is_open)
        (S.space.term_of space.now at.now) ≡ true) }
{
    let Some(len) = space.list_len(at) else {
        return false;
    };
    if is_open {
        return count <= len;
    }
    count == len
}
