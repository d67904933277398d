//! Terms made of others.
ghost use Rattle.std.specs.Prelude.{◌≡◌, IfOk, Option, []};
ghost use Rattle.std.specs.Option.{option_map};
ghost use Rattle.core_lang.specs.Building.{applied_to, list_term};
ghost use Rattle.term_model.specs.Same.{same_head};
ghost use Rattle.term_model.specs.Term.{Trees, IsHead, made_of, term, trees_of};
ghost use Rattle.term_model.specs.TermParts.{head_of};
ghost use Rattle.core_lang.specs.Environment.{Bindings};
ghost use Rattle.core_lang.specs.Settled.{ends};
ghost use Rattle.core_eval.specs.Evaluates.{made_ending, verdict_of};
ghost use Rattle.core_eval.specs.Instance.{AreMade, Kept, both_terms, made_like_other, tree_like_other};
ghost use Rattle.term_model.specs.Results.{Returns};

use core_lang::Outcome;
use std::alloc::{AllocError, Global};
use term_model::{Head, Made, Sym, Term};

/// Adds the term, if it fits, and says whether it does.
pub(crate) fn keep(terms: &mut Vec<Term>, made: Made<Term>) -> Result<bool, AllocError>
    ensures { IfOk result (λ fits. Kept made fits terms.old.items terms.new.items) }
{
    match made {
        Made::Fits(t) => {
            terms.push(t)?;
            Ok(true)
        }
        Made::Oversize => Ok(false),
    }
}

/// Makes the term, with the annotations of another one if there is one in place of its own.
pub(crate) fn like_other(
    alloc: Global,
    t: &Term,
    other: Option<&Term>,
) -> Result<Made<Term>, AllocError>
    ensures { Returns result (made_of (tree_like_other t.now other.entry)) }
{
    match other {
        None => {
            t.fits();
            Ok(Made::Fits(t.clone()?))
        }
        Some(o) => {
            let annos = Vec::from_clones(alloc, o.annos())?;
            let made = t.with_annos(alloc, annos)?;
            Ok(made)
        }
    }
}

/// Makes the term of this head with these parts, and with the annotations of another one if there is one.
fn node(
    alloc: Global,
    head: Head,
    parts: Vec<Term>,
    other: Option<&Term>,
) -> Result<Made<Term>, AllocError>
    requires { IsHead head (trees_of parts.items) }
    ensures { IfOk result (λ made. made ≡
        made_of (tree_like_other (term head parts.items []) other.entry)) }
{
    match other {
        None => Term::new(alloc, head, parts, Vec::new(alloc)),
        Some(like) => {
            let made = Term::new_like(alloc, head, parts, like)?;
            Ok(made)
        }
    }
}

/// Makes the integer, with the annotations of another term if there is one.
pub(crate) fn integer(
    alloc: Global,
    number: i64,
    other: Option<&Term>,
) -> Result<Made<Term>, AllocError>
    ensures { IfOk result (λ made. made ≡
        made_of (tree_like_other (term (Head.Int number) [] []) other.entry)) }
{
    node(alloc, Head::Int(number), Vec::new(alloc), other)
}

/// Makes the symbol applied to the terms, with the annotations of another one if there is one.
pub(crate) fn application(
    alloc: Global,
    symbol: &Sym,
    terms: Option<Made<Vec<Term>>>,
    other: Option<&Term>,
) -> Result<Option<Made<Term>>, AllocError>
    ensures { IfOk result (λ made. (ts : Option Trees) → AreMade ts terms →
        made ≡ option_map made_of (made_like_other (applied_to ts symbol.now) other.entry)) }
{
    match terms {
        None => Ok(None),
        Some(Made::Oversize) => Ok(Some(Made::Oversize)),
        Some(Made::Fits(parts)) => {
            let made = node(alloc, Head::App(symbol.clone()?), parts, other)?;
            Ok(Some(made))
        }
    }
}

/// Makes the list of the terms, with the annotations of another one if there is one.
pub(crate) fn list(
    alloc: Global,
    terms: Option<Made<Vec<Term>>>,
    other: Option<&Term>,
) -> Result<Option<Made<Term>>, AllocError>
    ensures { IfOk result (λ made. (ts : Option Trees) → AreMade ts terms →
        made ≡ option_map made_of (made_like_other (list_term ts) other.entry)) }
{
    match terms {
        None => Ok(None),
        Some(Made::Oversize) => Ok(Some(Made::Oversize)),
        Some(Made::Fits(parts)) => {
            let made = node(alloc, Head::List, parts, other)?;
            Ok(Some(made))
        }
    }
}

/// Returns the first terms and the others after them.
pub(crate) fn append(
    first: Option<Made<Vec<Term>>>,
    others: Option<Made<Vec<Term>>>,
) -> Result<Option<Made<Vec<Term>>>, AllocError>
    ensures { IfOk result (λ all. (us vs : Option Trees) → AreMade us first → AreMade vs others →
        AreMade (both_terms us vs) all) }
{
    let Some(first) = first else {
        return Ok(None);
    };
    let Some(others) = others else {
        return Ok(None);
    };
    let Made::Fits(mut terms) = first else {
        return Ok(Some(Made::Oversize));
    };
    let Made::Fits(mut more) = others else {
        return Ok(Some(Made::Oversize));
    };
    terms.append(&mut more)?;
    Ok(Some(Made::Fits(terms)))
}

/// Returns whether the term is a list.
pub(crate) fn is_list(t: &Term) -> bool
    ensures { result ≡ same_head (head_of t.now) Head.List }
{
    match t.head() {
        Head::List => true,
        Head::Int(_) | Head::App(_) => false,
    }
}

/// Returns how a build ends.
pub(crate) fn build_outcome(made: Option<Made<Term>>) -> Outcome<Term>
    ensures { (e : Bindings) → verdict_of result e ≡ ends (made_ending made e) }
{
    match made {
        None => Outcome::Failed,
        Some(Made::Fits(t)) => Outcome::Rewritten(t),
        Some(Made::Oversize) => Outcome::Oversize,
    }
}
