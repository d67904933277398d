//! Terms: nodes that are shared, and that know their weight and their depth.
ghost use Rattle.std.specs.Prelude.{vec_len, length, ◌≡◌, ◌↔◌, IsTrue, IfOk, []};
ghost use Rattle.term_model.specs.Term.{term, weight, depth, trees_of, Fits, IsTerm, IsHead, made_of};
ghost use Rattle.term_model.specs.TermParts.{head_of, parts_of, annos_of};
ghost use Rattle.term_model.specs.TermNode.{shared_items};
ghost use Rattle.term_model.specs.Results.{Returns};

use crate::equality;
use crate::made::Made;
use crate::size::{size_of_all, weight_with};
use crate::symbol::Sym;
use std::alloc::{AllocError, Global};
use std::hash::{Hash, Hasher};
use std::marker::Model;
use std::rc::Rc;

/// The greatest weight of a term that fits, in nodes and bytes of symbols.
pub const MAX_WEIGHT: u32 = 16_777_216;

/// The greatest depth of a term that fits, in nodes.
pub const MAX_DEPTH: u32 = 1000;

/// What a term is, but for its parts and its annotations.
#[derive(Debug, Drop)]
pub enum Head {
    /// An integer, which has no parts.
    Int(i64),
    /// A symbol that is applied to the parts.
    App(Sym),
    /// A list, whose elements are the parts.
    List,
}

impl PartialEq for Head {
    ghost use Rattle.term_model.specs.Same.{same_head, same_head_partial_equiv};

    ghost eq = { same_head };

    #[tactic(auto, using(crate::proofs::EqualityLemmas::equal))]
    fn eq(&self, other: &Head) -> bool
        ensures same { result ≡ same_head self.now other.now }
        ensures equal { IsTrue result ↔ (self.now ≡ other.now) }
    {
        match (self, other) {
            (Head::Int(m), Head::Int(n)) => m == n,
            (Head::App(s), Head::App(t)) => s == t,
            (Head::List, Head::List) => true,
            _ => false,
        }
    }

    ghost laws = { same_head_partial_equiv };
}

impl Eq for Head {
    ghost use Rattle.term_model.specs.Same.{same_head_equiv};

    ghost laws = { same_head_equiv };
}

impl Clone for Head {
    ghost is_clone = { λ h copy. copy ≡ h };

    fn clone(&self) -> Result<Head, AllocError> {
        match self {
            Head::Int(value) => Ok(Head::Int(*value)),
            Head::App(symbol) => Ok(Head::App(symbol.clone()?)),
            Head::List => Ok(Head::List),
        }
    }
}

/// Hashes the variant and what it holds.
impl Hash for Head {
    ghost use Rattle.term_model.specs.Hashing.{head_writes, head_writes-same};

    ghost hash_input = { head_writes };

    ghost respects_eq = { head_writes-same };

    fn hash<H: Hasher>(&self, state: &mut H) {
        match self {
            Head::Int(value) => {
                0u8.hash(state);
                value.hash(state);
            }
            Head::App(symbol) => {
                1u8.hash(state);
                symbol.hash(state);
            }
            Head::List => 2u8.hash(state),
        }
    }
}

/// A term that fits, shared among its clones. Two terms are equal where their heads, parts and
/// annotations are, in order; the comparison calls itself no deeper than the terms are deep, and
/// takes no memory. `clone` takes none either: it returns `AllocError` only where 2^64 - 1 owners
/// exist.
#[cycle(term)]
#[derive(Debug, Drop)]
pub struct Term {
    node: Rc<Node>,
}

#[cycle(term)]
#[derive(Debug, Drop)]
struct Node {
    head: Head,
    parts: Vec<Term>,
    annos: Option<Rc<Vec<Term>>>,
    weight: u32,
    depth: u32,
}

impl Model for Term {
    ghost use Rattle.term_model.specs.Term.{Tree, depth};
    ghost use Rattle.term_model.specs.TermCode.{term_code};

    ghost Value = { Tree };

    ghost coded = { term_code };

    ghost use Rattle.term_model.specs.TermNode.{tree_of, IsNode};

    ghost view = { λ t. tree_of t.node.value };

    ghost invariant = { λ t. IsNode t.node.value };

    ghost size = { depth };

    ghost use Rattle.term_model.specs.TermFalls.{depth_falls};

    ghost size_decreases = { λ t h. depth_falls t };
}

/// The term of these three, which are a term's.
#[tactic(auto, using(crate::proofs::TermLemmas::made))]
#[inline(always)]
fn make(
    alloc: Global,
    head: Head,
    parts: Vec<Term>,
    annos: Option<Rc<Vec<Term>>>,
) -> Result<Made<Term>, AllocError>
    requires { IsHead head (trees_of parts.items) }
    ensures { Returns result (made_of (term head parts.items (shared_items annos))) }
{
    let Some(of_parts) = size_of_all(&parts) else {
        return Ok(Made::Oversize);
    };
    let Some(of_annos) = size_of_all(terms_in(&annos)) else {
        return Ok(Made::Oversize);
    };
    let Some(weight) = weight_with(&head, of_parts.weight + of_annos.weight) else {
        return Ok(Made::Oversize);
    };
    let depth = 1 + of_parts.depth.max(of_annos.depth);
    if depth > MAX_DEPTH {
        return Ok(Made::Oversize);
    }
    let node = Node {
        head,
        parts,
        annos,
        weight,
        depth,
    };
    let node = Rc::new(alloc, node)?;
    Ok(Made::Fits(Term { node }))
}

impl Term {
    /// The integer, with no annotations. `AllocError` where there is no memory for a node.
    pub fn int(alloc: Global, value: i64) -> Result<Term, AllocError>
        ensures { Returns result (term (Head.Int value) [] []) }
    {
        let node = Node {
            head: Head::Int(value),
            parts: Vec::new(alloc),
            annos: None,
            weight: 1,
            depth: 1,
        };
        let node = Rc::new(alloc, node)?;
        Ok(Term { node })
    }

    /// The term of this head with these parts and annotations; `Oversize` exactly where it does not
    /// fit. `AllocError` where there is no memory for a node. The parts and the annotations are
    /// dropped where no term is made.
    pub fn new(
        alloc: Global,
        head: Head,
        parts: Vec<Term>,
        annos: Vec<Term>,
    ) -> Result<Made<Term>, AllocError>
        requires { IsHead head (trees_of parts.items) }
        ensures { Returns result (made_of (term head parts.items annos.items)) }
    {
        let annos = share(alloc, annos)?;
        make(alloc, head, parts, annos)
    }

    /// The term of this head with these parts and the annotations of another term, which are
    /// shared; `Oversize` exactly where it does not fit. `AllocError` where there is no memory for a
    /// node. The parts are dropped where no term is made.
    #[tactic(auto, using(crate::proofs::TermLemmas::kept))]
    pub fn new_like(
        alloc: Global,
        head: Head,
        parts: Vec<Term>,
        like: &Term,
    ) -> Result<Made<Term>, AllocError>
        requires { IsHead head (trees_of parts.items) }
        ensures { Returns result (made_of (term head parts.items (annos_of like.now))) }
    {
        let annos = like.node.annos.clone()?;
        make(alloc, head, parts, annos)
    }

    /// The symbol applied to the parts, with no annotations; `Oversize` exactly where that term does
    /// not fit. `AllocError` where there is no memory for a node. The parts are dropped where no
    /// term is made.
    pub fn app(alloc: Global, symbol: Sym, parts: Vec<Term>) -> Result<Made<Term>, AllocError>
        ensures { Returns result (made_of (term (Head.App symbol) parts.items [])) }
    {
        make(alloc, Head::App(symbol), parts, None)
    }

    /// The list of these elements, with no annotations; `Oversize` exactly where that term does not
    /// fit. `AllocError` where there is no memory for a node. The elements are dropped where no term
    /// is made.
    pub fn list(alloc: Global, elements: Vec<Term>) -> Result<Made<Term>, AllocError>
        ensures { Returns result (made_of (term Head.List elements.items [])) }
    {
        make(alloc, Head::List, elements, None)
    }

    /// The same term with exactly these annotations in place of its own; `Oversize` exactly where
    /// that term does not fit. `AllocError` where there is no memory for a node and a list of the
    /// parts, which are themselves shared. The annotations are dropped where no term is made.
    #[tactic(auto, using(crate::proofs::TermLemmas::kept))]
    pub fn with_annos(&self, alloc: Global, annos: Vec<Term>) -> Result<Made<Term>, AllocError>
        ensures { IfOk result (λ made. made ≡
            made_of (term (head_of self.now) (parts_of self.now) annos.items)) }
    {
        let head = self.node.head.clone()?;
        let parts = Vec::from_clones(alloc, &self.node.parts)?;
        Term::new(alloc, head, parts, annos)
    }

    /// The term with exactly these annotations in place of its own; `Oversize` exactly where that term
    /// does not fit. Where this is the only owner of its node, the node is taken apart, and no list of
    /// its parts is made. `AllocError` where there is no memory for a node and, where the node has other
    /// owners, for a list of the parts. The annotations are dropped where no term is made.
    #[tactic(auto, using(crate::proofs::TermLemmas::kept))]
    pub fn annotated(self, alloc: Global, annos: Vec<Term>) -> Result<Made<Term>, AllocError>
        ensures { IfOk result (λ made. made ≡
            made_of (term (head_of self) (parts_of self) annos.items)) }
    {
        let Term { node } = self;
        match Rc::try_unwrap(node) {
            Ok(node) => Term::new(alloc, node.head, node.parts, annos),
            Err(node) => Term { node }.with_annos(alloc, annos),
        }
    }

    /// The same term with these parts in place of its own, of which there are as many; `Oversize`
    /// exactly where that term does not fit. `AllocError` where there is no memory for a node; the
    /// annotations are shared. The parts are dropped where no term is made.
    #[tactic(auto, using(crate::proofs::TermLemmas::rebuilt))]
    pub fn rebuild(&self, alloc: Global, parts: Vec<Term>) -> Result<Made<Term>, AllocError>
        requires { vec_len parts ≡ length (parts_of self.now) }
        ensures { IfOk result (λ made. made ≡
            made_of (term (head_of self.now) parts.items (annos_of self.now))) }
    {
        let head = self.node.head.clone()?;
        Term::new_like(alloc, head, parts, self)
    }

    /// Tells that the term fits, and that it is a term of the language.
    pub fn fits(&self)
        ensures fits { Fits self.now }
        ensures is_term { IsTerm self.now }
    {
        let _node = &self.node;
    }

    /// What the term is, but for its parts and its annotations.
    pub fn head(&self) -> &Head
        ensures { result.now ≡ head_of self.now }
    {
        &self.node.head
    }

    /// 1, and the bytes of its symbol, and the weights of its parts and annotations: at most
    /// 16,777,216.
    pub fn weight(&self) -> u32
        ensures weight { result ≡ weight self.now }
        ensures fits { Fits self.now }
        ensures is_term { IsTerm self.now }
    {
        self.node.weight
    }

    /// 1, and the greatest depth of its parts and annotations, if it has any: at most 1,000.
    pub fn depth(&self) -> u32
        ensures depth { result ≡ depth self.now }
        ensures fits { Fits self.now }
    {
        self.node.depth
    }

    /// The parts, in order: the elements of a list, or what a symbol is applied to.
    #[tactic(auto, using(crate::proofs::TermLemmas::kept))]
    pub fn children(&self) -> &[Term]
        ensures { result.now ≡ parts_of self.now }
    {
        self.node.parts.as_slice()
    }

    /// The annotations, in order.
    #[tactic(auto, using(crate::proofs::TermLemmas::kept))]
    pub fn annos(&self) -> &[Term]
        ensures { result.now ≡ annos_of self.now }
    {
        terms_in(&self.node.annos)
    }
}

impl Clone for Term {
    ghost is_clone = { λ t copy. copy ≡ t };

    fn clone(&self) -> Result<Term, AllocError> {
        let node = self.node.clone()?;
        Ok(Term { node })
    }
}

impl PartialEq for Term {
    ghost use Rattle.term_model.specs.Same.{same, same_partial_equiv};

    ghost eq = { same };

    #[tactic(auto, using(crate::proofs::EqualityLemmas::equal))]
    fn eq(&self, other: &Term) -> bool
        ensures same { result ≡ same self.now other.now }
        ensures equal { IsTrue result ↔ (self.now ≡ other.now) }
    {
        equality::are_same(self, other)
    }

    ghost laws = { same_partial_equiv };
}

/// The terms that are shared, if there are any.
fn terms_in(shared: &Option<Rc<Vec<Term>>>) -> &[Term]
    ensures { result.now ≡ shared_items shared.now }
{
    match shared {
        Some(terms) => terms.as_slice(),
        None => &[],
    }
}

/// The terms for nodes to share; none take no memory.
fn share(alloc: Global, terms: Vec<Term>) -> Result<Option<Rc<Vec<Term>>>, AllocError>
    ensures { IfOk result (λ shared. shared_items shared ≡ terms.items) }
{
    if terms.is_empty() {
        return Ok(None);
    }
    let shared = Rc::new(alloc, terms)?;
    Ok(Some(shared))
}

impl Eq for Term {
    ghost use Rattle.term_model.specs.Same.{same_equiv};

    ghost laws = { same_equiv };
}
