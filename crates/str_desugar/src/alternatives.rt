//! Alternatives of definitions: those with one name and as many parameters are joined to one definition.
ghost use Rattle.std.specs.Prelude.{◌≡◌, ◌<◌, List, [], ◌∷◌, ◌++◌, length, map, IfOk, OnOk};
ghost use Rattle.std.specs.List.{position_or_len};
ghost use Rattle.core_lang.specs.Views as views;
ghost use Rattle.str_desugar.specs.Alternatives.{Alternative, definitions_of_all};
ghost use Rattle.str_desugar.specs.Frames.{Frames, definitions_at, keys_of};
ghost use Rattle.str_desugar.specs.GroupViews.{gathered_in};
ghost use Rattle.str_desugar.specs.Groups.{AreGrouped, Head, bodies_at, first_for, first_heads, first_success_of, gathered_for, head_in, joined, plain_arm, same_definition, with_body};
ghost use Rattle.str_desugar.specs.Heads.{read_head, read_heads};
ghost use Rattle.str_desugar.specs.Keys.{named_key};
ghost use Rattle.term_model.specs.Results.{Returns};

use crate::keys::Keys;
use core_lang::{CoreArm, CoreDef, CoreStrategy};
use keyed_hash::HashKeys;
use std::alloc::{AllocError, Global};
use std::marker::Model;
use str_syntax::DefinitionHead;

/// The first head of a definition, and the bodies of its alternatives so far.
#[derive(Drop)]
struct Group<'a> {
    first: &'a DefinitionHead,
    bodies: Vec<CoreStrategy>,
}

/// The heads of alternatives that stand together, in groups, one for each definition. A look-up does not walk them.
#[derive(Drop)]
pub(crate) struct Groups<'t> {
    heads: Vec<&'t DefinitionHead>,
    /// The first head of each definition.
    firsts: Vec<&'t DefinitionHead>,
    /// The keys of these.
    keys: Box<Keys<'t>>,
}

/// All heads, in the order of the text.
impl<'t> Model for Groups<'t> {
    ghost use Rattle.std.specs.Prelude.{List};
    ghost use Rattle.str_desugar.specs.Groups.{AreGrouped, Head};
    ghost use Rattle.str_desugar.specs.Heads.{read_heads};

    ghost Value = { List Head };

    ghost view = { λ groups. read_heads groups.heads.items };

    ghost invariant = { λ groups. AreGrouped (read_heads groups.heads.items)
        (read_heads groups.firsts.items) groups.keys.value };
}

impl<'t> Groups<'t> {
    /// The groups of alternatives with these heads. `AllocError` where a growth is refused.
    pub(crate) fn new(
        alloc: Global,
        hashing: HashKeys,
        heads: Vec<&'t DefinitionHead>,
    ) -> Result<Groups<'t>, AllocError>
        ensures { Returns result (read_heads heads.entry.items) }
    {
        let mut keys = Keys::new(alloc, hashing);
        let firsts = firsts_of(alloc, &heads, &mut keys)?;
        let keys = Box::new(alloc, keys)?;
        Ok(Groups {
            heads,
            firsts,
            keys,
        })
    }

    /// The first head of the definition that has an alternative with this head.
    pub(crate) fn first_of(&self, head: &'t DefinitionHead) -> &'t DefinitionHead
        ensures { read_head result.now ≡ first_for self.now (read_head head.now) }
    {
        match self.firsts.get(self.number_of(head)) {
            Some(first) => *first,
            None => head,
        }
    }

    /// The keys of the definitions, in the order of their first alternatives.
    pub(crate) fn keys(&self) -> &Keys<'t>
        ensures { (all : List Alternative) → map head_in all ≡ self.now →
            map named_key result.now ≡ keys_of (definitions_of_all all) }
    {
        &self.keys
    }

    /// Where the names of the definitions stand in the file, in the order of their first alternatives. `AllocError` where a growth is
    /// refused.
    pub(crate) fn offsets(&self, alloc: Global) -> Result<Vec<u64>, AllocError> {
        let mut offsets = Vec::with_capacity(alloc, self.firsts.len())?;
        for first in &self.firsts {
            offsets.push(first.name.offset())?;
        }
        Ok(offsets)
    }

    /// Returns where the names of all alternatives stand in the file: for each definition, in the order of their first alternatives, those of
    /// its alternatives in the order in which they are tried. `AllocError` where a growth is refused.
    pub(crate) fn all_offsets(&self, alloc: Global) -> Result<Vec<Vec<u64>>, AllocError> {
        let mut offsets: Vec<Vec<u64>> = Vec::with_capacity(alloc, self.firsts.len())?;
        for _ in &self.firsts {
            offsets.push(Vec::new(alloc))?;
        }
        for head in &self.heads {
            let number = self.number_of(*head);
            if let Some(of_definition) = offsets.get_mut(number) {
                of_definition.push(head.name.offset())?;
            }
        }
        Ok(offsets)
    }

    /// The definitions, in the order of their first alternatives: of each the alternatives are tried in the order of the text.
    /// The bodies are those of the alternatives in order, where the parameters of each have the names that the first of its
    /// definition gives them. `AllocError` where a growth is refused.
    pub(crate) fn join(
        &self,
        alloc: Global,
        bodies: Vec<CoreStrategy>,
    ) -> Result<Vec<CoreDef>, AllocError>
        requires { length bodies.items ≡ length self.now }
        ensures { IfOk result (λ made. (F : Frames) (all : List Alternative) →
            map head_in all ≡ self.now → map views.strategy_of bodies.items ≡ bodies_at F all →
            views.definitions_of made.items ≡ definitions_at F (definitions_of_all all)) }
    {
        let groups = self.gather(alloc, bodies)?;
        let made = definitions(alloc, groups)?;
        Ok(made)
    }

    /// The position of the group of an alternative with this head, or how many groups there are.
    fn number_of(&self, head: &DefinitionHead) -> usize
        ensures { result ≡ position_or_len (same_definition (read_head head.now))
            (first_heads self.now) }
    {
        match self.keys.position_of(&head.key()) {
            Some(number) => number,
            None => self.firsts.len(),
        }
    }

    /// The groups with these bodies.
    fn gather(&self, alloc: Global, bodies: Vec<CoreStrategy>) -> Result<Vec<Group<'t>>, AllocError>
        requires { length bodies.items ≡ length self.now }
        ensures { IfOk result (λ made. map gathered_in made.items ≡
            gathered_for (first_heads self.now) self.now (map views.strategy_of bodies.items)) }
    {
        let mut groups = empty_groups(alloc, &self.firsts)?;
        let mut index = 0usize;
        for body in bodies {
            let number = self.number_of(self.heads[index]);
            put_at(&mut groups, number, body)?;
            index += 1;
        }
        Ok(groups)
    }
}

/// The first head of each definition, whose keys are put into the table. `AllocError` where a growth is refused.
fn firsts_of<'t>(
    alloc: Global,
    heads: &[&'t DefinitionHead],
    keys: &mut Keys<'t>,
) -> Result<Vec<&'t DefinitionHead>, AllocError>
    requires { keys.old ≡ [] }
    ensures { IfOk result (λ made.
        AreGrouped (read_heads heads.now) (read_heads made.items) keys.new) }
{
    let mut firsts = Vec::new(alloc);
    for head in heads {
        add_first(&mut firsts, keys, *head)?;
    }
    Ok(firsts)
}

/// Adds the head where its key is new.
fn add_first<'t>(
    firsts: &mut Vec<&'t DefinitionHead>,
    keys: &mut Keys<'t>,
    head: &'t DefinitionHead,
) -> Result<(), AllocError>
    ensures { OnOk result ((heads : List Head) →
        AreGrouped heads (read_heads firsts.old.items) keys.old →
        AreGrouped (heads ++ read_head head.now ∷ []) (read_heads firsts.new.items) keys.new) }
{
    let is_new = keys.insert(head.key())?;
    if !is_new {
        return Ok(());
    }
    firsts.push(head)?;
    Ok(())
}

/// Groups without bodies, of definitions with these first heads. `AllocError` where a growth is refused.
fn empty_groups<'t>(
    alloc: Global,
    firsts: &[&'t DefinitionHead],
) -> Result<Vec<Group<'t>>, AllocError>
    ensures { IfOk result (λ made. map gathered_in made.items ≡
        gathered_for (read_heads firsts.now) [] []) }
{
    let mut groups = Vec::with_capacity(alloc, firsts.len())?;
    for first in firsts {
        groups.push(Group {
            first: *first,
            bodies: Vec::new(alloc),
        })?;
    }
    Ok(groups)
}

/// Puts the body after those of the group at this position.
fn put_at(groups: &mut Vec<Group>, number: usize, body: CoreStrategy) -> Result<(), AllocError>
    requires { number < length groups.old.items }
    ensures { OnOk result (map gathered_in groups.new.items ≡
        with_body number (views.strategy_of body) (map gathered_in groups.old.items)) }
{
    let group = &mut groups[number];
    group.bodies.push(body)?;
    Ok(())
}

impl<'a> Group<'a> {
    /// The definition, whose alternatives are tried in turn.
    fn definition(self, alloc: Global) -> Result<CoreDef, AllocError>
        ensures { IfOk result (λ made. views.def_of made ≡ joined (gathered_in self.entry)) }
    {
        let parameters = &self.first.parameters;
        let body = first_success(alloc, self.bodies)?;
        Ok(CoreDef {
            strats: parameters.strategies(),
            terms: parameters.terms(),
            body,
        })
    }
}

/// The definition of each group.
fn definitions(alloc: Global, groups: Vec<Group>) -> Result<Vec<CoreDef>, AllocError>
    ensures { IfOk result (λ made. map views.def_of made.items ≡
        map joined (map gathered_in groups.entry.items)) }
{
    let mut made = Vec::with_capacity(alloc, groups.len())?;
    for group in groups {
        let definition = group.definition(alloc)?;
        made.push(definition)?;
    }
    Ok(made)
}

/// The strategies, each tried where those before it fail.
fn first_success(
    alloc: Global,
    mut strategies: Vec<CoreStrategy>,
) -> Result<CoreStrategy, AllocError>
    ensures { IfOk result (λ made. views.strategy_of made ≡
        first_success_of (map views.strategy_of strategies.items)) }
{
    let Some(last) = strategies.pop() else {
        return Ok(CoreStrategy::Fail);
    };
    if strategies.is_empty() {
        return Ok(last);
    }
    let first = strategies.remove(0);
    let first = Box::new(alloc, arm(first))?;
    let others = arms(alloc, strategies)?;
    Ok(CoreStrategy::Choice(first, others, Box::new(alloc, last)?))
}

/// What follows where the guard succeeds is nothing more.
fn arm(guard: CoreStrategy) -> CoreArm
    ensures { views.arm_of result ≡ plain_arm (views.strategy_of guard) }
{
    CoreArm {
        guard,
        then: CoreStrategy::Id,
    }
}

/// Such arms of the guards.
fn arms(alloc: Global, guards: Vec<CoreStrategy>) -> Result<Vec<CoreArm>, AllocError>
    ensures { IfOk result (λ made. map views.arm_of made.items ≡
        map plain_arm (map views.strategy_of guards.items)) }
{
    let mut made = Vec::with_capacity(alloc, guards.len())?;
    for guard in guards {
        made.push(arm(guard))?;
    }
    Ok(made)
}
