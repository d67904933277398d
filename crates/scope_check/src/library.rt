//! Definitions of the file that have the key of one of the library's.
ghost use Rattle.std.specs.Prelude.{◌≡◌, ◌++◌, ◌∷◌, [], map, IfOk, OnOk};
ghost use Rattle.std.specs.List.{list_any};
ghost use Rattle.scope_check.specs.Complaint.{clash, redefines_library};
ghost use Rattle.scope_check.specs.Found.{found_if, joined, tops_of};
ghost use Rattle.scope_check.specs.Seen.{among, heads_from, is_from, is_own, key_of, tops_in};
ghost use Rattle.scope_check.specs.Tables.{Adds, heads_of};
ghost use Rattle.str_syntax.specs.Views.{file_of, head_of, section_of, top_of};

use crate::detail::Detail;
use crate::findings::Findings;
use crate::groups::keys_of;
use crate::keys::Keys;
use crate::top_heads::head_of;
use keyed_hash::HashKeys;
use std::alloc::{AllocError, Global};
use str_syntax::{Definition, DefinitionHead, File, Origin, Section};

/// Whether something stands in the file that was handed in, and not in the library.
pub(crate) fn is_own(origin: Origin) -> bool
    ensures { result ≡ is_own origin }
{
    match origin {
        Origin::File => true,
        Origin::Library => false,
    }
}

/// Finds the definitions of the file that have the key of one of the library's. `AllocError` where a growth is refused.
pub(crate) fn find_redefinitions(
    alloc: Global,
    hashing: HashKeys,
    file: &File,
    findings: &mut Findings,
) -> Result<(), AllocError>
    ensures { Adds result findings.old
        (found_if clash (redefines_library (file_of file.now))) findings.new }
{
    let library = heads_from(alloc, Origin::Library, &file.sections)?;
    let keys = keys_of(alloc, hashing, &library)?;
    let own = heads_from(alloc, Origin::File, &file.sections)?;
    find_among(&keys, &own, findings);
    Ok(())
}

/// Finds the heads that have one of the keys.
fn find_among<'t>(keys: &Keys<'t>, heads: &[&'t DefinitionHead], findings: &mut Findings)
    ensures { findings.new ≡ joined findings.old
        (found_if clash (list_any (λ h. among keys.now (key_of h)) (heads_of heads.now))) }
{
    for head in heads {
        find_redefinition(keys, head, findings);
    }
}

/// Finds that the head has one of the keys.
#[tactic(auto, using(crate::proofs::FoundLaws::nothing_more))]
fn find_redefinition<'t>(keys: &Keys<'t>, head: &'t DefinitionHead, findings: &mut Findings)
    ensures { findings.new ≡ joined findings.old
        (found_if clash (among keys.now (key_of (head_of head.now)))) }
{
    if keys.has(&head.key()) {
        findings.note(&head.name, Detail::OfLibrary);
    }
}

/// The heads of the rules and definitions in the sections that come from there, in order.
fn heads_from(
    alloc: Global,
    origin: Origin,
    sections: &[Section],
) -> Result<Vec<&DefinitionHead>, AllocError>
    ensures { IfOk result (λ heads. heads_of heads.items ≡
        heads_from origin (tops_in (map section_of sections.now))) }
{
    let mut heads = Vec::new(alloc);
    for section in sections {
        add_section(&mut heads, origin, section)?;
    }
    Ok(heads)
}

/// Adds those of one section.
fn add_section<'t>(
    heads: &mut Vec<&'t DefinitionHead>,
    origin: Origin,
    section: &'t Section,
) -> Result<(), AllocError>
    ensures { OnOk result (heads_of heads.new.items ≡ heads_of heads.old.items ++
        heads_from origin (tops_of (section_of section.now))) }
{
    match section {
        Section::Signature(_) => Ok(()),
        Section::Rules(all) => add_tops(heads, origin, all),
        Section::Strategies(all) => add_tops(heads, origin, all),
    }
}

/// Adds those of rules and definitions.
fn add_tops<'t>(
    heads: &mut Vec<&'t DefinitionHead>,
    origin: Origin,
    all: &'t [Definition],
) -> Result<(), AllocError>
    ensures { OnOk result (heads_of heads.new.items ≡ heads_of heads.old.items ++
        heads_from origin (map top_of all.now)) }
{
    for one in all {
        add_top(heads, origin, one)?;
    }
    Ok(())
}

/// Adds the head of a rule or a definition, if it comes from there.
fn add_top<'t>(
    heads: &mut Vec<&'t DefinitionHead>,
    origin: Origin,
    one: &'t Definition,
) -> Result<(), AllocError>
    ensures { OnOk result (heads_of heads.new.items ≡ heads_of heads.old.items ++
        heads_from origin (top_of one.now ∷ [])) }
{
    if !is_from(one.origin, origin) {
        return Ok(());
    }
    heads.push(head_of(one))?;
    Ok(())
}

/// Whether something comes from there.
fn is_from(one: Origin, origin: Origin) -> bool
    ensures { result ≡ is_from origin one }
{
    match origin {
        Origin::File => is_own(one),
        Origin::Library => !is_own(one),
    }
}
