//! A whole file: its declarations, its heads together, and its sections.
ghost use Rattle.std.specs.Prelude.{◌≡◌, None, map, not, IfOk, OnOk};
ghost use Rattle.scope_check.specs.Complaint.{complaints, first_fault, first_of, no_main};
ghost use Rattle.scope_check.specs.Found.{found_beside_declarations, found_group, found_if, found_in_tops, has_found, joined, none};
ghost use Rattle.scope_check.specs.Primitives.{holds};
ghost use Rattle.scope_check.specs.Seen.{among, inner, key_of, nothing, plain_key, tops_in};
ghost use Rattle.scope_check.specs.Tables.{Adds, heads_of, known_of};
ghost use Rattle.signature_core.specs.Signature.{declarations_of};
ghost use Rattle.str_syntax.specs.Views.{file_of, section_of};

use crate::alternatives::find_in_group;
use crate::clashes::place_clashes;
use crate::declarations::signature_of;
use crate::detail::Detail;
use crate::findings::Findings;
use crate::groups::{has_plain, keys_of};
use crate::keys::Keys;
use crate::known::Known;
use crate::layers::Layers;
use crate::library::find_redefinitions;
use crate::top_heads::heads_in_sections;
use crate::tops::find_in_sections;
use keyed_hash::HashKeys;
use signature_core::Signature;
use std::alloc::{AllocError, Global};
use str_syntax::{DefinitionHead, File, Section};
use term_model::PrimNames;

/// Finds what is wrong with the file, and makes its signature, without declarations that stand again. `AllocError` where a growth is
/// refused.
pub(crate) fn find_in_file(
    alloc: Global,
    hashing: HashKeys,
    file: &File,
    primitives: &PrimNames,
    main: &[u8],
    findings: &mut Findings,
) -> Result<Signature, AllocError>
    ensures first { OnOk result (findings.old ≡ none → first_of (has_found findings.new) complaints
        ≡ first_fault (holds primitives.now) (file_of file.now) main.now) }
    ensures declared { IfOk result (λ made.
        first_fault (holds primitives.now) (file_of file.now) main.now ≡ None →
        made ≡ declarations_of (file_of file.now)) }
{
    let signature = signature_of(alloc, hashing, file, findings)?;
    let known = Known {
        signature: &signature,
        primitives,
        hashing,
    };
    find_beside_declarations(alloc, &known, file, main, findings)?;
    Ok(signature)
}

/// Finds what is wrong with the file, which is judged by this, but for its declarations.
fn find_beside_declarations(
    alloc: Global,
    known: &Known<'_>,
    file: &File,
    main: &[u8],
    findings: &mut Findings,
) -> Result<(), AllocError>
    ensures { Adds result findings.old
        (found_beside_declarations (known_of known.now) (file_of file.now) main.now)
        findings.new }
{
    let heads = heads_in_sections(alloc, &file.sections)?;
    find_main(&heads, main, findings);
    find_redefinitions(alloc, known.hashing, file, findings)?;
    find_with_heads(alloc, known, &heads, &file.sections, findings)?;
    place_clashes(alloc, &file.sections, &heads, findings)?;
    Ok(())
}

/// Finds that none of the heads has the name of main and no parameters.
#[tactic(auto, using(crate::proofs::FoundLaws::nothing_more))]
fn find_main(heads: &[&DefinitionHead], main: &[u8], findings: &mut Findings)
    ensures { findings.new ≡ joined findings.old
        (found_if no_main (not (among (map key_of (heads_of heads.now)) (plain_key main.now)))) }
{
    if !has_plain(heads, main) {
        findings.note_anywhere(main, Detail::NoMain);
    }
}

/// Finds what is wrong in the sections of a file whose rules and definitions have these heads. `AllocError` where a growth is refused.
pub(crate) fn find_with_heads<'t>(
    alloc: Global,
    known: &Known<'_>,
    heads: &[&'t DefinitionHead],
    all: &'t [Section],
    findings: &mut Findings,
) -> Result<(), AllocError>
    ensures { Adds result findings.old
        (joined (found_group (heads_of heads.now))
        (found_in_tops (known_of known.now)
        (inner (among (map key_of (heads_of heads.now))) nothing)
        (tops_in (map section_of all.now))))
        findings.new }
{
    find_in_group(alloc, known.hashing, heads, findings)?;
    let keys = keys_of(alloc, known.hashing, heads)?;
    find_in_seen_sections(alloc, known, &keys, all, findings)?;
    Ok(())
}

/// Finds what is wrong in sections that see these keys.
fn find_in_seen_sections<'t>(
    alloc: Global,
    known: &Known<'_>,
    keys: &Keys<'t>,
    all: &'t [Section],
    findings: &mut Findings,
) -> Result<(), AllocError>
    ensures { Adds result findings.old
        (found_in_tops (known_of known.now) (inner (among keys.now) nothing)
        (tops_in (map section_of all.now)))
        findings.new }
{
    let outermost = Layers::Outermost;
    let inner = Layers::Inner {
        keys: &*keys,
        outer: &outermost,
    };
    find_in_sections(alloc, known, &inner, all, findings)
}
