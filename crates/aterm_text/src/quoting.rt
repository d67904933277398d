//! Writing quoted text.
ghost use Rattle.std.specs.Prelude.{◌≡◌, ◌<◌, ◌≤◌, [], ◌∷◌, ◌++◌, ◌||◌, ◌==◌, nat_lt, not, length, drop, slice_range, IsTrue, IfOk, OnOk};
ghost use Rattle.std.specs.List.{list_all};
ghost use Rattle.aterm_text.specs.Text.{item_text, items_text, quoted_text, octal_text};
ghost use Rattle.aterm_text.specs.Output.{Extends};

use crate::output::{push_byte, push_bytes};
use std::alloc::AllocError;

#[tactic(auto, using(crate::proofs::WriteLemmas::extending))]
fn push_octal(byte: u8, out: &mut Vec<u8>) -> Result<(), AllocError>
    ensures written { OnOk result (out.new.items ≡ out.old.items ++ 92 ∷ octal_text byte) }
    ensures kept { Extends out.old.items out.new.items }
{
    let digits = [
        b'\\',
        b'0' + byte / 64,
        b'0' + byte / 8 % 8,
        b'0' + byte % 8,
    ];
    push_bytes(&digits, out)?;
    Ok(())
}

fn push_item(byte: u8, out: &mut Vec<u8>) -> Result<(), AllocError>
    ensures written { OnOk result (out.new.items ≡ out.old.items ++ item_text byte) }
    ensures kept { Extends out.old.items out.new.items }
{
    match byte {
        b'"' => push_bytes(b"\\\"", out),
        b'\\' => push_bytes(b"\\\\", out),
        b'\n' => push_bytes(b"\\n", out),
        b'\t' => push_bytes(b"\\t", out),
        b'\r' => push_bytes(b"\\r", out),
        0..=31 | 127 => push_octal(byte, out),
        _ => push_byte(byte, out),
    }
}

fn is_written_raw(byte: u8) -> bool
    ensures { IsTrue result → item_text byte ≡ byte ∷ [] }
{
    byte >= 32 && !matches!(byte, b'"' | b'\\' | 127)
}

/// Where the bytes end that are written as they are.
#[tactic(auto, using(crate::proofs::QuotingLemmas::raw_run))]
fn raw_end(bytes: &[u8], index: usize) -> usize
    requires { index ≤ length bytes.now }
    ensures low { index ≤ result }
    ensures high { result ≤ length bytes.now }
    ensures raw { items_text (drop index bytes.now) ≡ slice_range bytes.now index result ++
        items_text (drop result bytes.now) }
{
    let mut end = index;
    while end < bytes.len() && is_written_raw(bytes[end]) {
        end += 1;
    }
    end
}

/// Writes the bytes from the index on that are written as they are, and the one after them, and
/// returns the index at which to go on.
#[tactic(auto, using(crate::proofs::QuotingLemmas::runs))]
fn push_run(bytes: &[u8], index: usize, out: &mut Vec<u8>) -> Result<usize, AllocError>
    requires { index < length bytes.now }
    ensures written { IfOk result (λ next. out.new.items ++
        items_text (drop next bytes.now) ≡ out.old.items ++ items_text (drop index bytes.now)) }
    ensures further { IfOk result (λ next. (index < next) × (next ≤ length bytes.now)) }
    ensures kept { Extends out.old.items out.new.items }
{
    let end = raw_end(bytes, index);
    push_bytes(&bytes[index..end], out)?;
    if end == bytes.len() {
        return Ok(end);
    }
    push_item(bytes[end], out)?;
    Ok(end + 1)
}

#[tactic(auto, using(crate::proofs::QuotingLemmas::runs))]
fn push_items(bytes: &[u8], out: &mut Vec<u8>) -> Result<(), AllocError>
    ensures written { OnOk result (out.new.items ≡ out.old.items ++ items_text bytes.now) }
    ensures kept { Extends out.old.items out.new.items }
{
    let mut index = 0;
    while index < bytes.len() {
        index = push_run(bytes, index, out)?;
    }
    Ok(())
}

#[tactic(auto, using(crate::proofs::WriteLemmas::extending))]
pub(crate) fn push_quoted(bytes: &[u8], out: &mut Vec<u8>) -> Result<(), AllocError>
    ensures written { OnOk result (out.new.items ≡ out.old.items ++ quoted_text bytes.now) }
    ensures kept { Extends out.old.items out.new.items }
{
    push_byte(b'"', out)?;
    push_items(bytes, out)?;
    push_byte(b'"', out)?;
    Ok(())
}
