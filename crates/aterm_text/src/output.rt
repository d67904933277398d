//! Appends bytes to those that a vector holds. A growth that is refused leaves what it held.
ghost use Rattle.std.specs.Prelude.{◌≡◌, [], ◌∷◌, ◌++◌, OnOk};
ghost use Rattle.std.specs.Fmt.{signed_decimal};
ghost use Rattle.aterm_text.specs.Output.{Extends};

use itoa::Buffer;
use std::alloc::AllocError;

#[tactic(auto, using(crate::proofs::WriteLemmas::extending))]
pub(crate) fn push_byte(byte: u8, out: &mut Vec<u8>) -> Result<(), AllocError>
    ensures written { OnOk result (out.new.items ≡ out.old.items ++ byte ∷ []) }
    ensures kept { Extends out.old.items out.new.items }
{
    out.push(byte)?;
    Ok(())
}

#[tactic(auto, using(crate::proofs::WriteLemmas::extending))]
pub(crate) fn push_bytes(bytes: &[u8], out: &mut Vec<u8>) -> Result<(), AllocError>
    ensures written { OnOk result (out.new.items ≡ out.old.items ++ bytes.now) }
    ensures kept { Extends out.old.items out.new.items }
{
    out.extend_from_slice(bytes)?;
    Ok(())
}

/// The digits of a number, after a minus where it is negative.
pub(crate) fn push_number(value: i64, out: &mut Vec<u8>) -> Result<(), AllocError>
    ensures written { OnOk result (out.new.items ≡ out.old.items ++ signed_decimal value) }
    ensures kept { Extends out.old.items out.new.items }
{
    let mut buffer = Buffer::new();
    push_bytes(buffer.format(value).as_bytes(), out)?;
    Ok(())
}
