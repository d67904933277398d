//! Results that are a string, as the bytes of the string.
ghost use Rattle.std.specs.Prelude.{IfOk};
ghost use Rattle.strc_command.specs.Raw.{IsRaw, IsUnquoted};

use std::alloc::{AllocError, Global};
use str_lexer::quoted::item;

/// Returns the bytes of a line that is a quoted text; `None` for each other line. An error is a refused growth.
fn unquote(alloc: Global, line: &[u8]) -> Result<Option<Vec<u8>>, AllocError>
    ensures { IfOk result (IsUnquoted line.now) }
{
    let Some((b'"', quoted)) = line.split_first() else {
        return Ok(None);
    };
    let mut bytes = Vec::new(alloc);
    let mut rest = quoted;
    while let Some((byte, following)) = item(rest) {
        bytes.push(byte)?;
        rest = following;
    }
    if rest != b"\"\n".as_slice() {
        return Ok(None);
    }
    Ok(Some(bytes))
}

/// Returns what `--raw` writes for a line: the bytes of the text if the line is a quoted text and a line feed, and otherwise the line
/// itself. An error is a refused growth.
pub fn without_quotes(alloc: Global, line: &[u8]) -> Result<Vec<u8>, AllocError>
    ensures { IfOk result (λ bytes. IsRaw line.now bytes.items) }
{
    match unquote(alloc, line)? {
        Some(bytes) => Ok(bytes),
        None => line.to_vec(alloc),
    }
}
