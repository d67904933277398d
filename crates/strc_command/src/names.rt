//! The names of files, for a person.
use std::alloc::{AllocError, Global};

/// Whether the character cannot be seen: a control character, one without width, one that turns the direction, or a byte order mark.
pub(crate) fn is_unseen(character: char) -> bool {
    let number = character as u32;
    character.is_control()
        || (0x200B..0x2010).contains(&number)
        || (0x2028..0x202F).contains(&number)
        || (0x2060..0x2070).contains(&number)
        || number == 0xFEFF
}

/// Returns the name with `?` in place of each character that cannot be seen, so that it neither ends its line nor colours what follows. An error
/// is one of memory.
pub(crate) fn shown_name(alloc: Global, name: &str) -> Result<String, AllocError> {
    name.replace(alloc, is_unseen, "?")
}
