//! The texts of rows: files of definitions, and terms with strings of eight million letters.
use std::alloc::{AllocError, Global};

/// The constructors of all rows.
const SIGNATURE: &str =
    "signature constructors A : T -> T F : T -> T F : T * T -> T G : T -> T Foo : T -> T Pair : T * T -> T ";

/// The words in terms that stand for strings of so many letters.
const LONG_STRINGS: &[(&str, usize)] = &[
    ("HALF", 8_388_606),
    ("MORE", 8_388_607),
    ("HEAVY", 8_388_608),
];

/// The text of a file with the definitions of a row, which come after this front.
pub(crate) fn file_of(alloc: Global, front: &str, text: &str) -> Result<Vec<u8>, AllocError> {
    let mut file = SIGNATURE.as_bytes().to_vec(alloc)?;
    file.extend_from_slice(front.as_bytes())?;
    file.extend_from_slice(text.as_bytes())?;
    Ok(file)
}

/// The text of a term, with the strings for which its words stand, which are all the same.
pub(crate) fn text_of_term(alloc: Global, text: &str) -> Result<Vec<u8>, AllocError> {
    for (word, letters) in LONG_STRINGS {
        if text.contains(*word) {
            return with_strings(alloc, text, word, *letters);
        }
    }
    text.as_bytes().to_vec(alloc)
}

/// The text, with a string of so many letters in place of each of these words.
fn with_strings(
    alloc: Global,
    text: &str,
    word: &str,
    letters: usize,
) -> Result<Vec<u8>, AllocError> {
    let letters = vec![in alloc; b'a'; letters]?;
    let mut made = Vec::new(alloc);
    for (index, part) in text.split(word).enumerate() {
        if index > 0 {
            made.push(b'"')?;
            made.extend_from_slice(&letters)?;
            made.push(b'"')?;
        }
        made.extend_from_slice(part.as_bytes())?;
    }
    Ok(made)
}
