//! Bytes of text: blanks, digits and escapes, as they stand in terms and in definition files.
ghost use Rattle.std.specs.Prelude.{◌≡◌, ◌≤◌, ◌<◌, ◌+◌, ◌*◌, ◌-◌, IsTrue, MatchOption};
ghost use Rattle.term_model.specs.Bytes.{is_blank, is_digit, is_octal, signed as integer_of, unescaped as escaped_byte};
ghost use Rattle.term_model.specs.IntegerBounds.{max_magnitude};

/// Whether the byte is a blank: a space, a TAB, a line feed or a carriage return.
pub fn is_blank_byte(byte: u8) -> bool
    ensures { result ≡ is_blank byte }
{
    matches!(byte, b' ' | b'\t' | b'\n' | b'\r')
}

/// Whether the byte is a digit from 0 to 9.
pub fn is_digit_byte(byte: u8) -> bool
    ensures { result ≡ is_digit byte }
{
    matches!(byte, b'0'..=b'9')
}

/// Whether the byte is an octal digit, from 0 to 7.
pub fn is_octal_byte(byte: u8) -> bool
    ensures { result ≡ is_octal byte }
{
    matches!(byte, b'0'..=b'7')
}

/// The byte that a letter after a backslash stands for; `None` where there is no such escape.
pub fn unescaped(byte: u8) -> Option<u8>
    ensures { result ≡ escaped_byte byte }
{
    match byte {
        b'"' | b'\\' => Some(byte),
        b'n' => Some(b'\n'),
        b't' => Some(b'\t'),
        b'r' => Some(b'\r'),
        _ => None,
    }
}

/// The greatest magnitude of an integer of the language that has this sign.
pub fn greatest_magnitude(negative: bool) -> u64
    ensures { result ≡ max_magnitude negative }
{
    if negative {
        9_223_372_036_854_775_808
    } else {
        9_223_372_036_854_775_807
    }
}

/// The magnitude with one more digit; `None` where no integer of this sign has it.
pub fn with_digit(negative: bool, magnitude: u64, byte: u8) -> Option<u64>
    requires { IsTrue (is_digit byte) }
    ensures { MatchOption result (max_magnitude negative < 10 * magnitude + (byte - 48))
        (λ longer. (longer ≡ 10 * magnitude + (byte - 48)) × (longer ≤ max_magnitude negative)) }
{
    let longer = 10 * u128::from(magnitude) + u128::from(byte - b'0');
    if longer > u128::from(greatest_magnitude(negative)) {
        return None;
    }
    Some(longer as u64)
}

/// The integer of this sign and magnitude.
pub fn signed(negative: bool, magnitude: u64) -> i64
    requires { magnitude ≤ max_magnitude negative }
    ensures { result ≡ integer_of negative magnitude }
{
    if negative {
        -i128::from(magnitude) as i64
    } else {
        magnitude as i64
    }
}
