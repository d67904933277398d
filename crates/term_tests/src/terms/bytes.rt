//! Classes of bytes, escapes, and the digits of integers.
use std::test::Fail;
use term_model::bytes;

/// Bytes, and whether each is a blank, a digit, an octal digit.
const CLASSES: &[(u8, bool, bool, bool)] = &[
    (b'\t', true, false, false),
    (b'7', false, true, true),
    (b'8', false, true, false),
];

#[test]
fn classes() -> Result<(), Fail> {
    for (byte, is_blank, is_digit, is_octal) in CLASSES {
        if bytes::is_blank_byte(*byte) != *is_blank
            || bytes::is_digit_byte(*byte) != *is_digit
            || bytes::is_octal_byte(*byte) != *is_octal
        {
            return Err(Fail::new(byte));
        }
    }
    Ok(())
}

#[test]
fn escapes() -> Result<(), Fail> {
    if bytes::unescaped(b'n') != Some(b'\n') || bytes::unescaped(b'0').is_some() {
        return Err(Fail::new("an escape"));
    }
    Ok(())
}

/// Whether an integer is negative, its first digits, one more digit, and all of them where they are in range.
const DIGITS: &[(bool, u64, u8, Option<u64>)] = &[
    (
        true,
        922_337_203_685_477_580,
        b'8',
        Some(9_223_372_036_854_775_808),
    ),
    (true, 922_337_203_685_477_580, b'9', None),
    (
        false,
        922_337_203_685_477_580,
        b'7',
        Some(9_223_372_036_854_775_807),
    ),
    (false, 922_337_203_685_477_580, b'8', None),
    (false, 214_748_364, b'8', Some(2_147_483_648)),
    (false, 9_223_372_036_854_775_807, b'0', None),
    (true, 9_223_372_036_854_775_808, b'9', None),
];

#[test]
fn integers_at_the_bounds() -> Result<(), Fail> {
    for (is_negative, first, digit, expected) in DIGITS {
        if !bytes::is_digit_byte(*digit)
            || bytes::with_digit(*is_negative, *first, *digit) != *expected
        {
            return Err(Fail::new(digit));
        }
    }
    if bytes::signed(true, 9_223_372_036_854_775_808) != -9_223_372_036_854_775_808 {
        return Err(Fail::new("the least integer"));
    }
    if bytes::greatest_magnitude(true) != 9_223_372_036_854_775_808
        || bytes::greatest_magnitude(false) != 9_223_372_036_854_775_807
    {
        return Err(Fail::new("the greatest magnitudes"));
    }
    Ok(())
}
