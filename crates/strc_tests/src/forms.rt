//! Lines without quotes, also such as no run writes.
use std::test::Fail;
use strc_command::without_quotes;

/// Lines, and what is written of them without quotes.
const RAW: &[(&str, &[u8])] = &[
    ("\"\"\n", b""),
    ("\"one two\"\n", b"one two"),
    ("\"one\\ntwo\\r\\t\"\n", b"one\ntwo\r\t"),
    ("\"\\\"\\\\\"\n", b"\"\\"),
    ("\"\\000\\177\\377\u{e4}\"\n", b"\0\x7f\xff\xc3\xa4"),
    ("\"\\400\"\n", b"\"\\400\"\n"),
    ("\"\\40\"\n", b"\"\\40\"\n"),
    ("\"\\q\"\n", b"\"\\q\"\n"),
    ("\"one\"{1}\n", b"\"one\"{1}\n"),
    ("\"one\"(1)\n", b"\"one\"(1)\n"),
    ("\"one\"", b"\"one\""),
    ("\"one\n", b"\"one\n"),
    ("\"one\"\n\n", b"\"one\"\n\n"),
    ("[\"one\"]\n", b"[\"one\"]\n"),
    ("7\n", b"7\n"),
    ("#failed\n", b"#failed\n"),
    ("\n", b"\n"),
    ("", b""),
];

#[test]
fn lines_without_quotes(rt: HostRuntime) -> Result<(), Fail> {
    for (line, bytes) in RAW {
        if without_quotes(rt.alloc(), line.as_bytes())?.as_slice() != *bytes {
            return Err(Fail::new(line));
        }
    }
    Ok(())
}
