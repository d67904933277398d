//! `lex` on texts whose tokens were cut by hand, and the bytes of quoted texts.
use std::alloc::Global;
use std::test::Fail;
use str_lexer::{Keyword, LeftOut, Mark, Token, TokenKind, lex};
use term_model::Fault;

/// The token's kind and value, and its span.
fn add(shown: &mut String, token: &Token) -> Result<(), Fail> {
    match &token.kind {
        TokenKind::Name => shown.push_str("name")?,
        TokenKind::Wildcard => shown.push_str("wildcard")?,
        TokenKind::Integer(value) => write!(shown, "{value}")?,
        TokenKind::Quoted(text) => write!(shown, "{:?}", text.bytes())?,
        TokenKind::Mark(mark) => write!(shown, "{mark:?}")?,
        TokenKind::Keyword(keyword) => write!(shown, "{keyword:?}")?,
        TokenKind::LeftOut(word) => write!(shown, "{word:?}")?,
    }
    write!(shown, " {}-{}", token.from, token.to)?;
    Ok(())
}

/// What the text is read as: each token, or the refusal.
fn text_of_tokens(alloc: Global, text: &[u8]) -> Result<String, Fail> {
    let mut shown = String::new(alloc);
    match lex(alloc, text) {
        Ok(tokens) => {
            for token in &tokens {
                if !shown.is_empty() {
                    shown.push_str(", ")?;
                }
                add(&mut shown, token)?;
            }
        }
        Err(Fault::Lexical { at }) => write!(shown, "Lexical {at}")?,
        Err(Fault::ReservedWord { at }) => write!(shown, "ReservedWord {at}")?,
        Err(_) => shown.push_str("another fault")?,
    }
    Ok(shown)
}

/// Texts, and their tokens.
const TOKENS: &[(&[u8], &str)] = &[
    (b"", ""),
    (b" \t\r\n", ""),
    (b"x-> y", "name 0-1, Arrow 1-3, name 4-5"),
    (b"x--> y", "name 0-2, Arrow 2-4, name 5-6"),
    (b"x-1", "name 0-3"),
    (b"x' _x _", "name 0-2, name 3-5, wildcard 6-7"),
    (b"a<+b", "name 0-1, LeftChoice 1-3, name 3-4"),
    (b"a<b>", "name 0-1, Less 1-2, name 2-3, Greater 3-4"),
    (b"< +", "Less 0-1, Plus 2-3"),
    (b"=>", "DoubleArrow 0-2"),
    (b"= >", "Equals 0-1, Greater 2-3"),
    (b"==>", "Equals 0-1, DoubleArrow 1-3"),
    (
        b"()[]{}",
        "OpenParenthesis 0-1, CloseParenthesis 1-2, OpenBracket 2-3, CloseBracket 3-4, OpenBrace 4-5, CloseBrace 5-6",
    ),
    (
        b"|,:;?!@*+\\",
        "Bar 0-1, Comma 1-2, Colon 2-3, Semicolon 3-4, Question 4-5, Exclamation 5-6, At 6-7, Star 7-8, Plus 8-9, Backslash 9-10",
    ),
    (b"rec ids", "Rec 0-3, name 4-7"),
    (b"0 -0 007a", "0 0-1, 0 2-4, 7 5-8, name 8-9"),
    (b"9223372036854775807", "9223372036854775807 0-19"),
    (
        b"x -9223372036854775808",
        "name 0-1, -9223372036854775808 2-22",
    ),
    (b"4294967297 -00", "4294967297 0-10, 0 11-14"),
    (b"->-1", "Arrow 0-2, -1 2-4"),
    (
        b"\"a\\n\\t\\r\\\"\\\\\" b",
        "[97, 10, 9, 13, 34, 92] 0-13, name 14-15",
    ),
    (b"\"\\000\\377\\101\xff\"", "[0, 255, 65, 255] 0-15"),
    (b"/* a /* b */ c", "name 13-14"),
    (b"a/***/b", "name 0-1, name 6-7"),
    (b"a //", "name 0-1"),
    (b"a // \"/* \r b\n\rc", "name 0-1, name 14-15"),
];

/// Texts with a place where no token is.
const NO_TOKENS: &[(&[u8], &str)] = &[
    (b"9223372036854775808", "Lexical 0"),
    (b"x -9223372036854775809", "Lexical 2"),
    (b"-", "Lexical 0"),
    (b"18446744073709551617", "Lexical 0"),
    (b"--1", "Lexical 0"),
    (b"- 1", "Lexical 0"),
    (b"x \"\\400\"", "Lexical 2"),
    (b"\"\\08\"", "Lexical 0"),
    (b"x \"a", "Lexical 2"),
    (b"x \"a\\\"", "Lexical 2"),
    (b"x \"a\nb\"", "Lexical 2"),
    (b"x \xc3", "Lexical 2"),
    (b"#", "Lexical 0"),
    (b"a /*/", "Lexical 2"),
    (b"a /* b *", "Lexical 2"),
    (b"a / b", "Lexical 2"),
    (b"a*/", "Lexical 2"),
];

/// Keywords, words of parts that are left out, and names.
const WORDS: &[(&[u8], &str)] = &[
    (
        b"signature sorts constructors rules strategies id fail where not if then else end all one some rec let in prim",
        "Signature 0-9, Sorts 10-15, Constructors 16-28, Rules 29-34, Strategies 35-45, Id 46-48, Fail 49-53, Where 54-59, Not 60-63, If 64-66, Then 67-71, Else 72-76, End 77-80, All 81-84, One 85-88, Some 89-93, Rec 94-97, Let 98-101, In 102-104, Prim 105-109",
    ),
    (b"module m", "ReservedWord 0"),
    (b"# module", "Lexical 0"),
    (b"module #", "Lexical 7"),
    (b"a imports", "ReservedWord 2"),
    (b"id overlays with", "ReservedWord 3"),
    (b"(with)", "ReservedWord 1"),
    (b"switch", "ReservedWord 0"),
    (b"case", "ReservedWord 0"),
    (b"otherwise", "ReservedWord 0"),
    (b"external", "ReservedWord 0"),
    (b"modules Module", "name 0-7, name 8-14"),
    (
        b"\"module\" // module",
        "[109, 111, 100, 117, 108, 101] 0-8",
    ),
];

/// Whether this is what the text is read as.
fn is_read_so(alloc: Global, text: &[u8], expected: &str) -> Result<bool, Fail> {
    let shown = text_of_tokens(alloc, text)?;
    Ok(shown.as_str() == expected)
}

#[test]
fn tokens(rt: HostRuntime) -> Result<(), Fail> {
    for table in [TOKENS, NO_TOKENS, WORDS] {
        for (text, expected) in table {
            if !is_read_so(rt.alloc(), text, expected)? {
                return Err(Fail::new(expected));
            }
        }
    }
    Ok(())
}

#[test]
fn kinds_are_compared() -> Result<(), Fail> {
    let same = Keyword::In == Keyword::In && LeftOut::With == LeftOut::With;
    let other = Keyword::In != Keyword::If && LeftOut::With != LeftOut::Case;
    if !same || !other || Mark::Less != Mark::Less || Mark::Less == Mark::LeftChoice {
        return Err("another kind".into());
    }
    Ok(())
}

/// How many tokens a text of 1,048,576 bytes is that are all this one.
fn count(alloc: Global, byte: u8) -> Result<Option<usize>, Fail> {
    let mut text = Vec::new(alloc);
    for _ in 0..1_048_576 {
        text.push(byte)?;
    }
    match lex(alloc, &text) {
        Ok(tokens) => Ok(Some(tokens.len())),
        Err(_) => Ok(None),
    }
}

/// Bytes, and how many tokens a text of each is.
const LONG: &[(u8, Option<usize>)] = &[
    (b'/', Some(0)),
    (b' ', Some(0)),
    (b'-', None),
    (b'"', Some(524_288)),
    (b'a', Some(1)),
    (b'*', Some(1_048_576)),
    (b'9', None),
];

#[test]
fn long_texts(rt: HostRuntime) -> Result<(), Fail> {
    for (byte, expected) in LONG {
        if count(rt.alloc(), *byte)? != *expected {
            return Err("another number".into());
        }
    }
    Ok(())
}
