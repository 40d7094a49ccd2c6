use super::*;
use std::test::Fail;

/// A text, how many tokens it has, and the last of them: its kind, its span, its line and its column.
const TEXTS: [(&str, usize, TokenKind, u32, u32, u32, u32); 5] = [
    ("é _1", 2, TokenKind::Local(1), 3, 5, 1, 3),
    ("// fn\n\tcrate::", 2, TokenKind::Punct, 12, 14, 2, 7),
    ("bb65535//", 1, TokenKind::Label(65_535), 0, 7, 1, 1),
    ("größe=>1", 3, TokenKind::Number(1), 9, 10, 1, 8),
    ("box é_٣", 2, TokenKind::Name, 4, 9, 1, 5),
];

/// Bytes, and the line, the column and the rule of their first fault.
const FAULTS: [(&[u8], u32, u32, TextRule); 6] = [
    (b"(\n\xc3\xa9\xff00", 2, 2, TextRule::Utf8),
    (b"00\xff", 1, 1, TextRule::Number),
    (b"\xc3\xa9 \x0c", 1, 3, TextRule::Char),
    (b"18446744073709551616", 1, 1, TextRule::Number),
    (b"a _", 1, 3, TextRule::Name),
    (b"\n\nbb65536", 3, 1, TextRule::Name),
];

/// That there is memory for it is what no clause says.
#[test]
fn texts_are_lexed(rt: HostRuntime) -> Result<(), Fail> {
    for (text, count, kind, start, stop, line, column) in TEXTS {
        let bytes = text.as_bytes();
        if bytes.len() > 4_194_304 {
            continue;
        }
        let last = Token {
            kind,
            start,
            stop,
            line,
            column,
        };
        let tokens = lex(rt.alloc(), bytes)?;
        assert_eq!(rt; tokens.len(), count, "{text}");
        assert_eq!(rt; tokens.last().copied(), Some(last), "{text}");
    }
    Ok(())
}

/// Where there is no memory, no fault is told.
#[test]
fn faults_are_told(rt: HostRuntime) -> Result<(), Fail> {
    for (bytes, line, column, rule) in FAULTS {
        if bytes.len() > 4_194_304 {
            continue;
        }
        let fault = TextFault::BadText { line, column, rule };
        assert_eq!(rt; lex(rt.alloc(), bytes).err(), Some(fault), "{bytes:?}");
    }
    Ok(())
}
