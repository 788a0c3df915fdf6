//! Bytes that are tokens, and bytes at which a token fails.

use sf_base::Place;
use sf_lex::{Kind, LexFault, Token, tokens};
use std::alloc::{AllocError, Global};

/// The place in that line and column.
fn at(line: u32, column: u32) -> Place {
    Place { line, column }
}

/// Why those bytes are refused, if they are.
fn refusal(alloc: Global, bytes: &[u8]) -> Option<LexFault> {
    match tokens(alloc, bytes) {
        Ok(_) => None,
        Err(fault) => Some(fault),
    }
}

/// Whether those bytes have tokens of just those kinds.
fn reads_as(alloc: Global, bytes: &[u8], kinds: &[Kind]) -> bool {
    match tokens(alloc, bytes) {
        Ok(found) => found
            .items
            .iter()
            .map(|token| token.kind)
            .eq(kinds.iter().copied()),
        Err(_) => false,
    }
}

#[test]
fn files_without_tokens_are_refused_at_the_first_fault(rt: HostRuntime) {
    let cases: [(&[u8], LexFault); 25] = [
        (b"f() { @ }", LexFault::BadByte(at(1, 7))),
        (b"/* x", LexFault::OpenComment(at(1, 1))),
        (
            b"f() { x->tl = 9223372036854775808; }",
            LexFault::BadNumber(at(1, 15)),
        ),
        (
            b"f() { x->tl = -9223372036854775809; }",
            LexFault::BadNumber(at(1, 15)),
        ),
        (b"f() { -x; }", LexFault::BadByte(at(1, 7))),
        (b"f() { x-->tl = 1; }", LexFault::BadByte(at(1, 8))),
        (b"f() { if (x ! y) { } }", LexFault::BadByte(at(1, 13))),
        (b"f(x) [x |-tl:x] { }", LexFault::BadByte(at(1, 9))),
        (b"f() { } \x0c", LexFault::BadByte(at(1, 9))),
        (b"/*/", LexFault::OpenComment(at(1, 1))),
        (b"/* /* */ * /", LexFault::BadByte(at(1, 12))),
        (b"/* /* */ */", LexFault::BadByte(at(1, 11))),
        (b"/* a\nb */ @", LexFault::BadByte(at(2, 6))),
        (b"f() { 3x->tl = 1; }", LexFault::BadNumber(at(1, 7))),
        (b"3_", LexFault::BadNumber(at(1, 1))),
        (b"f( ) ) @", LexFault::BadByte(at(1, 8))),
        (b"_ @", LexFault::BadByte(at(1, 1))),
        (b"x _", LexFault::BadByte(at(1, 3))),
        (b"@ /* x", LexFault::BadByte(at(1, 1))),
        (b"\xc3\xa4", LexFault::BadByte(at(1, 1))),
        (b"a\r\n\t|", LexFault::BadByte(at(2, 2))),
        (b"x /*", LexFault::OpenComment(at(1, 3))),
        (
            b"99999999999999999999999999 @",
            LexFault::BadNumber(at(1, 1)),
        ),
        (
            b"x _aaaaaaaaaaaaaaaaaaaaaaaaaaaaaaaaaaaaaaaaaaaaaaaaaaaaaaaaaaaaaaaa",
            LexFault::LongWord(at(1, 3)),
        ),
        (
            b"x\n aaaaaaaaaaaaaaaaaaaaaaaaaaaaaaaaaaaaaaaaaaaaaaaaaaaaaaaaaaaaaaaaa @",
            LexFault::LongWord(at(2, 2)),
        ),
    ];
    for (bytes, fault) in cases {
        assert!(rt; refusal(rt.alloc(), bytes) == Some(fault));
    }
}

#[test]
fn files_with_tokens_are_read(rt: HostRuntime) {
    let cases: [(&[u8], &[Kind]); 11] = [
        (b"", &[]),
        (
            b"f() { } /* \xc3\xa4 @ */",
            &[
                Kind::Name,
                Kind::OpenRound,
                Kind::CloseRound,
                Kind::OpenBrace,
                Kind::CloseBrace,
            ],
        ),
        (
            b"x->tl = -9223372036854775808;",
            &[
                Kind::Name,
                Kind::Arrow,
                Kind::Name,
                Kind::Equals,
                Kind::Number,
                Kind::Semicolon,
            ],
        ),
        (b"9223372036854775807", &[Kind::Number]),
        (b"000000000000000000000000007", &[Kind::Number]),
        (b"3/**/4", &[Kind::Number, Kind::Number]),
        (
            b"x|->tl:x",
            &[
                Kind::Name,
                Kind::PointsTo,
                Kind::Name,
                Kind::Colon,
                Kind::Name,
            ],
        ),
        (
            b"a||b==c",
            &[
                Kind::Name,
                Kind::Bars,
                Kind::Name,
                Kind::EqualEqual,
                Kind::Name,
            ],
        ),
        (b"===", &[Kind::EqualEqual, Kind::Equals]),
        (
            b"__ _1 lists list",
            &[Kind::Existential, Kind::Existential, Kind::Name, Kind::List],
        ),
        (
            b"x!=-1*",
            &[Kind::Name, Kind::NotEqual, Kind::Number, Kind::Star],
        ),
    ];
    for (bytes, kinds) in cases {
        assert!(rt; reads_as(rt.alloc(), bytes, kinds));
    }
}

/// A token of that kind that writes that number, there.
fn token(kind: Kind, value: i64, start: usize, end: usize, place: Place) -> Token {
    Token {
        kind,
        value,
        start,
        end,
        place,
    }
}

#[test]
fn tokens_have_their_ends_and_places(rt: HostRuntime) {
    let two = tokens(rt.alloc(), b"a\n _b");
    let expected = [
        token(Kind::Name, 0, 0, 1, at(1, 1)),
        token(Kind::Existential, 0, 3, 5, at(2, 2)),
    ];
    assert!(rt;
        two.is_ok_and(|found| found.items.as_slice() == expected.as_slice()
            && found.end == at(2, 4))
    );
    let three = tokens(rt.alloc(), b"/*\n*/-12 |->\r\n\ttree");
    let expected = [
        token(Kind::Number, -12, 5, 8, at(2, 3)),
        token(Kind::PointsTo, 0, 9, 12, at(2, 7)),
        token(Kind::Tree, 0, 15, 19, at(3, 2)),
    ];
    assert!(rt;
        three.is_ok_and(|found| found.items.as_slice() == expected.as_slice()
            && found.end == at(3, 6))
    );
}

/// A token of each kind, and words that are names though they begin with another; behind some stands
/// the blank that parts it from the next.
const TOKENS: [(&str, Kind); 39] = [
    ("a ", Kind::Name),
    ("_b ", Kind::Existential),
    ("1 ", Kind::Number),
    ("NULL ", Kind::Null),
    ("dispose ", Kind::Dispose),
    ("dll ", Kind::Dll),
    ("dlls ", Kind::Name),
    ("else ", Kind::Else),
    ("emp ", Kind::Emp),
    ("if ", Kind::If),
    ("list ", Kind::List),
    ("local ", Kind::Local),
    ("ls ", Kind::Ls),
    ("lseg ", Kind::Lseg),
    ("new ", Kind::New),
    ("nil ", Kind::Nil),
    ("resource ", Kind::Resource),
    ("then ", Kind::Then),
    ("tree ", Kind::Tree),
    ("true ", Kind::True),
    ("when ", Kind::When),
    ("while ", Kind::While),
    ("with", Kind::With),
    ("(", Kind::OpenRound),
    (")", Kind::CloseRound),
    ("[", Kind::OpenSquare),
    ("]", Kind::CloseSquare),
    ("{", Kind::OpenBrace),
    ("}", Kind::CloseBrace),
    (",", Kind::Comma),
    (";", Kind::Semicolon),
    (":", Kind::Colon),
    ("*", Kind::Star),
    ("= ", Kind::Equals),
    ("== ", Kind::EqualEqual),
    ("!= ", Kind::NotEqual),
    ("-> ", Kind::Arrow),
    ("|-> ", Kind::PointsTo),
    ("||", Kind::Bars),
];

#[test]
fn each_kind_is_read(rt: HostRuntime) -> Result<(), AllocError> {
    let mut text = Vec::new(rt.alloc());
    let mut kinds = Vec::new(rt.alloc());
    for (token, kind) in TOKENS {
        text.extend_from_slice(token.as_bytes())?;
        kinds.push(kind)?;
    }
    assert!(rt; reads_as(rt.alloc(), &text, &kinds));
    Ok(())
}

#[test]
fn words_and_files_have_limits(rt: HostRuntime) -> Result<(), AllocError> {
    let mut name = Vec::new(rt.alloc());
    let mut existential = Vec::new(rt.alloc());
    existential.push(b'_')?;
    for _ in 0..63 {
        name.push(b'a')?;
        existential.push(b'a')?;
    }
    name.push(b'a')?;
    assert!(rt; refusal(rt.alloc(), name.as_slice()).is_none());
    assert!(rt; refusal(rt.alloc(), existential.as_slice()).is_none());
    name.push(b'_')?;
    existential.push(b'_')?;
    assert!(rt; refusal(rt.alloc(), name.as_slice()) == Some(LexFault::LongWord(at(1, 1))));
    assert!(rt; refusal(rt.alloc(), existential.as_slice()) == Some(LexFault::LongWord(at(1, 1))));
    let mut spaces = Vec::new(rt.alloc());
    for _ in 0..1_048_576 {
        spaces.push(b' ')?;
    }
    assert!(rt; refusal(rt.alloc(), spaces.as_slice()).is_none());
    spaces.push(b' ')?;
    assert!(rt; refusal(rt.alloc(), spaces.as_slice()) == Some(LexFault::LongFile));
    Ok(())
}
