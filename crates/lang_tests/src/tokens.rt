use std::test::Fail;
use txn_text::{
    FaultKind, TextFault, Token, TokenKind, is_text, number_value, token_laws, token_text, tokens,
};

// A text, and the kind, the bytes and the line of each of its tokens.
type Row = (&'static [u8], &'static [(TokenKind, &'static [u8], u32)]);

const NAME: &[u8] = b"abcdefghijklmnopqrstuvwxyz012345";

const ZEROS: &[u8] = b"00000000000000000000009223372036854775807";

static ROWS: [Row; 6] = [
    (b"", &[]),
    (b" \t\r\n# only a comment, \xff", &[]),
    (
        b"morty 007 # one\n  t_1x<=a==b=c!=d >=e<f>g\n",
        &[
            (TokenKind::Word, b"morty", 1),
            (TokenKind::Number, b"007", 1),
            (TokenKind::Name, b"t_1x", 2),
            (TokenKind::Sym, b"<=", 2),
            (TokenKind::Name, b"a", 2),
            (TokenKind::Sym, b"==", 2),
            (TokenKind::Name, b"b", 2),
            (TokenKind::Sym, b"=", 2),
            (TokenKind::Name, b"c", 2),
            (TokenKind::Sym, b"!=", 2),
            (TokenKind::Name, b"d", 2),
            (TokenKind::Sym, b">=", 2),
            (TokenKind::Name, b"e", 2),
            (TokenKind::Sym, b"<", 2),
            (TokenKind::Name, b"f", 2),
            (TokenKind::Sym, b">", 2),
            (TokenKind::Name, b"g", 2),
        ],
    ),
    (
        b"x[1]; {}().+-*/%#\n9223372036854775807sum",
        &[
            (TokenKind::Name, b"x", 1),
            (TokenKind::Sym, b"[", 1),
            (TokenKind::Number, b"1", 1),
            (TokenKind::Sym, b"]", 1),
            (TokenKind::Sym, b";", 1),
            (TokenKind::Sym, b"{", 1),
            (TokenKind::Sym, b"}", 1),
            (TokenKind::Sym, b"(", 1),
            (TokenKind::Sym, b")", 1),
            (TokenKind::Sym, b".", 1),
            (TokenKind::Sym, b"+", 1),
            (TokenKind::Sym, b"-", 1),
            (TokenKind::Sym, b"*", 1),
            (TokenKind::Sym, b"/", 1),
            (TokenKind::Sym, b"%", 1),
            (TokenKind::Number, b"9223372036854775807", 2),
            (TokenKind::Word, b"sum", 2),
        ],
    ),
    (NAME, &[(TokenKind::Name, NAME, 1)]),
    (ZEROS, &[(TokenKind::Number, ZEROS, 1)]),
];

fn rows() -> &'static [Row] {
    &ROWS
}

#[test]
fn each_kind_is_read(rt: HostRuntime) -> Result<(), Fail> {
    for (text, rows) in rows() {
        assert!(rt; text.len() < 1000);
        let found = tokens(rt.alloc(), text)?;
        assert_eq!(rt; found.len(), rows.len());
        for (token, row) in found.as_slice().iter().zip(*rows) {
            assert_eq!(rt; token.kind, row.0);
            assert!(rt; is_text(text, *token, row.1));
            assert_eq!(rt; token.line, row.2);
        }
    }
    Ok(())
}

// A text with the line and the kind of its first bad token.
static FAULTS: [(&[u8], u32, FaultKind); 6] = [
    (
        b"\nabcdefghijklmnopqrstuvwxyz0123456",
        2,
        FaultKind::LongName,
    ),
    (b"9223372036854775808", 1, FaultKind::Number),
    (b"let a\n= !b 9223372036854775808", 2, FaultKind::Byte),
    (b"# @\n\n_a", 3, FaultKind::Byte),
    (b"Ab", 1, FaultKind::Byte),
    (b"\x0b", 1, FaultKind::Byte),
];

fn faults() -> &'static [(&'static [u8], u32, FaultKind)] {
    &FAULTS
}

#[test]
fn the_first_bad_token_is_named(rt: HostRuntime) {
    for row in faults() {
        let (text, line, kind) = *row;
        assert!(rt; text.len() < 1000);
        match tokens(rt.alloc(), text) {
            Ok(_) => panic!(rt; "tokens were read"),
            Err(fault) => assert_eq!(rt; fault, TextFault::At { line, kind }),
        }
    }
}

#[test]
fn a_number_has_its_value(rt: HostRuntime) {
    let text = b" 0420 ".as_slice();
    let token = Token {
        kind: TokenKind::Number,
        start: 1,
        end: 5,
        line: 1,
    };
    assert!(rt; token_text(text, token) == b"0420".as_slice());
    assert_eq!(rt; number_value(text, token), 420);
    assert_eq!(rt; FaultKind::LongExpression.words(), "long expression");
    token_laws();
}
