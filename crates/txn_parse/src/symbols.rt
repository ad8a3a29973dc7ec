ghost use Rattle.std.specs.Prelude.{◌≡◌, [], ◌∷◌, if◌then◌else◌};
ghost use Rattle.txn_text.specs.declared.kinds.TokenKind.TheVariants.{Word, Sym};
ghost use Rattle.txn_parse.specs.Symbols.{symbol_of, symbol_by, symbol_in, marks, entries_of, code, is};

use txn_lang::BinOp;
use txn_text::{Token, TokenKind, token_text};

/// What the grammars of blocks and scripts see of a token.
#[derive(Clone, Copy, Debug, PartialEq, Eq)]
pub enum Symbol {
    Name,
    Number,
    Let,
    Read,
    Write,
    Print,
    If,
    Else,
    Repeat,
    Abort,
    Not,
    Op(BinOp),
    Assign,
    Semicolon,
    OpenBlock,
    CloseBlock,
    OpenIndex,
    CloseIndex,
    OpenParen,
    CloseParen,
    Dot,
    Morty,
    Replicas,
    Wardens,
    Tries,
    Execs,
    Gap,
    Turns,
    Policy,
    Rewind,
    Table,
    First,
    Program,
    Client,
    At,
    Net,
    Fair,
    Seeded,
    Listed,
    Late,
    Hurry,
    List,
    Go,
    Stop,
    Deliver,
    Recover,
    Truncate,
    Wait,
    Next,
    Newest,
    Replica,
    Warden,
    End,
    Other,
}

// A word or mark, and its symbol.
#[derive(Clone, Copy)]
pub struct Entry {
    text: &'static [u8],
    symbol: Symbol,
}

// The reserved words but `sum`, those of programs first.
const WORDS: [Entry; 43] = [
    Entry {
        text: b"let",
        symbol: Symbol::Let,
    },
    Entry {
        text: b"read",
        symbol: Symbol::Read,
    },
    Entry {
        text: b"write",
        symbol: Symbol::Write,
    },
    Entry {
        text: b"print",
        symbol: Symbol::Print,
    },
    Entry {
        text: b"if",
        symbol: Symbol::If,
    },
    Entry {
        text: b"else",
        symbol: Symbol::Else,
    },
    Entry {
        text: b"repeat",
        symbol: Symbol::Repeat,
    },
    Entry {
        text: b"abort",
        symbol: Symbol::Abort,
    },
    Entry {
        text: b"not",
        symbol: Symbol::Not,
    },
    Entry {
        text: b"and",
        symbol: Symbol::Op(BinOp::And),
    },
    Entry {
        text: b"or",
        symbol: Symbol::Op(BinOp::Or),
    },
    Entry {
        text: b"at",
        symbol: Symbol::At,
    },
    Entry {
        text: b"client",
        symbol: Symbol::Client,
    },
    Entry {
        text: b"program",
        symbol: Symbol::Program,
    },
    Entry {
        text: b"first",
        symbol: Symbol::First,
    },
    Entry {
        text: b"table",
        symbol: Symbol::Table,
    },
    Entry {
        text: b"end",
        symbol: Symbol::End,
    },
    Entry {
        text: b"morty",
        symbol: Symbol::Morty,
    },
    Entry {
        text: b"replicas",
        symbol: Symbol::Replicas,
    },
    Entry {
        text: b"wardens",
        symbol: Symbol::Wardens,
    },
    Entry {
        text: b"tries",
        symbol: Symbol::Tries,
    },
    Entry {
        text: b"execs",
        symbol: Symbol::Execs,
    },
    Entry {
        text: b"gap",
        symbol: Symbol::Gap,
    },
    Entry {
        text: b"turns",
        symbol: Symbol::Turns,
    },
    Entry {
        text: b"policy",
        symbol: Symbol::Policy,
    },
    Entry {
        text: b"rewind",
        symbol: Symbol::Rewind,
    },
    Entry {
        text: b"net",
        symbol: Symbol::Net,
    },
    Entry {
        text: b"fair",
        symbol: Symbol::Fair,
    },
    Entry {
        text: b"seeded",
        symbol: Symbol::Seeded,
    },
    Entry {
        text: b"listed",
        symbol: Symbol::Listed,
    },
    Entry {
        text: b"late",
        symbol: Symbol::Late,
    },
    Entry {
        text: b"hurry",
        symbol: Symbol::Hurry,
    },
    Entry {
        text: b"list",
        symbol: Symbol::List,
    },
    Entry {
        text: b"go",
        symbol: Symbol::Go,
    },
    Entry {
        text: b"stop",
        symbol: Symbol::Stop,
    },
    Entry {
        text: b"deliver",
        symbol: Symbol::Deliver,
    },
    Entry {
        text: b"recover",
        symbol: Symbol::Recover,
    },
    Entry {
        text: b"truncate",
        symbol: Symbol::Truncate,
    },
    Entry {
        text: b"wait",
        symbol: Symbol::Wait,
    },
    Entry {
        text: b"next",
        symbol: Symbol::Next,
    },
    Entry {
        text: b"newest",
        symbol: Symbol::Newest,
    },
    Entry {
        text: b"replica",
        symbol: Symbol::Replica,
    },
    Entry {
        text: b"warden",
        symbol: Symbol::Warden,
    },
];

// The marks of two bytes.
const PAIRS: [Entry; 4] = [
    Entry {
        text: b"==",
        symbol: Symbol::Op(BinOp::Eq),
    },
    Entry {
        text: b"!=",
        symbol: Symbol::Op(BinOp::Ne),
    },
    Entry {
        text: b"<=",
        symbol: Symbol::Op(BinOp::Le),
    },
    Entry {
        text: b">=",
        symbol: Symbol::Op(BinOp::Ge),
    },
];

// The symbol of the first entry with this text, if there is one.
fn symbol_in(entries: &[Entry], text: &[u8]) -> Symbol
    ensures { result ≡ symbol_in (entries_of entries.now) text.now }
{
    for entry in entries {
        if entry.text == text {
            return entry.symbol;
        }
    }
    Symbol::Other
}

// The symbol of a mark of one byte.
#[tactic(auto, unfolding(crate::specs::Symbols::marks))]
fn mark(byte: u8) -> Symbol
    ensures { result ≡ symbol_in marks (byte ∷ []) }
{
    match byte {
        b';' => Symbol::Semicolon,
        b'[' => Symbol::OpenIndex,
        b']' => Symbol::CloseIndex,
        b'{' => Symbol::OpenBlock,
        b'}' => Symbol::CloseBlock,
        b'=' => Symbol::Assign,
        b'(' => Symbol::OpenParen,
        b')' => Symbol::CloseParen,
        b'+' => Symbol::Op(BinOp::Add),
        b'-' => Symbol::Op(BinOp::Sub),
        b'*' => Symbol::Op(BinOp::Mul),
        b'/' => Symbol::Op(BinOp::Div),
        b'%' => Symbol::Op(BinOp::Rem),
        b'<' => Symbol::Op(BinOp::Lt),
        b'>' => Symbol::Op(BinOp::Gt),
        b'.' => Symbol::Dot,
        _ => Symbol::Other,
    }
}

fn mark_in(text: &[u8]) -> Symbol
    ensures { result ≡ symbol_in marks text.now }
{
    if text.len() == 1 {
        mark(text[0])
    } else {
        symbol_in(&PAIRS, text)
    }
}

// The symbol of a reserved word or a mark, from its text.
#[tactic(auto, unfolding(crate::specs::Symbols::words))]
fn symbol_in_text(is_word: bool, text: &[u8]) -> Symbol
    ensures { result ≡ symbol_by (if is_word then Word else Sym) text.now }
{
    if is_word {
        symbol_in(&WORDS, text)
    } else {
        mark_in(text)
    }
}

/// The symbol of a token. A token that no grammar has is `Other`. The text of a name or a number is not looked at.
pub fn symbol_of(text: &[u8], token: Token) -> Symbol
    ensures { result ≡ symbol_of text.now token }
{
    match token.kind {
        TokenKind::Name => Symbol::Name,
        TokenKind::Number => Symbol::Number,
        TokenKind::Word => symbol_in_text(true, token_text(text, token)),
        TokenKind::Sym => symbol_in_text(false, token_text(text, token)),
    }
}

// Operators are told apart by their levels, and have one code here.
fn code(symbol: Symbol) -> u8
    ensures { result ≡ code symbol }
{
    match symbol {
        Symbol::Name => 0,
        Symbol::Number => 1,
        Symbol::Let => 2,
        Symbol::Read => 3,
        Symbol::Write => 4,
        Symbol::Print => 5,
        Symbol::If => 6,
        Symbol::Else => 7,
        Symbol::Repeat => 8,
        Symbol::Abort => 9,
        Symbol::Not => 10,
        Symbol::Op(_) => 11,
        Symbol::Assign => 12,
        Symbol::Semicolon => 13,
        Symbol::OpenBlock => 14,
        Symbol::CloseBlock => 15,
        Symbol::OpenIndex => 16,
        Symbol::CloseIndex => 17,
        Symbol::OpenParen => 18,
        Symbol::CloseParen => 19,
        Symbol::Dot => 20,
        Symbol::Morty => 21,
        Symbol::Replicas => 22,
        Symbol::Wardens => 23,
        Symbol::Tries => 24,
        Symbol::Execs => 25,
        Symbol::Gap => 26,
        Symbol::Turns => 27,
        Symbol::Policy => 28,
        Symbol::Rewind => 29,
        Symbol::Table => 30,
        Symbol::First => 31,
        Symbol::Program => 32,
        Symbol::Client => 33,
        Symbol::At => 34,
        Symbol::Net => 35,
        Symbol::Fair => 36,
        Symbol::Seeded => 37,
        Symbol::Listed => 38,
        Symbol::Late => 39,
        Symbol::Hurry => 40,
        Symbol::List => 41,
        Symbol::Go => 42,
        Symbol::Stop => 43,
        Symbol::Deliver => 44,
        Symbol::Recover => 45,
        Symbol::Truncate => 46,
        Symbol::Wait => 47,
        Symbol::Next => 48,
        Symbol::Newest => 49,
        Symbol::Replica => 50,
        Symbol::Warden => 51,
        Symbol::End => 52,
        Symbol::Other => 53,
    }
}

/// Whether a symbol is the wanted one, which is no operator.
pub fn is(symbol: Symbol, wanted: Symbol) -> bool
    ensures { result ≡ is symbol wanted }
{
    code(symbol) == code(wanted)
}
