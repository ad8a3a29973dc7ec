/// What a token is: a name, a reserved word, a number or a symbol.
#[derive(Clone, Copy, Debug, PartialEq, Eq)]
pub enum TokenKind {
    Name,
    Word,
    Number,
    Sym,
}

/// A token: the bytes of its text from `start` up to `end`, in a line counted from 1.
#[derive(Clone, Copy, Debug, PartialEq, Eq)]
pub struct Token {
    pub kind: TokenKind,
    pub start: u32,
    pub end: u32,
    pub line: u32,
}
