use morty_base::List;
use sqlite_items::Boxed as Box;
use txn_lang::BinOp;
use txn_text::Token;

/// An expression, with a token for each name and number.
#[derive(Debug, Drop)]
pub enum RawExpr {
    Num(Token),
    Local(Token),
    Neg(Box<RawExpr>),
    Not(Box<RawExpr>),
    Bin(BinOp, Box<(RawExpr, RawExpr)>),
}

/// A statement: `Let` has the local and its value, `Read` the local, the table and the index, `Write` the table,
/// the index and the value, and `If` the block for a number other than 0 and the block for 0.
#[cycle(tree)]
#[derive(Debug, Drop)]
pub enum RawStmt {
    Let(Token, RawExpr),
    Read(Token, Token, RawExpr),
    Write(Token, RawExpr, RawExpr),
    Print(RawExpr),
    If(RawExpr, RawBlock, RawBlock),
    Repeat(Token, RawBlock),
    Abort,
}

/// Statements one after another. Only an `else` that was left out has none.
#[cycle(tree)]
#[derive(Debug, Drop)]
pub struct RawBlock {
    pub stmts: List<RawStmt>,
}

/// A program's block, with its first token.
#[derive(Debug, Drop)]
pub struct RawProg {
    pub brace: Token,
    pub body: RawBlock,
}
