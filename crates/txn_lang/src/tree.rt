ghost use Rattle.std.specs.Prelude.{◌≡◌, IfOk};

use morty_base::{List, NoMemory};
use sqlite_items::Boxed as Box;
use std::alloc::Global;

/// An operator between two operands.
#[derive(Clone, Copy, Debug, PartialEq, Eq)]
pub enum BinOp {
    Add,
    Sub,
    Mul,
    Div,
    Rem,
    Eq,
    Ne,
    Lt,
    Le,
    Gt,
    Ge,
    And,
    Or,
}

/// An expression. A number that is written is not negative, and a local stands by its number. The two operands of an
/// operator share a box.
#[derive(Debug, Drop)]
pub enum Expr {
    Num(i64),
    Local(u16),
    Neg(Box<Expr>),
    Not(Box<Expr>),
    Bin(BinOp, Box<(Expr, Expr)>),
}

impl Expr {
    pub fn copy(&self, alloc: Global) -> Result<Expr, NoMemory>
        ensures { IfOk result (λ e. e ≡ self.now) }
    {
        Ok(match self {
            Expr::Num(n) => Expr::Num(*n),
            Expr::Local(v) => Expr::Local(*v),
            Expr::Neg(a) => Expr::Neg(Box::new(alloc, a.get().copy(alloc)?)?),
            Expr::Not(a) => Expr::Not(Box::new(alloc, a.get().copy(alloc)?)?),
            Expr::Bin(op, operands) => {
                let (a, b) = operands.get();
                let copies = (a.copy(alloc)?, b.copy(alloc)?);
                Expr::Bin(*op, Box::new(alloc, copies)?)
            }
        })
    }
}

/// A statement: `Let` has the local and its value, `Read` the local, the table and the index, `Write` the table,
/// the index and the value, and `If` the block for a number other than 0 and the block for 0.
#[cycle(tree)]
#[derive(Debug, Drop)]
pub enum Stmt {
    Let(u16, Expr),
    Read(u16, u16, Expr),
    Write(u16, Expr, Expr),
    Print(Expr),
    If(Expr, Block, Block),
    Repeat(u32, Block),
    Abort,
}

/// Statements one after another.
#[cycle(tree)]
#[derive(Debug, Drop)]
pub struct Block {
    pub stmts: List<Stmt>,
}
