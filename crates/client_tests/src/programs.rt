//! The programs of the clients.

ghost use Rattle.std.specs.Prelude.{◌≡◌, IfOk, [], ◌∷◌, codes};
ghost use Rattle.txn_lang.specs.Tree.{term, commands, Bin};
ghost use Rattle.client_tests.specs.Programs.{puts as puts_tree, raises as raises_tree, sums as sums_tree};

use morty_base::{List, NoMemory};
use sqlite_items::Boxed as Box;
use std::alloc::Global;
use std::test::Fail;
use txn_lang::{BinOp, Block, Expr, Prog, Stmt, make_prog};

fn add(alloc: Global, a: Expr, b: Expr) -> Result<Expr, NoMemory>
    ensures { IfOk result (λ e. term e ≡ Bin BinOp.Add (term a) (term b)) }
{
    Ok(Expr::Bin(BinOp::Add, Box::new(alloc, (a, b))?))
}

fn block(stmts: Vec<Stmt>) -> Block
    ensures { result.stmts ≡ stmts.items }
{
    Block {
        stmts: List::from_vec(stmts),
    }
}

fn puts_7_body(alloc: Global) -> Result<Block, NoMemory>
    ensures { IfOk result (λ b. commands b ≡ puts_tree 7) }
{
    Ok(block(vec![in alloc; Stmt::Write(0, Expr::Num(1), Expr::Num(7))]?))
}

fn puts_4_body(alloc: Global) -> Result<Block, NoMemory>
    ensures { IfOk result (λ b. commands b ≡ puts_tree 4) }
{
    Ok(block(vec![in alloc; Stmt::Write(0, Expr::Num(1), Expr::Num(4))]?))
}

fn raises_body(alloc: Global) -> Result<Block, NoMemory>
    ensures { IfOk result (λ b. commands b ≡ raises_tree) }
{
    let more = add(alloc, Expr::Local(0), Expr::Num(1))?;
    Ok(block(vec![in alloc;
        Stmt::Read(0, 0, Expr::Num(1)),
        Stmt::Write(0, Expr::Num(1), more),
        Stmt::Print(Expr::Local(0)),
    ]?))
}

fn sums_body(alloc: Global) -> Result<Block, NoMemory>
    ensures { IfOk result (λ b. commands b ≡ sums_tree) }
{
    let sum = add(alloc, Expr::Local(0), Expr::Local(1))?;
    Ok(block(vec![in alloc;
        Stmt::Read(0, 0, Expr::Num(1)),
        Stmt::Read(1, 1, Expr::Num(1)),
        Stmt::Write(0, Expr::Num(1), sum),
        Stmt::Print(Expr::Local(0)),
    ]?))
}

fn one_name(alloc: Global) -> Result<List<List<u8>>, NoMemory>
    ensures { IfOk result (λ names. names ≡ codes "a" ∷ []) }
{
    let a = List::from_slice(alloc, b"a")?;
    Ok(List::from_vec(vec![in alloc; a]?))
}

fn two_names(alloc: Global) -> Result<List<List<u8>>, NoMemory>
    ensures { IfOk result (λ names. names ≡ codes "a" ∷ codes "b" ∷ []) }
{
    let a = List::from_slice(alloc, b"a")?;
    let b = List::from_slice(alloc, b"b")?;
    Ok(List::from_vec(vec![in alloc; a, b]?))
}

/// `write x[1] 7`
pub(crate) fn puts_7(alloc: Global) -> Result<Prog, Fail> {
    let body = puts_7_body(alloc)?;
    Ok(make_prog(List::new(alloc), body)?)
}

/// `write x[1] 4`
pub(crate) fn puts_4(alloc: Global) -> Result<Prog, Fail> {
    let body = puts_4_body(alloc)?;
    Ok(make_prog(List::new(alloc), body)?)
}

/// `read a x[1]; write x[1] a + 1; print a`
pub(crate) fn raises(alloc: Global) -> Result<Prog, Fail> {
    let names = one_name(alloc)?;
    let body = raises_body(alloc)?;
    Ok(make_prog(names, body)?)
}

/// `read a x[1]; read b y[1]; write x[1] a + b; print a`
pub(crate) fn sums(alloc: Global) -> Result<Prog, Fail> {
    let names = two_names(alloc)?;
    let body = sums_body(alloc)?;
    Ok(make_prog(names, body)?)
}
