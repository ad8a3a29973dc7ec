ghost use Rattle.std.specs.Prelude.{◌≡◌, [], IfOk, pos};
ghost use Rattle.txn_lang.specs.Tree.{term, commands, Bin, Local};
ghost use Rattle.script.specs.Meaning.{named_of};
ghost use Rattle.lab.specs.Generated.{number, transfer_locals, transfer_body, transfer_prog};

use crate::draws::Transfer;
use itoa::Buffer;
use morty_base::{List, NoMemory};
use script::NamedProg;
use sqlite_items::Boxed as Box;
use std::alloc::Global;
use txn_lang::{BinOp, Block, Expr, Prog, Stmt, make_prog};

fn number(n: u32) -> Expr
    ensures { term result ≡ number n }
{
    Expr::Num(i64::from(n))
}

/// A local with a number behind an operator.
fn with_number(alloc: Global, op: BinOp, local: u16, n: u32) -> Result<Expr, NoMemory>
    ensures { IfOk result (λ e. term e ≡ Bin op (Local local) (number n)) }
{
    let operands = (Expr::Local(local), number(n));
    Ok(Expr::Bin(op, Box::new(alloc, operands)?))
}

fn block(stmts: Vec<Stmt>) -> Block
    ensures { result.stmts ≡ stmts.items }
{
    Block {
        stmts: List::from_vec(stmts),
    }
}

/// The names of the two locals.
fn locals(alloc: Global) -> Result<List<List<u8>>, NoMemory>
    ensures { IfOk result (λ names. names ≡ transfer_locals) }
{
    let mut names = List::new(alloc);
    names.push(List::from_slice(alloc, b"a")?)?;
    names.push(List::from_slice(alloc, b"b")?)?;
    Ok(names)
}

/// Reads the one account, gives up where it has too little, reads the other, and writes both.
fn body(alloc: Global, t: Transfer) -> Result<Block, NoMemory>
    ensures { IfOk result (λ b. commands b ≡ transfer_body t) }
{
    let low = with_number(alloc, BinOp::Lt, 0, t.amount)?;
    let less = with_number(alloc, BinOp::Sub, 0, t.amount)?;
    let more = with_number(alloc, BinOp::Add, 1, t.amount)?;
    let left = with_number(alloc, BinOp::Sub, 0, t.amount)?;
    let gives_up = block(vec![in alloc; Stmt::Abort]?);
    let otherwise = block(Vec::new(alloc));
    Ok(block(vec![in alloc;
        Stmt::Read(0, 0, number(t.from)),
        Stmt::If(low, gives_up, otherwise),
        Stmt::Read(1, 0, number(t.to)),
        Stmt::Write(0, number(t.from), less),
        Stmt::Write(0, number(t.to), more),
        Stmt::Print(left),
    ]?))
}

/// The program of a transfer. It is within the limits of programs.
fn prog(alloc: Global, t: Transfer) -> Result<Prog, NoMemory>
    ensures names { IfOk result (λ p. p.names ≡ transfer_locals) }
    ensures body { IfOk result (λ p. commands p.body ≡ transfer_body t) }
{
    let names = locals(alloc)?;
    let body = body(alloc, t)?;
    match make_prog(names, body) {
        Ok(prog) => Ok(prog),
        Err(_) => Err(NoMemory),
    }
}

/// The program with this number, and its name.
pub fn transfer_prog(alloc: Global, i: u32, t: Transfer) -> Result<NamedProg, NoMemory>
    ensures { IfOk result (λ p. named_of p ≡ transfer_prog i t) }
{
    let mut name = List::from_slice(alloc, b"p")?;
    let mut buffer = Buffer::new();
    name.extend_from_slice(buffer.format(i).as_bytes())?;
    let prog = prog(alloc, t)?;
    Ok(NamedProg { name, prog })
}
