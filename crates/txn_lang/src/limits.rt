ghost use Rattle.std.specs.Prelude.{◌≡◌, ◌<◌, ◌≤◌, ◌↔◌, min, max, length, IsTrue};
ghost use Rattle.txn_lang.specs.Tree.{term, command, commands};
ghost use Rattle.txn_lang.specs.Limits.{level, operator_level, left_level, in_parentheses, tokens, steps_in, steps, is_of, most_in, most, depth_in, depth, IsShort, FitsIn, Fits, IsWithin};
ghost use Rattle.txn_lang.specs.Value.{UsesBelow};

use crate::tree::{BinOp, Block, Expr, Stmt};

/// The statements of which a run makes a limited number.
#[derive(Clone, Copy, Debug, PartialEq, Eq)]
pub enum Kind {
    Read,
    Write,
    Print,
}

/// How many locals a program may have.
pub const MOST_LOCALS: usize = 64;

/// How many statements a program may begin, with repeats multiplied out.
pub const MOST_STEPS: u64 = 4096;

/// The greatest repeat number.
pub const MOST_TIMES: u32 = 4096;

/// How many reads, how many writes and how many prints a program may make, with repeats multiplied out.
pub const MOST_OF_A_KIND: u64 = 64;

/// How many blocks may stand in one another, with the outermost.
pub const DEEPEST_BLOCK: u64 = 32;

/// How many tokens an outermost expression may have.
pub const LONGEST_EXPRESSION: u64 = 64;

// Above every limit: a count stops here.
const PLENTY: u64 = 5000;

/// How tight an operator binds.
pub fn operator_level(op: BinOp) -> u64
    ensures { result ≡ operator_level op }
{
    match op {
        BinOp::Or => 1,
        BinOp::And => 2,
        BinOp::Eq | BinOp::Ne | BinOp::Lt | BinOp::Le | BinOp::Gt | BinOp::Ge => 3,
        BinOp::Add | BinOp::Sub => 4,
        BinOp::Mul | BinOp::Div | BinOp::Rem => 5,
    }
}

/// The least level that a left operand has without parentheses. Comparisons do not chain.
pub fn left_level(op: BinOp) -> u64
    ensures { result ≡ left_level op }
{
    match operator_level(op) {
        3 => 4,
        level => level,
    }
}

/// How tight an expression binds.
pub fn level(e: &Expr) -> u64
    ensures { result ≡ level (term e.now) }
{
    match e {
        Expr::Num(_) | Expr::Local(_) => 7,
        Expr::Neg(_) | Expr::Not(_) => 6,
        Expr::Bin(op, _) => operator_level(*op),
    }
}

// The tokens of an operand, with its parentheses.
fn with_parentheses(count: u64, operand: &Expr, least: u64) -> u64
    requires { count ≤ PLENTY }
    ensures { result ≡ in_parentheses least (term operand.now) count }
{
    if level(operand) < least {
        count + 2
    } else {
        count
    }
}

/// How many tokens the canonical text of an expression has, up to `PLENTY`.
pub fn tokens(e: &Expr) -> u64
    ensures { result ≡ min (tokens (term e.now)) PLENTY }
{
    match e {
        Expr::Num(_) | Expr::Local(_) => 1,
        Expr::Neg(a) | Expr::Not(a) => {
            let operand = with_parentheses(tokens(a.get()), a.get(), 6);
            (1 + operand).min(PLENTY)
        }
        Expr::Bin(op, operands) => {
            let (a, b) = operands.get();
            let left = with_parentheses(tokens(a), a, left_level(*op));
            let right = with_parentheses(tokens(b), b, operator_level(*op) + 1);
            (left + 1 + right).min(PLENTY)
        }
    }
}

#[cycle(steps)]
fn steps_in(stmt: &Stmt) -> u64
    ensures { result ≡ min (steps_in (command stmt.now)) PLENTY }
{
    match stmt {
        Stmt::If(_, a, b) => (1 + steps(a) + steps(b)).min(PLENTY),
        Stmt::Repeat(times, body) => (1 + u64::from(*times) * steps(body)).min(PLENTY),
        _ => 1,
    }
}

#[cycle(steps)]
fn steps(block: &Block) -> u64
    ensures { result ≡ min (steps (commands block.now)) PLENTY }
{
    let mut total = 0;
    for stmt in block.stmts.as_slice() {
        total = (total + steps_in(stmt)).min(PLENTY);
    }
    total
}

fn is_of(kind: Kind, stmt: &Stmt) -> u64
    ensures { result ≡ is_of kind (command stmt.now) }
{
    match (kind, stmt) {
        (Kind::Read, Stmt::Read(..)) => 1,
        (Kind::Write, Stmt::Write(..)) => 1,
        (Kind::Print, Stmt::Print(_)) => 1,
        _ => 0,
    }
}

#[cycle(most)]
fn most_in(kind: Kind, stmt: &Stmt) -> u64
    ensures { result ≡ min (most_in kind (command stmt.now)) PLENTY }
{
    match stmt {
        Stmt::If(_, a, b) => most(kind, a).max(most(kind, b)),
        Stmt::Repeat(times, body) => (u64::from(*times) * most(kind, body)).min(PLENTY),
        _ => is_of(kind, stmt),
    }
}

#[cycle(most)]
fn most(kind: Kind, block: &Block) -> u64
    ensures { result ≡ min (most kind (commands block.now)) PLENTY }
{
    let mut total = 0;
    for stmt in block.stmts.as_slice() {
        total = (total + most_in(kind, stmt)).min(PLENTY);
    }
    total
}

#[cycle(depth)]
fn depth_in(stmt: &Stmt) -> u64
    ensures { result ≡ min (depth_in (command stmt.now)) PLENTY }
{
    match stmt {
        Stmt::If(_, a, b) => depth(a).max(depth(b)),
        Stmt::Repeat(_, body) => depth(body),
        _ => 0,
    }
}

#[cycle(depth)]
fn depth(block: &Block) -> u64
    ensures { result ≡ min (depth (commands block.now)) PLENTY }
{
    let mut deepest = 1;
    for stmt in block.stmts.as_slice() {
        deepest = deepest.max(1 + depth_in(stmt)).min(PLENTY);
    }
    deepest
}

fn uses_below(e: &Expr, locals: usize) -> bool
    ensures { IsTrue result ↔ UsesBelow (term e.now) locals }
{
    match e {
        Expr::Num(_) => true,
        Expr::Local(v) => usize::from(*v) < locals,
        Expr::Neg(a) | Expr::Not(a) => uses_below(a.get(), locals),
        Expr::Bin(_, operands) => {
            let (a, b) = operands.get();
            uses_below(a, locals) && uses_below(b, locals)
        }
    }
}

fn is_short(e: &Expr, locals: usize) -> bool
    ensures { IsTrue result ↔ IsShort locals (term e.now) }
{
    uses_below(e, locals) && tokens(e) <= LONGEST_EXPRESSION
}

#[cycle(fits)]
fn fits_in(stmt: &Stmt, locals: usize) -> bool
    ensures { IsTrue result ↔ FitsIn locals (command stmt.now) }
{
    match stmt {
        Stmt::Let(v, e) => usize::from(*v) < locals && is_short(e, locals),
        Stmt::Read(v, _, index) => usize::from(*v) < locals && is_short(index, locals),
        Stmt::Write(_, index, e) => is_short(index, locals) && is_short(e, locals),
        Stmt::Print(e) => is_short(e, locals),
        Stmt::If(e, a, b) => is_short(e, locals) && fits(a, locals) && fits(b, locals),
        Stmt::Repeat(times, body) => *times <= MOST_TIMES && fits(body, locals),
        Stmt::Abort => true,
    }
}

#[cycle(fits)]
fn fits(block: &Block, locals: usize) -> bool
    ensures { IsTrue result ↔ Fits locals (commands block.now) }
{
    for stmt in block.stmts.as_slice() {
        if !fits_in(stmt, locals) {
            return false;
        }
    }
    true
}

/// Whether a program with so many locals is within the limits.
pub fn is_within(locals: usize, body: &Block) -> bool
    ensures { IsTrue result ↔ IsWithin locals (commands body.now) }
{
    locals <= MOST_LOCALS
        && steps(body) <= MOST_STEPS
        && most(Kind::Read, body) <= MOST_OF_A_KIND
        && most(Kind::Write, body) <= MOST_OF_A_KIND
        && most(Kind::Print, body) <= MOST_OF_A_KIND
        && depth(body) <= DEEPEST_BLOCK
        && fits(body, locals)
}
