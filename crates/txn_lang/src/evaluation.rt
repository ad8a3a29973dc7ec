ghost use Rattle.std.specs.Prelude.{◌≡◌, length};
ghost use Rattle.txn_lang.specs.Tree.{term};
ghost use Rattle.txn_lang.specs.Value.{value_of, operator, quotient, remainder, UsesBelow, truth};

use crate::tree::{BinOp, Expr};

/// Why an expression has no value.
#[derive(Clone, Copy, Debug, PartialEq, Eq)]
pub enum EvalFault {
    Overflow,
    ZeroDivisor,
}

/// The value of an expression, where the locals hold these numbers. It takes no memory.
pub fn eval(e: &Expr, locals: &[i64]) -> Result<i64, EvalFault>
    requires { UsesBelow (term e.now) (length locals.now) }
    ensures { result ≡ value_of e.now locals.now }
{
    match e {
        Expr::Num(n) => Ok(*n),
        Expr::Local(v) => Ok(locals[*v as usize]),
        Expr::Neg(a) => eval(a.get(), locals)?
            .checked_neg()
            .ok_or(EvalFault::Overflow),
        Expr::Not(a) => Ok(truth(eval(a.get(), locals)? == 0)),
        Expr::Bin(op, operands) => {
            let (a, b) = operands.get();
            let x = eval(a, locals)?;
            let y = eval(b, locals)?;
            apply(*op, x, y)
        }
    }
}

fn truth(holds: bool) -> i64
    ensures { result ≡ truth holds }
{
    if holds { 1 } else { 0 }
}

fn apply(op: BinOp, x: i64, y: i64) -> Result<i64, EvalFault>
    ensures { result ≡ operator op x y }
{
    match op {
        BinOp::Add => x.checked_add(y).ok_or(EvalFault::Overflow),
        BinOp::Sub => x.checked_sub(y).ok_or(EvalFault::Overflow),
        BinOp::Mul => x.checked_mul(y).ok_or(EvalFault::Overflow),
        BinOp::Div => divide(x, y),
        BinOp::Rem => remainder(x, y),
        BinOp::Eq => Ok(truth(x == y)),
        BinOp::Ne => Ok(truth(x != y)),
        BinOp::Lt => Ok(truth(x < y)),
        BinOp::Le => Ok(truth(x <= y)),
        BinOp::Gt => Ok(truth(x > y)),
        BinOp::Ge => Ok(truth(x >= y)),
        BinOp::And => Ok(truth(x != 0 && y != 0)),
        BinOp::Or => Ok(truth(x != 0 || y != 0)),
    }
}

fn divide(x: i64, y: i64) -> Result<i64, EvalFault>
    ensures { result ≡ quotient x y }
{
    if y == 0 {
        return Err(EvalFault::ZeroDivisor);
    }
    x.checked_div(y).ok_or(EvalFault::Overflow)
}

fn remainder(x: i64, y: i64) -> Result<i64, EvalFault>
    ensures { result ≡ remainder x y }
{
    if y == 0 {
        return Err(EvalFault::ZeroDivisor);
    }
    x.checked_rem(y).ok_or(EvalFault::Overflow)
}
