ghost use Rattle.std.specs.Prelude.{IfOk};
ghost use Rattle.txn_lang.specs.Tree.{term};
ghost use Rattle.txn_lang.specs.Value.{UsesBelow};

use morty_base::NoMemory;
use sqlite_items::Boxed as Box;
use std::alloc::Global;
use std::test::Fail;
use txn_lang::{BinOp, EvalFault, Expr, eval};

const LEAST: i64 = i64::MIN;

const MOST: i64 = i64::MAX;

const OVER: Result<i64, EvalFault> = Err(EvalFault::Overflow);

const ZERO: Result<i64, EvalFault> = Err(EvalFault::ZeroDivisor);

// An operator between two numbers, and what it gives.
type Row = (BinOp, i64, i64, Result<i64, EvalFault>);

static ROWS: [Row; 25] = [
    (BinOp::Add, MOST, 0, Ok(MOST)),
    (BinOp::Add, MOST, 1, OVER),
    (BinOp::Sub, LEAST, 0, Ok(LEAST)),
    (BinOp::Sub, LEAST, 1, OVER),
    (BinOp::Mul, LEAST, -1, OVER),
    (BinOp::Mul, 3037000500, 3037000500, OVER),
    (BinOp::Mul, -4294967296, 2147483648, Ok(LEAST)),
    (BinOp::Div, LEAST, -1, OVER),
    (BinOp::Div, -7, 2, Ok(-3)),
    (BinOp::Div, 7, -2, Ok(-3)),
    (BinOp::Div, 1, 0, ZERO),
    (BinOp::Rem, LEAST, -1, OVER),
    (BinOp::Rem, -7, 2, Ok(-1)),
    (BinOp::Rem, 7, -2, Ok(1)),
    (BinOp::Rem, 1, 0, ZERO),
    (BinOp::Eq, 2, 2, Ok(1)),
    (BinOp::Ne, 2, 2, Ok(0)),
    (BinOp::Lt, -1, 0, Ok(1)),
    (BinOp::Le, 0, 0, Ok(1)),
    (BinOp::Gt, 0, 0, Ok(0)),
    (BinOp::Ge, -1, 0, Ok(0)),
    (BinOp::And, 2, -3, Ok(1)),
    (BinOp::And, 2, 0, Ok(0)),
    (BinOp::Or, 0, -3, Ok(1)),
    (BinOp::Or, 0, 0, Ok(0)),
];

fn rows() -> &'static [Row] {
    &ROWS
}

// `x op (1 / 0)`, where x is the first local; or `x op y` with the second.
fn of_locals(alloc: Global, op: BinOp, faulty: bool) -> Result<Expr, NoMemory>
    ensures { IfOk result (λ e. UsesBelow (term e) 2) }
{
    let y = if faulty {
        Expr::Bin(BinOp::Div, Box::new(alloc, (Expr::Num(1), Expr::Num(0)))?)
    } else {
        Expr::Local(1)
    };
    Ok(Expr::Bin(op, Box::new(alloc, (Expr::Local(0), y))?))
}

#[test]
fn operators_give_their_values(rt: HostRuntime) -> Result<(), Fail> {
    for row in rows() {
        let (op, x, y, want) = *row;
        let e = of_locals(rt.alloc(), op, false)?;
        assert_eq!(rt; eval(&e, &[x, y]), want, "{op:?} of {x} and {y}");
    }
    Ok(())
}

#[test]
fn both_operands_are_evaluated(rt: HostRuntime) -> Result<(), Fail> {
    for op in [BinOp::And, BinOp::Or, BinOp::Eq, BinOp::Mul] {
        for x in [0, 1] {
            let e = of_locals(rt.alloc(), op, true)?;
            assert_eq!(rt; eval(&e, &[x, 0]), ZERO, "{op:?} after {x}");
        }
    }
    Ok(())
}
