ghost use Rattle.std.specs.Prelude.{◌≡◌, nat_le, IfOk};
ghost use Rattle.txn_lang.specs.Limits.{operator_level};
ghost use Rattle.std.specs.Option.{option_map};
ghost use Rattle.txn_parse.specs.Tree.{term, Bin};
ghost use Rattle.txn_parse.specs.Symbols.{lexeme};
ghost use Rattle.txn_parse.specs.Pending.{Paren, opened, state_of, give, joined, closed, has_paren, compares, goes_on, goes_on_behind, starts_operand, operand_step, operator_step, step, whole, ended};

use crate::symbols::Symbol;
use crate::tree::RawExpr;
use morty_base::NoMemory;
use sqlite_items::Boxed as Box;
use std::alloc::Global;
use txn_lang::{BinOp, operator_level};
use txn_text::Token;

/// What is open in an expression that is being read, the innermost first: a sign, a `not`, a parenthesis, or an
/// operator behind its left operand. The parenthesis or the operator with nothing around it takes no box.
#[derive(Drop)]
pub enum Open {
    Nothing,
    Minus(Box<Open>),
    Deny(Box<Open>),
    Paren(Box<Open>),
    Infix(RawExpr, BinOp, Box<Open>),
    OneParen,
    OneInfix(RawExpr, BinOp),
}

/// An expression that is being read: an operand is awaited, or is there.
#[derive(Drop)]
pub enum Reading {
    Awaits(Open),
    Has(RawExpr, Open),
}

fn pair(alloc: Global, op: BinOp, a: RawExpr, b: RawExpr) -> Result<RawExpr, NoMemory>
    ensures { IfOk result (λ e. term e ≡ Bin op (term a) (term b)) }
{
    Ok(RawExpr::Bin(op, Box::new(alloc, (a, b))?))
}

/// Signs and `not`s take the operand behind them.
fn give(held: Open, e: RawExpr, alloc: Global) -> Result<Reading, NoMemory>
    ensures { IfOk result (λ r. state_of r ≡ give (opened held) (term e)) }
{
    match held {
        Open::Minus(rest) => give(rest.into_inner(), RawExpr::Neg(Box::new(alloc, e)?), alloc),
        Open::Deny(rest) => give(rest.into_inner(), RawExpr::Not(Box::new(alloc, e)?), alloc),
        other => Ok(Reading::Has(e, other)),
    }
}

// Whether an operator that stands further left takes the operand between them.
fn is_applied(earlier: BinOp, op: BinOp) -> bool
    ensures { result ≡ nat_le (operator_level op) (operator_level earlier) }
{
    operator_level(op) <= operator_level(earlier)
}

/// Operators that bind at least as tight take the operand, and the new one follows.
fn join(held: Open, e: RawExpr, op: BinOp, alloc: Global) -> Result<Open, NoMemory>
    ensures { IfOk result (λ r. opened r ≡ joined (opened held) (term e) op) }
{
    match held {
        Open::Nothing => Ok(Open::OneInfix(e, op)),
        Open::OneInfix(a, earlier) => {
            if is_applied(earlier, op) {
                Ok(Open::OneInfix(pair(alloc, earlier, a, e)?, op))
            } else {
                let below = Box::new(alloc, Open::OneInfix(a, earlier))?;
                Ok(Open::Infix(e, op, below))
            }
        }
        Open::Infix(a, earlier, rest) => {
            if is_applied(earlier, op) {
                join(rest.into_inner(), pair(alloc, earlier, a, e)?, op, alloc)
            } else {
                let below = Box::new(alloc, Open::Infix(a, earlier, rest))?;
                Ok(Open::Infix(e, op, below))
            }
        }
        other => Ok(Open::Infix(e, op, Box::new(alloc, other)?)),
    }
}

/// All operators up to the parenthesis take the operand, which is then whole.
fn close(held: Open, e: RawExpr, alloc: Global) -> Result<Reading, NoMemory>
    ensures { IfOk result (λ r. state_of r ≡ closed (opened held) (term e)) }
{
    match held {
        Open::Infix(a, op, rest) => close(rest.into_inner(), pair(alloc, op, a, e)?, alloc),
        Open::OneInfix(a, op) => Ok(Reading::Has(pair(alloc, op, a, e)?, Open::Nothing)),
        Open::Paren(rest) => give(rest.into_inner(), e, alloc),
        Open::OneParen => Ok(Reading::Has(e, Open::Nothing)),
        other => Ok(Reading::Has(e, other)),
    }
}

/// The whole expression, unless a parenthesis is open.
fn finish(held: Open, e: RawExpr, alloc: Global) -> Result<Option<RawExpr>, NoMemory>
    ensures { IfOk result (λ r. option_map term r ≡ whole (opened held) (term e)) }
{
    match held {
        Open::Nothing => Ok(Some(e)),
        Open::Infix(a, op, rest) => finish(rest.into_inner(), pair(alloc, op, a, e)?, alloc),
        Open::OneInfix(a, op) => Ok(Some(pair(alloc, op, a, e)?)),
        _ => Ok(None),
    }
}

fn has_paren(held: &Open) -> bool
    ensures { result ≡ has_paren (opened held.now) }
{
    match held {
        Open::Paren(_) | Open::OneParen => true,
        Open::Infix(_, _, rest) => has_paren(rest.get()),
        _ => false,
    }
}

fn compares(held: &Open) -> bool
    ensures { result ≡ compares (opened held.now) }
{
    match held {
        Open::Infix(_, op, rest) => {
            let level = operator_level(*op);
            level == 3 || (level > 3 && compares(rest.get()))
        }
        Open::OneInfix(_, op) => operator_level(*op) == 3,
        _ => false,
    }
}

fn starts_operand(symbol: Symbol) -> bool
    ensures { result ≡ starts_operand symbol }
{
    match symbol {
        Symbol::Number | Symbol::Name | Symbol::Not | Symbol::OpenParen => true,
        Symbol::Op(op) => matches!(op, BinOp::Sub),
        _ => false,
    }
}

fn goes_on_behind(held: &Open, symbol: Symbol) -> bool
    ensures { result ≡ goes_on_behind (opened held.now) symbol }
{
    match symbol {
        Symbol::Op(op) => !(operator_level(op) == 3 && compares(held)),
        Symbol::CloseParen => has_paren(held),
        _ => false,
    }
}

/// Whether a token with this symbol goes on with the expression.
pub fn goes_on(at: &Reading, symbol: Symbol) -> bool
    ensures { result ≡ goes_on (state_of at.now) symbol }
{
    match at {
        Reading::Awaits(_) => starts_operand(symbol),
        Reading::Has(_, held) => goes_on_behind(held, symbol),
    }
}

// A parenthesis opens.
fn paren(held: Open, alloc: Global) -> Result<Open, NoMemory>
    ensures { IfOk result (λ r. opened r ≡ Paren (opened held)) }
{
    match held {
        Open::Nothing => Ok(Open::OneParen),
        other => Ok(Open::Paren(Box::new(alloc, other)?)),
    }
}

fn operand_step(
    held: Open,
    symbol: Symbol,
    token: Token,
    alloc: Global,
) -> Result<Reading, NoMemory>
    ensures { IfOk result (λ r. state_of r ≡ operand_step (opened held) symbol token) }
{
    match symbol {
        Symbol::Number => give(held, RawExpr::Num(token), alloc),
        Symbol::Name => give(held, RawExpr::Local(token), alloc),
        Symbol::Not => Ok(Reading::Awaits(Open::Deny(Box::new(alloc, held)?))),
        Symbol::OpenParen => Ok(Reading::Awaits(paren(held, alloc)?)),
        _ => Ok(Reading::Awaits(Open::Minus(Box::new(alloc, held)?))),
    }
}

fn operator_step(held: Open, e: RawExpr, symbol: Symbol, alloc: Global) -> Result<Reading, NoMemory>
    ensures { IfOk result (λ r. state_of r ≡ operator_step (opened held) (term e) symbol) }
{
    match symbol {
        Symbol::Op(op) => Ok(Reading::Awaits(join(held, e, op, alloc)?)),
        _ => close(held, e, alloc),
    }
}

/// One more token, which goes on with the expression.
pub fn step(at: Reading, symbol: Symbol, token: Token, alloc: Global) -> Result<Reading, NoMemory>
    ensures { IfOk result (λ r. state_of r ≡ step (state_of at) (lexeme symbol token)) }
{
    match at {
        Reading::Awaits(held) => operand_step(held, symbol, token, alloc),
        Reading::Has(e, held) => operator_step(held, e, symbol, alloc),
    }
}

/// The expression, if it may end here.
pub fn end(at: Reading, alloc: Global) -> Result<Option<RawExpr>, NoMemory>
    ensures { IfOk result (λ r. option_map term r ≡ ended (state_of at)) }
{
    match at {
        Reading::Awaits(_) => Ok(None),
        Reading::Has(e, held) => finish(held, e, alloc),
    }
}
