ghost use Rattle.std.specs.Prelude.{◌<◌, ◌≤◌, length, IfOk, IfSome, MatchOption};
ghost use Rattle.txn_parse.specs.Tree.{term};
ghost use Rattle.txn_parse.specs.Symbols.{lexeme, lexemes};
ghost use Rattle.txn_parse.specs.Pending.{state_of};
ghost use Rattle.txn_parse.specs.Reading.{expr_at, EndsAt, GoesOnWith};
ghost use Rattle.txn_parse.specs.Gives.{Gives};

use crate::pending::{Open, Reading, end, goes_on, step};
use crate::symbols::{Symbol, symbol_of};
use crate::tokens::syntax;
use crate::tree::RawExpr;
use std::alloc::Global;
use txn_text::{FaultKind, TextFault, Token};

// The next token, where it goes on with an expression, with its symbol and the tokens behind it.
fn next<'a>(text: &[u8], at: &Reading, toks: &'a [Token]) -> Option<(Symbol, Token, &'a [Token])>
    ensures found { MatchOption result (EndsAt (state_of at.now) (lexemes text.now toks.now)) (λ x. GoesOnWith (state_of at.now) (lexemes text.now toks.now) (lexeme x.0 x.1) (lexemes text.now x.2.now)) }
    ensures shorter { IfSome result (λ x. length x.2.now < length toks.now) }
{
    let (token, rest) = toks.split_first()?;
    let symbol = symbol_of(text, *token);
    if goes_on(at, symbol) {
        Some((symbol, *token, rest))
    } else {
        None
    }
}

/// An outermost expression of at most so many tokens, and the tokens behind it.
pub fn expression<'a>(
    alloc: Global,
    text: &[u8],
    last: u32,
    toks: &'a [Token],
    room: u64,
) -> Result<(RawExpr, &'a [Token]), TextFault>
    ensures found { Gives (λ x. (term x.0, lexemes text.now x.1.now)) result (expr_at last room (lexemes text.now toks.now)) }
    ensures no_longer { IfOk result (λ x. length x.1.now ≤ length toks.now) }
{
    let mut at = Reading::Awaits(Open::Nothing);
    let mut rest = toks;
    let mut left = room;
    while let Some((symbol, token, behind)) = next(text, &at, rest) {
        if left == 0 {
            return Err(TextFault::At {
                line: token.line,
                kind: FaultKind::LongExpression,
            });
        }
        at = step(at, symbol, token, alloc)?;
        rest = behind;
        left -= 1;
    }
    match end(at, alloc)? {
        Some(e) => Ok((e, rest)),
        None => Err(syntax(last, rest)),
    }
}
