ghost use Rattle.std.specs.Prelude.{◌≡◌, ◌≤◌, ◌<◌, length, IfOk};
ghost use Rattle.txn_parse.specs.Tree.{command};
ghost use Rattle.txn_parse.specs.Symbols.{lexemes};
ghost use Rattle.txn_parse.specs.Reading.{let_at, read_at, write_at, print_at, more_at, separator_at};
ghost use Rattle.txn_parse.specs.Gives.{Gives};

use crate::expressions::expression;
use crate::symbols::{Symbol, is, symbol_of};
use crate::tokens::{syntax, take};
use crate::tree::RawStmt;
use std::alloc::Global;
use txn_text::{TextFault, Token};

/// A `let` behind its first word.
#[tactic(auto, unfolding(crate::specs::Reading::let_at))]
pub fn let_statement<'a>(
    alloc: Global,
    text: &[u8],
    last: u32,
    toks: &'a [Token],
    room: u64,
) -> Result<(RawStmt, &'a [Token]), TextFault>
    ensures found { Gives (λ x. (command x.0, lexemes text.now x.1.now)) result (let_at last room (lexemes text.now toks.now)) }
    ensures no_longer { IfOk result (λ x. length x.1.now ≤ length toks.now) }
{
    let (local, rest) = take(text, last, toks, Symbol::Name)?;
    let (_, rest) = take(text, last, rest, Symbol::Assign)?;
    let (e, rest) = expression(alloc, text, last, rest, room)?;
    Ok((RawStmt::Let(local, e), rest))
}

/// A `read` behind its first word.
#[tactic(auto, unfolding(crate::specs::Reading::read_at))]
pub fn read_statement<'a>(
    alloc: Global,
    text: &[u8],
    last: u32,
    toks: &'a [Token],
    room: u64,
) -> Result<(RawStmt, &'a [Token]), TextFault>
    ensures found { Gives (λ x. (command x.0, lexemes text.now x.1.now)) result (read_at last room (lexemes text.now toks.now)) }
    ensures no_longer { IfOk result (λ x. length x.1.now ≤ length toks.now) }
{
    let (local, rest) = take(text, last, toks, Symbol::Name)?;
    let (table, rest) = take(text, last, rest, Symbol::Name)?;
    let (_, rest) = take(text, last, rest, Symbol::OpenIndex)?;
    let (index, rest) = expression(alloc, text, last, rest, room)?;
    let (_, rest) = take(text, last, rest, Symbol::CloseIndex)?;
    Ok((RawStmt::Read(local, table, index), rest))
}

/// A `write` behind its first word.
#[tactic(auto, unfolding(crate::specs::Reading::write_at))]
pub fn write_statement<'a>(
    alloc: Global,
    text: &[u8],
    last: u32,
    toks: &'a [Token],
    room: u64,
) -> Result<(RawStmt, &'a [Token]), TextFault>
    ensures found { Gives (λ x. (command x.0, lexemes text.now x.1.now)) result (write_at last room (lexemes text.now toks.now)) }
    ensures no_longer { IfOk result (λ x. length x.1.now ≤ length toks.now) }
{
    let (table, rest) = take(text, last, toks, Symbol::Name)?;
    let (_, rest) = take(text, last, rest, Symbol::OpenIndex)?;
    let (index, rest) = expression(alloc, text, last, rest, room)?;
    let (_, rest) = take(text, last, rest, Symbol::CloseIndex)?;
    let (e, rest) = expression(alloc, text, last, rest, room)?;
    Ok((RawStmt::Write(table, index, e), rest))
}

/// A `print` behind its first word.
#[tactic(auto, unfolding(crate::specs::Reading::print_at))]
pub fn print_statement<'a>(
    alloc: Global,
    text: &[u8],
    last: u32,
    toks: &'a [Token],
    room: u64,
) -> Result<(RawStmt, &'a [Token]), TextFault>
    ensures found { Gives (λ x. (command x.0, lexemes text.now x.1.now)) result (print_at last room (lexemes text.now toks.now)) }
    ensures no_longer { IfOk result (λ x. length x.1.now ≤ length toks.now) }
{
    let (e, rest) = expression(alloc, text, last, toks, room)?;
    Ok((RawStmt::Print(e), rest))
}

fn more<'a>(text: &[u8], toks: &'a [Token]) -> (bool, &'a [Token])
    ensures found { more_at (lexemes text.now toks.now) ≡ Ok (result.0, lexemes text.now result.1.now) }
    ensures no_longer { length result.1.now ≤ length toks.now }
{
    match toks.split_first() {
        Some((token, rest)) if is(symbol_of(text, *token), Symbol::CloseBlock) => (false, rest),
        _ => (true, toks),
    }
}

/// Behind a statement: whether one more follows.
#[tactic(auto, unfolding(crate::specs::Reading::separator_at))]
pub fn separator<'a>(
    text: &[u8],
    last: u32,
    toks: &'a [Token],
) -> Result<(bool, &'a [Token]), TextFault>
    ensures found { Gives (λ x. (x.0, lexemes text.now x.1.now)) result (separator_at last (lexemes text.now toks.now)) }
    ensures no_longer { IfOk result (λ x. length x.1.now ≤ length toks.now) }
{
    let Some((token, rest)) = toks.split_first() else {
        return Err(syntax(last, toks));
    };
    match symbol_of(text, *token) {
        Symbol::CloseBlock => Ok((false, rest)),
        Symbol::Semicolon => Ok(more(text, rest)),
        _ => Err(syntax(last, toks)),
    }
}
