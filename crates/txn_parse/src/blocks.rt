ghost use Rattle.std.specs.Prelude.{◌≡◌, ◌≤◌, ◌<◌, length, IfOk};
ghost use Rattle.txn_parse.specs.Tree.{command, commands};
ghost use Rattle.txn_parse.specs.Symbols.{lexemes};
ghost use Rattle.txn_parse.specs.Reading.{else_at, if_at, repeat_at, stmt_at, block_at, block_from};
ghost use Rattle.txn_parse.specs.Gives.{Gives};

use crate::expressions::expression;
use crate::statements::{
    let_statement, print_statement, read_statement, separator, write_statement,
};
use crate::symbols::{Symbol, is, symbol_of};
use crate::tokens::{syntax, take};
use crate::tree::{RawBlock, RawStmt};
use morty_base::List;
use std::alloc::Global;
use txn_text::{FaultKind, TextFault, Token};

/// The block behind an `else`, or none where no `else` follows.
#[cycle(blocks)]
#[tactic(auto, unfolding(crate::specs::Reading::else_at))]
fn else_block<'a>(
    alloc: Global,
    text: &[u8],
    last: u32,
    toks: &'a [Token],
    room: u64,
    depth: u64,
) -> Result<(RawBlock, &'a [Token]), TextFault>
    ensures found { Gives (λ x. (commands x.0, lexemes text.now x.1.now)) result (else_at (block_at last room depth) (lexemes text.now toks.now)) }
    ensures no_longer { IfOk result (λ x. length x.1.now ≤ length toks.now) }
{
    match toks.split_first() {
        Some((token, rest)) if is(symbol_of(text, *token), Symbol::Else) => block(
            alloc, text, last, rest, room, depth,
        ),
        _ => Ok((
            RawBlock {
                stmts: List::new(alloc),
            },
            toks,
        )),
    }
}

/// An `if` behind its first word.
#[cycle(blocks)]
#[tactic(auto, unfolding(crate::specs::Reading::if_at))]
fn if_statement<'a>(
    alloc: Global,
    text: &[u8],
    last: u32,
    toks: &'a [Token],
    room: u64,
    depth: u64,
) -> Result<(RawStmt, &'a [Token]), TextFault>
    ensures found { Gives (λ x. (command x.0, lexemes text.now x.1.now)) result (if_at last room (block_at last room depth) (lexemes text.now toks.now)) }
    ensures no_longer { IfOk result (λ x. length x.1.now ≤ length toks.now) }
{
    let (e, rest) = expression(alloc, text, last, toks, room)?;
    let (first, rest) = block(alloc, text, last, rest, room, depth)?;
    let (second, rest) = else_block(alloc, text, last, rest, room, depth)?;
    Ok((RawStmt::If(e, first, second), rest))
}

/// A `repeat` behind its first word.
#[cycle(blocks)]
#[tactic(auto, unfolding(crate::specs::Reading::repeat_at))]
fn repeat_statement<'a>(
    alloc: Global,
    text: &[u8],
    last: u32,
    toks: &'a [Token],
    room: u64,
    depth: u64,
) -> Result<(RawStmt, &'a [Token]), TextFault>
    ensures found { Gives (λ x. (command x.0, lexemes text.now x.1.now)) result (repeat_at last (block_at last room depth) (lexemes text.now toks.now)) }
    ensures no_longer { IfOk result (λ x. length x.1.now ≤ length toks.now) }
{
    let (times, rest) = take(text, last, toks, Symbol::Number)?;
    let (body, rest) = block(alloc, text, last, rest, room, depth)?;
    Ok((RawStmt::Repeat(times, body), rest))
}

/// A statement, in which an expression may have so many tokens and so many blocks may stand in one another.
#[cycle(blocks)]
#[tactic(auto, unfolding(crate::specs::Reading::stmt_at))]
fn statement<'a>(
    alloc: Global,
    text: &[u8],
    last: u32,
    toks: &'a [Token],
    room: u64,
    depth: u64,
) -> Result<(RawStmt, &'a [Token]), TextFault>
    ensures found { Gives (λ x. (command x.0, lexemes text.now x.1.now)) result (stmt_at last room (block_at last room depth) (lexemes text.now toks.now)) }
    ensures shorter { IfOk result (λ x. length x.1.now < length toks.now) }
{
    let Some((token, rest)) = toks.split_first() else {
        return Err(syntax(last, toks));
    };
    match symbol_of(text, *token) {
        Symbol::Let => let_statement(alloc, text, last, rest, room),
        Symbol::Read => read_statement(alloc, text, last, rest, room),
        Symbol::Write => write_statement(alloc, text, last, rest, room),
        Symbol::Print => print_statement(alloc, text, last, rest, room),
        Symbol::If => if_statement(alloc, text, last, rest, room, depth),
        Symbol::Repeat => repeat_statement(alloc, text, last, rest, room, depth),
        Symbol::Abort => Ok((RawStmt::Abort, rest)),
        _ => Err(syntax(last, toks)),
    }
}

/// A block, where an expression may have so many tokens and so many blocks may stand in one another.
#[cycle(blocks)]
pub fn block<'a>(
    alloc: Global,
    text: &[u8],
    last: u32,
    toks: &'a [Token],
    room: u64,
    depth: u64,
) -> Result<(RawBlock, &'a [Token]), TextFault>
    ensures found { Gives (λ x. (commands x.0, lexemes text.now x.1.now)) result (block_at last room depth (lexemes text.now toks.now)) }
    ensures shorter { IfOk result (λ x. length x.1.now < length toks.now) }
{
    let (brace, behind) = take(text, last, toks, Symbol::OpenBlock)?;
    if depth == 0 {
        return Err(TextFault::At {
            line: brace.line,
            kind: FaultKind::Deep,
        });
    }
    let mut rest = behind;
    let mut stmts = List::new(alloc);
    'stmts: loop {
        let (stmt, behind) = statement(alloc, text, last, rest, room, depth - 1)?;
        stmts.push(stmt)?;
        let (more, behind) = separator(text, last, behind)?;
        rest = behind;
        if !more {
            return Ok((RawBlock { stmts }, rest));
        }
    }
}

/// The block in front, without limits on expressions and blocks, and the tokens behind it. A fault is at the first token
/// such that no block begins with the tokens up to it, or at the end of the text, whose last line is `last`.
pub fn read_block<'a>(
    alloc: Global,
    text: &[u8],
    last: u32,
    toks: &'a [Token],
) -> Result<(RawBlock, &'a [Token]), TextFault>
    ensures exact { Gives (λ x. (commands x.0, lexemes text.now x.1.now)) result (block_from last (lexemes text.now toks.now)) }
    ensures shorter { IfOk result (λ x. length x.1.now < length toks.now) }
{
    let most = toks.len() as u64;
    block(alloc, text, last, toks, most, most)
}
