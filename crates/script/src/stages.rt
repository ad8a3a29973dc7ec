ghost use Rattle.std.specs.Prelude.{◌≡◌, ◌<◌, ℕ, List, length};
ghost use Rattle.txn_text.specs.Kinds.{IsToken, AreTokens};
ghost use Rattle.txn_parse.specs.Symbols.{lexemes};
ghost use Rattle.txn_parse.specs.Gives.{last_line};
ghost use Rattle.txn_parse.specs.Faults.{IsWithinLimits};
ghost use Rattle.script.specs.Rules.{Derives};
ghost use Rattle.script.specs.Grammar.{script};
ghost use Rattle.script.specs.Stages.{IsReadAs, or_limit, cut_fault, IsCutAs, items_of};

use crate::items::RawItem;
use crate::reading::script;
use morty_base::List;
use std::alloc::Global;
use txn_parse::{first_past, last_line, syntax};
use txn_text::{FaultKind, TextFault, Token};

// The items of tokens of which none is past a limit.
fn read_within(
    alloc: Global,
    text: &[u8],
    last: u32,
    toks: &[Token],
) -> Result<List<RawItem>, TextFault>
    requires { IsWithinLimits (lexemes text.now toks.now) }
    ensures { IsReadAs (Derives script) last (lexemes text.now toks.now) (items_of result) }
{
    let (items, rest) = script(alloc, text, last, toks)?;
    if rest.is_empty() {
        Ok(items)
    } else {
        Err(syntax(last, rest))
    }
}

// A limit's fault in place of the end of the text.
fn or_limit(fault: TextFault, limit: TextFault) -> TextFault
    ensures { result ≡ or_limit fault limit }
{
    match fault {
        TextFault::At {
            kind: FaultKind::EndOfText,
            ..
        } => limit,
        other => other,
    }
}

// The fault at the first of the tokens that are left, or a limit's.
fn left_or_limit(rest: &[Token], limit: TextFault) -> TextFault
    ensures { (text : List ℕ) → result ≡ cut_fault (lexemes text rest.now) limit }
{
    match rest.first() {
        Some(token) => TextFault::At {
            line: token.line,
            kind: FaultKind::Syntax,
        },
        None => limit,
    }
}

// The fault of tokens that end with the first past a limit.
fn fault_of_cut(alloc: Global, text: &[u8], last: u32, cut: &[Token], limit: TextFault) -> TextFault
    ensures { IsCutAs last (lexemes text.now cut.now) limit result }
{
    match script(alloc, text, last, cut) {
        Err(fault) => or_limit(fault, limit),
        Ok((_, rest)) => left_or_limit(rest, limit),
    }
}

// The line in which a text ends, counted from the line of one of its tokens.
fn last_line_from(text: &[u8], token: Token) -> u32
    requires short { length text.now < u32.MAX }
    requires placed { IsToken text.now token }
    ensures { result ≡ last_line text.now }
{
    token.line - 1 + last_line(&text[token.start as usize..])
}

// The line in which a text ends, counted from that of its last token.
fn line_of_end(text: &[u8], toks: &[Token]) -> u32
    requires short { length text.now < u32.MAX }
    requires in_order { AreTokens text.now 0 toks.now }
    ensures { result ≡ last_line text.now }
{
    match toks.last() {
        Some(token) => last_line_from(text, *token),
        None => last_line(text),
    }
}

/// The items of a script's tokens, or their one fault of the second stage.
pub fn read_items(alloc: Global, text: &[u8], toks: &[Token]) -> Result<List<RawItem>, TextFault>
    requires short { length text.now < u32.MAX }
    requires in_order { AreTokens text.now 0 toks.now }
    ensures { IsReadAs (Derives script) (last_line text.now) (lexemes text.now toks.now) (items_of result) }
{
    let last = line_of_end(text, toks);
    match first_past(text, toks) {
        None => read_within(alloc, text, last, toks),
        Some((at, kind)) => {
            let limit = TextFault::At {
                line: toks[at].line,
                kind,
            };
            let (cut, _) = toks.split_at(at + 1);
            Err(fault_of_cut(alloc, text, last, cut, limit))
        }
    }
}
