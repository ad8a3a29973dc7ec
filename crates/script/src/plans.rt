ghost use Rattle.std.specs.Prelude.{◌≡◌, ◌<◌, ◌≤◌, length, IfOk};
ghost use Rattle.txn_parse.specs.Symbols.{lexemes};
ghost use Rattle.txn_parse.specs.Gives.{Gives};
ghost use Rattle.script.specs.Rules.{read, Listed};
ghost use Rattle.script.specs.Items.{item};
ghost use Rattle.script.specs.Grammar.{node_of, node, version_name, plain_pick_of, named_pick, pick, at_item, calls_of, entry, list_item, plan};

use crate::items::{Calls, NodeKind, RawEntry, RawItem, RawNode, RawPick, RawVersion};
use crate::tokens::{behind, next, token};
use morty_base::List;
use std::alloc::Global;
use txn_parse::{Symbol, separator, symbol_of, syntax};
use txn_text::{TextFault, Token};

fn node_of(symbol: Symbol) -> Option<NodeKind>
    ensures { result ≡ node_of symbol }
{
    match symbol {
        Symbol::Client => Some(NodeKind::Client),
        Symbol::Replica => Some(NodeKind::Replica),
        Symbol::Warden => Some(NodeKind::Warden),
        _ => None,
    }
}

#[tactic(auto, unfolding(crate::specs::Grammar::node))]
fn node<'a>(text: &[u8], last: u32, toks: &'a [Token]) -> Result<(RawNode, &'a [Token]), TextFault>
    ensures found { Gives (λ x. (x.0, lexemes text.now x.1.now)) result (read node last (lexemes text.now toks.now)) }
    ensures shorter { IfOk result (λ x. length x.1.now < length toks.now) }
{
    if let Some((first, rest)) = toks.split_first() {
        if let Some(kind) = node_of(symbol_of(text, *first)) {
            let (number, rest) = token(text, last, rest, Symbol::Number)?;
            return Ok((RawNode { kind, number }, rest));
        }
    }
    Err(syntax(last, toks))
}

#[tactic(auto, unfolding(crate::specs::Grammar::version_name))]
fn version_name<'a>(
    text: &[u8],
    last: u32,
    toks: &'a [Token],
) -> Result<(RawVersion, &'a [Token]), TextFault>
    ensures found { Gives (λ x. (x.0, lexemes text.now x.1.now)) result (read version_name last (lexemes text.now toks.now)) }
    ensures shorter { IfOk result (λ x. length x.1.now < length toks.now) }
{
    let (ts, rest) = token(text, last, toks, Symbol::Number)?;
    let (client, rest) = behind(text, last, rest, Symbol::Dot, Symbol::Number)?;
    Ok((RawVersion { ts, client }, rest))
}

fn plain_pick_of(symbol: Symbol) -> Option<RawPick>
    ensures { result ≡ plain_pick_of symbol }
{
    match symbol {
        Symbol::Go => Some(RawPick::Go),
        Symbol::Hurry => Some(RawPick::Hurry),
        Symbol::Stop => Some(RawPick::Stop),
        _ => None,
    }
}

#[tactic(auto, unfolding(crate::specs::Grammar::named_pick, crate::specs::Grammar::token))]
fn named_pick<'a>(
    text: &[u8],
    last: u32,
    toks: &'a [Token],
) -> Result<(RawPick, &'a [Token]), TextFault>
    ensures found { Gives (λ x. (x.0, lexemes text.now x.1.now)) result (read named_pick last (lexemes text.now toks.now)) }
    ensures shorter { IfOk result (λ x. length x.1.now < length toks.now) }
{
    match next(text, toks) {
        Some(Symbol::Deliver) => {
            let (number, rest) = behind(text, last, toks, Symbol::Deliver, Symbol::Number)?;
            Ok((RawPick::Deliver(number), rest))
        }
        Some(Symbol::Recover) => {
            let (_, rest) = token(text, last, toks, Symbol::Recover)?;
            let (version, rest) = version_name(text, last, rest)?;
            let (eid, rest) = token(text, last, rest, Symbol::Number)?;
            Ok((RawPick::Recover(version, eid), rest))
        }
        _ => {
            let (_, rest) = token(text, last, toks, Symbol::Truncate)?;
            let (version, rest) = version_name(text, last, rest)?;
            Ok((RawPick::Truncate(version), rest))
        }
    }
}

#[tactic(auto, unfolding(crate::specs::Grammar::pick))]
fn pick<'a>(text: &[u8], last: u32, toks: &'a [Token]) -> Result<(RawPick, &'a [Token]), TextFault>
    ensures found { Gives (λ x. (x.0, lexemes text.now x.1.now)) result (read pick last (lexemes text.now toks.now)) }
    ensures shorter { IfOk result (λ x. length x.1.now < length toks.now) }
{
    if let Some((first, rest)) = toks.split_first() {
        if let Some(pick) = plain_pick_of(symbol_of(text, *first)) {
            return Ok((pick, rest));
        }
    }
    named_pick(text, last, toks)
}

#[tactic(auto, unfolding(crate::specs::Grammar::at_item))]
fn at_item<'a>(
    text: &[u8],
    last: u32,
    toks: &'a [Token],
) -> Result<(RawItem, &'a [Token]), TextFault>
    ensures found { Gives (λ x. (item x.0, lexemes text.now x.1.now)) result (read at_item last (lexemes text.now toks.now)) }
    ensures shorter { IfOk result (λ x. length x.1.now < length toks.now) }
{
    let (word, rest) = token(text, last, toks, Symbol::At)?;
    let (now, rest) = token(text, last, rest, Symbol::Number)?;
    let (node, rest) = node(text, last, rest)?;
    let (pick, rest) = pick(text, last, rest)?;
    Ok((
        RawItem::At {
            word,
            now,
            node,
            pick,
        },
        rest,
    ))
}

fn calls_of(symbol: Symbol) -> Option<Calls>
    ensures { result ≡ calls_of symbol }
{
    match symbol {
        Symbol::Wait => Some(Calls::Wait),
        Symbol::Next => Some(Calls::Next),
        Symbol::Newest => Some(Calls::Newest),
        _ => None,
    }
}

#[tactic(auto, unfolding(crate::specs::Grammar::entry, crate::specs::Grammar::token))]
fn entry<'a>(
    text: &[u8],
    last: u32,
    toks: &'a [Token],
) -> Result<(RawEntry, &'a [Token]), TextFault>
    ensures found { Gives (λ x. (x.0, lexemes text.now x.1.now)) result (read entry last (lexemes text.now toks.now)) }
    ensures shorter { IfOk result (λ x. length x.1.now < length toks.now) }
{
    if let Some((first, rest)) = toks.split_first() {
        if let Some(calls) = calls_of(symbol_of(text, *first)) {
            return match next(text, rest) {
                Some(Symbol::Number) => {
                    let (number, rest) = token(text, last, rest, Symbol::Number)?;
                    Ok((RawEntry::Calls(calls, Some(number)), rest))
                }
                _ => Ok((RawEntry::Calls(calls, None), rest)),
            };
        }
    }
    let (pick, rest) = pick(text, last, toks)?;
    Ok((RawEntry::One(pick), rest))
}

/// The entries of a list, with its closing brace.
fn entries<'a>(
    alloc: Global,
    text: &[u8],
    last: u32,
    toks: &'a [Token],
) -> Result<(List<RawEntry>, &'a [Token]), TextFault>
    ensures found { Gives (λ x. (x.0, lexemes text.now x.1.now)) result (read (Listed entry) last (lexemes text.now toks.now)) }
    ensures shorter { IfOk result (λ x. length x.1.now < length toks.now) }
{
    let mut entries = List::new(alloc);
    let mut rest = toks;
    'entries: loop {
        let (one, behind) = entry(text, last, rest)?;
        entries.push(one)?;
        let (more, behind) = separator(text, last, behind)?;
        rest = behind;
        if !more {
            return Ok((entries, rest));
        }
    }
}

#[tactic(auto, unfolding(crate::specs::Grammar::list_item))]
fn list_item<'a>(
    alloc: Global,
    text: &[u8],
    last: u32,
    toks: &'a [Token],
) -> Result<(RawItem, &'a [Token]), TextFault>
    ensures found { Gives (λ x. (item x.0, lexemes text.now x.1.now)) result (read list_item last (lexemes text.now toks.now)) }
    ensures shorter { IfOk result (λ x. length x.1.now < length toks.now) }
{
    let (word, rest) = token(text, last, toks, Symbol::List)?;
    let (node, rest) = node(text, last, rest)?;
    let (_, rest) = token(text, last, rest, Symbol::OpenBlock)?;
    let (entries, rest) = entries(alloc, text, last, rest)?;
    Ok((
        RawItem::List {
            word,
            node,
            entries,
        },
        rest,
    ))
}

/// A plan item.
#[tactic(auto, unfolding(crate::specs::Grammar::plan, crate::specs::Grammar::at_item, crate::specs::Grammar::token))]
pub fn plan<'a>(
    alloc: Global,
    text: &[u8],
    last: u32,
    toks: &'a [Token],
) -> Result<(RawItem, &'a [Token]), TextFault>
    ensures found { Gives (λ x. (item x.0, lexemes text.now x.1.now)) result (read plan last (lexemes text.now toks.now)) }
    ensures shorter { IfOk result (λ x. length x.1.now < length toks.now) }
{
    match next(text, toks) {
        Some(Symbol::At) => at_item(text, last, toks),
        _ => list_item(alloc, text, last, toks),
    }
}
