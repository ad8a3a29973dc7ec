ghost use Rattle.std.specs.Prelude.{◌≡◌, ◌<◌, ◌≤◌, length, IfOk};
ghost use Rattle.txn_parse.specs.Symbols.{lexemes};
ghost use Rattle.txn_parse.specs.Gives.{Gives};
ghost use Rattle.script.specs.Rules.{read, Listed};
ghost use Rattle.script.specs.Items.{item};
ghost use Rattle.script.specs.Grammar.{txn, txns, client};

use crate::items::{RawItem, RawTxn};
use crate::tokens::{behind, next, token};
use morty_base::List;
use std::alloc::Global;
use txn_parse::{Symbol, separator};
use txn_text::{TextFault, Token};

#[tactic(auto, unfolding(crate::specs::Grammar::txn, crate::specs::Grammar::token))]
fn txn<'a>(text: &[u8], last: u32, toks: &'a [Token]) -> Result<(RawTxn, &'a [Token]), TextFault>
    ensures found { Gives (λ x. (x.0, lexemes text.now x.1.now)) result (read txn last (lexemes text.now toks.now)) }
    ensures shorter { IfOk result (λ x. length x.1.now < length toks.now) }
{
    let (name, rest) = token(text, last, toks, Symbol::Name)?;
    match next(text, rest) {
        Some(Symbol::At) => {
            let (at, rest) = behind(text, last, rest, Symbol::At, Symbol::Number)?;
            Ok((RawTxn { name, at: Some(at) }, rest))
        }
        _ => Ok((RawTxn { name, at: None }, rest)),
    }
}

// One transaction or more, with the closing brace.
fn some_txns<'a>(
    alloc: Global,
    text: &[u8],
    last: u32,
    toks: &'a [Token],
) -> Result<(List<RawTxn>, &'a [Token]), TextFault>
    ensures found { Gives (λ x. (x.0, lexemes text.now x.1.now)) result (read (Listed txn) last (lexemes text.now toks.now)) }
    ensures shorter { IfOk result (λ x. length x.1.now < length toks.now) }
{
    let mut txns = List::new(alloc);
    let mut rest = toks;
    'txns: loop {
        let (one, behind) = txn(text, last, rest)?;
        txns.push(one)?;
        let (more, behind) = separator(text, last, behind)?;
        rest = behind;
        if !more {
            return Ok((txns, rest));
        }
    }
}

#[tactic(auto, unfolding(crate::specs::Grammar::txns, crate::specs::Grammar::token))]
fn txns<'a>(
    alloc: Global,
    text: &[u8],
    last: u32,
    toks: &'a [Token],
) -> Result<(List<RawTxn>, &'a [Token]), TextFault>
    ensures found { Gives (λ x. (x.0, lexemes text.now x.1.now)) result (read txns last (lexemes text.now toks.now)) }
    ensures shorter { IfOk result (λ x. length x.1.now < length toks.now) }
{
    match next(text, toks) {
        Some(Symbol::CloseBlock) => {
            let (_, rest) = token(text, last, toks, Symbol::CloseBlock)?;
            Ok((List::new(alloc), rest))
        }
        _ => some_txns(alloc, text, last, toks),
    }
}

/// A client.
#[tactic(auto, unfolding(crate::specs::Grammar::client))]
pub fn client<'a>(
    alloc: Global,
    text: &[u8],
    last: u32,
    toks: &'a [Token],
) -> Result<(RawItem, &'a [Token]), TextFault>
    ensures found { Gives (λ x. (item x.0, lexemes text.now x.1.now)) result (read client last (lexemes text.now toks.now)) }
    ensures shorter { IfOk result (λ x. length x.1.now < length toks.now) }
{
    let (word, rest) = token(text, last, toks, Symbol::Client)?;
    let (number, rest) = token(text, last, rest, Symbol::Number)?;
    let (_, rest) = token(text, last, rest, Symbol::OpenBlock)?;
    let (txns, rest) = txns(alloc, text, last, rest)?;
    Ok((RawItem::Client { word, number, txns }, rest))
}
