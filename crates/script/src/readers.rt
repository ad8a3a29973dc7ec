ghost use Rattle.std.specs.Prelude.{◌≡◌, ◌<◌, ◌≤◌, length, IfOk};
ghost use Rattle.txn_parse.specs.Symbols.{lexemes};
ghost use Rattle.txn_parse.specs.Gives.{Gives};
ghost use Rattle.script.specs.Rules.{read};
ghost use Rattle.script.specs.Items.{item};
ghost use Rattle.script.specs.Grammar.{version, setting_of, policy_of, number_setting, policy_setting, setting, table, first, store, program, seeded, net_of, net, end_item};

use crate::items::{RawItem, RawNet, SettingName};
use crate::setup::Policy;
use crate::tokens::{behind, next, signed, token};
use std::alloc::Global;
use txn_parse::{RawProg, Symbol, read_block, symbol_of, syntax};
use txn_text::{TextFault, Token};

/// The number of the script's form.
#[tactic(auto, unfolding(crate::specs::Grammar::version))]
pub fn version<'a>(
    text: &[u8],
    last: u32,
    toks: &'a [Token],
) -> Result<(RawItem, &'a [Token]), TextFault>
    ensures found { Gives (λ x. (item x.0, lexemes text.now x.1.now)) result (read version last (lexemes text.now toks.now)) }
    ensures shorter { IfOk result (λ x. length x.1.now < length toks.now) }
{
    let (number, rest) = behind(text, last, toks, Symbol::Morty, Symbol::Number)?;
    Ok((RawItem::Version(number), rest))
}

fn setting_of(symbol: Symbol) -> Option<SettingName>
    ensures { result ≡ setting_of symbol }
{
    match symbol {
        Symbol::Replicas => Some(SettingName::Replicas),
        Symbol::Wardens => Some(SettingName::Wardens),
        Symbol::Tries => Some(SettingName::Tries),
        Symbol::Execs => Some(SettingName::Execs),
        Symbol::Gap => Some(SettingName::Gap),
        Symbol::Turns => Some(SettingName::Turns),
        _ => None,
    }
}

fn policy_of(symbol: Symbol) -> Option<Policy>
    ensures { result ≡ policy_of symbol }
{
    match symbol {
        Symbol::Rewind => Some(Policy::Rewind),
        Symbol::Abort => Some(Policy::Abort),
        _ => None,
    }
}

#[tactic(auto, unfolding(crate::specs::Grammar::policy_setting))]
fn policy_setting<'a>(
    text: &[u8],
    last: u32,
    toks: &'a [Token],
) -> Result<(RawItem, &'a [Token]), TextFault>
    ensures found { Gives (λ x. (item x.0, lexemes text.now x.1.now)) result (read policy_setting last (lexemes text.now toks.now)) }
    ensures shorter { IfOk result (λ x. length x.1.now < length toks.now) }
{
    let (word, rest) = token(text, last, toks, Symbol::Policy)?;
    let Some((second, behind)) = rest.split_first() else {
        return Err(syntax(last, rest));
    };
    match policy_of(symbol_of(text, *second)) {
        Some(policy) => Ok((RawItem::Policy { word, policy }, behind)),
        None => Err(syntax(last, rest)),
    }
}

/// A setting.
#[tactic(auto, unfolding(crate::specs::Grammar::setting, crate::specs::Grammar::number_setting))]
pub fn setting<'a>(
    text: &[u8],
    last: u32,
    toks: &'a [Token],
) -> Result<(RawItem, &'a [Token]), TextFault>
    ensures found { Gives (λ x. (item x.0, lexemes text.now x.1.now)) result (read setting last (lexemes text.now toks.now)) }
    ensures shorter { IfOk result (λ x. length x.1.now < length toks.now) }
{
    if let Some((first, rest)) = toks.split_first() {
        if let Some(name) = setting_of(symbol_of(text, *first)) {
            let (number, rest) = token(text, last, rest, Symbol::Number)?;
            return Ok((
                RawItem::Setting {
                    name,
                    word: *first,
                    number,
                },
                rest,
            ));
        }
    }
    policy_setting(text, last, toks)
}

#[tactic(auto, unfolding(crate::specs::Grammar::table))]
fn table<'a>(text: &[u8], last: u32, toks: &'a [Token]) -> Result<(RawItem, &'a [Token]), TextFault>
    ensures found { Gives (λ x. (item x.0, lexemes text.now x.1.now)) result (read table last (lexemes text.now toks.now)) }
    ensures shorter { IfOk result (λ x. length x.1.now < length toks.now) }
{
    let (name, rest) = behind(text, last, toks, Symbol::Table, Symbol::Name)?;
    Ok((RawItem::Table(name), rest))
}

#[tactic(auto, unfolding(crate::specs::Grammar::first))]
fn first<'a>(text: &[u8], last: u32, toks: &'a [Token]) -> Result<(RawItem, &'a [Token]), TextFault>
    ensures found { Gives (λ x. (item x.0, lexemes text.now x.1.now)) result (read first last (lexemes text.now toks.now)) }
    ensures shorter { IfOk result (λ x. length x.1.now < length toks.now) }
{
    let (word, rest) = token(text, last, toks, Symbol::First)?;
    let (table, rest) = token(text, last, rest, Symbol::Name)?;
    let (_, rest) = token(text, last, rest, Symbol::OpenIndex)?;
    let (index, rest) = signed(text, last, rest)?;
    let (_, rest) = token(text, last, rest, Symbol::CloseIndex)?;
    let (value, rest) = signed(text, last, rest)?;
    Ok((
        RawItem::First {
            word,
            table,
            index,
            value,
        },
        rest,
    ))
}

/// A table or a first value.
#[tactic(auto, unfolding(crate::specs::Grammar::store, crate::specs::Grammar::table, crate::specs::Grammar::token))]
pub fn store<'a>(
    text: &[u8],
    last: u32,
    toks: &'a [Token],
) -> Result<(RawItem, &'a [Token]), TextFault>
    ensures found { Gives (λ x. (item x.0, lexemes text.now x.1.now)) result (read store last (lexemes text.now toks.now)) }
    ensures shorter { IfOk result (λ x. length x.1.now < length toks.now) }
{
    match next(text, toks) {
        Some(Symbol::Table) => table(text, last, toks),
        _ => first(text, last, toks),
    }
}

/// A program.
#[tactic(auto, unfolding(crate::specs::Grammar::program))]
pub fn program<'a>(
    alloc: Global,
    text: &[u8],
    last: u32,
    toks: &'a [Token],
) -> Result<(RawItem, &'a [Token]), TextFault>
    ensures found { Gives (λ x. (item x.0, lexemes text.now x.1.now)) result (read program last (lexemes text.now toks.now)) }
    ensures shorter { IfOk result (λ x. length x.1.now < length toks.now) }
{
    let (word, rest) = token(text, last, toks, Symbol::Program)?;
    let (name, block) = token(text, last, rest, Symbol::Name)?;
    let (body, rest) = read_block(alloc, text, last, block)?;
    let prog = RawProg {
        brace: block[0],
        body,
    };
    Ok((RawItem::Program { word, name, prog }, rest))
}

fn net_of(symbol: Symbol) -> Option<RawNet>
    ensures { result ≡ net_of symbol }
{
    match symbol {
        Symbol::Fair => Some(RawNet::Fair),
        Symbol::Listed => Some(RawNet::Listed),
        _ => None,
    }
}

#[tactic(auto, unfolding(crate::specs::Grammar::seeded))]
fn seeded<'a>(text: &[u8], last: u32, toks: &'a [Token]) -> Result<(RawNet, &'a [Token]), TextFault>
    ensures found { Gives (λ x. (x.0, lexemes text.now x.1.now)) result (read seeded last (lexemes text.now toks.now)) }
    ensures shorter { IfOk result (λ x. length x.1.now < length toks.now) }
{
    let (seed, rest) = behind(text, last, toks, Symbol::Seeded, Symbol::Number)?;
    let (late, rest) = behind(text, last, rest, Symbol::Late, Symbol::Number)?;
    let (repeat, rest) = behind(text, last, rest, Symbol::Repeat, Symbol::Number)?;
    let (hurry, rest) = behind(text, last, rest, Symbol::Hurry, Symbol::Number)?;
    Ok((
        RawNet::Seeded {
            seed,
            late,
            repeat,
            hurry,
        },
        rest,
    ))
}

/// A net.
#[tactic(auto, unfolding(crate::specs::Grammar::net))]
pub fn net<'a>(
    text: &[u8],
    last: u32,
    toks: &'a [Token],
) -> Result<(RawItem, &'a [Token]), TextFault>
    ensures found { Gives (λ x. (item x.0, lexemes text.now x.1.now)) result (read net last (lexemes text.now toks.now)) }
    ensures shorter { IfOk result (λ x. length x.1.now < length toks.now) }
{
    let (_, rest) = token(text, last, toks, Symbol::Net)?;
    if let Some((first, behind)) = rest.split_first() {
        if let Some(net) = net_of(symbol_of(text, *first)) {
            return Ok((RawItem::Net(net), behind));
        }
    }
    let (net, rest) = seeded(text, last, rest)?;
    Ok((RawItem::Net(net), rest))
}

/// The end of a script.
#[tactic(auto, unfolding(crate::specs::Grammar::end_item))]
pub fn end_item<'a>(
    text: &[u8],
    last: u32,
    toks: &'a [Token],
) -> Result<(RawItem, &'a [Token]), TextFault>
    ensures found { Gives (λ x. (item x.0, lexemes text.now x.1.now)) result (read end_item last (lexemes text.now toks.now)) }
    ensures shorter { IfOk result (λ x. length x.1.now < length toks.now) }
{
    let (word, rest) = token(text, last, toks, Symbol::End)?;
    Ok((RawItem::End(word), rest))
}
