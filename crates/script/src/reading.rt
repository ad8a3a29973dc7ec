ghost use Rattle.std.specs.Prelude.{◌≡◌, ◌<◌, ◌≤◌, length, [], IfOk};
ghost use Rattle.txn_parse.specs.Symbols.{lexemes};
ghost use Rattle.txn_parse.specs.Gives.{Gives};
ghost use Rattle.script.specs.Rules.{read, next_is, begins, Many, Into, Derives};
ghost use Rattle.script.specs.Items.{item, items};
ghost use Rattle.script.specs.Grammar.{script, version, net, end_item, single, as_list, optional};
ghost use Rattle.script.specs.Groups.{rule_of, joined, script_by};

use crate::clients::client;
use crate::items::RawItem;
use crate::plans::plan;
use crate::readers::{end_item, net, program, setting, store, version};
use crate::tokens::next;
use morty_base::List;
use std::alloc::Global;
use txn_parse::Symbol;
use txn_text::{TextFault, Token};

/// Items of one kind that stand one after another.
#[derive(Clone, Copy)]
pub enum Group {
    Settings,
    Stores,
    Programs,
    Clients,
    Plans,
}

// Whether the next token begins an item of the group.
#[tactic(auto, unfolding(crate::specs::Grammar::setting, crate::specs::Grammar::number_setting, crate::specs::Grammar::policy_setting, crate::specs::Grammar::store, crate::specs::Grammar::table, crate::specs::Grammar::first, crate::specs::Grammar::program, crate::specs::Grammar::client, crate::specs::Grammar::plan, crate::specs::Grammar::at_item, crate::specs::Grammar::list_item, crate::specs::Grammar::token))]
fn begins(text: &[u8], toks: &[Token], group: Group) -> bool
    ensures { result ≡ next_is (begins (rule_of group)) (lexemes text.now toks.now) }
{
    match (next(text, toks), group) {
        (
            Some(
                Symbol::Replicas
                | Symbol::Wardens
                | Symbol::Tries
                | Symbol::Execs
                | Symbol::Gap
                | Symbol::Turns
                | Symbol::Policy,
            ),
            Group::Settings,
        ) => true,
        (Some(Symbol::Table | Symbol::First), Group::Stores) => true,
        (Some(Symbol::Program), Group::Programs) => true,
        (Some(Symbol::Client), Group::Clients) => true,
        (Some(Symbol::At | Symbol::List), Group::Plans) => true,
        _ => false,
    }
}

// An item of the group.
fn one_of<'a>(
    alloc: Global,
    text: &[u8],
    last: u32,
    toks: &'a [Token],
    group: Group,
) -> Result<(RawItem, &'a [Token]), TextFault>
    ensures found { Gives (λ x. (item x.0, lexemes text.now x.1.now)) result (read (rule_of group) last (lexemes text.now toks.now)) }
    ensures shorter { IfOk result (λ x. length x.1.now < length toks.now) }
{
    match group {
        Group::Settings => setting(text, last, toks),
        Group::Stores => store(text, last, toks),
        Group::Programs => program(alloc, text, last, toks),
        Group::Clients => client(alloc, text, last, toks),
        Group::Plans => plan(alloc, text, last, toks),
    }
}

// All items of the group in front, behind those that are there.
fn all_of<'a>(
    alloc: Global,
    text: &[u8],
    last: u32,
    toks: &'a [Token],
    group: Group,
    front: List<RawItem>,
) -> Result<(List<RawItem>, &'a [Token]), TextFault>
    ensures found { Gives (λ x. (items x.0, lexemes text.now x.1.now)) result (joined (items front) (read (Many (rule_of group)) last (lexemes text.now toks.now))) }
{
    let mut items = front;
    let mut rest = toks;
    'items: while begins(text, rest, group) {
        let (one, behind) = one_of(alloc, text, last, rest, group)?;
        items.push(one)?;
        rest = behind;
    }
    Ok((items, rest))
}

fn opening<'a>(
    alloc: Global,
    text: &[u8],
    last: u32,
    toks: &'a [Token],
) -> Result<(List<RawItem>, &'a [Token]), TextFault>
    ensures found { Gives (λ x. (items x.0, lexemes text.now x.1.now)) result (joined [] (read (Into single version) last (lexemes text.now toks.now))) }
{
    let (one, rest) = version(text, last, toks)?;
    let mut items = List::new(alloc);
    items.push(one)?;
    Ok((items, rest))
}

#[tactic(auto, unfolding(crate::specs::Grammar::net, crate::specs::Grammar::token))]
fn net_or_none<'a>(
    text: &[u8],
    last: u32,
    toks: &'a [Token],
    front: List<RawItem>,
) -> Result<(List<RawItem>, &'a [Token]), TextFault>
    ensures found { Gives (λ x. (items x.0, lexemes text.now x.1.now)) result (joined (items front) (read (Into as_list (optional net)) last (lexemes text.now toks.now))) }
{
    match next(text, toks) {
        Some(Symbol::Net) => {
            let (one, rest) = net(text, last, toks)?;
            let mut items = front;
            items.push(one)?;
            Ok((items, rest))
        }
        _ => Ok((front, toks)),
    }
}

fn ending<'a>(
    text: &[u8],
    last: u32,
    toks: &'a [Token],
    front: List<RawItem>,
) -> Result<(List<RawItem>, &'a [Token]), TextFault>
    ensures found { Gives (λ x. (items x.0, lexemes text.now x.1.now)) result (joined (items front) (read (Into single end_item) last (lexemes text.now toks.now))) }
{
    let (one, rest) = end_item(text, last, toks)?;
    let mut items = front;
    items.push(one)?;
    Ok((items, rest))
}

#[tactic(auto, unfolding(crate::specs::Groups::script_by))]
fn groups<'a>(
    alloc: Global,
    text: &[u8],
    last: u32,
    toks: &'a [Token],
) -> Result<(List<RawItem>, &'a [Token]), TextFault>
    ensures found { Gives (λ x. (items x.0, lexemes text.now x.1.now)) result (script_by last (lexemes text.now toks.now)) }
{
    let (items, rest) = opening(alloc, text, last, toks)?;
    let (items, rest) = all_of(alloc, text, last, rest, Group::Settings, items)?;
    let (items, rest) = all_of(alloc, text, last, rest, Group::Stores, items)?;
    let (items, rest) = all_of(alloc, text, last, rest, Group::Programs, items)?;
    let (items, rest) = all_of(alloc, text, last, rest, Group::Clients, items)?;
    let (items, rest) = net_or_none(text, last, rest, items)?;
    let (items, rest) = all_of(alloc, text, last, rest, Group::Plans, items)?;
    ending(text, last, rest, items)
}

/// The items of a script in front, without limits, and the tokens behind it.
#[tactic(auto, using(crate::proofs::GroupLemmas::script_is_read))]
pub fn script<'a>(
    alloc: Global,
    text: &[u8],
    last: u32,
    toks: &'a [Token],
) -> Result<(List<RawItem>, &'a [Token]), TextFault>
    ensures found { Gives (λ x. (items x.0, lexemes text.now x.1.now)) result (read script last (lexemes text.now toks.now)) }
{
    groups(alloc, text, last, toks)
}
