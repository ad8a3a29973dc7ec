ghost use Rattle.std.specs.Prelude.{◌≡◌, ◌∷◌, [], IfOk};
ghost use Rattle.txn_parse.specs.Binding.{FaultIs, number_of};
ghost use Rattle.script.specs.Meaning.{signed, node_of, version_of, pick_of, entry_of, number_of_or, net_of};
ghost use Rattle.script.specs.declared.limits.TheConstants.{LATEST_START, MOST_CALLS};
ghost use Rattle.txn_text.specs.declared.faults.FaultKind.TheVariants.{PlanRange, AtRange};
ghost use Rattle.txn_text.specs.declared.faults.TextFault.TheVariants.{At};
ghost use Rattle.script.specs.Checks.{planned_check, pick_checks, number_checks, between, at_most, entry_checks, percentage_check, net_checks};

use crate::items::{Calls, NodeKind, RawEntry, RawNet, RawNode, RawPick, RawVersion, Signed};
use crate::limits::{GREATEST_PERCENTAGE, GREATEST_PLANNED, LATEST_START, MOST_CALLS};
use crate::setup::Net;
use morty_base::{Exec, NodeId, Version};
use msg::Pick;
use net_core::PlanWhat;
use txn_text::{FaultKind, TextFault, Token, number_value};

/// A fault in the line of a token.
pub fn fault_at(token: Token, kind: FaultKind) -> TextFault
    ensures { result ≡ At token.line kind }
{
    TextFault::At {
        line: token.line,
        kind,
    }
}

/// The value of a number that may have a minus.
pub fn signed(text: &[u8], number: Signed) -> i64
    ensures { result ≡ signed text.now number }
{
    let value = number_value(text, number.digits) as i64;
    if number.minus { -value } else { value }
}

// The client of a version, or an execution, that a plan item names.
fn planned(text: &[u8], number: Token) -> Result<u32, TextFault>
    ensures fault { FaultIs (planned_check text.now number ∷ []) result }
    ensures value { IfOk result (λ n. n ≡ number_of text.now number) }
{
    let value = number_value(text, number);
    if value > GREATEST_PLANNED {
        return Err(fault_at(number, FaultKind::PlanRange));
    }
    Ok(value as u32)
}

fn version(text: &[u8], version: RawVersion) -> Result<Version, TextFault>
    ensures fault { FaultIs (planned_check text.now version.client ∷ []) result }
    ensures value { IfOk result (λ v. v ≡ version_of text.now version) }
{
    let client = planned(text, version.client)?;
    Ok(Version {
        ts: number_value(text, version.ts),
        client,
    })
}

/// The pick that a plan item names.
pub fn pick(text: &[u8], pick: RawPick) -> Result<Pick, TextFault>
    ensures fault { FaultIs (pick_checks text.now pick) result }
    ensures value { IfOk result (λ p. p ≡ pick_of text.now pick) }
{
    match pick {
        RawPick::Go => Ok(Pick::Go),
        RawPick::Hurry => Ok(Pick::Hurry),
        RawPick::Stop => Ok(Pick::Stop),
        RawPick::Deliver(number) => Ok(Pick::Deliver(number_value(text, number))),
        RawPick::Recover(name, execution) => {
            let ver = version(text, name)?;
            let eid = planned(text, execution)?;
            Ok(Pick::Recover(Exec { ver, eid }))
        }
        RawPick::Truncate(name) => {
            let ver = version(text, name)?;
            Ok(Pick::Truncate(ver))
        }
    }
}

// For how many calls an entry stands.
fn calls(text: &[u8], number: Option<Token>) -> Result<u32, TextFault>
    ensures fault { FaultIs (number_checks text.now (between 1 MOST_CALLS) PlanRange number) result }
    ensures value { IfOk result (λ n. n ≡ number_of_or 1 text.now number) }
{
    let Some(token) = number else {
        return Ok(1);
    };
    let value = number_value(text, token);
    if value < 1 || value > MOST_CALLS {
        return Err(fault_at(token, FaultKind::PlanRange));
    }
    Ok(value as u32)
}

/// What an entry of a list says.
pub fn entry(text: &[u8], entry: RawEntry) -> Result<PlanWhat, TextFault>
    ensures fault { FaultIs (entry_checks text.now entry) result }
    ensures value { IfOk result (λ e. e ≡ entry_of text.now entry) }
{
    match entry {
        RawEntry::Calls(Calls::Wait, number) => Ok(PlanWhat::Wait(calls(text, number)?)),
        RawEntry::Calls(Calls::Next, number) => Ok(PlanWhat::Next(calls(text, number)?)),
        RawEntry::Calls(Calls::Newest, number) => Ok(PlanWhat::Newest(calls(text, number)?)),
        RawEntry::One(raw) => Ok(PlanWhat::One(pick(text, raw)?)),
    }
}

/// When a transaction may start.
pub fn start(text: &[u8], number: Option<Token>) -> Result<u64, TextFault>
    ensures fault { FaultIs (number_checks text.now (at_most LATEST_START) AtRange number) result }
    ensures value { IfOk result (λ n. n ≡ number_of_or 0 text.now number) }
{
    let Some(token) = number else {
        return Ok(0);
    };
    let value = number_value(text, token);
    if value > LATEST_START {
        return Err(fault_at(token, FaultKind::AtRange));
    }
    Ok(value)
}

fn percentage(text: &[u8], number: Token) -> Result<u32, TextFault>
    ensures fault { FaultIs (percentage_check text.now number ∷ []) result }
    ensures value { IfOk result (λ n. n ≡ number_of text.now number) }
{
    let value = number_value(text, number);
    if value > GREATEST_PERCENTAGE {
        return Err(fault_at(number, FaultKind::NetRange));
    }
    Ok(value as u32)
}

/// The net.
pub fn net(text: &[u8], net: RawNet) -> Result<Net, TextFault>
    ensures fault { FaultIs (net_checks text.now net) result }
    ensures value { IfOk result (λ n. n ≡ net_of text.now net) }
{
    match net {
        RawNet::Fair => Ok(Net::Fair),
        RawNet::Listed => Ok(Net::Listed),
        RawNet::Seeded {
            seed,
            late,
            repeat,
            hurry,
        } => {
            let late = percentage(text, late)?;
            let repeat = percentage(text, repeat)?;
            let hurry = percentage(text, hurry)?;
            Ok(Net::Seeded {
                seed: number_value(text, seed),
                late,
                repeat,
                hurry,
            })
        }
    }
}
