ghost use Rattle.std.specs.Prelude.{◌≡◌, List as ListOf, reverse, IfOk};
ghost use Rattle.std.specs.List.{All};
ghost use Rattle.msg.specs.Events.{node_of};
ghost use Rattle.wire.specs.Sendable.{IsNumbered};
ghost use Rattle.report.specs.Text.{report_of, brief_of};
ghost use Rattle.run_trace.specs.Trace.{trace_bytes};
ghost use Rattle.script.specs.Canonical.{canonical_script};
ghost use Rattle.world.specs.declared.origin.Origin.{Origin as OriginValue};
ghost use Rattle.world.specs.World.{IsUsable, Stands};
ghost use Rattle.msg.specs.declared.Event.{Event as EventValue};
ghost use Rattle.script_cli.specs.Runs.{world_for};
ghost use Rattle.script_cli.specs.Due.{rows_for};
ghost use Rattle.script.specs.Sayable.{IsSetup};
ghost use Rattle.serial_ref.specs.SerialItem.{AreNamed, DifferInVersion, IsRising};
ghost use Rattle.script_cli.specs.Due.{AreRun, IsSerialText};

use morty_base::{Ended, List, NoMemory};
use msg::Event;
use report::{brief_text, report_text, serial_text};
use run_trace::trace_bytes;
use script::{Setup, script_text};
use serial_ref::{SerialItem, first_tries, in_order, serial};
use std::alloc::Global;
use world::World;

/// The report of a script's world.
pub(crate) fn reported(
    alloc: Global,
    setup: &Setup,
    world: &World,
    ended: Ended,
) -> Result<List<u8>, NoMemory>
    requires { IsUsable world.now }
    ensures { IfOk result (λ text. (o : OriginValue) (journal : ListOf EventValue) → o.setup ≡ setup.now → Stands world.now o (reverse journal) →
        text ≡ report_of setup.now.tables (rows_for setup.now journal) ended) }
{
    let rows = world.rows(alloc)?;
    report_text(alloc, setup.tables.as_slice(), &rows, ended)
}

/// The summary of a script's world.
pub(crate) fn summed_up(
    alloc: Global,
    setup: &Setup,
    world: &World,
    ended: Ended,
) -> Result<List<u8>, NoMemory>
    requires { IsUsable world.now }
    ensures { IfOk result (λ text. (o : OriginValue) (journal : ListOf EventValue) → o.setup ≡ setup.now → Stands world.now o (reverse journal) →
        text ≡ brief_of (rows_for setup.now journal) ended) }
{
    let _turns = setup.turns;
    let rows = world.rows(alloc)?;
    brief_text(alloc, &rows, ended)
}

/// The trace of a script's run. One whose counts do not fit their four bytes is not made.
pub(crate) fn traced(
    alloc: Global,
    setup: &Setup,
    world: &World,
    events: &[Event],
    ended: Ended,
) -> Result<List<u8>, NoMemory>
    requires { All (λ e. IsNumbered (node_of e)) events.now }
    ensures { IfOk result (λ text. (o : OriginValue) (journal : ListOf EventValue) → o.setup ≡ setup.now → Stands world.now o (reverse journal) →
        text ≡ trace_bytes (canonical_script setup.now) events.now (world_for setup.now (reverse journal)).mail ended) }
{
    let script = script_text(alloc, setup)?;
    let mail = world.mail();
    let most = u64::from(u32::MAX);
    if script.len() as u64 > most || events.len() as u64 > most || mail.sent() > most {
        return Err(NoMemory);
    }
    trace_bytes(alloc, script.as_slice(), events, mail, ended)
}

// The transactions that are run where these were asked for.
fn items_run(
    alloc: Global,
    setup: &Setup,
    asked: &[SerialItem],
) -> Result<List<SerialItem>, NoMemory>
    requires setup { IsSetup setup.now }
    requires named { AreNamed setup.now asked.now }
    requires differ { DifferInVersion asked.now }
    ensures run { IfOk result (AreRun setup.now asked.now) }
    ensures named { IfOk result (AreNamed setup.now) }
    ensures rising { IfOk result IsRising }
{
    if asked.is_empty() {
        first_tries(alloc, setup)
    } else {
        in_order(List::from_slice(alloc, asked)?)
    }
}

/// The text of a serial run of transactions of a script: those that were asked for, or, without any, all at their first
/// tries.
pub(crate) fn run_serially(
    alloc: Global,
    setup: &Setup,
    asked: &[SerialItem],
) -> Result<List<u8>, NoMemory>
    requires setup { IsSetup setup.now }
    requires named { AreNamed setup.now asked.now }
    requires differ { DifferInVersion asked.now }
    ensures { IfOk result (IsSerialText setup.now asked.now) }
{
    let items = items_run(alloc, setup, asked)?;
    let rows = serial(alloc, setup, items.as_slice())?;
    serial_text(alloc, setup.tables.as_slice(), &rows)
}
