ghost use Rattle.std.specs.Prelude.{◌≡◌, ◌<◌, ◌≤◌, ◌⊎◌, [], List as ListOf, ◌↔◌, IsTrue, true, false, length, map, IfSome, IfOk};
ghost use Rattle.morty_io.specs.Faults.{Rose};
ghost use Rattle.net_core.specs.Ruled.{LinkState};
ghost use Rattle.script.specs.declared.setup.Setup.{Setup as SetupValue};
ghost use Rattle.script.specs.Sayable.{IsSetup};
ghost use Rattle.script_cli.specs.Runs.{IsRan};
ghost use Rattle.script_cli.specs.declared.words.Command.{Command as CommandValue};
ghost use Rattle.script_cli.specs.declared.words.Command.TheVariants.{Run as RunCommand};
ghost use Rattle.script_cli.specs.Words.{reads, runs, is_shared, IsInRange, IsSeeded};
ghost use Rattle.script_cli.specs.Due.{due_of, status_of, text_of_run, script_limit, IsTextOf, IsUnnamed, IsRunDue, IsDueOf, IsDueOfSome, IsTextDue, IsGeneratedFor, IsDue};
ghost use Rattle.script_cli.specs.Tasks.{IsTask, IsSoInTime};

use crate::lines::{fault_text, no_link_text};
use crate::output::{Output, line, unrun};
use crate::run::{Prepared, Ready, Run, prepare, run_ready, work_ready};
use crate::texts::{reported, run_serially, summed_up, traced};
use crate::words::{Command, Seeded};
use lab::gen_script;
use morty_base::{Ended, List, NoMemory};
use morty_io::{ReadEnd, Source, read_whole};
use net_core::Link;
use node_future::Gate;
use script::{Setup, read_script, script_text};
use script_plans::kind_of;
use serial_ref::are_named;
use std::alloc::{AllocGlobal, Global};
use std::random::RandomSource;
use std::sync::Wait;
use std::thread::Threads;
use txn_text::TextFault;

/// The greatest length of a script, in bytes.
const SCRIPT_LIMIT: usize = 1_048_576;

/// What is left to do for a command.
#[derive(Drop)]
enum Task<L: Drop> {
    /// To write.
    Write(Output<L>),
    /// To run, and then to write of the run.
    Run(Ready<L>),
}

fn status_of(ended: Ended) -> u8
    ensures { result ≡ status_of ended }
{
    match ended {
        Ended::Quiet => 0,
        Ended::Spent | Ended::Full => 1,
    }
}

/// What a command writes of a run.
fn run_text<L: Link>(alloc: Global, command: &Command, run: &Run<L>) -> Result<List<u8>, NoMemory>
    requires { (s : SetupValue) × (handed : ListOf LinkState) × IsSetup s × IsRan (is_shared command.now) L.state_of s handed run.now }
    ensures { IfOk result (λ text. (s : SetupValue) (handed : ListOf LinkState) → IsRan (is_shared command.now) L.state_of s handed run.now →
        text ≡ text_of_run command.now s run.now.journal.items run.now.ended) }
{
    match command {
        Command::Trace => traced(
            alloc,
            &run.setup,
            &run.world,
            run.journal.as_slice(),
            run.ended,
        ),
        Command::Big(_) => summed_up(alloc, &run.setup, &run.world, run.ended),
        Command::Run(_) | Command::Serial(_) | Command::Check | Command::Gen(_) => {
            reported(alloc, &run.setup, &run.world, run.ended)
        }
    }
}

/// What is to be written of a run.
fn of_run<L: Link>(alloc: Global, command: &Command, run: Run<L>) -> Result<Output<L>, NoMemory>
    requires { (s : SetupValue) × (handed : ListOf LinkState) × IsSetup s × IsRan (is_shared command.now) L.state_of s handed run }
    ensures { IfOk result (λ o. (s : SetupValue) (handed : ListOf LinkState) → IsRan (is_shared command.now) L.state_of s handed run →
        IsRunDue command.now s handed (due_of L.state_of o)) }
{
    let text = run_text(alloc, command, &run)?;
    Ok(Output {
        status: status_of(run.ended),
        text,
        journal: run.journal,
        links: run.links,
    })
}

/// What is left to do where a script is to be run.
fn of_setup_run<L: Link>(
    alloc: Global,
    command: &Command,
    setup: Setup,
    links: Vec<L>,
) -> Result<Task<L>, NoMemory>
    requires says { IsSetup setup }
    requires runs { runs command.now ≡ true }
    ensures { IfOk result (IsTask L.state_of command.now (map L.state_of links.items) (IsDueOf command.now setup (map L.state_of links.items))) }
{
    let kind = kind_of(&setup);
    match prepare(alloc, setup, links)? {
        Prepared::Missing(slot) => {
            let text = no_link_text(alloc, kind, slot)?;
            Ok(Task::Write(unrun(alloc, 6, text)))
        }
        Prepared::Ready(ready) => Ok(Task::Run(ready)),
    }
}

/// Whether a transaction was asked for that the script does not have.
fn is_unnamed(command: &Command, setup: &Setup) -> bool
    ensures { IsTrue result ↔ IsUnnamed command.now setup.now }
{
    match command {
        Command::Serial(asked) => !are_named(setup, asked.as_slice()),
        _ => false,
    }
}

/// What a command without a run writes of a script.
fn text_of(alloc: Global, command: &Command, setup: &Setup) -> Result<List<u8>, NoMemory>
    requires setup { IsSetup setup.now }
    requires range { IsInRange command.now }
    requires named { ¬ IsUnnamed command.now setup.now }
    ensures { IfOk result (λ text. IsTextOf command.now setup.now text) }
{
    match command {
        Command::Serial(asked) => run_serially(alloc, setup, asked.as_slice()),
        _ => script_text(alloc, setup),
    }
}

/// What is left to do for a script.
fn of_setup<L: Link>(
    alloc: Global,
    command: &Command,
    setup: Setup,
    links: Vec<L>,
) -> Result<Task<L>, NoMemory>
    requires says { IsSetup setup }
    requires range { IsInRange command.now }
    ensures { IfOk result (IsTask L.state_of command.now (map L.state_of links.items) (IsDueOf command.now setup (map L.state_of links.items))) }
{
    if command.runs() {
        return of_setup_run(alloc, command, setup, links);
    }
    if is_unnamed(command, &setup) {
        return Ok(Task::Write(line(alloc, 2, b"morty: bad command line\n")?));
    }
    let text = text_of(alloc, command, &setup)?;
    Ok(Task::Write(unrun(alloc, 0, text)))
}

/// What is left to do for a generated script.
fn of_seed<L: Link>(
    alloc: Global,
    command: &Command,
    seeded: Seeded,
    links: Vec<L>,
) -> Result<Task<L>, NoMemory>
    requires range { IsInRange command.now }
    requires in_range { IsSeeded seeded }
    requires own { (command.now ≡ Command.Gen seeded) ⊎ (command.now ≡ Command.Big seeded) }
    ensures { IfOk result (IsTask L.state_of command.now (map L.state_of links.items)
        (IsDueOfSome (IsGeneratedFor command.now) command.now (map L.state_of links.items))) }
{
    let setup = gen_script(alloc, seeded.seed, seeded.size)?;
    of_setup(alloc, command, setup, links)
}

/// What is left to do for the text of a script.
fn of_text<L: Link>(
    alloc: Global,
    command: &Command,
    text: &[u8],
    links: Vec<L>,
) -> Result<Task<L>, NoMemory>
    requires short { length text.now ≤ SCRIPT_LIMIT }
    requires range { IsInRange command.now }
    ensures { IfOk result (IsTask L.state_of command.now (map L.state_of links.items)
        (λ d. IsTextDue command.now (map L.state_of links.items) d text.now)) }
{
    match read_script(alloc, text) {
        Ok(setup) => of_setup(alloc, command, setup, links),
        Err(TextFault::At { line, kind }) => {
            let text = fault_text(alloc, line, kind)?;
            Ok(Task::Write(unrun(alloc, 3, text)))
        }
        Err(TextFault::NoMemory) => Err(NoMemory),
    }
}

/// What is left to do for what the source has left.
fn of_source<S: Source, L: Link>(
    alloc: Global,
    command: &Command,
    src: &mut S,
    links: Vec<L>,
) -> Result<Task<L>, NoMemory>
    requires reads { reads command.now ≡ true }
    requires range { IsInRange command.now }
    ensures due { IfOk result (IsTask L.state_of command.now (map L.state_of links.items)
        (IsDue command.now (S.left src.old) (Rose (S.faults src.old) (S.faults src.new)) (map L.state_of links.items))) }
    ensures emptied { IfOk result (IsSoInTime (IfSome (S.left src.old) (λ _. S.left src.new ≡ Some []))) }
{
    match read_whole(alloc, src, SCRIPT_LIMIT) {
        Ok(text) => of_text(alloc, command, text.as_slice(), links),
        Err(ReadEnd::ReadFault) => Ok(Task::Write(line(alloc, 4, b"morty: read failed\n")?)),
        Err(ReadEnd::TooLong) => Ok(Task::Write(line(alloc, 3, b"morty: script too long\n")?)),
        Err(ReadEnd::NoMemory) => Err(NoMemory),
    }
}

/// What is left to do for a command.
fn of_command<S: Source, L: Link>(
    alloc: Global,
    command: &Command,
    src: &mut S,
    links: Vec<L>,
) -> Result<Task<L>, NoMemory>
    requires { IsInRange command.now }
    ensures due { IfOk result (IsTask L.state_of command.now (map L.state_of links.items)
        (IsDue command.now (S.left src.old) (Rose (S.faults src.old) (S.faults src.new)) (map L.state_of links.items))) }
    ensures emptied { reads command.now ≡ true → IfOk result (IsSoInTime (IfSome (S.left src.old) (λ _. S.left src.new ≡ Some []))) }
    ensures unread { reads command.now ≡ false → src.new ≡ src.old }
{
    match command {
        Command::Gen(seeded) | Command::Big(seeded) => of_seed(alloc, command, *seeded, links),
        _ => of_source(alloc, command, src, links),
    }
}

/// What a command is to write, where its script is run in this thread.
pub(crate) fn made_here<S: Source, L: Link>(
    alloc: Global,
    command: &Command,
    src: &mut S,
    links: Vec<L>,
) -> Result<Output<L>, NoMemory>
    requires range { IsInRange command.now }
    requires here { is_shared command.now ≡ false }
    ensures due { IfOk result (λ o. IsDue command.now (S.left src.old) (Rose (S.faults src.old) (S.faults src.new)) (map L.state_of links.items) (due_of L.state_of o)) }
    ensures emptied { reads command.now ≡ true → IfOk result (λ o. o.status ≤ 1 → IfSome (S.left src.old) (λ _. S.left src.new ≡ Some [])) }
    ensures unread { reads command.now ≡ false → src.new ≡ src.old }
{
    match of_command(alloc, command, src, links)? {
        Task::Write(output) => Ok(output),
        Task::Run(ready) => of_run(alloc, command, run_ready(alloc, ready)?),
    }
}

/// What is to be written of the run by several workers of the script that is read.
pub(crate) fn made_by_workers<S, L, G, R>(
    rt: &R,
    alloc: Global,
    workers: u32,
    src: &mut S,
    links: Vec<L>,
    gate: &G,
) -> Result<Output<L>, NoMemory>
where
    S: Source,
    L: Link + Send,
    G: Gate + Sync + 'static,
    R: Threads + Wait + Sync + RandomSource + AllocGlobal,
    requires { (1 < workers) × (workers ≤ 8) }
    ensures due { IfOk result (λ o. IsDue (RunCommand workers) (S.left src.old) (Rose (S.faults src.old) (S.faults src.new)) (map L.state_of links.items) (due_of L.state_of o)) }
    ensures emptied { IfOk result (λ o. o.status ≤ 1 → IfSome (S.left src.old) (λ _. S.left src.new ≡ Some [])) }
{
    let command = Command::Run(workers);
    match of_command(alloc, &command, src, links)? {
        Task::Write(output) => Ok(output),
        Task::Run(ready) => {
            let run = work_ready(rt, alloc, ready, workers, gate)?;
            of_run(alloc, &command, run)
        }
    }
}
