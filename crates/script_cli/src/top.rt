ghost use Rattle.std.specs.Prelude.{◌≡◌, ◌<◌, ◌≤◌, true, false, [], Some, map, IfSome};
ghost use Rattle.morty_io.specs.Faults.{Rose};
ghost use Rattle.script_cli.specs.Words.{command_of, several_of, wants_workers, reads};
ghost use Rattle.script_cli.specs.Answer.{given, given_by, IsWritten, IsAnswered};
ghost use Rattle.script_cli.specs.Clauses.{IsExitOf};

use crate::made::{made_by_workers, made_here};
use crate::output::Output;
use crate::words::{Command, read_words, several_workers};
use morty_base::List;
use morty_io::{Sink, Source, write_whole};
use msg::Event;
use net_core::Link;
use node_future::Gate;
use std::alloc::{AllocGlobal, Global};
use std::random::RandomSource;
use std::sync::Wait;
use std::thread::Threads;

/// How a call of the program ended, over any kind of links.
#[derive(Drop)]
pub struct Answer<L: Drop> {
    pub status: u8,
    pub journal: Vec<Event>,
    pub links: Vec<L>,
}

/// How a call of the program ended: its status, and the events and the links of the run that it made, if it made one.
#[derive(Drop)]
pub struct Exit {
    pub status: u8,
    pub journal: Vec<Event>,
    pub links: Vec<Box<dyn Link + Send>>,
}

/// Writes a text whole, and answers the status, or 5 where the sink failed.
fn write<K: Sink>(out: &mut K, status: u8, text: &[u8]) -> u8
    ensures { IsWritten (K.taken out.old) (K.taken out.new) (Rose (K.faults out.old) (K.faults out.new)) text.now status result }
{
    match write_whole(out, text) {
        Ok(()) => status,
        Err(_) => 5,
    }
}

/// A status with no run behind it.
fn bare<L: Link>(alloc: Global, status: u8) -> Answer<L>
    ensures { given_by L.state_of result ≡ given status [] [] }
{
    Answer {
        status,
        journal: Vec::new(alloc),
        links: Vec::new(alloc),
    }
}

/// Writes what was made.
fn put<K: Sink, L: Link>(out: &mut K, output: Output<L>) -> Answer<L>
    ensures written { IsWritten (K.taken out.old) (K.taken out.new) (Rose (K.faults out.old) (K.faults out.new)) output.text output.status result.status }
    ensures journal { result.journal ≡ output.journal }
    ensures links { result.links ≡ output.links }
{
    let status = write(out, output.status, output.text.as_slice());
    Answer {
        status,
        journal: output.journal,
        links: output.links,
    }
}

/// Answers the words, the source's bytes and the links, in this thread.
fn answer_here<S: Source, K: Sink, L: Link>(
    alloc: Global,
    words: &[List<u8>],
    src: &mut S,
    out: &mut K,
    links: Vec<L>,
) -> Answer<L>
    requires here { wants_workers words.now ≡ false }
    ensures answered { IsAnswered words.now (S.left src.old) (Rose (S.faults src.old) (S.faults src.new)) (map L.state_of links.items)
        (K.taken out.old) (K.taken out.new) (Rose (K.faults out.old) (K.faults out.new)) (given_by L.state_of result) }
    ensures emptied { (c : Command) → command_of words.now ≡ Some c → reads c ≡ true → result.status ≤ 1 → IfSome (S.left src.old) (λ _. S.left src.new ≡ Some []) }
    ensures unread { ((c : Command) → command_of words.now ≡ Some c → reads c ≡ false) → src.new ≡ src.old }
{
    let Ok(said) = read_words(alloc, words) else {
        return bare(alloc, 9);
    };
    let Some(command) = said else {
        let status = write(out, 2, b"morty: bad command line\n");
        return bare(alloc, status);
    };
    match made_here(alloc, &command, src, links) {
        Ok(output) => put(out, output),
        Err(_) => bare(alloc, 9),
    }
}

/// The same by several workers, for words that ask for so many.
fn answer_by_workers<S, K, L, G, R>(
    rt: &R,
    alloc: Global,
    words: &[List<u8>],
    workers: u32,
    src: &mut S,
    out: &mut K,
    links: Vec<L>,
    gate: &G,
) -> Answer<L>
where
    S: Source,
    K: Sink,
    L: Link + Send,
    G: Gate + Sync + 'static,
    R: Threads + Wait + Sync + RandomSource + AllocGlobal,
    requires words { several_of words.now ≡ Some workers }
    requires workers { (1 < workers) × (workers ≤ 8) }
    ensures answered { IsAnswered words.now (S.left src.old) (Rose (S.faults src.old) (S.faults src.new)) (map L.state_of links.items)
        (K.taken out.old) (K.taken out.new) (Rose (K.faults out.old) (K.faults out.new)) (given_by L.state_of result) }
    ensures emptied { result.status ≤ 1 → IfSome (S.left src.old) (λ _. S.left src.new ≡ Some []) }
{
    match made_by_workers(rt, alloc, workers, src, links, gate) {
        Ok(output) => put(out, output),
        Err(_) => bare(alloc, 9),
    }
}

/// The exit of a call.
fn exit_with(answer: Answer<Box<dyn Link + Send>>) -> Exit
    ensures { given result.status result.journal.items (map (λ l. state_of l) result.links.items) ≡ given_by (λ l. state_of l) answer }
{
    let Answer {
        status,
        journal,
        links,
    } = answer;
    Exit {
        status,
        journal,
        links,
    }
}

/// The program, in this thread: what `run_cli` says, for words that ask for no more than one worker. It takes no lock, and
/// returns.
pub fn run_here<S: Source, K: Sink>(
    alloc: Global,
    words: &[List<u8>],
    src: &mut S,
    out: &mut K,
    links: Vec<Box<dyn Link + Send>>,
) -> Exit
    requires here { wants_workers words.now ≡ false }
    // All that is promised of a call, by its status (`specs/Clauses`).
    ensures exit { IsExitOf words.now (S.left src.old) (Rose (S.faults src.old) (S.faults src.new)) (map (λ l. state_of l) links.items)
        (K.taken out.old) (K.taken out.new) (Rose (K.faults out.old) (K.faults out.new)) (given result.status result.journal.items (map (λ l. state_of l) result.links.items)) }

    // 0 and 1 of a command that reads: the source was read to its end. One that reads nothing leaves the source.
    ensures emptied { (c : Command) → command_of words.now ≡ Some c → reads c ≡ true → result.status ≤ 1 → IfSome (S.left src.old) (λ _. S.left src.new ≡ Some []) }
    ensures unread { ((c : Command) → command_of words.now ≡ Some c → reads c ≡ false) → src.new ≡ src.old }
{
    exit_with(answer_here(alloc, words, src, out, links))
}

/// The program. For the word `run` it reads a script from the source, runs it with the links that were handed in for the
/// script's kind, and writes the report to the sink; for `trace` it writes the run's trace. For `check` it reads a script
/// and writes its canonical text. For `gen SEED SIZE` it writes a generated script and for `big SEED SIZE` the summary of the
/// run of that script, and reads nothing. For `serial` it reads a script and writes what the transactions that the words name
/// give when they run one after another. Where this cannot be, it writes a line that says why. The journal has the events of
/// the run, if there was one, and the links are those of its nodes in the order of their slots.
///
/// Where the words ask for several workers, these run the script, each a thread of its own, and the gate is told of each
/// segment. In which order they take their turns is not promised, nor that two of them ever run at once. The call waits for
/// them: what is promised of it holds if it returns. Everything else is done in this thread.
pub fn run_cli<S, K, G, R>(
    rt: &R,
    alloc: Global,
    words: &[List<u8>],
    src: &mut S,
    out: &mut K,
    links: Vec<Box<dyn Link + Send>>,
    gate: &G,
) -> Exit
where
    S: Source,
    K: Sink,
    G: Gate + Sync + 'static,
    R: Threads + Wait + Sync + RandomSource + AllocGlobal,
    // All that is promised of a call, by its status (`specs/Clauses`): the headline is its `correct`, `ran` and `printed`.
    ensures exit { IsExitOf words.now (S.left src.old) (Rose (S.faults src.old) (S.faults src.new)) (map (λ l. state_of l) links.items)
        (K.taken out.old) (K.taken out.new) (Rose (K.faults out.old) (K.faults out.new)) (given result.status result.journal.items (map (λ l. state_of l) result.links.items)) }

    // 0 and 1 of a command that reads: the source was read to its end. One that reads nothing leaves the source.
    ensures emptied { (c : Command) → command_of words.now ≡ Some c → reads c ≡ true → result.status ≤ 1 → IfSome (S.left src.old) (λ _. S.left src.new ≡ Some []) }
    ensures unread { ((c : Command) → command_of words.now ≡ Some c → reads c ≡ false) → src.new ≡ src.old }
{
    match several_workers(words) {
        Some(workers) => exit_with(answer_by_workers(
            rt, alloc, words, workers, src, out, links, gate,
        )),
        None => exit_with(answer_here(alloc, words, src, out, links)),
    }
}
