ghost use Rattle.std.specs.Prelude.{◌≡◌, IfOk};
ghost use Rattle.txn_lang.specs.Keys.{HoldTheSame};
ghost use Rattle.txn_lang.specs.Program.{replay_of, serial_of, map_after};
ghost use Rattle.serial_runs.specs.Execution.{run_of_replay, run_of_serial, run_of};

use crate::effects::{Effects, Replay, SerialRun, Stop};
use crate::execution::Execution;
use crate::map::Map;
use crate::run::block;
use crate::source::{Answers, Held, Source};
use morty_base::{Ending, List, NoMemory};
use std::alloc::Global;
use txn_lang::{Prog, replay_is_serial};

/// A program from its first statement, with answers from this source.
fn run<S: Source>(alloc: Global, prog: &Prog, source: S) -> Result<Replay, NoMemory>
    ensures { IfOk result (λ r. run_of_replay r ≡ run_of S.answer prog.now source) }
{
    let mut at = Execution {
        source,
        locals: List::from_vec(vec![in alloc; 0; prog.names().len()]?),
        did: Effects::new(alloc),
    };
    let stop = block(&mut at, prog.body())?;
    Ok(Replay {
        did: at.did,
        stop: stop.unwrap_or(Stop::Ends(Ending::Done)),
    })
}

/// The replay of a program on a list of answers, which it takes in order: where it asks for a key it stops.
pub fn run_on_answers(alloc: Global, prog: &Prog, answers: &[i64]) -> Result<Replay, NoMemory>
    ensures { IfOk result (λ r. run_of_replay r ≡ replay_of prog.now answers.now) }
{
    run(alloc, prog, Answers::new(answers))
}

/// The serial run of a program on a map, and the map after the writes that it keeps.
pub fn run_on_map(alloc: Global, prog: &Prog, cells: Map) -> Result<(SerialRun, Map), NoMemory>
    ensures run { IfOk result (λ x. run_of_serial x.0 ≡ serial_of prog.now cells) }
    ensures written { IfOk result (λ x. HoldTheSame x.1 (map_after cells prog.now)) }
{
    let replay = run(alloc, prog, Held::new(&cells))?;
    replay_is_serial();
    let run = replay.into_serial();
    let after = cells.with_writes(run.kept())?;
    Ok((run, after))
}
