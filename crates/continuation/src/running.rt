ghost use Rattle.std.specs.Prelude.{ℕ, ◌≡◌, ◌+◌, ◌≤◌, ◌<◌, List, IfOk, OnOk};
ghost use Rattle.txn_lang.specs.Keys.{Entry};
ghost use Rattle.txn_lang.specs.Actions.{Actions};
ghost use Rattle.flat_code.specs.declared.frame.Frame.{Frame as FrameValue};
ghost use Rattle.flat_code.specs.Does.{Does, ticks};
ghost use Rattle.continuation.specs.Place.{KnowsAs};
ghost use Rattle.continuation.specs.Segment.{IsSegment, alone};
ghost use Rattle.continuation.specs.Underway.{IsUnderway, IsNext, seg_of};

use crate::known::shown;
use crate::segment::{Cont, Known, Next, Seg};
use flat_code::{Code, Frame, MOST_OPERATIONS, OpOut, Write2, give_answer, step_op};
use morty_base::{Ending, Key, Ledger, List, NoMemory, Steps};
use std::alloc::Global;

// Where a segment under way stands, and what it did.
#[derive(Drop)]
pub(crate) struct Running {
    at: Frame,
    wrote: List<Write2>,
    printed: List<i64>,
    ran: u32,
}

// Why a segment stops.
#[derive(Clone, Copy)]
pub(crate) enum Stop {
    Asks(Key),
    Ends(Ending),
}

// How many statements the operation at a place begins.
fn ticks(code: &Code, at: &Frame) -> u32
    requires { (a : Actions) × Does code.now at.now a }
    ensures ticks { result ≡ ticks code.now at.now }
    ensures few { result ≤ 1 }
{
    if code.begins(at) { 1 } else { 0 }
}

impl Running {
    // Does one operation. An answer says that the segment stops there.
    #[tactic(auto, using(crate::proofs::Stopping::begun_most))]
    fn step<L: Ledger>(
        &mut self,
        code: &Code,
        seen: &[Known],
        steps: &mut Steps<L>,
    ) -> Result<Option<Stop>, NoMemory>
        requires reached { (a : Actions) × Does code.now self.old.at a }
        requires few { self.old.ran < MOST_OPERATIONS }
        ensures next { IfOk result (λ stop. (start : FrameValue) (i : ℕ) (a : Actions) (known : List Entry) → KnowsAs seen.now known → IsUnderway code.now start i self.old a known → IsNext code.now start i self.new a known stop) }
        ensures few { OnOk result (self.new.ran ≤ self.old.ran + 1) }
        ensures counted { OnOk result (steps.new + self.old.ran ≡ steps.old + self.new.ran) }
        ensures at_most { (start : FrameValue) (i : ℕ) (a : Actions) (known : List Entry) → IsUnderway code.now start i self.old a known → steps.new + self.old.ran ≤ steps.old + (alone a known).begun }
    {
        self.ran += ticks(code, &self.at);
        match step_op(code, &mut self.at, steps)? {
            OpOut::Went => Ok(None),
            OpOut::Wrote(write) => {
                self.wrote.push(write)?;
                Ok(None)
            }
            OpOut::Printed(line) => {
                self.printed.push(line)?;
                Ok(None)
            }
            OpOut::Asks(key) => match shown(self.wrote.as_slice(), seen, key) {
                Some(value) => {
                    give_answer(code, &mut self.at, value);
                    Ok(None)
                }
                None => Ok(Some(Stop::Asks(key))),
            },
            OpOut::Ends(ending) => Ok(Some(Stop::Ends(ending))),
        }
    }

    fn into_seg(self, stop: Stop) -> Seg
        ensures { result ≡ seg_of self stop }
    {
        let Running {
            at,
            wrote,
            printed,
            ran,
        } = self;
        let Frame { pc, loops, locals } = at;
        let next = match stop {
            Stop::Asks(key) => {
                let cont = Cont { pc, loops, locals };
                Next::Asks { key, cont }
            }
            Stop::Ends(ending) => Next::Ends(ending),
        };
        Seg {
            next,
            wrote,
            printed,
            ran,
        }
    }
}

// Runs the code from a place to the next read that has to be asked, or to the ending.
pub(crate) fn run_on<L: Ledger>(
    alloc: Global,
    code: &Code,
    at: Frame,
    seen: &[Known],
    steps: &mut Steps<L>,
) -> Result<Seg, NoMemory>
    requires { (a : Actions) × Does code.now at a }
    ensures segment { IfOk result (λ seg. (a : Actions) (known : List Entry) → Does code.now at a → KnowsAs seen.now known → IsSegment code.now at a known seg) }
    ensures counted { IfOk result (λ seg. steps.new ≡ steps.old + seg.ran) }
    ensures at_most { (a : Actions) (known : List Entry) → Does code.now at a → KnowsAs seen.now known → steps.new ≤ steps.old + (alone a known).begun }
{
    let mut running = Running {
        at,
        wrote: List::new(alloc),
        printed: List::new(alloc),
        ran: 0,
    };
    for _ in 0..MOST_OPERATIONS {
        if let Some(stop) = running.step(code, seen, steps)? {
            return Ok(running.into_seg(stop));
        }
    }
    unreachable!()
}
