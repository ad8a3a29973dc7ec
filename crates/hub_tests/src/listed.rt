//! What a node takes its turns at where no hub is: answers that are listed. And a gate that counts.

ghost use Rattle.std.specs.Prelude.{◌≡◌};

use hub::{Counted, TurnOut};
use morty_base::NoMemory;
use net_core::RanStep;
use node_future::{Gate, LastGive, LastTurn, Turns};
use std::cell::Cell;

/// What a turn answers, and, where it is a job, what becomes of the segment.
#[derive(Clone, Copy)]
pub(crate) enum Answer {
    Moved,
    Idle,
    Quiet,
    Spent,
    Stopped,
    Full,
    Refused,
    /// The segment is refused.
    Work,
    /// The segment is given back, and that is answered.
    Give(Result<RanStep, NoMemory>),
}

/// Answers one after another, and Quiet once none is left.
#[derive(Drop)]
pub(crate) struct Listed {
    answers: &'static [Answer],
    place: usize,
    now: Answer,
    turns: u64,
    rans: u64,
    last_turn: LastTurn,
    last_give: LastGive,
    refused: bool,
    spoiled: bool,
}

impl Listed {
    ghost use Rattle.node_future.specs.Answers.{turn_kind, give_kind, CountsTurn, CountsGive};

    /// One at which so many picks were made, and so many segments used.
    pub(crate) fn new(answers: &'static [Answer], turns: u64, rans: u64) -> Listed {
        Listed {
            answers,
            place: 0,
            now: Answer::Quiet,
            turns,
            rans,
            last_turn: LastTurn::None,
            last_give: LastGive::None,
            refused: false,
            spoiled: false,
        }
    }

    /// How many turns were taken.
    pub(crate) fn taken(&self) -> usize {
        self.place
    }

    pub(crate) fn is_spoiled(&self) -> bool {
        self.spoiled
    }

    // The next answer.
    fn next(&mut self) -> Answer
        ensures { self.new ≡ record self.old { place = self.new.place } }
    {
        let next = self.answers.get(self.place).copied();
        self.place = self.place.saturating_add(1);
        next.unwrap_or(Answer::Quiet)
    }

    // One pick more.
    fn count_move(&mut self) -> Result<TurnOut<()>, NoMemory>
        ensures turns { CountsTurn (turn_kind result) self.old.turns self.new.turns }
        ensures same { self.new ≡ record self.old { turns = self.new.turns } }
    {
        let Some(turns) = self.turns.checked_add(1) else {
            return Ok(TurnOut::Quiet);
        };
        self.turns = turns;
        Ok(TurnOut::Moved)
    }

    // One used segment more.
    fn count_use(&mut self) -> Result<RanStep, NoMemory>
        ensures rans { CountsGive (give_kind result) self.old.rans self.new.rans }
        ensures same { self.new ≡ record self.old { rans = self.new.rans } }
    {
        let Some(rans) = self.rans.checked_add(1) else {
            return Ok(RanStep::Stale);
        };
        self.rans = rans;
        Ok(RanStep::Used)
    }

    fn turn_out(&mut self) -> Result<TurnOut<()>, NoMemory>
        ensures turns { CountsTurn (turn_kind result) self.old.turns self.new.turns }
        ensures same { self.new ≡ record self.old { turns = self.new.turns } }
    {
        match self.now {
            Answer::Moved => self.count_move(),
            Answer::Idle => Ok(TurnOut::Idle),
            Answer::Quiet => Ok(TurnOut::Quiet),
            Answer::Spent => Ok(TurnOut::Spent),
            Answer::Stopped => Ok(TurnOut::Stopped),
            Answer::Full => Ok(TurnOut::Full),
            Answer::Refused => Err(NoMemory),
            Answer::Work | Answer::Give(_) => Ok(TurnOut::Job(())),
        }
    }

    fn give_out(&mut self) -> Result<RanStep, NoMemory>
        ensures rans { CountsGive (give_kind result) self.old.rans self.new.rans }
        ensures same { self.new ≡ record self.old { rans = self.new.rans } }
    {
        match self.now {
            Answer::Give(Ok(RanStep::Used)) => self.count_use(),
            Answer::Give(out) => out,
            _ => Ok(RanStep::Stale),
        }
    }
}

impl Turns for Listed {
    ghost use Rattle.std.specs.Prelude.{◌≡◌};

    type Job = ();

    type Done = ();

    ghost nodes = { λ t. 2 };

    ghost fits = { λ t j. Unit {0} };

    ghost made = { λ t d. Unit {0} };

    ghost turns_made = { λ t. t.turns };

    ghost rans_made = { λ t. t.rans };

    ghost last_turn = { λ t. t.last_turn };

    ghost last_give = { λ t. t.last_give };

    ghost work_refused = { λ t. t.refused };

    ghost spoiled = { λ t. t.spoiled };

    fn turn(&mut self, _slot: u32) -> Result<TurnOut<()>, NoMemory> {
        self.now = self.next();
        let out = self.turn_out();
        self.last_turn = LastTurn::of(&out);
        out
    }

    fn work(&mut self, _job: ()) -> Result<(), NoMemory> {
        self.refused = matches!(self.now, Answer::Work);
        if self.refused { Err(NoMemory) } else { Ok(()) }
    }

    fn give(&mut self, _slot: u32, _done: &()) -> Result<RanStep, NoMemory> {
        let out = self.give_out();
        self.last_give = LastGive::of(&out);
        out
    }

    fn spoil(&mut self) {
        self.spoiled = true;
    }

    fn counts(&self) -> Counted {
        Counted {
            turns: self.turns,
            rans: self.rans,
        }
    }
}

/// A gate that counts its calls for client 1 and for client 2.
#[derive(Drop)]
pub(crate) struct Noted {
    before: [Cell<u32>; 2],
    after: [Cell<u32>; 2],
}

impl Noted {
    pub(crate) fn new() -> Noted {
        Noted {
            before: [Cell::new(0), Cell::new(0)],
            after: [Cell::new(0), Cell::new(0)],
        }
    }

    /// How many segments of a client began, and how many ended.
    pub(crate) fn told(&self, client: u32) -> (u32, u32) {
        (
            count_of(&self.before, client),
            count_of(&self.after, client),
        )
    }
}

fn count_of(cells: &[Cell<u32>; 2], client: u32) -> u32 {
    match client {
        1 => cells[0].get(),
        2 => cells[1].get(),
        _ => 0,
    }
}

fn raise(cells: &[Cell<u32>; 2], client: u32) {
    match client {
        1 => cells[0].set(cells[0].get().saturating_add(1)),
        2 => cells[1].set(cells[1].get().saturating_add(1)),
        _ => {}
    }
}

impl Gate for Noted {
    fn before(&self, client: u32) {
        raise(&self.before, client);
    }

    fn after(&self, client: u32) {
        raise(&self.after, client);
    }
}
