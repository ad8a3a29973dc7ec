ghost use Rattle.std.specs.Prelude.{◌≡◌};

use hub::TurnOut;
use morty_base::NoMemory;
use net_core::RanStep;

/// Which kind of answer a turn gave last, if any.
#[derive(Clone, Copy, Debug, PartialEq, Eq)]
pub enum LastTurn {
    None,
    Moved,
    Job,
    Idle,
    Quiet,
    Spent,
    Stopped,
    Full,
    Refused,
}

impl LastTurn {
    ghost use Rattle.node_future.specs.Answers.{turn_kind};

    /// The kind of an answer.
    pub fn of<J>(answer: &Result<TurnOut<J>, NoMemory>) -> LastTurn
        ensures { result ≡ turn_kind answer.now }
    {
        match answer {
            Ok(TurnOut::Moved) => LastTurn::Moved,
            Ok(TurnOut::Job(_)) => LastTurn::Job,
            Ok(TurnOut::Idle) => LastTurn::Idle,
            Ok(TurnOut::Quiet) => LastTurn::Quiet,
            Ok(TurnOut::Spent) => LastTurn::Spent,
            Ok(TurnOut::Stopped) => LastTurn::Stopped,
            Ok(TurnOut::Full) => LastTurn::Full,
            Err(_) => LastTurn::Refused,
        }
    }
}

/// Which kind of answer giving a segment back gave last, if any.
#[derive(Clone, Copy, Debug, PartialEq, Eq)]
pub enum LastGive {
    None,
    Used,
    Stale,
    Full,
    Refused,
}

impl LastGive {
    ghost use Rattle.node_future.specs.Answers.{give_kind};

    /// The kind of an answer.
    pub fn of(answer: &Result<RanStep, NoMemory>) -> LastGive
        ensures { result ≡ give_kind answer.now }
    {
        match answer {
            Ok(RanStep::Used) => LastGive::Used,
            Ok(RanStep::Stale) => LastGive::Stale,
            Ok(RanStep::Full) => LastGive::Full,
            Err(_) => LastGive::Refused,
        }
    }
}
