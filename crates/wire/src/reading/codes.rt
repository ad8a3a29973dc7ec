//! Bytes that name something.

ghost use Rattle.wire.specs.Outcome.{Gives};
ghost use Rattle.wire.specs.Values as values;

use crate::fault::FrameFault;
use crate::reading::numbers::take_byte;
use morty_base::Ending;
use msg::{Choice, Vote};

#[tactic(auto, unfolding(crate::specs::Values::flag))]
pub(crate) fn take_flag(bytes: &[u8]) -> Result<(bool, &[u8]), FrameFault>
    ensures { Gives (λ x. (x.0, x.1.now)) result (values.flag.judged bytes.now) }
{
    let (byte, rest) = take_byte(bytes)?;
    match byte {
        0 => Ok((false, rest)),
        1 => Ok((true, rest)),
        _ => Err(FrameFault::Kind),
    }
}

#[tactic(auto, unfolding(crate::specs::Values::vote))]
pub(crate) fn take_vote(bytes: &[u8]) -> Result<(Vote, &[u8]), FrameFault>
    ensures { Gives (λ x. (x.0, x.1.now)) result (values.vote.judged bytes.now) }
{
    let (byte, rest) = take_byte(bytes)?;
    match byte {
        0 => Ok((Vote::Commit, rest)),
        1 => Ok((Vote::Tentative, rest)),
        2 => Ok((Vote::Final, rest)),
        _ => Err(FrameFault::Kind),
    }
}

#[tactic(auto, unfolding(crate::specs::Values::told_vote))]
pub(crate) fn take_told_vote(bytes: &[u8]) -> Result<(Option<Vote>, &[u8]), FrameFault>
    ensures { Gives (λ x. (x.0, x.1.now)) result (values.told_vote.judged bytes.now) }
{
    let (byte, rest) = take_byte(bytes)?;
    match byte {
        0 => Ok((None, rest)),
        1 => Ok((Some(Vote::Commit), rest)),
        2 => Ok((Some(Vote::Tentative), rest)),
        3 => Ok((Some(Vote::Final), rest)),
        _ => Err(FrameFault::Kind),
    }
}

#[tactic(auto, unfolding(crate::specs::Values::choice))]
pub(crate) fn take_choice(bytes: &[u8]) -> Result<(Choice, &[u8]), FrameFault>
    ensures { Gives (λ x. (x.0, x.1.now)) result (values.choice.judged bytes.now) }
{
    let (byte, rest) = take_byte(bytes)?;
    match byte {
        0 => Ok((Choice::Abandon, rest)),
        1 => Ok((Choice::Commit, rest)),
        _ => Err(FrameFault::Kind),
    }
}

#[tactic(auto, unfolding(crate::specs::Values::decided))]
pub(crate) fn take_decided(bytes: &[u8]) -> Result<(Option<Choice>, &[u8]), FrameFault>
    ensures { Gives (λ x. (x.0, x.1.now)) result (values.decided.judged bytes.now) }
{
    let (byte, rest) = take_byte(bytes)?;
    match byte {
        0 => Ok((None, rest)),
        1 => Ok((Some(Choice::Abandon), rest)),
        2 => Ok((Some(Choice::Commit), rest)),
        _ => Err(FrameFault::Kind),
    }
}

#[tactic(auto, unfolding(crate::specs::Values::ending))]
pub(crate) fn take_ending(bytes: &[u8]) -> Result<(Ending, &[u8]), FrameFault>
    ensures { Gives (λ x. (x.0, x.1.now)) result (values.ending.judged bytes.now) }
{
    let (byte, rest) = take_byte(bytes)?;
    match byte {
        0 => Ok((Ending::Done, rest)),
        1 => Ok((Ending::Abort, rest)),
        2 => Ok((Ending::Overflow, rest)),
        3 => Ok((Ending::ZeroDivisor, rest)),
        _ => Err(FrameFault::Kind),
    }
}
