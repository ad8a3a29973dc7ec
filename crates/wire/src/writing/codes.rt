//! Bytes that name something.

ghost use Rattle.wire.specs.Outcome.{Adds};
ghost use Rattle.wire.specs.Values as values;

use crate::writing::numbers::put_byte;
use bytes::BytesMut;
use morty_base::{Ending, NoMemory};
use msg::{Choice, Vote};

#[tactic(auto, unfolding(crate::specs::Values::flag))]
pub(crate) fn put_flag(out: &mut BytesMut, flag: bool) -> Result<(), NoMemory>
    ensures { Adds values.flag flag result out.old.items out.new.items }
{
    let code = match flag {
        false => 0,
        true => 1,
    };
    put_byte(out, code)
}

#[tactic(auto, unfolding(crate::specs::Values::vote))]
pub(crate) fn put_vote(out: &mut BytesMut, vote: Vote) -> Result<(), NoMemory>
    ensures { Adds values.vote vote result out.old.items out.new.items }
{
    let code = match vote {
        Vote::Commit => 0,
        Vote::Tentative => 1,
        Vote::Final => 2,
    };
    put_byte(out, code)
}

#[tactic(auto, unfolding(crate::specs::Values::told_vote))]
pub(crate) fn put_told_vote(out: &mut BytesMut, told_vote: Option<Vote>) -> Result<(), NoMemory>
    ensures { Adds values.told_vote told_vote result out.old.items out.new.items }
{
    let code = match told_vote {
        None => 0,
        Some(Vote::Commit) => 1,
        Some(Vote::Tentative) => 2,
        Some(Vote::Final) => 3,
    };
    put_byte(out, code)
}

#[tactic(auto, unfolding(crate::specs::Values::choice))]
pub(crate) fn put_choice(out: &mut BytesMut, choice: Choice) -> Result<(), NoMemory>
    ensures { Adds values.choice choice result out.old.items out.new.items }
{
    let code = match choice {
        Choice::Abandon => 0,
        Choice::Commit => 1,
    };
    put_byte(out, code)
}

#[tactic(auto, unfolding(crate::specs::Values::decided))]
pub(crate) fn put_decided(out: &mut BytesMut, decided: Option<Choice>) -> Result<(), NoMemory>
    ensures { Adds values.decided decided result out.old.items out.new.items }
{
    let code = match decided {
        None => 0,
        Some(Choice::Abandon) => 1,
        Some(Choice::Commit) => 2,
    };
    put_byte(out, code)
}

#[tactic(auto, unfolding(crate::specs::Values::ending))]
pub(crate) fn put_ending(out: &mut BytesMut, ending: Ending) -> Result<(), NoMemory>
    ensures { Adds values.ending ending result out.old.items out.new.items }
{
    let code = match ending {
        Ending::Done => 0,
        Ending::Abort => 1,
        Ending::Overflow => 2,
        Ending::ZeroDivisor => 3,
    };
    put_byte(out, code)
}
