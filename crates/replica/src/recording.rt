//! What becomes of the records by a vote and by a decision.

ghost use Rattle.std.specs.Prelude.{◌≡◌, ◌≤◌, ◌∷◌, length, true, false, None, List, OnOk};
ghost use Rattle.morty_base.specs.declared.names.NodeId.{NodeId as NodeValue};
ghost use Rattle.morty_base.specs.Names.{before};
ghost use Rattle.msg.specs.declared.Body.TheVariants.{Prepare, Decide};
ghost use Rattle.protocol.specs.declared.First2.{First2 as FirstValue};
ghost use Rattle.protocol.specs.Replica.Taken.{Handled, dropped, lacks_content};
ghost use Rattle.protocol.specs.Replica.Acceptor.{decided};
ghost use Rattle.protocol.specs.Replica.Votes.{casts, may_vote, verdict};
ghost use Rattle.mv_index.specs.Records.{StandsFor, WereTold};
ghost use Rattle.protocol.specs.Replica.Limits.{HasFewWrites};

use morty_base::{Exec, NoMemory};
use msg::{Choice, Content, Vote};
use mv_index::Records;
use std::alloc::Global;

/// The vote that is cast on an execution; the records keep the contents with a Commit vote.
pub(crate) fn record_vote(
    alloc: Global,
    records: &mut Records,
    exec: Exec,
    content: &Content,
    vote: Vote,
) -> Result<(), NoMemory>
    requires { length content.now.writes ≤ 4294967295 }
    ensures stands { (firsts : List FirstValue) (h : Handled) (from to : NodeValue) → StandsFor firsts h records.old → before (dropped h) exec.ver ≡ true → may_vote h (casts h) exec ≡ true → vote ≡ verdict h (casts h) exec content.now → OnOk result (StandsFor firsts (record { from = from; to = to; body = Prepare exec content.now } ∷ h) records.new) }
    ensures told { (firsts : List FirstValue) (h : Handled) → WereTold firsts h records.old → OnOk result (WereTold firsts h records.new) }
{
    match vote {
        Vote::Commit => records.voted(alloc, exec, content),
        Vote::Tentative => Ok(()),
        Vote::Final => Ok(()),
    }
}

/// The first decision on an execution.
pub(crate) fn record_decision(
    alloc: Global,
    records: &mut Records,
    exec: Exec,
    choice: Choice,
    content: &Option<Content>,
) -> Result<(), NoMemory>
    requires { HasFewWrites content.now }
    ensures stands { (firsts : List FirstValue) (h : Handled) (from to : NodeValue) → StandsFor firsts h records.old → before (dropped h) exec.ver ≡ true → decided h exec ≡ None → lacks_content (Decide exec choice content.now) ≡ false → OnOk result (StandsFor firsts (record { from = from; to = to; body = Decide exec choice content.now } ∷ h) records.new) }
    ensures told { (firsts : List FirstValue) (h : Handled) → WereTold firsts h records.old → OnOk result (WereTold firsts h records.new) }
{
    match choice {
        Choice::Abandon => records.abandon(exec),
        Choice::Commit => match content {
            None => Ok(()),
            Some(content) => records.commit(alloc, exec, content),
        },
    }
}
