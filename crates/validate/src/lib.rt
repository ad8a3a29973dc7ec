//! The vote on an execution.
#![tactic(auto)]

ghost use Rattle.std.specs.Prelude.{◌≡◌, List};
ghost use Rattle.morty_base.specs.declared.names.Exec.{Exec as ExecValue};
ghost use Rattle.protocol.specs.declared.First2.{First2 as FirstValue};
ghost use Rattle.protocol.specs.Replica.Taken.{Handled, fence as fence_of};
ghost use Rattle.protocol.specs.Replica.Votes.{casts, verdict as verdict_of};
ghost use Rattle.mv_index.specs.Records.{StandsFor};

use morty_base::{Version, is_before};
use msg::{Content, Vote};
use mv_index::{Clash, Records};

/// The first case that holds: at the fence, a conflict that is final, a conflict for now, none.
#[tactic(auto, unfolding(protocol::specs::Replica::Votes::verdict))]
pub fn verdict(rec: &Records, content: &Content, ver: Version, fence: Version) -> Vote
    ensures { (firsts : List FirstValue) (h : Handled) (x : ExecValue) → StandsFor firsts h rec.now → fence ≡ fence_of h → x.ver ≡ ver → result ≡ verdict_of h (casts h) x content.now }
{
    if !is_before(fence, ver) {
        return Vote::Tentative;
    }
    match rec.clash(content, ver) {
        Clash::Committed => Vote::Final,
        Clash::Voted => Vote::Tentative,
        Clash::Clear => Vote::Commit,
    }
}
