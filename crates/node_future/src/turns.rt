ghost use Rattle.std.specs.Prelude.{◌≡◌, ◌<◌, ◌↔◌, ℕ, Bool, true, IfOk, OnErr};

use hub::{Counted, TurnOut};
use morty_base::NoMemory;
use net_core::RanStep;

/// What a node takes its turns at. A slot is below the number of nodes.
pub trait Turns: Drop {
    ghost use Rattle.node_future.specs.Answers.{turn_kind, give_kind, CountsTurn, CountsGive, JobFits};
    ghost use Rattle.node_future.specs.declared.answers.LastTurn.{LastTurn};
    ghost use Rattle.node_future.specs.declared.answers.LastGive.{LastGive};

    type Job: Drop;

    type Done: Drop;

    // The number of nodes, the jobs that fit, and what was done of one that fits. No call changes these.
    ghost nodes: { Self → ℕ };

    ghost fits: { Self → Self.Job → Type 0 };

    ghost made: { Self → Self.Done → Type 0 };

    // How many picks were made through it, and how many segments of it were used.
    ghost turns_made: { Self → ℕ };

    ghost rans_made: { Self → ℕ };

    // Which kind of answer `turn` and `give` gave last. Each is changed by its own call alone.
    ghost last_turn: { Self → LastTurn };

    ghost last_give: { Self → LastGive };

    // That a segment was refused, and that it was spoiled. One that does not tell these says yes.
    ghost work_refused: { Self → Bool } = { λ _. true };

    ghost spoiled: { Self → Bool } = { λ _. true };

    /// One turn of the node of a slot.
    fn turn(&mut self, slot: u32) -> Result<TurnOut<Self::Job>, NoMemory>
        requires { slot < nodes self.old }
        ensures job { JobFits (fits self.new) result }
        ensures turns { CountsTurn (turn_kind result) (turns_made self.old) (turns_made self.new) }
        ensures rans { rans_made self.new ≡ rans_made self.old }
        ensures last_turn { last_turn self.new ≡ turn_kind result }
        ensures last_give { last_give self.new ≡ last_give self.old }
        ensures nodes { nodes self.new ≡ nodes self.old }
        ensures fits { (j : Self.Job) → fits self.new j ↔ fits self.old j }
        ensures made { (d : Self.Done) → made self.new d ↔ made self.old d };

    /// Runs a segment.
    fn work(&mut self, a_job: Self::Job) -> Result<Self::Done, NoMemory>
        requires { fits self.old a_job }
        ensures done { IfOk result (made self.new) }
        ensures refused { OnErr result (work_refused self.new ≡ true) }
        ensures turns { turns_made self.new ≡ turns_made self.old }
        ensures rans { rans_made self.new ≡ rans_made self.old }
        ensures last_turn { last_turn self.new ≡ last_turn self.old }
        ensures last_give { last_give self.new ≡ last_give self.old }
        ensures nodes { nodes self.new ≡ nodes self.old }
        ensures fits { (j : Self.Job) → fits self.new j ↔ fits self.old j }
        ensures made { (d : Self.Done) → made self.new d ↔ made self.old d };

    /// Gives back what was done of a job of a slot.
    fn give(&mut self, slot: u32, done: &Self::Done) -> Result<RanStep, NoMemory>
        requires slot { slot < nodes self.old }
        requires made { made self.old done.now }
        ensures turns { turns_made self.new ≡ turns_made self.old }
        ensures rans { CountsGive (give_kind result) (rans_made self.old) (rans_made self.new) }
        ensures last_turn { last_turn self.new ≡ last_turn self.old }
        ensures last_give { last_give self.new ≡ give_kind result }
        ensures nodes { nodes self.new ≡ nodes self.old }
        ensures fits { (j : Self.Job) → fits self.new j ↔ fits self.old j }
        ensures made { (d : Self.Done) → made self.new d ↔ made self.old d };

    /// From now on every turn of every node is refused.
    fn spoil(&mut self)
        ensures spoiled { spoiled self.new ≡ true }
        ensures refused { work_refused self.new ≡ work_refused self.old }
        ensures turns { turns_made self.new ≡ turns_made self.old }
        ensures rans { rans_made self.new ≡ rans_made self.old }
        ensures last_turn { last_turn self.new ≡ last_turn self.old }
        ensures last_give { last_give self.new ≡ last_give self.old }
        ensures nodes { nodes self.new ≡ nodes self.old }
        ensures fits { (j : Self.Job) → fits self.new j ↔ fits self.old j }
        ensures made { (d : Self.Done) → made self.new d ↔ made self.old d };

    /// How many picks were made through it, and how many segments of it were used.
    fn counts(&self) -> Counted
        ensures turns { result.turns ≡ turns_made self.now }
        ensures rans { result.rans ≡ rans_made self.now };
}
