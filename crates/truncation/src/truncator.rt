ghost use Rattle.std.specs.Prelude.{◌≡◌, ◌<◌, true, false, IsTrue, IsErr, OnOk, OnErr};
ghost use Rattle.morty_base.specs.declared.names.Version.{Version as WardenVersion};
ghost use Rattle.protocol.specs.Client.Counting.{sender};
ghost use Rattle.protocol.specs.Warden.State.{WardenState, still, fresh_warden};
ghost use Rattle.protocol.specs.Warden.Truncation.{truncate, take_fenced, recover_all, can_truncate as may_truncate};
ghost use Rattle.protocol.specs.Warden.Step.{fenced_from, finished, warden_hears};
ghost use Rattle.recovery.specs.Recoverer.{RecoveringWarden, Does};
ghost use Rattle.truncation.specs.Truncator.{StandsFor, StandsAt, Steps, Turns, can_truncate, is_counted, recovers_next};

use crate::answer::Answer;
use crate::base::base_of;
use crate::truncation::Truncation;
use morty_base::{Exec, List, NoMemory, NodeId, Version, is_before};
use msg::{Body, Envelope, copy_kept};
use protocol::{send_to_all, sender};
use recovery::Recoverer;
use std::alloc::Global;
use std::marker::Model;

/// A warden's truncations, beside the Recoverer of the same warden. Both are broken once a call that changes them ran
/// out of memory: from then on such calls answer NoMemory, what the others answer means nothing, and `out` may hold
/// envelopes that count for nothing.
#[derive(Drop)]
pub struct Truncator {
    warden: u32,
    replicas: u32,
    newest: Truncation,
    begun: u32,
    broken: bool,
}

impl Model for Truncator {
    ghost use Rattle.truncation.specs.Truncator.{TruncatingWarden};

    ghost Value = { TruncatingWarden };

    ghost view = { λ t. record { warden = t.warden; replicas = t.replicas; newest = t.newest; begun = t.begun; broken = t.broken } };
}

// An execution is recovered unless it is decided or being recovered.
fn recover_next(
    alloc: Global,
    rec: &mut Recoverer,
    x: Exec,
    out: &mut List<Envelope>,
) -> Result<(), NoMemory>
    requires { rec.old.broken ≡ false }
    ensures { OnOk result (Does (recovers_next rec.old.rules rec.old.state x) rec.old rec.new out.old out.new) }
{
    if rec.decided(x).is_some() || rec.recovering(x) {
        return Ok(());
    }
    rec.recover(alloc, x, out)
}

// One after another.
fn recover_named(
    alloc: Global,
    rec: &mut Recoverer,
    named: &[Exec],
    out: &mut List<Envelope>,
) -> Result<(), NoMemory>
    requires { rec.old.broken ≡ false }
    ensures { OnOk result (Does (recover_all rec.old.rules (still rec.old.state) named.now) rec.old rec.new out.old out.new) }
{
    for x in named {
        recover_next(alloc, rec, *x, out)?;
    }
    Ok(())
}

impl Truncator {
    /// A warden of this number, beside so many replicas. It has begun no truncation.
    pub fn new(alloc: Global, number: u32, replicas: u32) -> Truncator
        ensures { (rec : RecoveringWarden) → rec.rules.warden ≡ number → rec.rules.replicas ≡ replicas → rec.state ≡ fresh_warden → rec.broken ≡ false → StandsFor result rec fresh_warden }
    {
        Truncator {
            warden: number,
            replicas,
            newest: Truncation::none(alloc),
            begun: 0,
            broken: false,
        }
    }

    /// Whether a truncation to this version can begin: none is under way, the version is above 0.0 and above those
    /// before, and fewer than 16 were begun.
    pub fn can_truncate(&self, w: Version) -> bool
        ensures value { result ≡ can_truncate self.now w }
        ensures means { (rec : RecoveringWarden) (s : WardenState) → StandsFor self.now rec s → result ≡ may_truncate s w }
    {
        self.newest.dropped && is_before(self.newest.w, w) && self.begun < 16
    }

    /// Asks all replicas for a fence.
    pub fn truncate(
        &mut self,
        alloc: Global,
        w: Version,
        out: &mut List<Envelope>,
    ) -> Result<(), NoMemory>
        requires { self.old.broken ≡ false → IsTrue (can_truncate self.old w) }
        ensures ok { OnOk result ((rec : RecoveringWarden) (s : WardenState) → StandsFor self.old rec s → StandsAt self.new rec out.old out.new (truncate s w)) }
        ensures err { OnErr result (self.new.broken ≡ true) }
        ensures broken { self.old.broken ≡ true → IsErr result }
    {
        if self.broken {
            return Err(NoMemory);
        }
        self.broken = true;
        let from = NodeId::Warden(self.warden);
        send_to_all(alloc, self.replicas, from, &Body::Fence { w }, out)?;
        self.newest = Truncation::new(alloc, w);
        self.begun += 1;
        self.broken = false;
        Ok(())
    }

    // One more Fenced that counts. The last of a quorum begins the recoveries.
    fn take_fenced(
        &mut self,
        alloc: Global,
        rec: &mut Recoverer,
        w: Version,
        answer: Answer,
        out: &mut List<Envelope>,
    ) -> Result<(), NoMemory>
        requires whole { rec.old.broken ≡ false }
        requires counts { is_counted self.old.replicas self.old.newest w answer.replica ≡ true }
        ensures { OnOk result (Steps (λ rules u. take_fenced rules u w answer u.state.truncations) self.old self.new rec.old rec.new out.old out.new) }
    {
        self.newest.add(alloc, self.replicas, answer)?;
        recover_named(alloc, rec, self.newest.named.as_slice(), out)
    }

    // A Fenced from a replica.
    fn hear_fenced(
        &mut self,
        alloc: Global,
        rec: &mut Recoverer,
        env: &Envelope,
        out: &mut List<Envelope>,
    ) -> Result<(), NoMemory>
        requires { rec.old.broken ≡ false }
        ensures { OnOk result (Steps (λ rules u. fenced_from rules u (sender rules.replicas env.now.from) env.now.body) self.old self.new rec.old rec.new out.old out.new) }
    {
        let Some(replica) = sender(self.replicas, env.from) else {
            return Ok(());
        };
        let Body::Fenced {
            w,
            base,
            committed,
            voted,
        } = &env.body
        else {
            return Ok(());
        };
        if !self.newest.counts(self.replicas, *w, replica) {
            return Ok(());
        }
        let answer = Answer {
            replica,
            base: base.copy(alloc)?,
            committed: copy_kept(alloc, committed.as_slice())?,
            voted: copy_kept(alloc, voted.as_slice())?,
        };
        self.take_fenced(alloc, rec, *w, answer, out)
    }

    // The Drop goes to all, once all that was named is decided.
    fn finish(
        &mut self,
        alloc: Global,
        rec: &Recoverer,
        out: &mut List<Envelope>,
    ) -> Result<(), NoMemory>
        requires { rec.now.broken ≡ false }
        ensures { OnOk result (Steps finished self.old self.new rec.now rec.now out.old out.new) }
    {
        if !self.newest.is_settled(self.replicas, rec) {
            return Ok(());
        }
        let w = self.newest.w;
        let base = base_of(alloc, w, rec, self.newest.answers.as_slice())?;
        let from = NodeId::Warden(self.warden);
        send_to_all(alloc, self.replicas, from, &Body::Drop { w, base }, out)?;
        self.newest.drop_answers(alloc);
        Ok(())
    }

    // Recovery first, then the truncation.
    fn hear(
        &mut self,
        alloc: Global,
        rec: &mut Recoverer,
        env: &Envelope,
        out: &mut List<Envelope>,
    ) -> Result<(), NoMemory>
        ensures ok { OnOk result (Turns (λ rules s. warden_hears rules s env.now.from env.now.body) self.old self.new rec.old rec.new out.old out.new) }
        ensures broken { rec.old.broken ≡ true → IsErr result }
    {
        rec.handle(alloc, env, out)?;
        self.hear_fenced(alloc, rec, env, out)?;
        self.finish(alloc, rec, out)
    }

    /// Takes an envelope, all that its warden does with it: the Recoverer of the same warden handles it first.
    pub fn handle(
        &mut self,
        alloc: Global,
        rec: &mut Recoverer,
        env: &Envelope,
        out: &mut List<Envelope>,
    ) -> Result<(), NoMemory>
        ensures ok { OnOk result (Turns (λ rules s. warden_hears rules s env.now.from env.now.body) self.old self.new rec.old rec.new out.old out.new) }
        ensures err { OnErr result (self.new.broken ≡ true) }
        ensures recoverer_err { OnErr result (rec.new.broken ≡ true) }
        ensures broken { self.old.broken ≡ true → IsErr result }
        ensures recoverer_broken { rec.old.broken ≡ true → IsErr result }
    {
        let handled = if self.broken {
            Err(NoMemory)
        } else {
            self.hear(alloc, rec, env, out)
        };
        if handled.is_err() {
            self.broken = true;
            rec.give_up();
        }
        handled
    }
}
