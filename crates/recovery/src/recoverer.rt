ghost use Rattle.std.specs.Prelude.{◌≡◌, ◌&&◌, true, false, IsTrue, IfOk, IsErr, OnOk, OnErr, is_none};
ghost use Rattle.protocol.specs.Warden.Recovery.{recover, recovery_hears};
ghost use Rattle.protocol.specs.Warden.Truncation.{is_recovering};
ghost use Rattle.protocol.specs.Warden.State.{decision_on, fresh_warden};
ghost use Rattle.recovery.specs.Recoverer.{Does, can_recover, decided_choice, decided_content};

use crate::rules::Rules;
use crate::state::State;
use morty_base::{Exec, List, NoMemory};
use msg::{Choice, Content, Envelope};
use std::alloc::Global;
use std::marker::Model;

/// A warden's recoveries. It is broken once a call that changes it ran out of memory: from then on those calls
/// answer NoMemory, what the others answer means nothing, and `out` may hold envelopes that count for nothing.
#[derive(Drop)]
pub struct Recoverer {
    rules: Rules,
    state: State,
    broken: bool,
}

impl Model for Recoverer {
    ghost use Rattle.std.specs.Prelude.{◌<◌, ◌^◌};
    ghost use Rattle.recovery.specs.Recoverer.{RecoveringWarden};

    ghost Value = { RecoveringWarden };

    ghost view = { λ w. record { rules = w.rules; state = w.state; broken = w.broken } };

    ghost invariant = { λ w. w.rules.warden < 2 ^ 32 };
}

impl Recoverer {
    /// A warden of this number, beside so many wardens, replicas and clients. It has asked and decided nothing.
    pub fn new(alloc: Global, number: u32, wardens: u32, replicas: u32, clients: u32) -> Recoverer
        ensures { result ≡ record {
          rules = record { warden = number; wardens = wardens; replicas = replicas; clients = clients };
          state = fresh_warden;
          broken = false;
        } }
    {
        Recoverer {
            rules: Rules {
                warden: number,
                wardens,
                replicas,
                clients,
            },
            state: State::new(alloc),
            broken: false,
        }
    }

    /// Whether an execution can be recovered: it is not decided, and a view is left for it.
    pub fn can_recover(&self, x: Exec) -> bool
        ensures { self.now.broken ≡ false → result ≡ can_recover self.now x }
    {
        self.state.is_undecided(x) && self.state.next_view(&self.rules, x).is_some()
    }

    /// Asks all replicas about an execution, in the next view that this warden has for it.
    pub fn recover(
        &mut self,
        alloc: Global,
        x: Exec,
        out: &mut List<Envelope>,
    ) -> Result<(), NoMemory>
        requires { self.old.broken ≡ false → IsTrue (can_recover self.old x) }
        ensures ok { OnOk result (Does (recover self.old.rules self.old.state x) self.old self.new out.old out.new) }
        ensures err { OnErr result (self.new.broken ≡ true) }
        ensures broken { self.old.broken ≡ true → IsErr result }
    {
        if self.broken {
            return Err(NoMemory);
        }
        let Some(view) = self.state.next_view(&self.rules, x) else {
            unreachable!();
        };
        self.broken = true;
        self.state.recover(alloc, &self.rules, x, view, out)?;
        self.broken = false;
        Ok(())
    }

    /// Takes an envelope: the Tolds of a quorum fix the choice of a view, and the Accepteds of a quorum decide it.
    pub fn handle(
        &mut self,
        alloc: Global,
        env: &Envelope,
        out: &mut List<Envelope>,
    ) -> Result<(), NoMemory>
        ensures ok { OnOk result (Does (recovery_hears self.old.rules self.old.state env.now.from env.now.body) self.old self.new out.old out.new) }
        ensures err { OnErr result (self.new.broken ≡ true) }
        ensures broken { self.old.broken ≡ true → IsErr result }
    {
        if self.broken {
            return Err(NoMemory);
        }
        self.broken = true;
        self.state.hear(alloc, &self.rules, env, out)?;
        self.broken = false;
        Ok(())
    }

    /// What this warden decided of an execution.
    pub fn decided(&self, x: Exec) -> Option<Choice>
        ensures { self.now.broken ≡ false → result ≡ decided_choice self.now.state x }
    {
        let decision = self.state.decision_on(x)?;
        Some(decision.choice())
    }

    /// A copy of the content with which this warden decided to commit an execution.
    pub fn content(&self, alloc: Global, x: Exec) -> Result<Option<Content>, NoMemory>
        ensures value { self.now.broken ≡ false → IfOk result (λ content. content ≡ decided_content self.now.state x) }
        ensures broken { self.now.broken ≡ true → IsErr result }
    {
        if self.broken {
            return Err(NoMemory);
        }
        match self.state.decision_on(x) {
            None => Ok(None),
            Some(decision) => decision.copy_content(alloc),
        }
    }

    /// Whether this warden asked about an execution that it has not decided. One that it neither decided nor asked
    /// about can be recovered.
    pub fn recovering(&self, x: Exec) -> bool
        ensures recovering { self.now.broken ≡ false → result ≡ (is_none (decision_on self.now.state x) && is_recovering self.now.state x) }
        ensures unasked { self.now.broken ≡ false → result ≡ false → is_none (decision_on self.now.state x) ≡ true → IsTrue (can_recover self.now x) }
    {
        self.state.is_undecided(x) && self.state.is_recovering(x)
    }

    /// Breaks it: the warden of which it is a part ran out of memory.
    pub fn give_up(&mut self)
        ensures { self.new ≡ record self.old { broken = true } }
    {
        self.broken = true;
    }
}
