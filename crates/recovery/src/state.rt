ghost use Rattle.std.specs.Prelude.{◌≡◌, ◌<◌, [], ◌∷◌, ◌++◌, flat_map, OnOk, MatchOption, is_none};
ghost use Rattle.std.specs.Option.{option_copied};
ghost use Rattle.morty_base.specs.declared.names.NodeId.TheVariants.{Warden as WardenNode};
ghost use Rattle.protocol.specs.Warden.Recovery.{next_view, recover, round_of, take_told, take_accept, to_client, recovery_hears};
ghost use Rattle.protocol.specs.Warden.Truncation.{is_recovering};
ghost use Rattle.protocol.specs.Warden.State.{decision_on, fresh_warden};
ghost use Rattle.protocol.specs.Warden.State.Parcel.{To_all};
ghost use Rattle.protocol.specs.World.Events.{parcel};
ghost use Rattle.recovery.specs.Round.{last_view};
ghost use Rattle.recovery.specs.Recoverer.{TakesTurn};

use crate::decision::{Decision, Decisions};
use crate::proposal::{Proposal, Told, fixed};
use crate::round::{Round, next_view};
use crate::rounds::Rounds;
use crate::rules::Rules;
use morty_base::{Exec, List, NoMemory};
use msg::{Body, Envelope, copy_content};
use std::alloc::Global;
use std::marker::Model;

/// What a warden remembers of its recoveries, the newest first.
#[derive(Drop)]
pub struct State {
    rounds: Rounds,
    decisions: Decisions,
}

impl Model for State {
    ghost use Rattle.std.specs.Prelude.{[]};
    ghost use Rattle.protocol.specs.Warden.State.{WardenState};

    ghost Value = { WardenState };

    ghost view = { λ s. record { rounds = s.rounds; decisions = s.decisions; truncations = [] } };
}

impl State {
    pub fn new(alloc: Global) -> State
        ensures { result ≡ fresh_warden }
    {
        State {
            rounds: Rounds::new(alloc),
            decisions: Decisions::new(alloc),
        }
    }

    /// What was decided of an execution.
    pub fn decision_on(&self, exec: Exec) -> Option<&Decision>
        ensures { option_copied result ≡ decision_on self.now exec }
    {
        self.decisions.on(exec)
    }

    /// Whether an execution is not decided.
    pub fn is_undecided(&self, exec: Exec) -> bool
        ensures { result ≡ is_none (decision_on self.now exec) }
    {
        self.decision_on(exec).is_none()
    }

    /// The next view for an execution, where it is not past all views.
    pub fn next_view(&self, rules: &Rules, exec: Exec) -> Option<u32>
        ensures { MatchOption result
            (last_view < next_view rules.now self.now exec)
            (λ view. view ≡ next_view rules.now self.now exec) }
    {
        next_view(rules.warden, rules.wardens, self.rounds.used(exec))
    }

    /// Whether an execution was asked about.
    pub fn is_recovering(&self, exec: Exec) -> bool
        ensures { result ≡ is_recovering self.now exec }
    {
        self.rounds.has(exec)
    }

    /// Asks all replicas in the next view.
    pub fn recover(
        &mut self,
        alloc: Global,
        rules: &Rules,
        exec: Exec,
        view: u32,
        out: &mut List<Envelope>,
    ) -> Result<(), NoMemory>
        requires { view ≡ next_view rules.now self.old exec }
        ensures { OnOk result (TakesTurn rules.now (recover rules.now self.old exec) self.new out.old out.new) }
    {
        self.rounds.add(alloc, Round::new(alloc, exec, view))?;
        rules.send_to_all(alloc, &Body::Ask { exec, view }, out)
    }

    // The first f+1 replicas whose Told of a view arrives fix its choice.
    fn take_told(
        &mut self,
        alloc: Global,
        rules: &Rules,
        exec: Exec,
        view: u32,
        told: Told,
        out: &mut List<Envelope>,
    ) -> Result<(), NoMemory>
        ensures { OnOk result (TakesTurn rules.now (take_told rules.now self.old exec view told (round_of exec view self.old.rounds)) self.new out.old out.new) }
    {
        let Some(round) = self.rounds.get(exec, view) else {
            return Ok(());
        };
        if !round.counts_told(told.replica) {
            return Ok(());
        }
        self.rounds.add_told(exec, view, told)?;
        let Some(round) = self.rounds.get(exec, view) else {
            unreachable!();
        };
        if round.tolds().len() < rules.quorum() {
            return Ok(());
        }
        let proposal = fixed(alloc, round.tolds())?;
        let body = proposal.finalize(alloc, exec, view)?;
        self.rounds.propose(alloc, exec, view, proposal);
        rules.send_to_all(alloc, &body, out)
    }

    // All replicas are told, then the client.
    fn decide(
        &mut self,
        alloc: Global,
        rules: &Rules,
        exec: Exec,
        proposal: Proposal,
        out: &mut List<Envelope>,
    ) -> Result<(), NoMemory>
        ensures { OnOk result (TakesTurn rules.now
            (record {
              state = record self.old { decisions = record { exec = exec; proposal = proposal } ∷ self.old.decisions };
              sent = To_all (Body.Decide exec proposal.choice proposal.content) ∷ to_client rules.now exec (Body.Decide exec proposal.choice proposal.content);
            })
            self.new out.old out.new) }
    {
        let body = proposal.decide(alloc, exec)?;
        rules.send_to_all(alloc, &body, out)?;
        rules.send_to_client(exec, body, out)?;
        self.decisions.add(alloc, Decision { exec, proposal })
    }

    // f+1 Accepted of a view decide what was proposed in it.
    fn take_accept(
        &mut self,
        alloc: Global,
        rules: &Rules,
        exec: Exec,
        view: u32,
        replica: u32,
        out: &mut List<Envelope>,
    ) -> Result<(), NoMemory>
        ensures { OnOk result (TakesTurn rules.now (take_accept rules.now self.old exec view replica (round_of exec view self.old.rounds)) self.new out.old out.new) }
    {
        let Some(round) = self.rounds.get(exec, view) else {
            return Ok(());
        };
        if !round.counts_accept(replica) {
            return Ok(());
        }
        self.rounds.add_accept(exec, view, replica)?;
        let Some(round) = self.rounds.get(exec, view) else {
            unreachable!();
        };
        if round.accept_count() < rules.quorum() {
            return Ok(());
        }
        let Some(proposal) = round.proposal() else {
            return Ok(());
        };
        let proposal = proposal.copy(alloc)?;
        self.decide(alloc, rules, exec, proposal, out)
    }

    /// Takes an envelope: a Told or an Accepted of a replica, about an execution that is not decided.
    pub fn hear(
        &mut self,
        alloc: Global,
        rules: &Rules,
        env: &Envelope,
        out: &mut List<Envelope>,
    ) -> Result<(), NoMemory>
        ensures { OnOk result (TakesTurn rules.now (recovery_hears rules.now self.old env.now.from env.now.body) self.new out.old out.new) }
    {
        let Some(replica) = rules.sender(env.from) else {
            return Ok(());
        };
        match &env.body {
            Body::Told {
                exec,
                view,
                vote,
                accepted,
                decided,
                content,
            } => {
                if !self.is_undecided(*exec) {
                    return Ok(());
                }
                let content = copy_content(alloc, content)?;
                let told = Told {
                    replica,
                    vote: *vote,
                    accepted: *accepted,
                    decided: *decided,
                    content,
                };
                self.take_told(alloc, rules, *exec, *view, told, out)
            }
            Body::Accepted { exec, view } => {
                if !self.is_undecided(*exec) {
                    return Ok(());
                }
                self.take_accept(alloc, rules, *exec, *view, replica, out)
            }
            _ => Ok(()),
        }
    }
}
