ghost use Rattle.std.specs.Prelude.{◌≡◌, ◌<◌, ◌≤◌, true, false, [], length, reverse, map, replicate, nat_le, slice_get, slice_set, Some, None, Ok};
ghost use Rattle.std.specs.Prelude.{IfOk, OnOk, OnErr, IsErr, IfSome, IsSome, MatchOption};
ghost use Rattle.morty_base.specs.declared.names.NodeId.{NodeId as NodeValue};
ghost use Rattle.net_core.specs.Machine.{History};
ghost use Rattle.net_core.specs.Marks.{rests, is_quiet, is_full, is_marked, turns_made, end_of};
ghost use Rattle.net_core.specs.declared.machine.RanStep.TheVariants.{Stale};
ghost use Rattle.hub.specs.Starts.{Start, IsRun};
ghost use Rattle.hub.specs.Views.{HubView, first_view, history, nodes_of, job_in, told_end, AtNode};
ghost use Rattle.hub.specs.Turns.{IsTurn, IsLeft, IsCase, NoneLeft, Asked, Does, Gave};
ghost use Rattle.hub.specs.Kept.{picks_in, rans_in};

use crate::named::Named;
use crate::rooms::{
    asked_out, client_of, count_turn, ended_by, ended_given, ended_out, falses, forget, mark,
    nones, note_pick, note_ran, pick_at, unhand, unmark, used_after, zeros,
};
use crate::turn_out::{Counted, TurnCase, TurnOut};
use morty_base::{Ended, NoMemory, NodeId};
use msg::Event;
use net_core::{Link, Machine, RanStep};
use std::alloc::Global;
use std::marker::{Model, PhantomData};

/// A machine, the links of its nodes in the order of their slots, and the journal.
///
/// A slot is below the number of nodes. After `NoMemory` from `turn` or `give` the hub is as after `spoil`.
#[derive(Drop)]
pub struct Hub<M: Machine, L: Link, N: Named<M::Origin>> {
    alloc: Global,
    machine: M,
    links: Vec<L>,
    journal: Vec<Event>,
    // Of each slot, whether its node carries its idle mark, how many turns it made, and the job that it was handed last.
    marks: Vec<bool>,
    made: Vec<u32>,
    handed: Vec<Option<M::Job>>,
    turns: u32,
    picked: u64,
    used: u64,
    ended: Option<Ended>,
    spoiled: bool,
    broken: bool,
    of: PhantomData<N>,
}

impl<M: Machine, L: Link, N: Named<M::Origin>> Model for Hub<M, L, N> {
    ghost use Rattle.std.specs.Prelude.{◌≡◌, Bool, false, reverse, Some, map, length};
    ghost use Rattle.hub.specs.Starts.{Start};
    ghost use Rattle.hub.specs.Views.{HubView, nodes_of};
    ghost use Rattle.hub.specs.Kept.{IsKept, IsNoted, HasRooms, picks_in};

    ghost Value = { HubView M.Job };

    ghost view = { λ h. record {
      nodes = length h.links.items;
      journal = h.journal.items;
      jobs = map (M.jobs h.machine) (nodes_of N.start M.rules);
      handed = h.handed.items;
      ended = h.ended;
      spoiled = h.spoiled;
      broken = h.broken;
    } };

    ghost invariant = { λ h. HasRooms (M.count h.machine) (length h.links.items) (length h.handed.items) (length h.marks.items) (length h.made.items)
        × (h.picked ≡ picks_in (reverse h.journal.items))
        × ((s : Start M.Origin) → N.start ≡ Some s → IsNoted (M.rules s.origin) s.turns (reverse h.journal.items) h.used h.ended)
        × (h.broken ≡ false → (s : Start M.Origin) → N.start ≡ Some s
        → IsKept M.rules (M.stands h.machine) s (reverse h.journal.items) (map L.state_of h.links.items) h.turns h.marks.items h.made.items h.ended)
        × (h.spoiled ≡ false → h.broken ≡ false)
        × ((s : Start M.Origin) → N.start ≡ Some s → length h.links.items ≡ length (M.rules s.origin).nodes)
        × M.usable h.machine };
}

impl<M: Machine, L: Link, N: Named<M::Origin>> Hub<M, L, N> {
    /// A run that has not begun. Each node may make so many turns.
    pub fn new(
        alloc: Global,
        machine: M,
        links: Vec<L>,
        turns: u32,
    ) -> Result<Hub<M, L, N>, NoMemory>
        requires links { length links.items ≡ M.count machine }
        requires usable { M.usable machine }
        requires start { (s : Start M.Origin) → N.start ≡ Some s → M.stands machine s.origin [] × (s.turns ≡ turns) × (s.links ≡ map L.state_of links.items) }
        ensures { IfOk result (λ h. h ≡ first_view (length links.items) (map (M.jobs machine) (nodes_of N.start M.rules))) }
    {
        let nodes = machine.nodes() as usize;
        let marks = falses(alloc, nodes)?;
        let made = zeros(alloc, nodes)?;
        let handed = nones(alloc, nodes)?;
        Ok(Hub {
            alloc,
            machine,
            links,
            journal: Vec::new(alloc),
            marks,
            made,
            handed,
            turns,
            picked: 0,
            used: 0,
            ended: None,
            spoiled: false,
            broken: false,
            of: PhantomData,
        })
    }

    /// The machine, the journal and the links. All that the hub kept of them is a fact about these three.
    pub fn into_parts(self) -> (M, Vec<Event>, Vec<L>)
        ensures journal { result.1.items ≡ self.journal }
        ensures run { self.broken ≡ false → (s : Start M.Origin) → N.start ≡ Some s
            → IsRun M.rules (M.stands result.0) s (reverse result.1.items) (map L.state_of result.2.items) }
    {
        let Hub {
            machine,
            journal,
            links,
            ..
        } = self;
        (machine, journal, links)
    }

    /// The number of nodes. There is one at least.
    pub fn nodes(&self) -> u32
        ensures told { result ≡ self.now.nodes }
        ensures some { 1 ≤ result }
        ensures machine { (s : Start M.Origin) → N.start ≡ Some s → result ≡ length (M.rules s.origin).nodes }
    {
        self.machine.nodes()
    }

    /// How many picks the journal has, and how many segments that were used.
    pub fn counted(&self) -> Counted
        ensures turns { result.turns ≡ picks_in (history self.now) }
        ensures rans { (s : Start M.Origin) → N.start ≡ Some s → result.rans ≡ rans_in (M.rules s.origin) (history self.now) }
    {
        Counted {
            turns: self.picked,
            rans: self.used,
        }
    }

    /// How the run ended, if it did and the hub was not spoiled.
    pub fn ended(&self) -> Option<Ended>
        ensures told { result ≡ told_end self.now }
        ensures end { IfSome result (λ e. (s : Start M.Origin) → N.start ≡ Some s → end_of (M.rules s.origin) s.turns (history self.now) ≡ Some e) }
        ensures whole { IsSome result → self.now.broken ≡ false }
    {
        if self.spoiled {
            return None;
        }
        self.ended
    }

    /// From now on every turn answers `NoMemory`.
    pub fn spoil(&mut self)
        ensures { self.new ≡ record self.old { spoiled = true } }
    {
        self.spoiled = true;
    }

    /// Every pending job counts as not handed out.
    pub fn recall(&mut self)
        ensures { self.new ≡ record self.old { handed = replicate self.old.nodes None } }
    {
        forget(&mut self.handed);
    }

    /// One turn of the node of a slot, which makes at most one event.
    pub fn turn(&mut self, slot: u32) -> Result<TurnOut<M::Job>, NoMemory>
        requires { slot < self.old.nodes }
        ensures spoiled { self.old.spoiled ≡ true → IsErr result × (self.new ≡ self.old) }
        ensures whole { OnOk result (self.old.broken ≡ false) }
        ensures ok { IfOk result (λ out. (s : Start M.Origin) → N.start ≡ Some s → (n : NodeValue) × (slice_get (M.rules s.origin).nodes slot ≡ Some n)
            × IsTurn (M.rules s.origin) s.turns n slot self.old self.new out) }
        ensures fits { IfOk result (λ out. (s : Start M.Origin) (j : M.Job) → N.start ≡ Some s → out ≡ TurnOut.Job j → M.fits s.origin j) }
        ensures err { OnErr result (self.new ≡ record self.old { spoiled = true; broken = self.new.broken; jobs = self.new.jobs }) }
        ensures still { OnErr result (self.new.broken ≡ false → self.new.jobs ≡ self.old.jobs) }
        ensures nodes { self.new.nodes ≡ self.old.nodes }
    {
        if self.spoiled {
            return Err(NoMemory);
        }
        let _node = self.node(slot);
        let Ok(case) = self.case(slot) else {
            self.spoil();
            return Err(NoMemory);
        };
        let out = self.act(slot, case);
        if out.is_err() {
            self.spoil();
        }
        out
    }

    /// Gives back what was done of a job of a slot. Once the run has ended, it is stale.
    pub fn give(&mut self, slot: u32, done: &M::Done) -> Result<RanStep, NoMemory>
        requires slot { slot < self.old.nodes }
        requires made { (s : Start M.Origin) × (N.start ≡ Some s) × (j : M.Job) × M.of_job s.origin j done.now }
        ensures over { IsSome self.old.ended → (result ≡ Ok Stale) × (self.new ≡ self.old) }
        ensures ok { IfOk result (λ out. self.old.ended ≡ None → (s : Start M.Origin) → N.start ≡ Some s
            → (n : NodeValue) × (slice_get (M.rules s.origin).nodes slot ≡ Some n)
            × Gave (M.rules s.origin) (λ j. M.of_job s.origin j done.now) n slot self.old self.new out) }
        ensures err { OnErr result (self.new ≡ record self.old { spoiled = true; broken = self.new.broken; jobs = self.new.jobs }) }
        ensures still { OnErr result (self.new.broken ≡ false → self.new.jobs ≡ self.old.jobs) }
        ensures nodes { self.new.nodes ≡ self.old.nodes }
    {
        if self.ended.is_some() {
            return Ok(RanStep::Stale);
        }
        if self.broken {
            self.spoil();
            return Err(NoMemory);
        }
        let _node = self.node(slot);
        let given = self.take_back(slot, done);
        if given.is_err() {
            self.spoil();
        }
        given
    }

    fn node(&self, slot: u32) -> NodeId
        requires { slot < self.now.nodes }
        ensures { self.now.broken ≡ false → (s : Start M.Origin) → N.start ≡ Some s → slice_get (M.rules s.origin).nodes slot ≡ Some result }
    {
        self.machine.node(slot)
    }

    fn is_live(&self, slot: u32) -> bool
        requires { slot < self.now.nodes }
        ensures { AtNode N.start M.rules self.now slot (λ s n. result ≡ (M.rules s.origin).live (history self.now) n) }
    {
        self.machine.live(slot)
    }

    fn is_marked(&self, slot: u32) -> bool
        requires { slot < self.now.nodes }
        ensures { AtNode N.start M.rules self.now slot (λ s n. result ≡ is_marked (M.rules s.origin) (history self.now) n) }
    {
        self.marks[slot as usize]
    }

    fn is_out_of_turns(&self, slot: u32) -> bool
        requires { slot < self.now.nodes }
        ensures { AtNode N.start M.rules self.now slot (λ s n. result ≡ nat_le s.turns (turns_made n (history self.now))) }
    {
        self.turns <= self.made[slot as usize]
    }

    fn is_pending(&self, slot: u32) -> bool
        requires { slot < self.now.nodes }
        ensures { AtNode N.start M.rules self.now slot (λ s n. result ≡ (M.rules s.origin).pending (history self.now) n) }
    {
        self.machine.has_job(slot)
    }

    // Whether the slot's node is stopped, or is marked and has no pending job.
    fn rests(&self, slot: u32) -> bool
        requires { slot < self.now.nodes }
        ensures { AtNode N.start M.rules self.now slot (λ s n. result ≡ rests (M.rules s.origin) (history self.now) n) }
    {
        if !self.is_live(slot) {
            return true;
        }
        if !self.is_marked(slot) {
            return false;
        }
        !self.is_pending(slot)
    }

    // Whether each node rests.
    fn is_quiet(&self) -> bool
        ensures { self.now.broken ≡ false → (s : Start M.Origin) → N.start ≡ Some s → result ≡ is_quiet (M.rules s.origin) (history self.now) }
    {
        let nodes = self.links.len() as u32;
        for slot in 0..nodes {
            if !self.rests(slot) {
                return false;
            }
        }
        true
    }

    // The pending job of the slot's node.
    fn job(&self, slot: u32) -> Result<Option<M::Job>, NoMemory>
        requires { slot < self.now.nodes }
        ensures { IfOk result (λ o. AtNode N.start M.rules self.now slot (λ s n. o ≡ job_in self.now.jobs slot)) }
    {
        self.machine.job(self.alloc, slot)
    }

    // The same, where it was not handed out.
    fn job_left(&self, slot: u32) -> Result<Option<M::Job>, NoMemory>
        requires { slot < self.now.nodes }
        ensures { IfOk result (λ o. AtNode N.start M.rules self.now slot (λ s n.
            MatchOption o (NoneLeft (job_in self.now.jobs slot) self.now.handed slot) (IsLeft (job_in self.now.jobs slot) self.now.handed slot))) }
    {
        let Some(job) = self.job(slot)? else {
            return Ok(None);
        };
        match &self.handed[slot as usize] {
            Some(handed) => Ok(if M::same_job(&job, handed) {
                None
            } else {
                Some(job)
            }),
            None => Ok(Some(job)),
        }
    }

    // The case of a turn.
    fn case(&self, slot: u32) -> Result<TurnCase<M::Job>, NoMemory>
        requires { slot < self.now.nodes }
        ensures { IfOk result (λ case. AtNode N.start M.rules self.now slot (λ s n. IsCase (M.rules s.origin) s.turns n slot self.now case)) }
    {
        if let Some(ended) = self.ended {
            return Ok(TurnCase::Over(ended));
        }
        if self.is_quiet() {
            return Ok(TurnCase::Quiet);
        }
        if !self.is_live(slot) {
            return Ok(TurnCase::Stopped);
        }
        if let Some(job) = self.job_left(slot)? {
            return Ok(TurnCase::Job(job));
        }
        if self.is_marked(slot) {
            return Ok(TurnCase::Marked);
        }
        if self.is_out_of_turns(slot) {
            return Ok(TurnCase::Spent);
        }
        Ok(TurnCase::Ask)
    }

    // Does what a case asks for.
    fn act(&mut self, slot: u32, case: TurnCase<M::Job>) -> Result<TurnOut<M::Job>, NoMemory>
        requires slot { slot < self.old.nodes }
        requires whole { self.old.broken ≡ false }
        requires sound { self.old.spoiled ≡ false }
        requires case { (s : Start M.Origin) (n : NodeValue) → N.start ≡ Some s → slice_get (M.rules s.origin).nodes slot ≡ Some n
            → IsCase (M.rules s.origin) s.turns n slot self.old case }
        ensures ok { IfOk result (λ out. (s : Start M.Origin) (n : NodeValue) → N.start ≡ Some s → slice_get (M.rules s.origin).nodes slot ≡ Some n
            → Does (M.rules s.origin) n slot self.old self.new out case) }
        ensures err { OnErr result (self.new ≡ record self.old { spoiled = self.new.spoiled; broken = self.new.broken; jobs = self.new.jobs }) }
        ensures still { OnErr result (self.new.broken ≡ false → self.new.jobs ≡ self.old.jobs) }
        ensures nodes { self.new.nodes ≡ self.old.nodes }
    {
        let _node = self.node(slot);
        match case {
            TurnCase::Over(ended) => Ok(ended_out(ended)),
            TurnCase::Quiet => {
                self.end(Ended::Quiet);
                Ok(TurnOut::Quiet)
            }
            TurnCase::Stopped => Ok(TurnOut::Stopped),
            TurnCase::Job(job) => {
                self.hand_out(slot)?;
                Ok(TurnOut::Job(job))
            }
            TurnCase::Marked => Ok(TurnOut::Idle),
            TurnCase::Spent => {
                self.end(Ended::Spent);
                Ok(TurnOut::Spent)
            }
            TurnCase::Ask => self.ask(slot),
        }
    }

    // Notes how the run has ended.
    fn end(&mut self, ended: Ended)
        requires whole { self.old.broken ≡ false }
        requires running { (s : Start M.Origin) → N.start ≡ Some s → self.old.ended ≡ None }
        requires end { (s : Start M.Origin) → N.start ≡ Some s → is_full (M.rules s.origin) (history self.old) ≡ false
            → end_of (M.rules s.origin) s.turns (history self.old) ≡ Some ended }
        ensures { self.new ≡ record self.old { ended = Some ended } }
    {
        self.ended = Some(ended);
    }

    // Remembers the pending job as handed out.
    fn hand_out(&mut self, slot: u32) -> Result<(), NoMemory>
        requires { slot < self.old.nodes }
        ensures ok { OnOk result (AtNode N.start M.rules self.old slot (λ s n.
            self.new ≡ record self.old { handed = slice_set self.old.handed slot (job_in self.old.jobs slot) })) }
        ensures err { OnErr result (self.new ≡ self.old) }
        ensures nodes { self.new.nodes ≡ self.old.nodes }
    {
        let job = self.job(slot)?;
        self.handed[slot as usize] = job;
        Ok(())
    }

    // Asks the link of the slot, and takes what it picks.
    fn ask(&mut self, slot: u32) -> Result<TurnOut<M::Job>, NoMemory>
        requires slot { slot < self.old.nodes }
        requires whole { self.old.broken ≡ false }
        requires sound { self.old.spoiled ≡ false }
        requires running { (s : Start M.Origin) → N.start ≡ Some s → self.old.ended ≡ None }
        requires turns { AtNode N.start M.rules self.old slot (λ s n. nat_le s.turns (turns_made n (history self.old)) ≡ false) }
        ensures ok { IfOk result (λ out. AtNode N.start M.rules self.old slot (λ s n. Asked (M.rules s.origin) n self.old self.new out)) }
        ensures err { OnErr result (self.new ≡ record self.old { spoiled = true; broken = true; jobs = self.new.jobs }) }
        ensures nodes { self.new.nodes ≡ self.old.nodes }
    {
        let node = self.node(slot);
        self.spoiled = true;
        self.broken = true;
        self.journal.reserve(1)?;
        let pick = pick_at(&self.machine, &mut self.links, slot)?;
        let out = self.machine.step(self.alloc, Event::Picked(node, pick))?;
        note_pick(&mut self.journal, node, pick);
        self.picked = self.picked.saturating_add(1);
        count_turn(&mut self.made, slot, pick);
        mark(&mut self.marks, slot, out);
        self.ended = ended_by(out);
        self.spoiled = false;
        self.broken = false;
        Ok(asked_out(out))
    }

    // Gives a segment back to the machine.
    fn take_back(&mut self, slot: u32, done: &M::Done) -> Result<RanStep, NoMemory>
        requires slot { slot < self.old.nodes }
        requires whole { self.old.broken ≡ false }
        requires running { self.old.ended ≡ None }
        requires made { (s : Start M.Origin) × (N.start ≡ Some s) × (j : M.Job) × M.of_job s.origin j done.now }
        ensures ok { IfOk result (λ out. AtNode N.start M.rules self.old slot (λ s n.
            Gave (M.rules s.origin) (λ j. M.of_job s.origin j done.now) n slot self.old self.new out)) }
        ensures err { OnErr result (self.new ≡ record self.old { spoiled = true; broken = true; jobs = self.new.jobs }) }
        ensures nodes { self.new.nodes ≡ self.old.nodes }
    {
        let node = self.node(slot);
        let client = client_of(node);
        let was_spoiled = self.spoiled;
        self.spoiled = true;
        self.broken = true;
        self.journal.reserve(1)?;
        let out = self.machine.give(self.alloc, slot, done)?;
        note_ran(&mut self.journal, client, out);
        unmark(&mut self.marks, out);
        unhand(&mut self.handed, slot, out);
        self.used = used_after(self.used, out);
        self.ended = ended_given(out);
        self.spoiled = was_spoiled;
        self.broken = false;
        Ok(out)
    }
}
