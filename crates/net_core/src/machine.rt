ghost use Rattle.std.specs.Prelude.{◌≡◌, ◌≢◌, ◌<◌, ◌≤◌, ◌↔◌, ℕ, ◌∷◌, length, IfOk, IsTrue, Option, Some, is_some};
ghost use Rattle.std.specs.List.{slice_get};

use crate::Menu;
use morty_base::{NoMemory, NodeId};
use msg::Event;
use std::alloc::Global;

/// What taking an event did: it moved the machine; its node could not do it, or it was an idle pick; or the mail is full.
#[derive(Clone, Copy, Debug, PartialEq, Eq)]
pub enum StepOut {
    Moved,
    Idle,
    Full,
}

/// What giving a segment back did: it was used; it is not that of the pending job; or the mail is full.
#[derive(Clone, Copy, Debug, PartialEq, Eq)]
pub enum RanStep {
    Used,
    Stale,
    Full,
}

/// A machine that takes events, and whose clients have program segments run: jobs that are handed out, and what is done of
/// them. It stands for an origin and for the events that it took, the newest first. These say which nodes have a pending
/// job; which job that is, the machine alone says. One that answered `NoMemory` to a call that changes it is broken, and
/// stands for nothing: each call that can be refused is refused from then on. A slot is below the number of nodes.
pub trait Machine: Drop {
    ghost use Rattle.morty_base.specs.declared.names.NodeId.{NodeId};
    ghost use Rattle.net_core.specs.Machine.{Machine as Rules, History};
    ghost use Rattle.net_core.specs.Replay.{shown, out_of, IsGiven, IsLawful};

    type Job: Drop;

    type Done: Drop;

    /// What jobs are run on.
    type Kit;

    /// Plain data from which the events are replayed.
    type Origin;

    // What the machine of an origin says after each history.
    ghost rules: { Self.Origin → Rules };

    // The machine is the replay of these events from this origin.
    ghost stands: { Self → Self.Origin → History → Type 0 };

    // The machine may be used: it stands for an origin and some events, or it is broken.
    ghost usable: { Self → Type 0 };

    // The pending job of a node.
    ghost jobs: { Self → NodeId → Option Self.Job };

    // The number of nodes.
    ghost count: { Self → ℕ };

    // The kit of an origin, the jobs that fit it, and what was done of a job on it.
    ghost kit_of: { Self.Origin → Self.Kit → Type 0 };

    ghost fits: { Self.Origin → Self.Job → Type 0 };

    ghost of_job: { Self.Origin → Self.Job → Self.Done → Type 0 };

    /// The number of nodes. There is one at least.
    fn nodes(&self) -> u32
        requires { usable self.now }
        ensures count { result ≡ count self.now }
        ensures some { 1 ≤ result };

    fn node(&self, slot: u32) -> NodeId
        requires { slot < count self.now }
        ensures { (o : Self.Origin) (h : History) → stands self.now o h → slice_get (rules o).nodes slot ≡ Some result };

    /// Whether the slot's node was not stopped.
    fn live(&self, slot: u32) -> bool
        requires { slot < count self.now }
        ensures { (o : Self.Origin) (h : History) (n : NodeId) → stands self.now o h → slice_get (rules o).nodes slot ≡ Some n → result ≡ (rules o).live h n };

    /// What the slot's link is shown. Its lists are lent.
    fn menu(&self, slot: u32) -> Menu<'_>
        requires slot { slot < count self.now }
        requires usable { usable self.now }
        ensures { (o : Self.Origin) (h : History) (n : NodeId) → stands self.now o h → slice_get (rules o).nodes slot ≡ Some n → shown result ≡ (rules o).menu h n };

    /// Takes an event. A segment is run by the machine itself.
    fn step(&mut self, alloc: Global, event: Event) -> Result<StepOut, NoMemory>
        requires { usable self.old }
        ensures usable { usable self.new }
        ensures nodes { count self.new ≡ count self.old }
        ensures taken { IfOk result (λ out. (o : Self.Origin) (h : History) → stands self.old o h → stands self.new o (event ∷ h) × (out ≡ out_of ((rules o).effect h event))) }
        ensures still { IfOk result (λ out. out ≢ StepOut.Moved → (n : NodeId) → jobs self.new n ≡ jobs self.old n) };

    /// Whether the slot's node has a pending job.
    fn has_job(&self, slot: u32) -> bool
        requires { slot < count self.now }
        ensures { (o : Self.Origin) (h : History) (n : NodeId) → stands self.now o h → slice_get (rules o).nodes slot ≡ Some n → result ≡ (rules o).pending h n };

    /// A copy of the slot's pending job.
    fn job(&self, alloc: Global, slot: u32) -> Result<Option<Self::Job>, NoMemory>
        requires { slot < count self.now }
        ensures { IfOk result (λ j. (o : Self.Origin) (h : History) (n : NodeId) → stands self.now o h → slice_get (rules o).nodes slot ≡ Some n → j ≡ jobs self.now n) };

    /// Gives back what was done of a job. It is used if that is the slot's pending job.
    fn give(&mut self, alloc: Global, slot: u32, done: &Self::Done) -> Result<RanStep, NoMemory>
        requires slot { slot < count self.old }
        requires usable { usable self.old }
        requires made { (o : Self.Origin) × (h : History) × stands self.old o h × (j : Self.Job) × of_job o j done.now }
        ensures usable { usable self.new }
        ensures nodes { count self.new ≡ count self.old }
        ensures given { IfOk result (λ out. (o : Self.Origin) (h : History) (n : NodeId) → stands self.old o h → slice_get (rules o).nodes slot ≡ Some n
            → IsGiven (rules o) (jobs self.old n) (λ j. of_job o j done.now) h n out (stands self.new o)) }
        ensures still { IfOk result (λ out. out ≢ RanStep.Used → (n : NodeId) → jobs self.new n ≡ jobs self.old n) };

    /// Runs a job on the kit of its machine.
    fn work(alloc: Global, kit: &Self::Kit, a_job: Self::Job) -> Result<Self::Done, NoMemory>
        requires { (o : Self.Origin) × kit_of o kit.now × fits o a_job }
        ensures { IfOk result (λ d. (o : Self.Origin) → kit_of o kit.now → fits o a_job → of_job o a_job d) };

    fn same_job(a: &Self::Job, b: &Self::Job) -> bool
        ensures { IsTrue result ↔ (a.now ≡ b.now) };

    // What holds of every machine of this kind.
    ghost lawful: { (o : Self.Origin) → IsLawful (rules o) };

    ghost in_use: { (m : Self) (o : Self.Origin) (h : History) → stands m o h → usable m };

    ghost counted: { (m : Self) (o : Self.Origin) (h : History) → stands m o h → count m ≡ length (rules o).nodes };

    ghost pending: { (m : Self) (o : Self.Origin) (h : History) (n : NodeId) → stands m o h → (rules o).pending h n ≡ is_some (jobs m n) };

    ghost jobs_fit: { (m : Self) (o : Self.Origin) (h : History) (n : NodeId) (j : Self.Job) → stands m o h → jobs m n ≡ Some j → fits o j };

    ghost one_job: { (o : Self.Origin) (j k : Self.Job) (d : Self.Done) → of_job o j d → of_job o k d → j ≡ k };
}
