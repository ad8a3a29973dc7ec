//! The executions that wait for a warden: begun by clients that are stopped, and not decided.

ghost use Rattle.std.specs.Prelude.{◌≡◌, ◌≤◌, ◌<◌, ◌||◌, ◌&&◌, not, true, false, ℕ, List, [], ◌∷◌, ◌++◌, length, Some, OnOk, IfOk};
ghost use Rattle.std.specs.BTreeSet.{contains};
ghost use Rattle.morty_base.specs.declared.names.Exec.{Exec as ExecValue};
ghost use Rattle.morty_base.specs.declared.names.NodeId.{NodeId as NodeValue};
ghost use Rattle.morty_base.specs.declared.names.NodeId.TheVariants.{Client as ClientNode};
ghost use Rattle.morty_base.specs.Names.{same_exec};
ghost use Rattle.msg.specs.declared.Envelope.{Envelope as Sent};
ghost use Rattle.msg.specs.declared.Body.{Body as BodyValue};
ghost use Rattle.protocol.specs.World.State.{in_range};
ghost use Rattle.menus.specs.Shown.{lesser, least_waiting, begun_by, decides_on};

use morty_base::{Exec, NoMemory, is_exec_before};
use msg::Body;
use std::alloc::Global;
use std::collections::BTreeSet;

/// Of one client: the executions that were begun and not decided, and whether the client is stopped.
#[derive(Debug, Drop)]
struct Undecided {
    execs: BTreeSet<Exec>,
    is_stopped: bool,
}

/// What is undecided of each client, by the clients' numbers from 1, and the executions that were decided.
#[derive(Debug, Drop)]
pub struct Waiting {
    clients: Vec<Undecided>,
    decided: BTreeSet<Exec>,
}

// The lesser of two executions.
fn lesser(a: Option<Exec>, b: Option<Exec>) -> Option<Exec>
    ensures { result ≡ lesser a b }
{
    match (a, b) {
        (None, b) => b,
        (Some(x), None) => Some(x),
        (Some(x), Some(y)) => {
            if is_exec_before(y, x) {
                Some(y)
            } else {
                Some(x)
            }
        }
    }
}

impl Undecided {
    ghost use Rattle.menus.specs.Waiting.{exec_cmp, waits_in, IsLeast};

    // Nothing was begun.
    fn new(alloc: Global) -> Undecided
        ensures execs { (x : ExecValue) → contains exec_cmp result.execs x ≡ false }
        ensures runs { result.is_stopped ≡ false }
    {
        Undecided {
            execs: BTreeSet::new(alloc),
            is_stopped: false,
        }
    }

    // The least execution, where the client is stopped.
    fn least(&self) -> Option<Exec>
        ensures { IsLeast (waits_in self.now) result }
    {
        if !self.is_stopped {
            return None;
        }
        match self.execs.first() {
            None => None,
            Some(exec) => Some(*exec),
        }
    }

    // An execution is begun.
    fn add(&mut self, exec: Exec) -> Result<(), NoMemory>
        ensures execs { OnOk result ((x : ExecValue) → contains exec_cmp self.new.execs x ≡ (same_exec x exec || contains exec_cmp self.old.execs x)) }
        ensures same { self.new.is_stopped ≡ self.old.is_stopped }
    {
        self.execs.insert(exec)?;
        Ok(())
    }

    // An execution is decided.
    fn remove(&mut self, exec: Exec)
        ensures execs { (x : ExecValue) → contains exec_cmp self.new.execs x ≡ (not (same_exec x exec) && contains exec_cmp self.old.execs x) }
        ensures same { self.new.is_stopped ≡ self.old.is_stopped }
    {
        self.execs.remove(&exec);
    }
}

impl Waiting {
    ghost use Rattle.menus.specs.Waiting.{AreWaiting};

    /// Nothing was sent, and none of so many clients is stopped.
    pub fn new(alloc: Global, clients: u32) -> Result<Waiting, NoMemory>
        ensures { IfOk result (λ s. AreWaiting clients [] [] s) }
    {
        let mut undecided = Vec::new(alloc);
        for _ in 0..clients {
            undecided.push(Undecided::new(alloc))?;
        }
        Ok(Waiting {
            clients: undecided,
            decided: BTreeSet::new(alloc),
        })
    }

    // Whether there is a client of this number.
    fn has_client(&self, client: u32) -> bool
        ensures { result ≡ in_range client (length self.now.clients.items) }
    {
        1 <= client && client as usize <= self.clients.len()
    }

    // Writes or a content of an execution are brought to replicas.
    fn begin(&mut self, exec: Exec) -> Result<(), NoMemory>
        ensures { OnOk result ((n : ℕ) (mail : List Sent) (stopped : List NodeValue) (m : Sent) → AreWaiting n mail stopped self.old → begun_by m.body ≡ Some exec → AreWaiting n (mail ++ m ∷ []) stopped self.new) }
    {
        if self.decided.contains(&exec) {
            return Ok(());
        }
        if !self.has_client(exec.ver.client) {
            return Ok(());
        }
        self.clients[exec.ver.client as usize - 1].add(exec)
    }

    // An execution is decided.
    fn decide(&mut self, exec: Exec) -> Result<(), NoMemory>
        ensures { OnOk result ((n : ℕ) (mail : List Sent) (stopped : List NodeValue) (m : Sent) → AreWaiting n mail stopped self.old → ((x : ExecValue) → decides_on x m.body ≡ same_exec x exec) → AreWaiting n (mail ++ m ∷ []) stopped self.new) }
    {
        self.decided.insert(exec)?;
        if self.has_client(exec.ver.client) {
            self.clients[exec.ver.client as usize - 1].remove(exec);
        }
        Ok(())
    }

    /// One more body is sent.
    pub fn sent(&mut self, body: &Body) -> Result<(), NoMemory>
        ensures { OnOk result ((n : ℕ) (mail : List Sent) (stopped : List NodeValue) (m : Sent) → AreWaiting n mail stopped self.old → m.body ≡ body.now → AreWaiting n (mail ++ m ∷ []) stopped self.new) }
    {
        match body {
            Body::Puts { exec, .. } => self.begin(*exec),
            Body::Prepare { exec, .. } => self.begin(*exec),
            Body::Decide { exec, .. } => self.decide(*exec),
            _ => Ok(()),
        }
    }

    /// A client is stopped.
    pub fn stop(&mut self, client: u32)
        requires from_one { 0 < client }
        requires up_to_count { client ≤ length self.old.clients.items }
        ensures { (n : ℕ) (mail : List Sent) (stopped : List NodeValue) → AreWaiting n mail stopped self.old → AreWaiting n mail (stopped ++ ClientNode client ∷ []) self.new }
    {
        self.clients[client as usize - 1].is_stopped = true;
    }

    /// The least execution that waits, if one does.
    pub fn least(&self) -> Option<Exec>
        ensures { (n : ℕ) (mail : List Sent) (stopped : List NodeValue) → AreWaiting n mail stopped self.now → result ≡ least_waiting mail stopped mail }
    {
        let mut least = None;
        for client in &self.clients {
            least = lesser(least, client.least());
        }
        least
    }
}
