//! How a world begins, and what is reported of it.

ghost use Rattle.std.specs.Prelude.{◌≡◌, ◌≤◌, true, length, IfOk};
ghost use Rattle.protocol.specs.Words.{Client};
ghost use Rattle.world.specs.Nodes.{has_node};
ghost use Rattle.protocol.specs.World.State.{World, first_world};
ghost use Rattle.protocol_plans.specs.Scripted.{Scripted, plan_of};
ghost use Rattle.script.specs.Sayable.{IsSetup};
ghost use Rattle.world.specs.Clients.{Loads};
ghost use Rattle.world_rows.specs.Rows.{rows_of};
ghost use Rattle.world_rows.specs.Laws.{CommitsAreToldOf};
ghost use Rattle.world_rows.specs.Report.{AreProgress};
ghost use Rattle.world.specs.declared.origin.Origin.{Origin as OriginValue};
ghost use Rattle.world.specs.Origin.{IsOrigin, loads};
ghost use Rattle.world.specs.Setup.{slots_in};
ghost use Rattle.world.specs.World.{IsWorld};

use crate::nodes::Nodes;
use crate::parts::Parts;
use crate::setup::{counts, firsts, rules, slots, txns};
use flat_code::Code;
use menus::Mailboxes;
use morty_base::{List, NoMemory};
use report::Rows;
use script::Setup;
use std::alloc::Global;
use world_rows::{Notes, Progress};

// The same codes, by handles.
fn shared(alloc: Global, kit: &List<Code>) -> Result<List<Code>, NoMemory>
    ensures { IfOk result (λ codes. codes ≡ kit.now) }
{
    let mut codes = List::new(alloc);
    for code in kit.as_slice() {
        codes.push(code.share()?)?;
    }
    Ok(codes)
}

impl Parts {
    /// The parts of a world in which nothing happened.
    pub(crate) fn new(alloc: Global, setup: &Setup, kit: &List<Code>) -> Result<Parts, NoMemory>
        requires { IsSetup setup.now }
        ensures slots { IfOk result (λ s. s.boxes.slots ≡ slots_in setup.now) }
        ensures stands { IfOk result (λ s. (o : OriginValue) (is : IsOrigin o) → o.setup ≡ setup.now → o.kit ≡ kit.now → IsWorld (loads o is) first_world s) }
    {
        let txns = txns(alloc, setup)?;
        let firsts = firsts(alloc, setup)?;
        let nodes = Nodes::new(alloc, rules(setup), txns.as_slice(), setup.wardens, &firsts)?;
        let boxes = Mailboxes::new(alloc, slots(setup))?;
        Ok(Parts {
            codes: shared(alloc, kit)?,
            firsts,
            txns: counts(alloc, setup)?,
            nodes,
            boxes,
            notes: Notes::new(alloc),
            moved: 0,
        })
    }

    // How many transactions a client began.
    fn begun(&self, client: u32) -> u32
        requires { has_node self.now.nodes (Client client) ≡ true }
        ensures { (l : Loads) (w : World) → IsWorld l w self.now → result ≡ (w.client client).begun }
    {
        match self.nodes.current(client) {
            None => 0,
            Some(last) => last.txn,
        }
    }

    // How far a client came.
    fn progress_of(&self, client: u32, txns: u32) -> Progress
        requires { has_node self.now.nodes (Client client) ≡ true }
        ensures { (l : Loads) (w : World) → IsWorld l w self.now → result ≡ record { txns = txns; begun = (w.client client).begun; fate = (w.client client).fate } }
    {
        Progress {
            txns,
            begun: self.begun(client),
            fate: self.nodes.fate(client),
        }
    }

    // How many clients there are.
    fn client_count(&self) -> u32
        requires { (l : Loads) × (w : World) × IsWorld l w self.now }
        ensures { result ≡ length self.now.txns }
    {
        self.boxes.slots().clients()
    }

    // How far each client came.
    fn progress(&self, alloc: Global) -> Result<List<Progress>, NoMemory>
        requires { (l : Loads) × (w : World) × IsWorld l w self.now }
        ensures few { IfOk result (λ gs. length gs ≤ 4294967295) }
        ensures told { IfOk result (λ gs. (s : Scripted) (l : Loads) (w : World) → l.plan ≡ plan_of s → IsWorld l w self.now → AreProgress s w gs) }
    {
        let mut all = List::new(alloc);
        let txns = self.txns.as_slice();
        let count = self.client_count();
        for i in 0..count {
            let told = self.progress_of(i + 1, txns[i as usize]);
            all.push(told)?;
        }
        Ok(all)
    }

    /// What is reported of the world.
    pub(crate) fn rows(&self, alloc: Global) -> Result<Rows, NoMemory>
        requires { (l : Loads) × (w : World) × IsWorld l w self.now }
        ensures { IfOk result (λ r. (s : Scripted) (l : Loads) (w : World) → l.plan ≡ plan_of s → IsWorld l w self.now → CommitsAreToldOf (plan_of s) w → r ≡ rows_of s w) }
    {
        let clients = self.progress(alloc)?;
        let mail = self.boxes.mail();
        let firsts = self.firsts.as_slice();
        self.notes
            .rows(alloc, mail, firsts, clients.as_slice(), self.moved)
    }
}
