ghost use Rattle.std.specs.Prelude.{◌≡◌, ◌++◌, OnOk, flat_map};
ghost use Rattle.protocol.specs.Quorums.{quorum};
ghost use Rattle.protocol.specs.Warden.Recovery.{to_client};
ghost use Rattle.protocol.specs.Client.Counting.{sender};
ghost use Rattle.protocol.specs.World.Events.{to_all, parcel};
ghost use Rattle.morty_base.specs.declared.names.NodeId.TheVariants.{Warden as WardenNode};

use morty_base::{Exec, List, NoMemory, NodeId};
use msg::{Body, Envelope};
use protocol::{quorum, send_to_all, sender};
use std::alloc::Global;
use std::marker::Model;

/// What a warden is given: its number, and how many nodes of each kind there are.
#[derive(Drop)]
pub struct Rules {
    pub warden: u32,
    pub wardens: u32,
    pub replicas: u32,
    pub clients: u32,
}

impl Model for Rules {
    ghost use Rattle.protocol.specs.Warden.State.{WardenRules};

    ghost Value = { WardenRules };

    ghost view = { λ r. record { warden = r.warden; wardens = r.wardens; replicas = r.replicas; clients = r.clients } };
}

impl Rules {
    /// How many replicas are a quorum.
    pub fn quorum(&self) -> usize
        ensures { result ≡ quorum self.now.replicas }
    {
        quorum(self.replicas)
    }

    /// The number of a sender that is one of the replicas.
    pub fn sender(&self, from: NodeId) -> Option<u32>
        ensures { result ≡ sender self.now.replicas from }
    {
        sender(self.replicas, from)
    }

    /// Sends the body to all replicas.
    pub fn send_to_all(
        &self,
        alloc: Global,
        body: &Body,
        out: &mut List<Envelope>,
    ) -> Result<(), NoMemory>
        ensures { OnOk result (out.new ≡ out.old ++ to_all self.now.replicas (WardenNode self.now.warden) body.now) }
    {
        send_to_all(alloc, self.replicas, NodeId::Warden(self.warden), body, out)
    }

    /// Sends the body to the client of the version, if the script has it.
    pub fn send_to_client(
        &self,
        exec: Exec,
        body: Body,
        out: &mut List<Envelope>,
    ) -> Result<(), NoMemory>
        ensures { OnOk result (out.new ≡ out.old ++ flat_map (parcel self.now.replicas (WardenNode self.now.warden)) (to_client self.now exec body)) }
    {
        let client = exec.ver.client;
        if 0 < client && client <= self.clients {
            out.push(Envelope {
                from: NodeId::Warden(self.warden),
                to: NodeId::Client(client),
                body,
            })?;
        }
        Ok(())
    }
}
