//! The slots of nodes.

ghost use Rattle.std.specs.Prelude.{◌≡◌, ◌+◌, ◌<◌, ◌^◌, Some, IfSome, is_some};
ghost use Rattle.std.specs.List.{slice_get};
ghost use Rattle.menus.specs.Slots.{nodes_of, count_of, has_node};

use morty_base::NodeId;
use std::marker::Model;

/// How many clients, replicas and wardens there are. Their slots are their places in that order, from 0, each kind by number.
#[derive(Clone, Copy, Debug)]
pub struct Slots {
    clients: u32,
    replicas: u32,
    wardens: u32,
}

impl Model for Slots {
    ghost use Rattle.std.specs.Prelude.{◌+◌, ◌<◌, ◌^◌};
    ghost use Rattle.menus.specs.Slots.{Counts, count_of};

    ghost Value = { Counts };

    ghost view = { λ s. record { clients = s.clients; replicas = s.replicas; wardens = s.wardens } };

    ghost invariant = { λ s. s.clients + (s.replicas + s.wardens) < 2 ^ 32 };

    ghost inverse = { λ v. record { clients = v.clients; replicas = v.replicas; wardens = v.wardens } };
}

impl Slots {
    /// The slots of so many nodes.
    pub fn new(clients: u32, replicas: u32, wardens: u32) -> Slots
        requires { clients + (replicas + wardens) < 2 ^ 32 }
        ensures { result ≡ record { clients = clients; replicas = replicas; wardens = wardens } }
    {
        Slots {
            clients,
            replicas,
            wardens,
        }
    }

    /// How many slots there are.
    pub fn count(&self) -> u32
        ensures { result ≡ count_of self.now }
    {
        self.clients + (self.replicas + self.wardens)
    }

    /// How many clients there are. Theirs are the first slots.
    pub fn clients(&self) -> u32
        ensures { result ≡ self.now.clients }
    {
        self.clients
    }

    /// The node of a slot.
    pub fn node(&self, slot: u32) -> NodeId
        requires { slot < count_of self.now }
        ensures { slice_get (nodes_of self.now) slot ≡ Some result }
    {
        if slot < self.clients {
            return NodeId::Client(slot + 1);
        }
        let other = slot - self.clients;
        if other < self.replicas {
            return NodeId::Replica(other + 1);
        }
        NodeId::Warden(other - self.replicas + 1)
    }

    /// The slot of a node, if it is one of them.
    pub fn slot(&self, node: NodeId) -> Option<u32>
        ensures found { IfSome result (λ i. slice_get (nodes_of self.now) i ≡ Some node) }
        ensures within { IfSome result (λ i. i < count_of self.now) }
        ensures there { is_some result ≡ has_node self.now node }
    {
        match node {
            NodeId::Client(n) if 1 <= n && n <= self.clients => Some(n - 1),
            NodeId::Replica(n) if 1 <= n && n <= self.replicas => Some(self.clients + (n - 1)),
            NodeId::Warden(n) if 1 <= n && n <= self.wardens => {
                Some(self.clients + (self.replicas + (n - 1)))
            }
            _ => None,
        }
    }
}
