ghost use Rattle.std.specs.Prelude.{◌≡◌};
ghost use Rattle.morty_base.specs.Names.{before, same_version, exec_before, same_exec, wid_before, same_wid, key_before, same_key, node_before, same_node};

use crate::names::{Exec, Key, NodeId, Version, Wid};

/// An earlier version: by `ts`, and then by `client`.
#[tactic(auto, using(std::proofs::lemmas::Bool::Decides::nat_tests), unfolding(crate::specs::Names::before))]
pub fn is_before(a: Version, b: Version) -> bool
    ensures { result ≡ before a b }
{
    a.ts < b.ts || (a.ts == b.ts && a.client < b.client)
}

/// The same version.
#[tactic(auto, unfolding(crate::specs::Names::same_version))]
pub fn is_same_version(a: Version, b: Version) -> bool
    ensures { result ≡ same_version a b }
{
    a == b
}

/// The same execution.
#[tactic(auto, unfolding(crate::specs::Names::same_exec))]
pub fn is_same_exec(x: Exec, y: Exec) -> bool
    ensures { result ≡ same_exec x y }
{
    x == y
}

/// An earlier write name: by version, execution number and place.
#[tactic(auto, using(std::proofs::lemmas::Bool::Decides::nat_tests), unfolding(crate::specs::Names::wid_before))]
pub fn is_wid_before(a: Wid, b: Wid) -> bool
    ensures { result ≡ wid_before a b }
{
    is_before(a.ver, b.ver)
        || (is_same_version(a.ver, b.ver) && (a.eid < b.eid || (a.eid == b.eid && a.seq < b.seq)))
}

/// An earlier execution: by version, and then by number.
#[tactic(auto, using(std::proofs::lemmas::Bool::Decides::nat_tests), unfolding(crate::specs::Names::exec_before))]
pub fn is_exec_before(x: Exec, y: Exec) -> bool
    ensures { result ≡ exec_before x y }
{
    is_before(x.ver, y.ver) || (is_same_version(x.ver, y.ver) && x.eid < y.eid)
}

/// The same write name.
#[tactic(auto, using(crate::proofs::Orders::wid_equal))]
pub fn is_same_wid(a: Wid, b: Wid) -> bool
    ensures { result ≡ same_wid a b }
{
    a == b
}

/// An earlier key: by table, and then by index.
#[tactic(auto, using(std::proofs::lemmas::Bool::Decides::nat_tests, std::proofs::lemmas::Int::ints), unfolding(crate::specs::Names::key_before))]
pub fn is_key_before(k: Key, l: Key) -> bool
    ensures { result ≡ key_before k l }
{
    k.table < l.table || (k.table == l.table && k.index < l.index)
}

/// The same key.
#[tactic(auto, unfolding(crate::specs::Names::same_key))]
pub fn is_same_key(k: Key, l: Key) -> bool
    ensures { result ≡ same_key k l }
{
    k == l
}

/// The same node.
#[tactic(auto, unfolding(crate::specs::Names::same_node))]
pub fn is_same_node(a: NodeId, b: NodeId) -> bool
    ensures { result ≡ same_node a b }
{
    match (a, b) {
        (NodeId::Client(a), NodeId::Client(b)) => a == b,
        (NodeId::Replica(a), NodeId::Replica(b)) => a == b,
        (NodeId::Warden(a), NodeId::Warden(b)) => a == b,
        _ => false,
    }
}

/// An earlier node: clients before replicas before wardens, and each kind by number.
#[tactic(auto, using(std::proofs::lemmas::Bool::Decides::nat_tests), unfolding(crate::specs::Names::node_before))]
pub fn is_node_before(a: NodeId, b: NodeId) -> bool
    ensures { result ≡ node_before a b }
{
    match (a, b) {
        (NodeId::Client(a), NodeId::Client(b)) => a < b,
        (NodeId::Client(_), _) => true,
        (NodeId::Replica(_), NodeId::Client(_)) => false,
        (NodeId::Replica(a), NodeId::Replica(b)) => a < b,
        (NodeId::Replica(_), NodeId::Warden(_)) => true,
        (NodeId::Warden(a), NodeId::Warden(b)) => a < b,
        (NodeId::Warden(_), _) => false,
    }
}
