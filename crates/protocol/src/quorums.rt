ghost use Rattle.std.specs.Prelude.{◌≡◌};
ghost use Rattle.protocol.specs.Quorums.{quorum};
ghost use Rattle.protocol.specs.Client.Counting.{sender};

use morty_base::NodeId;

/// How many replicas are a quorum, a bare majority: f + 1 of 2f + 1.
pub fn quorum(replicas: u32) -> usize
    ensures { result ≡ quorum replicas }
{
    replicas as usize / 2 + 1
}

/// The number of a sender that is one of the replicas.
pub fn sender(replicas: u32, from: NodeId) -> Option<u32>
    ensures { result ≡ sender replicas from }
{
    match from {
        NodeId::Replica(number) if 0 < number && number <= replicas => Some(number),
        _ => None,
    }
}
