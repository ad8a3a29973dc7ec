ghost use Rattle.protocol.specs.Laws.{QuorumsMeet, ReplicasGrow, MailGrows, TakenWasSent, EventsStep, EventsMove, ReplaysJoin};

/// Any two quorums share a replica.
pub fn quorums_meet()
    ensures { QuorumsMeet }
{}

/// A replica's vote, first decision, promises, acceptances, fence and dropped version only grow.
pub fn replicas_grow()
    ensures { ReplicasGrow }
{}

/// The mail only grows.
pub fn mail_grows()
    ensures { MailGrows }
{}

/// What a replica took was sent, and to it.
pub fn taken_was_sent()
    ensures { TakenWasSent }
{}

/// Each event stands still, or lets one client, one replica or one warden take one step.
pub fn events_step()
    ensures { EventsStep }
{}

/// An event that is not enabled, or is refused for the mail, changes nothing; any other does its move.
pub fn events_move()
    ensures { EventsMove }
{}

/// A list of events is replayed part by part.
pub fn replays_join()
    ensures { ReplaysJoin }
{}
