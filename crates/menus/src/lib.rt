//! What the links of nodes are shown, kept up to date event by event, so that nothing is counted anew when a link picks.
//!
//! Read `specs/Shown` first: what the mail says to a node's link. `Mailboxes` (`specs/Mailboxes`) keeps all of it: the mail, a
//! mailbox for each node and the executions that wait. It stands for what was sent and delivered and for the nodes that are
//! stopped, and each call says what becomes of these. It is made of three parts:
//!
//! - `slots`: the nodes by their slots (`specs/Slots`, `proofs/SlotsLemmas`). A node has one slot, so an envelope is in one
//!   mailbox (`proofs/MailboxesLemmas`, and `MailboxTurns` for what is delivered and stopped).
//! - `inbox`: the envelopes of one node (`specs/Inbox`; `proofs/Removal` finds a number by a search, and tells what is left
//!   without it). The laws say how an envelope that is sent or delivered changes what is shown (`proofs/Arriving`).
//! - `waiting`: what is undecided of each client (`specs/Waiting`), which envelopes and stops change as the definitions say
//!   (`proofs/WaitingTurns`, `WaitingStops`). The least of the clients' least executions is the one that the definition names,
//!   since there is only one (`proofs/LeastLemmas`).
//!
//! `proofs/EachPlace` has what all of them use: a fact of each item of a list with its place.
#![tactic(auto)]

ghost use Rattle.menus.specs.Laws.{InboxesFollow, NodesHaveSlots};

mod inbox;
mod mailbox;
mod mailboxes;
mod slots;
mod waiting;

pub use inbox::Inbox;
pub use mailboxes::Mailboxes;
pub use slots::Slots;

/// What a node's inbox has to do when an envelope is sent or delivered, to it or to another node.
pub fn inboxes_follow()
    ensures { InboxesFollow }
{}

/// The nodes of a plan are as many as it counts, each in one slot.
pub fn nodes_have_slots()
    ensures { NodesHaveSlots }
{}
