//! What a journal of events says, over any machine that replays it: whose turn it is, who is marked, how a run ends and
//! which pick is fair. A machine is told by what it answers after each history of events; nothing here knows the protocol.
//! And the mail, which keeps each envelope as its frame.
//!
//! Read `specs/Machine`, then `Marks` (picks, turns, marks, ends), `Rounds` (whose turn it is), `Fair` (which pick) and
//! `Laws`. Looked at in the order of turns the nodes are still the same nodes (`proofs/TurnOrder`), so that nobody is due
//! just where each of them rests (`QuietOrDue`). And each word of these files asks its machine of its own nodes at the
//! moments of the history alone, so that two machines which answer those alike say the same (`AnswersDecide`).
//!
//! A type is such a machine if it is a `Machine`: it stands for an origin and the events that it took, and its calls answer
//! what the machine of that origin says after them (`specs/Replay`).
//!
//! What picks for a node is a `Link`. It may tell its mind: what it is begun with (`src/plan`, `specs/Minds`), its kind's
//! rule (`LinkRules`, and `SeededRule` over `Draws`), and what it is for the picks of a node to follow that rule (`Ruled`).
//!
//! Apart from these stands the mail: what is kept of an envelope opens to it (`specs/Mail`, `proofs/Opening`).
#![tactic(auto)]

ghost use Rattle.net_core.specs.Laws.{QuietOrDue, AnswersDecide, FairRunsAgree};

mod draws;
mod link;
mod machine;
mod mail;
mod plan;

pub use draws::draw;
pub use link::{Link, LinkMind, Menu};
pub use machine::{Machine, RanStep, StepOut};
pub use mail::Mail;
pub use msg::{Event, Pick};
pub use plan::{LinkKind, LinkPlan, PlanItem, PlanWhat};

/// No node is due exactly where the history is quiet.
pub fn quiet_or_due()
    ensures { QuietOrDue }
{}

/// What a history says depends on what its machine answers of its nodes at its moments, and on nothing else.
pub fn answers_decide()
    ensures { AnswersDecide }
{}

/// So does whether it is a run by the fair rule that has ended so.
pub fn fair_runs_agree()
    ensures { FairRunsAgree }
{}
