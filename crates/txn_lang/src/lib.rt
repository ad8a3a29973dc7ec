//! The language of transactions: its programs as trees, what they mean, and the limits that they keep.
//!
//! The definitions, in the order in which they build on each other: programs as trees (`Tree`), the value of an
//! expression (`Value`), keys with values (`Keys`), what a program does, one action after another (`Actions`), its
//! runs on a map and on a list of answers (`Runs`), its limits (`Limits`) and form (`Form`), whole programs and their
//! serial runs (`Program`), the laws (`Laws`), and worked programs (`Examples`).
//!
//! The laws, as one argument: what each action keeps, each replay has (`Induction`). So a replay takes its answers in
//! order (`Taking`), grows with them and reads what it asked (`Growing`), asks for a key once (`Asking`) and knows its
//! own writes (`Knowing`), and where it asks it goes on with the answer (`Resuming`). A serial run is the replay on the
//! values that it read (`SerialRuns`), and sees of its map only what that holds (`SameMaps`). Each action counts
//! towards a limit, so no run passes one (`Bounded`). `Trees` has the tree of each kind of statement, and `Entries`
//! what a list of entries shows of a key.
#![tactic(auto)]

mod evaluation;
mod laws;
mod limits;
mod program;
mod tree;

pub use evaluation::{EvalFault, eval};
pub use laws::{
    replay_asks_once, replay_goes_on, replay_grows, replay_is_serial, replay_knows,
    replay_reads_what_it_asked, replay_takes_answers, runs_keep_limits, worked_programs,
};
pub use limits::{
    DEEPEST_BLOCK, LONGEST_EXPRESSION, MOST_LOCALS, MOST_OF_A_KIND, MOST_STEPS, MOST_TIMES,
    left_level, level, operator_level,
};
pub use program::{Prog, ProgFault, make_prog};
pub use tree::{BinOp, Block, Expr, Stmt};
