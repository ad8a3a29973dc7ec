//! The links of the program: one that delivers in order, one that follows a list, one that draws by a seed. Each tells its
//! mind, and its picks follow the rule of its kind (`link_rule` of `net_core`).
//!
//! The three are one link that knows its kind (`ruled`), under three names. `ruled` takes what is due of the plan
//! (`planned`), what is drawn (`drawing`) or the fair pick (`fairly`). What a link shows is said in `specs/Shown`. The
//! envelopes that were late before a pick are found by a set beside the mind (`late_set`), which follows the mind's list
//! before each pick (`specs/LateSet`); that these and those that become late in the pick are one list of the definitions is
//! said in `specs/Drawings`.
#![tactic(auto)]

mod choosing;
mod drawing;
mod fair;
mod fairly;
mod late_set;
mod listed;
mod planned;
mod ruled;
mod seeded;

pub use choosing::{Chosen, choose};
pub use fair::FairLink;
pub use listed::ListedLink;
pub use seeded::SeededLink;
