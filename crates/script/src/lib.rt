//! Scripts: their text, item by item, and what it says.
//!
//! The definitions, in the order in which they build on each other: grammars as data (`Rules`) and when the next token
//! decides what is read (`Fits`); the items of a script (`Items`) and their grammar (`Grammar`); what the items say, one
//! after another (`Meaning`), and the checks that they pass (`Checks`); what the tokens are in the second stage
//! (`Stages`), and what a text says: its script or its one fault (`Texts`); a setup while
//! items are taken (`Building`); the canonical text of a script (`Canonical`), the
//! scripts that some text says (`Sayable`), that a text says no others, and that their canonical text says them
//! (`ReadBack`). `Groups` tells the reader's way.
//!
//! The proof: what a rule derives begins as the rule may begin (`Starts`), so a rule that fits is read from each list that
//! begins with what it derives (`RulesComplete`). What was read is derived, and a fault is at the first token with which
//! nothing goes on (`Found`, `ReadingRules`, `RulesAreRead`, `RulesAnswer`). So where reading stops, the next token is bad
//! (`Stopping`). The rules of scripts fit (`GrammarFits`), over the laws of blocks (`BlocksAreRead`). Hence the second
//! stage is decided (`StageTwo`), and a text has one outcome (`OneOutcome`). The code reads by groups
//! (`GroupLemmas`), lists item by item (`ListedLemmas`), and tokens one by one (`Taking`); the line in which the text ends
//! is counted from its last token's (`LastLine`). The items of a text are
//! readable (`ReadableItems`): names are names, and blocks were read. So each is taken by its checks, what it names found by
//! a search (`BuilderLemmas`), and all of them say the text's setup (`ReadLemmas`).
//!
//! The lines of a sayable script are pieces with the bytes of their kinds (`CanonicalPieces`). Line by line their tokens are
//! items that pass their checks and say what they should (`SayLemmas`, then `SaySettings`, `SayStores`, `SayPrograms`,
//! `SayClients`, `SayPlans`, `SayItems`); so the canonical text says the script (`CanonicalIsSaid`).
//!
//! And what a text says is sayable: items that pass their checks leave what is said within the limits (`SayableSoFar`), each
//! kind of them in its turn (`SayableSettings`, `SayableStores`, `SayablePrograms`, `SayableClients`, `SayablePlans`), and a
//! text has the kinds in that order (`SaidIsSayable`).
#![tactic(auto)]

ghost use Rattle.script.specs.Texts.{OneOutcome};
ghost use Rattle.script.specs.ReadBack.{CanonicalIsReadBack, SaidIsSayable};

mod builder;
mod client_text;
mod clients;
mod items;
mod limits;
mod plan_text;
mod planning;
mod plans;
mod read;
mod readers;
mod reading;
mod settings;
mod setup;
mod stages;
mod text;
mod tokens;
mod transactions;
mod values;

pub use builder::SetupBuilder;
pub use items::{
    Calls, NodeKind, RawEntry, RawItem, RawNet, RawNode, RawPick, RawTxn, RawVersion, SettingName,
    Signed, Stated,
};
pub use limits::{
    GREATEST_GAP, GREATEST_PERCENTAGE, GREATEST_PLANNED, LATEST_START, LONGEST_SCRIPT, MOST_CALLS,
    MOST_CLIENTS, MOST_EXECS, MOST_PROGRAMS, MOST_TABLES, MOST_TRANSACTIONS, MOST_TRIES,
    MOST_TURNS, MOST_WARDENS,
};
pub use read::read_script;
pub use setup::{First, NamedProg, Net, Policy, Setup, Txn};
pub use stages::read_items;
pub use text::script_text;

/// Each text says one script or has one fault, and not both.
pub fn one_outcome()
    ensures { OneOutcome }
{}

/// A script that some text says keeps the limits of scripts.
pub fn said_is_sayable()
    ensures { SaidIsSayable }
{}

/// The canonical text of a setup that some text says, says that setup and nothing else.
pub fn canonical_is_read_back()
    ensures { CanonicalIsReadBack }
{}
