//! Lemmas on the steps of the protocol, for the laws above.
//!
//! An event is taken apart into small acts. A client's step is a chain of acts of nine kinds (`ClientActs`, whose phases
//! and writes have `PhaseLemmas` and `WriteStepLemmas`; the chain is `ClientChain`), a warden's a chain of acts of seven
//! kinds (`WardenActs`). The worlds that events lead to are among those that small acts lead to (`Reach`), so that what
//! holds in each of these holds always (`AlwaysLemmas`). There is one induction each for the facts of a world, of a
//! replica, of a client and of a warden, and for what one of them said (`Induction`, on `SendingLemmas` and `SaysLemmas`).
//!
//! By these, whatever stands in the mail was sent by a node that knew something for good: a replica, whose list tells what
//! it took, accepted, knew, voted, dropped and answered to a Fence (`MailLemmas`, `AcceptorLemmas`, `KnownLemmas`,
//! `VotesLemmas`, `TakenLemmas`, `FencedFacts`, together `ReplicaFacts`); a client (`ExecutionsLemmas`, `ClientFacts`); a
//! warden (`WardenFacts`). Last comes who sent what: a body of the mail is old or was sent in this step (`Origin`), by whom
//! (`Senders`), by which act of a client (`ClientSent`), in which of its tries (`TryRec`).
#![tactic(auto)]
