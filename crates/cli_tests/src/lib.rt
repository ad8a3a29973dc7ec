//! Tests over several crates, by their public calls alone: the top call over memory (scripts that are run, traced, checked
//! and generated, with the links of the program and with others, by one worker and by several), and the texts of rows.
//! Nothing stands on this crate.
#![tactic(auto)]

#[cfg(test)]
mod answers;
#[cfg(test)]
mod by_workers;
#[cfg(test)]
mod fixture;
#[cfg(test)]
mod generated;
#[cfg(test)]
mod lengths;
#[cfg(test)]
mod odd_links;
#[cfg(test)]
mod printed;
#[cfg(test)]
mod refusals;
#[cfg(test)]
mod rows;
#[cfg(test)]
mod runs;
#[cfg(test)]
mod serials;
#[cfg(test)]
mod texts;
