//! Tests of the language: values of expressions, tokens, blocks and how they group, runs of programs, logs that go back
//! to a read, and jobs in other threads.
#![tactic(auto)]

#[cfg(test)]
mod blocks;
#[cfg(test)]
mod crossing;
#[cfg(test)]
mod execution;
#[cfg(test)]
mod grouping;
#[cfg(test)]
mod logs;
#[cfg(test)]
mod programs;
#[cfg(test)]
mod runs;
#[cfg(test)]
mod tokens;
#[cfg(test)]
mod values;
