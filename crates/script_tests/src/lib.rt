//! Tests of scripts: each fault at its line, the last number within each limit and the first past it, and a script as it is
//! printed.
#![tactic(auto)]

#[cfg(test)]
mod canonical;
#[cfg(test)]
mod faults;
#[cfg(test)]
mod limits;
