//! Tests that cross crates, each a table of cases: what the top call answers on files and texts in
//! memory, and each public call of the lower crates on its ordinary path. A proof says what an
//! answer means; a table says that the answer comes.
#![tactic(auto)]

#[cfg(test)]
mod bench;
#[cfg(test)]
mod derivations;
#[cfg(test)]
mod evaluations;
#[cfg(test)]
mod outside;
#[cfg(test)]
mod specifications;
#[cfg(test)]
mod statuses;
#[cfg(test)]
mod theories;
