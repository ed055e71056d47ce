//! Tests of unification and of substitutions that are applied, each a table of cases.
#![tactic(auto)]

#[cfg(test)]
mod applied;
#[cfg(test)]
mod forms;
#[cfg(test)]
mod limits;
#[cfg(test)]
mod samples;
#[cfg(test)]
mod unifying;
