//! Tables of theories and specifications that are handed in as trees: declarations and parts that are
//! taken, and those that are refused.
#![tactic(auto)]

#[cfg(test)]
mod specifications;
#[cfg(test)]
mod theories;
