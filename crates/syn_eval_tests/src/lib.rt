//! Tables of calls that are evaluated within a number of turns, and of formulas whose truth is.
#![tactic(auto)]

#[cfg(test)]
mod calls;
#[cfg(test)]
mod problems;
