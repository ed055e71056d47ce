//! Tests of formulas and outputs, each a table of cases: their parts, their simplification, and what is
//! replaced in them. The formulas that are written as codes are no tests, since definitions speak of them.
#![tactic(auto)]

mod codes;
#[cfg(test)]
mod formulas;
#[cfg(test)]
mod replacing;
mod simplification;
