//! Tests of values: tables of texts that are read and printed, and of defaults.
#![tactic(auto)]

#[cfg(test)]
mod texts;
#[cfg(test)]
mod values;
