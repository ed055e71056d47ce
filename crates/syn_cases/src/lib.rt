//! What the tables of the test crates share: the words of a table, and symbols put into the tables of
//! samples. Nothing but tests stands on it.
#![tactic(auto)]

mod tables;
mod words;

pub use tables::added;
pub use words::{cut, kind_of, sort_of, sorts_of};
