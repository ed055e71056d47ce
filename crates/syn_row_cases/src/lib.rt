//! Rows as texts, and a table of symbols for them, for the tables of the test crates. Nothing but tests stands on it.
#![tactic(auto)]

mod samples;
mod texts;

pub use samples::{give_one_sort, make_table, pos_of, positions_of};
pub use texts::{print_row, read_row, scope_of};
