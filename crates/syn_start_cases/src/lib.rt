//! Theories, specifications and starts of derivations from texts, for the tables of the test crates. Nothing but tests stands on it.
#![tactic(auto)]

mod reading;

pub use reading::{spec_over, start_of, theory_of};
