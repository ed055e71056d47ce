//! Final rows of a derivation, and the program of a final row.
#![tactic(auto)]

mod closing;
mod closing_forms;
mod closing_outs;
mod extracting;
mod finality;
mod making;
mod primitive;
mod spec_head;

pub use extracting::program_of;
pub use finality::is_final;
pub use primitive::is_primitive;
