//! The rows that a derivation begins with, the steps of a derivation as values, and the formulas that
//! clauses stand for.
#![tactic(auto)]

mod clause_rows;
mod clauses;
mod conditions;
mod def_rows;
mod definitions;
mod derivation;
mod goals;
mod guard_rule;
mod guard_rules;
mod initial;
mod owning;
mod start;
mod steps;
mod unquantified;

pub use conditions::input_row;
pub use def_rows::def_row;
pub use derivation::Derivation;
pub use goals::goal_row;
pub use start::Start;
pub use steps::{Origin, Step};
