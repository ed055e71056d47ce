//! Rules on formulas: splitting, duality, reflexivity, nonclausal resolution and equality replacement. Each gives one row at
//! most, which is a law.
#![tactic(auto)]

mod brought;
mod equality;
mod instance;
mod joining;
mod joint;
mod parts;
mod positions;
mod reflexivity;
mod replacing;
mod resolving;
mod sizes;
mod splitting;

pub use equality::equality_at;
pub use reflexivity::reflex;
pub use replacing::equal;
pub use resolving::resolve;
pub use splitting::{dual, split};
