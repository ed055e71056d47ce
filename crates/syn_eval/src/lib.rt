//! Evaluation by recursion: the value of a program's call and the truth value of a closed formula, each
//! within a number of turns. It is strict and goes from left to right, and counts a turn for each call
//! and for each constructor that has arguments. An answer comes exactly where the definition of
//! evaluation gives it for some bound on the nesting of calls.
//!
//! What evaluation stands on is open to other ways to evaluate: what is known of each symbol, the clause
//! that fits values, and what constructors make.
#![tactic(auto)]

mod choosing;
mod entries;
mod errors;
mod evaluating;
mod fitting;
mod headed;
mod making;
mod rules;
mod setting;
mod top;
mod variables;

pub use choosing::{Chosen, choose};
pub use entries::Entry;
pub use errors::EvalError;
pub use making::construct;
pub use rules::Rule;
pub use setting::Setting;
pub use top::{eval, holds};
pub use variables::{input_value, variable_value};
