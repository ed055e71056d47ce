//! Values and their texts: numbers, lists and tuples, which texts are values of a sort, and the default
//! value and default term of each sort.
#![tactic(auto)]

mod defaults;
mod digits;
mod errors;
mod nodes;
mod pointer;
mod printing;
mod reader;
mod reading;
mod same;
mod sorting;
mod stack;
mod tree;
mod value;

pub use defaults::{default_of, default_term};
pub use errors::ValueError;
pub use printing::print_value;
pub use reading::read_value;
pub use tree::ValueTree;
pub use value::{Value, Values};
