//! Theories as lists of declarations: which declaration may follow which others, and the table of
//! symbols that they make.
#![tactic(auto)]

mod among;
mod axioms;
mod bringing;
mod clauses;
mod closed;
mod copying;
mod decl;
mod extending;
mod hashed;
mod head_table;
mod headings;
mod heads;
mod index;
mod listing;
mod may_follow;
mod monos;
mod naming;
mod orders;
mod patterns;
mod program;
mod spec;
mod spec_part;
mod theory;
mod turns;
mod uses;

pub use decl::Decl;
pub use heads::{Head, Param, are_distinct_names, are_new_inputs};
pub use program::{Program, ProgramHead};
pub use spec::Spec;
pub use spec_part::SpecPart;
pub use theory::{DeclError, Theory};
