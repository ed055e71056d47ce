//! Rows of a tableau: a goal or an assertion with a formula and maybe an output. When two rows are one,
//! when they are variants, which differ in the names of variables alone, and the canonical row, which
//! all variants of a simplified row have in common. The calls of a symbol that stand in terms, and their guards.
#![tactic(auto)]

mod apart;
mod calls;
mod direction;
mod giving;
mod guarding;
mod guards;
mod joining;
mod limits;
mod normalizing;
mod occurrences;
mod plain;
mod renumbering;
mod rows;
mod weighing;

pub use apart::kept_apart;
pub use calls::{put_calls, put_form_calls};
pub use direction::Dir;
pub use giving::{Weighed, given};
pub use guarding::{call_guards, guard};
pub use guards::GuardRule;
pub use joining::{chosen, guarded, joined, joined_side};
pub use limits::{ROW_DEPTH, ROW_NODES, is_within};
pub use normalizing::{canonical, simplified};
pub use occurrences::output_occurrences;
pub use plain::is_plain_row;
pub use rows::Row;
pub use weighing::{STEP_DEPTH, STEP_NODES, is_light};
