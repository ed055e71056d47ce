//! Unification: most general unifiers of two terms and of formulas, substitutions applied to terms, formulas
//! and outputs within limits on what comes of it, and the variables of two rows kept apart.
#![tactic(auto)]

mod applying;
mod applying_forms;
mod bindings;
mod changing;
mod changing_forms;
mod changing_outs;
mod forms;
mod making;
mod pairs;
mod raising;
mod room;
mod room_forms;
mod solving;
mod unifying;

pub use applying::apply_term;
pub use applying_forms::{apply, apply_out};
pub use bindings::Subst;
pub use raising::apart;
pub use unifying::{unify_forms, unify_terms};
