//! Formulas and outputs as trees: their parts and positions, when two are one tree, the sign of a
//! subformula, simplification from the inside out, which keeps the truth of a formula, and whether a
//! tree is plain, as those that texts stand for are. Substitutions and most general unifiers are
//! definitions here for the crates above; so is the grammar of expressions.
#![tactic(auto)]

mod binders;
mod form;
mod formed;
mod inputs;
mod joins;
mod numbers;
mod output;
mod plain;
mod qform;
mod quantified;
mod replacing;
mod replacing_terms;
mod signs;
mod simplifying;
mod sorts;
mod syntax;
mod terms;
mod trees;
mod vars;

pub use formed::{is_formed_form, is_formed_out};
pub use inputs::{are_inputs, put_inputs};
pub use plain::{is_plain_form, is_plain_out, is_plain_qform};
pub use quantified::is_formed_qform;
pub use replacing::replace_all;
pub use replacing_terms::replace_term;
pub use signs::polarity;
pub use simplifying::{simplify, simplify_out};
pub use sorts::{are_of_one_sort, given_sort, is_atom, is_sort};
pub use syntax::{
    BinderSyntax, FormSyntax, HeadName, Lexeme, Mark, NameText, OutSyntax, Quantifier, TermSyntax,
};
pub use terms::{are_sorted, is_sorted};
pub use trees::{Binder, Form, Mono, Out, Part, QForm, Side};
pub use vars::{
    form_has_one_sort_each, out_has_one_sort_each, put_all_vars, qform_has_one_sort_each,
    term_has_one_sort_each,
};
