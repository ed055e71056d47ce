// What the guards of recursive calls are made of.
use sqlite_items::Items;
use syn_form::Form;
use syn_term::{SymId, Term};

/// What the guard of a program call is made of, where an order is named: the program's symbol, the order, the
/// inputs, each with its own term, and the input condition, `true` where none is stated.
#[derive(Drop)]
pub struct GuardRule {
    pub program: SymId,
    pub order: SymId,
    pub inputs: Items<(SymId, Term)>,
    pub condition: Form,
}
