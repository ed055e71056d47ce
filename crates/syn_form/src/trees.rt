// The trees of rows, specifications and theories. Their parts stand behind shared pointers, so a
// caller makes a tree by writing its case, and what is kept once more takes no memory.
use sqlite_items::Items;
use syn_term::{Shared, SymId, Term, Text, Var};

/// Which kind of row a formula stands in: a goal is to be shown, an assertion is known.
#[derive(Clone, Copy, Debug, PartialEq, Eq)]
pub enum Side {
    Goal,
    Assertion,
}

/// A formula without quantifiers.
#[derive(Drop)]
pub enum Form {
    True,
    False,
    Atom(SymId, Shared<Items<Term>>),
    Equal(Term, Term),
    Not(Shared<Form>),
    And(Shared<Items<Form>>),
    Or(Shared<Items<Form>>),
    Implies(Shared<Form>, Shared<Form>),
}

/// The variable that a quantifier binds, and the name that it is written with.
#[derive(Debug, Drop)]
pub struct Binder {
    pub var: Var,
    pub name: Text,
}

/// A formula with quantifiers, each with one binder.
#[derive(Drop)]
pub enum QForm {
    True,
    False,
    Atom(SymId, Shared<Items<Term>>),
    Equal(Term, Term),
    Not(Shared<QForm>),
    And(Shared<Items<QForm>>),
    Or(Shared<Items<QForm>>),
    Implies(Shared<QForm>, Shared<QForm>),
    All(Binder, Shared<QForm>),
    Exists(Binder, Shared<QForm>),
}

/// An output entry of a row, or the body of a program: the value of a term, or a choice by a test.
#[derive(Drop)]
pub enum Out {
    Give(Term),
    If(Shared<Form>, Shared<Out>, Shared<Out>),
}

/// What stands at a position of a formula: a formula or a term.
#[derive(Clone, Copy)]
pub enum Part<'a> {
    F(&'a Form),
    T(&'a Term),
}

/// A declared monotonicity: where the relation `rel` holds between two values at the place, counted
/// from 1, of `sym`, and all other places are the same, then the two results are in the relation
/// `gives`, or, for a relation or order `sym`, the atom with the first value implies the one with the
/// second. Where `up` is false, the two results, or the two atoms, change places.
#[derive(Clone, Copy, Debug, PartialEq, Eq)]
pub struct Mono {
    pub rel: SymId,
    pub up: bool,
    pub sym: SymId,
    pub place: u32,
    pub gives: Option<SymId>,
}
