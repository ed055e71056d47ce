// Terms, formulas and rows as lines say them, before trees are made of them: flat data, which takes
// no memory of its own.
use crate::trees::{Form, Out};

/// What stands in the innermost brackets of a term.
#[derive(Clone, Copy, Debug)]
pub enum Base {
    /// The input.
    Input,
    /// A number, up to 1,000.
    Number(u32),
    /// The row variable `?k`, k from 1 to 9,999,999.
    RowVariable(u32),
}

/// A term: `s(..)` so many times round the base.
#[derive(Clone, Copy, Debug)]
pub struct FlatTerm {
    pub successors: u32,
    pub base: Base,
}

/// A formula: `true`, or an equality.
#[derive(Clone, Copy, Debug)]
pub enum FlatForm {
    True,
    Equal(FlatTerm, FlatTerm),
}

/// By what a row follows: it is the goal of the specification, or the sides of the equality that is
/// the row with this number are unified. The number may be any; whether the step gives a row is
/// judged by the check.
#[derive(Clone, Copy, Debug, PartialEq, Eq)]
pub enum Step {
    Goal,
    Reflex { row: u32 },
}

/// A row of a derivation, as its line is read.
#[derive(Clone, Copy, Debug)]
pub struct FlatRow {
    pub step: Step,
    pub form: FlatForm,
    pub out: FlatTerm,
}

/// A row of a tableau. Each row so far is a goal with an output entry.
#[derive(Drop)]
pub struct Row {
    pub form: Form,
    pub out: Out,
}

/// An entry of a derivation: a step, and the row that it is to give.
#[derive(Drop)]
pub struct Entry {
    pub step: Step,
    pub row: Row,
}
