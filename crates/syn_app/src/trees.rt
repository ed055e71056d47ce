// The trees that definitions speak of. Each has the cases that texts can have so far.
use syn_term::Term;

/// A value of a program: a number from 0.
#[derive(Clone, Copy, Debug)]
pub enum Value {
    Num(u64),
}

/// A formula without quantifiers: what is always true, or an equality of two terms of one sort.
#[derive(Drop)]
pub enum Form {
    True,
    Equal(Term, Term),
}

/// An output entry of a row, and the body of a program: it gives the value of a term.
#[derive(Drop)]
pub enum Out {
    Give(Term),
}
