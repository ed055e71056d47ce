// The declarations of a theory, one for each line of its text behind the first.
use sqlite_items::Items;
use syn_form::{Form, Mono, Out, QForm};
use syn_term::{Sort, Term, Text};

/// A declaration. In a clause and in a measure the variables are numbered from 1 in the order in
/// which they first occur among the arguments.
#[derive(Drop)]
pub enum Decl {
    /// `sort L = n | c(E, L)`: lists of items.
    ListSort {
        name: Text,
        nil: Text,
        cons: Text,
        item: Sort,
    },
    /// `sort T = c(S1, .., Sk)`: tuples of two to four parts.
    TupleSort {
        name: Text,
        make: Text,
        parts: Items<Sort>,
    },
    /// `fun f(S1, .., Sn): S`, whose clauses follow at once.
    Fun {
        name: Text,
        args: Items<Sort>,
        result: Sort,
    },
    /// `rel r(S1, .., Sn)`, whose clauses follow at once.
    Rel {
        name: Text,
        args: Items<Sort>,
    },
    /// `clause f(q1, .., qn) = OUT`, a clause of the function declared last.
    FunClause {
        args: Items<Term>,
        body: Out,
    },
    /// `clause r(q1, .., qn) <-> FORM`, a clause of the relation declared last.
    RelClause {
        args: Items<Term>,
        body: Form,
    },
    /// `order w(x: S, ..) by TERM`: a relation on two lists of arguments of these sorts, true where the
    /// measure of the first is below that of the second.
    Order {
        name: Text,
        args: Items<Sort>,
        measure: Term,
    },
    /// `axiom NAME: FORM`, a formula without free variables.
    Axiom {
        name: Text,
        form: QForm,
    },
    /// `mono NAME: REL up SYM K`, and its kin.
    Monotone {
        name: Text,
        mono: Mono,
    },
}
