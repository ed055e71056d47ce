// The steps of a derivation as values: what a row is said to come of.
use sqlite_items::Items;
use syn_row::Dir;
use syn_term::{Pos, Text};

/// What an initial row comes of.
#[derive(Drop)]
pub enum Origin {
    /// The output condition, as a goal.
    Goal,
    /// The input condition, as an assertion.
    Input,
    /// The axiom of this name.
    Axiom(Text),
    /// A clause of the function or relation of this name, counted from 1 among its clauses.
    Def { name: Text, clause: u32 },
    /// The induction hypothesis of the named order.
    Induct,
}

/// How a row comes of those before it. Rows are counted from 1 in the order in which they stand.
#[derive(Drop)]
pub enum Step {
    /// An initial row.
    Start(Origin),
    /// Splitting: a member of the row's formula, counted from 1.
    Split {
        row: u32,
        member: u32,
    },
    /// Duality: the row as one of the other kind.
    Dual {
        row: u32,
    },
    /// Reflexivity: the sides of the equality at a position of the row are made one.
    Reflex {
        row: u32,
        at: Pos,
    },
    /// Resolution: the subformulas at the positions of two rows are made one.
    Resolve {
        first: u32,
        ps: Items<Pos>,
        second: u32,
        qs: Items<Pos>,
    },
    /// Equality replacement: by the equality at a position of the first row, a term at a place of the
    /// second one.
    Equal {
        first: u32,
        at: Pos,
        dir: Dir,
        second: u32,
        place: Pos,
    },
    /// Relation replacement: the same by an atom of two arguments.
    Relate {
        first: u32,
        at: Pos,
        dir: Dir,
        second: u32,
        place: Pos,
    },
}
