// The sorts, and what is known of a symbol: its kind, the sorts of its arguments and its result.
ghost use Rattle.std.specs.Prelude.{◌≡◌};

use crate::text::Text;
use sqlite_items::Items;

/// The sort of a term: the natural numbers, or the sort with this number among the declared ones,
/// counted from 0.
#[derive(Clone, Copy, Debug, PartialEq, Eq)]
pub enum Sort {
    Nat,
    Named(u32),
}

/// A symbol, by its number in the table of symbols, counted from 0.
#[derive(Clone, Copy, Debug, PartialEq, Eq)]
pub struct SymId(pub u32);

/// What a symbol is.
#[derive(Clone, Copy, Debug, PartialEq, Eq)]
pub enum Kind {
    Zero,
    Succ,
    Nil,
    Cons,
    Tuple,
    Fun,
    Rel,
    Order,
    Input,
    Program,
    Skolem,
}

/// A symbol of the table. A relation and an order have no result.
#[derive(Debug, Drop)]
pub struct Sym {
    pub name: Text,
    pub kind: Kind,
    pub args: Items<Sort>,
    pub result: Option<Sort>,
}

/// How the values of a sort are built.
#[derive(Debug, Drop)]
pub enum Shape {
    Nat,
    List { nil: SymId, cons: SymId, item: Sort },
    Tuple { make: SymId, parts: Items<Sort> },
}

/// A declared sort.
#[derive(Debug, Drop)]
pub struct NamedSort {
    pub name: Text,
    pub shape: Shape,
}

/// A variable: its number, and the sort of what it stands for.
#[derive(Clone, Copy, Debug, PartialEq, Eq)]
pub struct Var {
    pub number: u32,
    pub sort: Sort,
}

/// What stands at the top of a term.
#[derive(Clone, Copy, Debug, PartialEq, Eq)]
pub enum Head {
    Var(Var),
    Sym(SymId),
}
