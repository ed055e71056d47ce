// What texts are made of: their words, and the syntax trees that keep what the brackets and the
// precedence of connectives said. A syntax tree speaks of names, not of symbols, and lends them from the
// line that it was read from.
ghost use Rattle.std.specs.Prelude.{◌≡◌};

use sqlite_items::{Boxed, Items};
use std::marker::Model;

/// A name as it stands in a line: a lent text that contracts see as the list of its bytes.
#[derive(Debug, Drop)]
pub struct NameText<'a> {
    inner: &'a str,
}

impl<'a> Model for NameText<'a> {
    ghost use Rattle.std.specs.Prelude.{List, ℕ};

    ghost Value = { List ℕ };

    ghost view = { λ t. t.inner.now };
}

impl<'a> NameText<'a> {
    /// The name that the text is.
    pub fn new(inner: &'a str) -> NameText<'a>
        ensures { result ≡ inner.now }
    {
        NameText { inner }
    }

    /// The text itself.
    pub fn as_str(&self) -> &'a str
        ensures { result.now ≡ self.now }
    {
        self.inner
    }
}

/// A word or sign of expressions that has a meaning of its own.
#[derive(Clone, Copy, Debug, PartialEq, Eq)]
pub enum Mark {
    Open,
    Close,
    Comma,
    Colon,
    Dot,
    Equals,
    Arrow,
    BothWays,
    Not,
    And,
    Or,
    If,
    Then,
    Else,
    True,
    False,
    ForAll,
    ForSome,
    Nat,
}

/// A word of an expression: a number, a row variable with its sort where one is written, a name or
/// a Skolem symbol, or a mark.
#[derive(Debug, Drop)]
pub enum Lexeme<'a> {
    Number(u32),
    RowVar(u32, Option<NameText<'a>>),
    Name(NameText<'a>),
    Skolem(NameText<'a>),
    Fixed(Mark),
}

/// What stands at the front of a term: a name or a Skolem symbol.
#[derive(Debug, Drop)]
pub enum HeadName<'a> {
    Name(NameText<'a>),
    Skolem(NameText<'a>),
}

/// A term as it is written. A head stands alone, or before arguments in brackets.
#[derive(Drop)]
pub enum TermSyntax<'a> {
    Number(u32),
    RowVar(u32, Option<NameText<'a>>),
    Alone(HeadName<'a>),
    Applied(HeadName<'a>, Items<TermSyntax<'a>>),
}

/// The two quantifiers, `all` and `some`.
#[derive(Clone, Copy, Debug, PartialEq, Eq)]
pub enum Quantifier {
    All,
    Exists,
}

/// A name with its sort, as a quantifier binds it.
#[derive(Debug, Drop)]
pub struct BinderSyntax<'a> {
    pub name: NameText<'a>,
    pub sort: NameText<'a>,
}

/// A formula as it is written, without its brackets. The sides of an equality stand in boxes, so that formulas
/// are small where they are moved.
#[derive(Drop)]
pub enum FormSyntax<'a> {
    True,
    False,
    Atom(NameText<'a>, Items<TermSyntax<'a>>),
    Equal(Boxed<TermSyntax<'a>>, Boxed<TermSyntax<'a>>),
    Not(Boxed<FormSyntax<'a>>),
    And(Items<FormSyntax<'a>>),
    Or(Items<FormSyntax<'a>>),
    Implies(Boxed<FormSyntax<'a>>, Boxed<FormSyntax<'a>>),
    BothWays(Boxed<FormSyntax<'a>>, Boxed<FormSyntax<'a>>),
    Quantified(Quantifier, Items<BinderSyntax<'a>>, Boxed<FormSyntax<'a>>),
}

/// An output or a program body as it is written.
#[derive(Drop)]
pub enum OutSyntax<'a> {
    Give(TermSyntax<'a>),
    If(FormSyntax<'a>, Boxed<OutSyntax<'a>>, Boxed<OutSyntax<'a>>),
}
