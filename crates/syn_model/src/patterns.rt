// The patterns among the arguments of a clause, of which it may have one, and what a constructor is
// for its sort.
ghost use Rattle.std.specs.Prelude.{◌≡◌, Some};
ghost use Rattle.syn_model.specs.Headings as headings;
ghost use Rattle.syn_model.specs.Headings.{patterns_of};
ghost use Rattle.syn_model.specs.inner.Views.{counted, counted_next};

use syn_term::{Head, Kind, SymId, Symbols, Term};

/// A pattern among the arguments of a clause: its place, counted from 0, and its symbol.
#[derive(Clone, Copy)]
pub(crate) struct Pattern {
    pub(crate) place: usize,
    pub(crate) symbol: SymId,
}

/// The patterns among the arguments of a clause: none, one, or more with the first of them.
#[derive(Clone, Copy)]
pub(crate) enum Patterns {
    Nothing,
    One(Pattern),
    Several(Pattern),
}

/// What a constructor is for its sort: the first of two, the second of two, or the only one.
#[derive(Clone, Copy)]
pub(crate) enum Role {
    FirstOfTwo,
    SecondOfTwo,
    OnlyOne,
    NoConstructor,
}

/// The patterns with what stands at the top of the argument at the next place.
fn counted_next(found: Patterns, place: usize, head: Head) -> Patterns
    ensures { result ≡ counted_next found place head }
{
    match head {
        Head::Var(_) => found,
        Head::Sym(symbol) => match found {
            Patterns::Nothing => Patterns::One(Pattern { place, symbol }),
            Patterns::One(first) | Patterns::Several(first) => Patterns::Several(first),
        },
    }
}

/// What is no variable among the arguments.
pub(crate) fn patterns_in(args: &[Term]) -> Patterns
    ensures { result ≡ counted (patterns_of args.now) }
{
    let mut found = Patterns::Nothing;
    for i in 0..args.len() {
        found = counted_next(found, i, args[i].head());
    }
    found
}

/// What a symbol of this kind is for its sort.
fn role_of_kind(kind: Kind) -> Role
    ensures { result ≡ headings.role_of_kind (Some kind) }
{
    match kind {
        Kind::Zero | Kind::Nil => Role::FirstOfTwo,
        Kind::Succ | Kind::Cons => Role::SecondOfTwo,
        Kind::Tuple => Role::OnlyOne,
        _ => Role::NoConstructor,
    }
}

/// What the symbol of the pattern is for its sort.
pub(crate) fn role_of(syms: &Symbols, pattern: Pattern) -> Role
    ensures { result ≡ headings.role_of syms.now pattern }
{
    match syms.get(pattern.symbol) {
        None => Role::NoConstructor,
        Some(sym) => role_of_kind(sym.kind),
    }
}

/// Whether it is the only constructor of its sort.
fn is_only(role: Role) -> bool
    ensures { result ≡ headings.is_only role }
{
    matches!(role, Role::OnlyOne)
}

/// Whether no other clause is missing beside one with these arguments.
pub(crate) fn one_suffices(syms: &Symbols, args: &[Term]) -> bool
    ensures { result ≡ headings.one_suffices syms.now (patterns_of args.now) }
{
    match patterns_in(args) {
        Patterns::Nothing => true,
        Patterns::One(first) | Patterns::Several(first) => is_only(role_of(syms, first)),
    }
}
