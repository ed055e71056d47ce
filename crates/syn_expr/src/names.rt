// What a text may speak of at a place inside it: the scope of the whole, and the variables of the
// quantifiers around the place. These stand on the stack of the calls that print the quantifiers,
// so a name in scope takes no memory.
ghost use Rattle.std.specs.Prelude.{◌≡◌};
ghost use Rattle.std.specs.Option.{option_map};
ghost use Rattle.syn_term.specs.DeclaredSorts.{IsTable};
ghost use Rattle.syn_term.specs.Symbols.{symbol_at};
ghost use Rattle.syn_form.specs.Printing.{in_scope_of, name_for, name_of, sort_text};
ghost use Rattle.syn_expr.specs.inner.Places.{names_at, spoken_at};
ghost use Rattle.syn_expr.specs.Scopes.{listed, spoken};

use crate::scope::Scope;
use syn_form::Binder;
use syn_term::{Kind, Sort, SymId, Symbols, Var};

/// The variables by their names: those of a scope, or one that a quantifier binds and those
/// outside of it.
#[derive(Clone, Copy)]
pub(crate) enum NamedVars<'a> {
    Given(&'a [(String, Var)]),
    Bound(&'a Binder, &'a NamedVars<'a>),
}

/// What a text may speak of at a place inside it.
#[derive(Clone, Copy)]
pub(crate) struct Inside<'a> {
    pub(crate) syms: &'a Symbols,
    pub(crate) names: NamedVars<'a>,
    pub(crate) rows: bool,
}

/// Nothing: what is told is that the table is well formed, as each look at it tells.
pub(crate) fn look(syms: &Symbols)
    ensures { IsTable syms.now }
{
    let _ = syms.sort_name(Sort::Nat);
}

/// The place outside of all quantifiers.
pub(crate) fn outside<'a>(scope: &Scope<'a>) -> Inside<'a>
    ensures { spoken_at result ≡ spoken scope.now }
{
    Inside {
        syms: scope.syms,
        names: NamedVars::Given(scope.names),
        rows: scope.rows,
    }
}

/// The place inside a quantifier.
pub(crate) fn within<'a>(place: &'a Inside<'a>, binder: &'a Binder) -> Inside<'a>
    ensures { spoken_at result ≡ in_scope_of (spoken_at place.now) binder.now }
{
    Inside {
        syms: place.syms,
        names: NamedVars::Bound(binder, &place.names),
        rows: place.rows,
    }
}

/// The name of the variable with this number, the innermost first; the empty text where none is.
pub(crate) fn name_for<'a>(names: &NamedVars<'a>, number: u32) -> &'a str
    ensures { result.now ≡ name_for (names_at names.now) number }
{
    match names {
        NamedVars::Given(names) => given_name(names, number),
        NamedVars::Bound(binder, outer) => {
            if binder.var.number == number {
                binder.name.as_str()
            } else {
                name_for(outer, number)
            }
        }
    }
}

/// The name among these of the variable with this number, the first one where there are several.
fn given_name<'a>(names: &'a [(String, Var)], number: u32) -> &'a str
    ensures { result.now ≡ name_for (listed names.now) number }
{
    for i in 0..names.len() {
        if names[i].1.number == number {
            return names[i].0.as_str();
        }
    }
    ""
}

/// What the symbol is, None where it is not in the table.
pub(crate) fn symbol_kind(syms: &Symbols, f: SymId) -> Option<Kind>
    ensures { result ≡ option_map (λ s. s.kind) (symbol_at syms.now f) }
{
    match syms.get(f) {
        None => None,
        Some(sym) => Some(sym.kind),
    }
}

/// The symbol's name, the empty text where it is not in the table.
pub fn symbol_name(syms: &Symbols, f: SymId) -> &str
    ensures { result.now ≡ name_of (symbol_at syms.now f) }
{
    match syms.get(f) {
        None => "",
        Some(sym) => sym.name.as_str(),
    }
}

/// The name of the sort, the empty text where it is not in the table.
pub fn sort_name(syms: &Symbols, sort: Sort) -> &str
    ensures { result.now ≡ sort_text syms.now sort }
{
    match syms.sort_name(sort) {
        None => "",
        Some(name) => name,
    }
}
