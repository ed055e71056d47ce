// What the names in a text stand for: the variables, symbols and sorts that a place knows.
ghost use Rattle.std.specs.Prelude.{◌≡◌, ◌&&◌, None, codes, false, if◌then◌else◌, not, position};
ghost use Rattle.std.specs.List.{list_any};
ghost use Rattle.std.specs.Option.{option_map};
ghost use Rattle.std.specs.Str.{bytes_eq};
ghost use Rattle.syn_term.specs.Symbols.{names_of};
ghost use Rattle.syn_term.specs.Tokens as words;
ghost use Rattle.syn_form.specs.Elaboration as elaboration;
ghost use Rattle.syn_form.specs.Elaboration.{sym_id};
ghost use Rattle.syn_expr.specs.inner.Elaborating as elaborating;
ghost use Rattle.syn_expr.specs.Scopes.{listed};
ghost use Rattle.syn_expr.specs.inner.Places.{names_at, spoken_at};

use crate::names::{Inside, NamedVars};
use crate::reserved::is_word;
use syn_form::{BinderSyntax, HeadName, NameText};
use syn_term::{Sort, SymId, Symbols, Var};

/// The variable with the name, the innermost where several have it.
pub(crate) fn var_named(names: &NamedVars, name: &str) -> Option<Var>
    ensures { result ≡ elaboration.var_named (names_at names.now) name.now }
{
    match names {
        NamedVars::Given(names) => given_var(names, name),
        NamedVars::Bound(binder, outer) => {
            if binder.name.as_str() == name {
                Some(binder.var)
            } else {
                var_named(outer, name)
            }
        }
    }
}

/// The variable with the name among these, the first where there are several.
fn given_var(names: &[(String, Var)], name: &str) -> Option<Var>
    ensures { result ≡ elaboration.var_named (listed names.now) name.now }
{
    for i in 0..names.len() {
        if names[i].0.as_str() == name {
            return Some(names[i].1);
        }
    }
    None
}

/// Whether the two texts are one.
fn is_text(name: &str, other: &str) -> bool
    ensures { result ≡ bytes_eq name.now other.now }
{
    name == other
}

/// The symbol with the name, whatever the name is.
fn symbol_of(syms: &Symbols, name: &str) -> Option<SymId>
    ensures { result ≡ option_map sym_id (position (bytes_eq name.now) (names_of syms.now)) }
{
    syms.find(name)
}

/// The symbol with the name. Of the reserved words `s` alone names one.
pub(crate) fn symbol_named(syms: &Symbols, name: &str) -> Option<SymId>
    ensures { result ≡ elaboration.symbol_named syms.now name.now }
{
    if is_word(name) && !is_text(name, "s") {
        None
    } else {
        symbol_of(syms, name)
    }
}

/// The symbol of a head; Skolem symbols are read in rows alone.
pub(crate) fn head_symbol(place: &Inside, head: &HeadName) -> Option<SymId>
    ensures { result ≡ elaboration.head_symbol (spoken_at place.now) head.now }
{
    match head {
        HeadName::Name(name) => symbol_named(place.syms, name.as_str()),
        HeadName::Skolem(name) => {
            if place.rows {
                symbol_of(place.syms, name.as_str())
            } else {
                None
            }
        }
    }
}

/// The variable that a name which is a head names.
fn name_var(place: &Inside, name: &str) -> Option<Var>
    ensures { result ≡ (if words.is_reserved name.now then None else elaboration.var_named (names_at place.now.names) name.now) }
{
    if is_word(name) {
        None
    } else {
        var_named(&place.names, name)
    }
}

/// The variable that a head names; a reserved word names none.
pub(crate) fn head_var(place: &Inside, head: &HeadName) -> Option<Var>
    ensures { result ≡ elaboration.head_var (spoken_at place.now) head.now }
{
    match head {
        HeadName::Name(name) => name_var(place, name.as_str()),
        HeadName::Skolem(_) => None,
    }
}

/// The sort that is written behind a row variable, `nat` where none is.
pub(crate) fn written_sort(syms: &Symbols, sort: &Option<NameText>) -> Option<Sort>
    ensures { result ≡ elaboration.written_sort syms.now sort.now }
{
    match sort {
        None => Some(Sort::Nat),
        Some(name) => syms.find_sort(name.as_str()),
    }
}

/// Whether a symbol has the name.
fn names_symbol(syms: &Symbols, name: &str) -> bool
    ensures { result ≡ list_any (bytes_eq name.now) (names_of syms.now) }
{
    symbol_of(syms, name).is_some()
}

/// Whether a declared sort has the name.
fn names_sort(syms: &Symbols, name: &str) -> bool
    requires { words.is_reserved name.now ≡ false }
    ensures { result ≡ list_any (λ s. bytes_eq name.now s.name) syms.now.sorts }
{
    syms.find_sort(name).is_some()
}

/// Whether a variable has the name.
fn names_var(names: &NamedVars, name: &str) -> bool
    ensures { result ≡ list_any (λ v. bytes_eq name.now v.text) (names_at names.now) }
{
    var_named(names, name).is_some()
}

/// Whether the name may be bound: it is no reserved word, and no symbol, no sort and no variable in
/// scope has it.
fn is_free(place: &Inside, name: &str) -> bool
    ensures { result ≡ elaboration.is_free (spoken_at place.now) name.now }
{
    if is_word(name) {
        return false;
    }
    !names_symbol(place.syms, name)
        && !names_sort(place.syms, name)
        && !names_var(&place.names, name)
}

/// The sort of a binder: `nat`, or the declared one that has the name.
fn binder_sort(syms: &Symbols, name: &str) -> Option<Sort>
    ensures { result ≡ elaboration.binder_sort syms.now name.now }
{
    if is_word(name) && !is_text(name, "nat") {
        None
    } else {
        syms.find_sort(name)
    }
}

/// The variable of a binder, with this number; None where its name may not be bound, or no sort has
/// the name of its sort.
pub(crate) fn binder_var(place: &Inside, number: u32, binder: &BinderSyntax) -> Option<Var>
    ensures { result ≡ elaborating.binder_var (spoken_at place.now) number binder.now }
{
    if !is_free(place, binder.name.as_str()) {
        return None;
    }
    match binder_sort(place.syms, binder.sort.as_str()) {
        None => None,
        Some(sort) => Some(Var { number, sort }),
    }
}
