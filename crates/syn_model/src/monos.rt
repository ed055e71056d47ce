// Monotonicity rows: whether one fits the symbols, and whether it may follow other declarations.
ghost use Rattle.std.specs.Prelude.{◌≡◌, ◌↔◌, ◌-◌, ◌≤◌, [], ◌∷◌, All, IsTrue, Some, MatchOption, slice_get};
ghost use Rattle.syn_form.specs.Sorts as sorts;
ghost use Rattle.syn_model.specs.Tables.{monos_of};
ghost use Rattle.syn_model.specs.Declaring.{GivesFor, IsMono, IsRelationOn, MayMono};

use crate::naming::is_new_name;
use crate::theory::Theory;
use syn_form::Mono;
use syn_term::{Kind, Sort, Sym, SymId, Symbols};

fn is_relation(kind: Kind) -> bool
    ensures { result ≡ sorts.is_relation kind }
{
    matches!(kind, Kind::Rel | Kind::Order)
}

// Whether these are twice the sort.
fn are_both(sorts: &[Sort], sort: Sort) -> bool
    ensures { IsTrue result ↔ (sorts.now ≡ sort ∷ sort ∷ []) }
{
    match sorts {
        [first, second] => *first == sort && *second == sort,
        _ => false,
    }
}

// Whether the symbol is a relation or an order on two arguments of the sort.
fn is_relation_on(syms: &Symbols, sort: Sort, rel: SymId) -> bool
    ensures { IsTrue result ↔ IsRelationOn syms.now sort rel }
{
    match syms.get(rel) {
        None => false,
        Some(sym) => is_relation(sym.kind) && are_both(sym.args.as_slice(), sort),
    }
}

// Whether what is given fits a symbol with this result, and whether the symbol is a relation.
fn gives_for(syms: &Symbols, relation: bool, value: Option<Sort>, gives: Option<SymId>) -> bool
    ensures { IsTrue result ↔ GivesFor syms.now relation value gives }
{
    if relation {
        return gives.is_none();
    }
    match (value, gives) {
        (Some(sort), Some(rel)) => is_relation_on(syms, sort, rel),
        _ => false,
    }
}

// The sort with this number, counted from 0.
fn sort_at(sorts: &[Sort], place: u32) -> Option<Sort>
    ensures { result ≡ slice_get sorts.now place }
{
    match sorts.get(place as usize) {
        None => None,
        Some(sort) => Some(*sort),
    }
}

// The sort of the argument at the place, counted from 1.
fn sort_of_place(sorts: &[Sort], place: u32) -> Option<Sort>
    ensures { MatchOption result ((sort : _) → 1 ≤ place → slice_get sorts.now (place - 1) ≡ Some sort → ⊥) (λ sort. (1 ≤ place) × (slice_get sorts.now (place - 1) ≡ Some sort)) }
{
    if place == 0 {
        return None;
    }
    sort_at(sorts, place - 1)
}

/// Whether the monotonicity row fits the symbols.
pub(crate) fn is_mono(syms: &Symbols, mono: &Mono) -> bool
    ensures { IsTrue result ↔ IsMono syms.now mono.now }
{
    let Some(sym) = syms.get(mono.sym) else {
        return false;
    };
    match sort_of_place(sym.args.as_slice(), mono.place) {
        None => false,
        Some(sort) => {
            is_relation_on(syms, sort, mono.rel)
                && gives_for(syms, is_relation(sym.kind), sym.result, mono.gives)
        }
    }
}

// Whether no row is of the same relation, symbol and place.
fn is_new_row(theory: &Theory, mono: &Mono) -> bool
    ensures { IsTrue result ↔ All (λ o. (o.rel ≡ mono.now.rel) × (o.sym ≡ mono.now.sym) × (o.place ≡ mono.now.place) → ⊥) (monos_of (theory.now).decls) }
{
    !theory.has_like(mono)
}

/// Whether the row may follow the declarations, with this name.
pub(crate) fn may_mono(theory: &Theory, name: &str, mono: &Mono) -> bool
    ensures { IsTrue result ↔ MayMono (theory.now).decls name.now mono.now }
{
    is_new_name(theory, name) && is_mono(theory.symbols(), mono) && is_new_row(theory, mono)
}
