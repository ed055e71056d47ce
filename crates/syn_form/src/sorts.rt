// The sorts of terms, and which symbols stand before which terms in atoms.
ghost use Rattle.std.specs.Prelude.{◌≡◌, ◌↔◌, ◌⊎◌, IsTrue};
ghost use Rattle.syn_term.specs.Symbols.{IsSort};
ghost use Rattle.syn_term.specs.Terms.{IsApplication};
ghost use Rattle.syn_term.specs.declared.sorts.Kind.TheVariants as kinds;
ghost use Rattle.syn_form.specs.Plain as plain;
ghost use Rattle.syn_form.specs.Plain.{IsAtom, IsKnownSort, result_of};
ghost use Rattle.syn_form.specs.Sorts as sorts;

use crate::trees::Out;
use syn_term::{Kind, Sort, SymId, Symbols, Term, have_sorts};

/// Whether the two sorts are one.
pub(crate) fn same_sort(a: Sort, b: Sort) -> bool
    ensures { result ≡ sorts.same_sort a b }
{
    match (a, b) {
        (Sort::Nat, Sort::Nat) => true,
        (Sort::Named(m), Sort::Named(n)) => m == n,
        _ => false,
    }
}

/// Whether both have a sort, and it is one.
pub fn are_of_one_sort(a: Option<Sort>, b: Option<Sort>) -> bool
    ensures { result ≡ sorts.are_of_one_sort a b }
{
    match (a, b) {
        (Some(a), Some(b)) => same_sort(a, b),
        _ => false,
    }
}

/// Whether symbols of this kind stand in atoms.
fn is_relation(kind: Kind) -> bool
    ensures { IsTrue result ↔ (kind ≡ kinds.Rel) ⊎ (kind ≡ kinds.Order) }
{
    matches!(kind, Kind::Rel | Kind::Order)
}

/// Whether the symbol may be applied to the terms.
fn is_application(syms: &Symbols, f: SymId, args: &[Term]) -> bool
    ensures { IsTrue result ↔ IsApplication syms.now f args.now }
{
    match syms.get(f) {
        None => false,
        Some(sym) => !is_relation(sym.kind) && have_sorts(syms, args, sym.args.as_slice()),
    }
}

/// The sort of the symbol's result, None where the symbol isn't in the table or has no result.
fn result_sort(syms: &Symbols, f: SymId) -> Option<Sort>
    ensures { result ≡ result_of syms.now f }
{
    match syms.get(f) {
        None => None,
        Some(sym) => sym.result,
    }
}

/// Whether the sort is one of the table's.
pub fn is_sort(syms: &Symbols, sort: Sort) -> bool
    ensures { IsTrue result ↔ IsSort syms.now sort }
{
    syms.sort_name(sort).is_some()
}

/// Whether a sort is there, and is one of the table's.
fn is_known_sort(syms: &Symbols, sort: Option<Sort>) -> bool
    ensures { IsTrue result ↔ IsKnownSort syms.now sort }
{
    match sort {
        None => false,
        Some(sort) => is_sort(syms, sort),
    }
}

/// Whether the symbol may be applied to the terms, and its result is there and has a sort of the table.
pub(crate) fn makes_sorted(syms: &Symbols, f: SymId, args: &[Term]) -> bool
    ensures { IsTrue result ↔ IsApplication syms.now f args.now × IsKnownSort syms.now (result_of syms.now f) }
{
    is_application(syms, f, args) && is_known_sort(syms, result_sort(syms, f))
}

/// Whether the symbol makes an atom of the terms.
pub fn is_atom(syms: &Symbols, r: SymId, args: &[Term]) -> bool
    ensures { IsTrue result ↔ IsAtom syms.now r args.now }
{
    match syms.get(r) {
        None => false,
        Some(sym) => is_relation(sym.kind) && have_sorts(syms, args, sym.args.as_slice()),
    }
}

/// The sort of the term that the output gives, by its first arm.
pub fn given_sort(syms: &Symbols, o: &Out) -> Option<Sort>
    ensures { result ≡ plain.given_sort syms.now o.now }
{
    match o {
        Out::Give(t) => t.sort_in(syms),
        Out::If(_, u, _) => given_sort(syms, u.get()),
    }
}
