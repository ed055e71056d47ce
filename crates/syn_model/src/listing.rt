// What the lines of a specification name: one order, or functions, relations, orders and axioms in a
// list.
ghost use Rattle.std.specs.Prelude.{◌≡◌, ◌↔◌, ◌++◌, ◌≤◌, All, Contains, IfOk, IsTrue, MatchOption, length};
ghost use Rattle.syn_term.specs.Symbols.{names_of};
ghost use Rattle.syn_model.specs.Specifications.{AreListed, IsDefined, IsOrderOn, MayBePrimitive, MayBeTaken, NamesSymbol};
ghost use Rattle.syn_model.specs.inner.Naming.{IsOnlyNamed};

use crate::hashed::are_distinct;
use crate::theory::Theory;
use std::alloc::Global;
use syn_term::{Kind, NoMemory, Sort, Sym, Symbols, Text};

/// The symbol with this name.
fn symbol_named<'a>(syms: &'a Symbols, name: &str) -> Option<&'a Sym>
    ensures { MatchOption result (Contains (names_of syms.now) name.now → ⊥) (λ s. IsOnlyNamed syms.now name.now s.now) }
{
    match syms.find(name) {
        None => None,
        Some(id) => match syms.get(id) {
            None => None,
            Some(sym) => Some(sym),
        },
    }
}

fn is_same(sort: Sort, other: Sort) -> bool
    ensures { IsTrue result ↔ (sort ≡ other) }
{
    sort == other
}

fn are_same(sorts: &[Sort], others: &[Sort]) -> bool
    ensures { IsTrue result ↔ (sorts.now ≡ others.now) }
{
    if sorts.len() != others.len() {
        return false;
    }
    for i in 0..sorts.len() {
        if !is_same(sorts[i], others[i]) {
            return false;
        }
    }
    true
}

/// Whether these sorts are those, twice in a row.
fn are_twice(args: &[Sort], sorts: &[Sort]) -> bool
    ensures { IsTrue result ↔ (args.now ≡ sorts.now ++ sorts.now) }
{
    let n = sorts.len();
    if args.len() < n {
        return false;
    }
    are_same(&args[..n], sorts) && are_same(&args[n..], sorts)
}

fn is_order_on(sym: &Sym, sorts: &[Sort]) -> bool
    ensures { IsTrue result ↔ IsOrderOn sorts.now sym.now }
{
    sym.kind == Kind::Order && are_twice(sym.args.as_slice(), sorts)
}

fn is_defined(sym: &Sym) -> bool
    ensures { IsTrue result ↔ IsDefined sym.now }
{
    matches!(sym.kind, Kind::Fun | Kind::Rel)
}

fn may_be_primitive(sym: &Sym) -> bool
    ensures { IsTrue result ↔ MayBePrimitive sym.now }
{
    is_defined(sym) || sym.kind == Kind::Order
}

/// Whether an order on two lists of arguments of these sorts has the name.
pub(crate) fn names_order(syms: &Symbols, sorts: &[Sort], name: &str) -> bool
    ensures { IsTrue result ↔ NamesSymbol syms.now (IsOrderOn sorts.now) name.now }
{
    match symbol_named(syms, name) {
        None => false,
        Some(sym) => is_order_on(sym, sorts),
    }
}

/// Whether a function, a relation or an order has the name.
fn names_primitive(syms: &Symbols, name: &str) -> bool
    ensures { IsTrue result ↔ NamesSymbol syms.now MayBePrimitive name.now }
{
    match symbol_named(syms, name) {
        None => false,
        Some(sym) => may_be_primitive(sym),
    }
}

/// Whether a function or a relation has the name.
fn names_defined(syms: &Symbols, name: &str) -> bool
    ensures { IsTrue result ↔ NamesSymbol syms.now IsDefined name.now }
{
    match symbol_named(syms, name) {
        None => false,
        Some(sym) => is_defined(sym),
    }
}

/// Whether an axiom, a function or a relation has the name.
fn may_be_taken(theory: &Theory, name: &str) -> bool
    ensures { IsTrue result ↔ MayBeTaken (theory.now).decls name.now }
{
    theory.has_axiom(name) || names_defined(theory.symbols(), name)
}

fn are_primitives(syms: &Symbols, names: &[Text]) -> bool
    ensures { IsTrue result ↔ All (NamesSymbol syms.now MayBePrimitive) names.now }
{
    for name in names {
        if !names_primitive(syms, name.as_str()) {
            return false;
        }
    }
    true
}

fn may_all_be_taken(theory: &Theory, names: &[Text]) -> bool
    ensures { IsTrue result ↔ All (MayBeTaken (theory.now).decls) names.now }
{
    for name in names {
        if !may_be_taken(theory, name.as_str()) {
            return false;
        }
    }
    true
}

fn are_some(names: &[Text]) -> bool
    ensures { IsTrue result ↔ (1 ≤ length names.now) }
{
    !names.is_empty()
}

/// Whether these are names of functions, relations and orders, as a line lists them. The one error is
/// want of memory.
pub(crate) fn lists_primitives(
    alloc: Global,
    syms: &Symbols,
    names: &[Text],
) -> Result<bool, NoMemory>
    ensures { IfOk result (λ b. IsTrue b ↔ AreListed (NamesSymbol syms.now MayBePrimitive) names.now) }
{
    if !are_some(names) {
        return Ok(false);
    }
    if !are_primitives(syms, names) {
        return Ok(false);
    }
    are_distinct(alloc, names)
}

/// Whether these are names of axioms, functions and relations, as a line lists them. The one error is
/// want of memory.
pub(crate) fn lists_taken(alloc: Global, theory: &Theory, names: &[Text]) -> Result<bool, NoMemory>
    ensures { IfOk result (λ b. IsTrue b ↔ AreListed (MayBeTaken (theory.now).decls) names.now) }
{
    if !are_some(names) {
        return Ok(false);
    }
    if !may_all_be_taken(theory, names) {
        return Ok(false);
    }
    are_distinct(alloc, names)
}
