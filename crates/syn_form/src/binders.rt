// Formulas whose binders may be bound, and none of them twice within one another.
ghost use Rattle.std.specs.Prelude.{◌≡◌, ◌≢◌, ◌↔◌, All, Any, Contains, IsTrue};
ghost use Rattle.syn_term.specs.Names.{IsName};
ghost use Rattle.syn_term.specs.Symbols.{IsTaken, names_of};
ghost use Rattle.syn_form.specs.PlainQuantified.{BindsOnce, IsUnbound, MayBind, binders_of};

use crate::sorts::is_sort;
use crate::trees::{Binder, QForm};
use syn_term::{Symbols, is_name};

/// Whether no symbol has the name.
fn names_no_symbol(syms: &Symbols, name: &str) -> bool
    ensures { IsTrue result ↔ (Contains (names_of syms.now) name.now → ⊥) }
{
    syms.find(name).is_none()
}

/// Whether no declared sort has the name.
fn names_no_sort(syms: &Symbols, name: &str) -> bool
    requires { IsName name.now }
    ensures { IsTrue result ↔ (Any (λ sort. sort.name ≡ name.now) syms.now.sorts → ⊥) }
{
    syms.find_sort(name).is_none()
}

/// Whether the text is a name that no symbol and no sort has.
fn is_free_name(syms: &Symbols, name: &str) -> bool
    ensures { IsTrue result ↔ IsName name.now × (IsTaken syms.now name.now → ⊥) }
{
    if !is_name(name) {
        return false;
    }
    names_no_symbol(syms, name) && names_no_sort(syms, name)
}

/// Whether the binder's name is a name that no symbol and no sort has, and its variable has a sort of
/// the table.
fn may_bind(syms: &Symbols, b: &Binder) -> bool
    ensures { IsTrue result ↔ MayBind syms.now b.now }
{
    is_free_name(syms, b.name.as_str()) && is_sort(syms, b.var.sort)
}

/// Whether each binder of the formula may be bound.
#[cycle(binders)]
pub(crate) fn binders_may_bind(syms: &Symbols, f: &QForm) -> bool
    ensures { IsTrue result ↔ All (MayBind syms.now) (binders_of f.now) }
{
    match f {
        QForm::True | QForm::False | QForm::Atom(_, _) | QForm::Equal(_, _) => true,
        QForm::Not(a) => binders_may_bind(syms, a.get()),
        QForm::And(all) | QForm::Or(all) => all_may_bind(syms, all.get().as_slice()),
        QForm::Implies(a, b) => binders_may_bind(syms, a.get()) && binders_may_bind(syms, b.get()),
        QForm::All(b, a) | QForm::Exists(b, a) => {
            may_bind(syms, b) && binders_may_bind(syms, a.get())
        }
    }
}

/// The same for the binders of the formulas.
#[cycle(binders)]
fn all_may_bind(syms: &Symbols, all: &[QForm]) -> bool
    ensures { IsTrue result ↔ All (λ f. All (MayBind syms.now) (binders_of f)) all.now }
{
    for f in all {
        if !binders_may_bind(syms, f) {
            return false;
        }
    }
    true
}

/// Whether the binder has another name.
fn has_other_name(name: &str, b: &Binder) -> bool
    ensures { IsTrue result ↔ (b.now.name ≢ name.now) }
{
    b.name.as_str() != name
}

/// Whether no quantifier of the formula binds this name.
#[cycle(unbound)]
fn is_unbound(name: &str, f: &QForm) -> bool
    ensures { IsTrue result ↔ IsUnbound name.now f.now }
{
    match f {
        QForm::True | QForm::False | QForm::Atom(_, _) | QForm::Equal(_, _) => true,
        QForm::Not(a) => is_unbound(name, a.get()),
        QForm::And(all) | QForm::Or(all) => is_unbound_in_all(name, all.get().as_slice()),
        QForm::Implies(a, b) => is_unbound(name, a.get()) && is_unbound(name, b.get()),
        QForm::All(b, a) | QForm::Exists(b, a) => {
            has_other_name(name, b) && is_unbound(name, a.get())
        }
    }
}

/// Whether no quantifier of the formulas binds this name.
#[cycle(unbound)]
fn is_unbound_in_all(name: &str, all: &[QForm]) -> bool
    ensures { IsTrue result ↔ All (IsUnbound name.now) all.now }
{
    for f in all {
        if !is_unbound(name, f) {
            return false;
        }
    }
    true
}

/// Whether no quantifier in the scope of another binds the same name again.
#[cycle(once)]
pub(crate) fn binds_once(f: &QForm) -> bool
    ensures { IsTrue result ↔ BindsOnce f.now }
{
    match f {
        QForm::True | QForm::False | QForm::Atom(_, _) | QForm::Equal(_, _) => true,
        QForm::Not(a) => binds_once(a.get()),
        QForm::And(all) | QForm::Or(all) => all_bind_once(all.get().as_slice()),
        QForm::Implies(a, b) => binds_once(a.get()) && binds_once(b.get()),
        QForm::All(b, a) | QForm::Exists(b, a) => {
            is_unbound(b.name.as_str(), a.get()) && binds_once(a.get())
        }
    }
}

/// The same for each of the formulas.
#[cycle(once)]
fn all_bind_once(all: &[QForm]) -> bool
    ensures { IsTrue result ↔ All BindsOnce all.now }
{
    for f in all {
        if !binds_once(f) {
            return false;
        }
    }
    true
}
