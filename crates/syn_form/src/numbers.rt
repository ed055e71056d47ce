// Formulas whose binders are numbered in order.
ghost use Rattle.std.specs.Prelude.{◌≡◌, ◌↔◌, ◌+◌, IsTrue, MatchOption, length};
ghost use Rattle.std.specs.List.{flat_map};
ghost use Rattle.syn_form.specs.PlainQuantified.{IsNumbered, binders_of};
ghost use Rattle.syn_form.specs.inner.BinderNumbers.{AreFrom};

use crate::trees::{Binder, QForm};

/// The number of the first binder of a formula.
const FIRST_NUMBER: u64 = 1;

/// The number after that of the binder, None where it has another number.
fn after_binder(b: &Binder, next: u64) -> Option<u64>
    ensures { MatchOption result (b.now.var.number ≡ next → ⊥) (λ n. (n ≡ next + 1) × (b.now.var.number ≡ next)) }
{
    if u64::from(b.var.number) == next {
        Some(next + 1)
    } else {
        None
    }
}

/// The number after those of the binders, where the first is the next number and they are in order;
/// None where they aren't.
#[cycle(numbers)]
fn after_qform(f: &QForm, next: u64) -> Option<u64>
    ensures { MatchOption result (AreFrom next (binders_of f.now) → ⊥) (λ n. (n ≡ next + length (binders_of f.now)) × AreFrom next (binders_of f.now)) }
{
    match f {
        QForm::True | QForm::False | QForm::Atom(_, _) | QForm::Equal(_, _) => Some(next),
        QForm::Not(a) => after_qform(a.get(), next),
        QForm::And(all) | QForm::Or(all) => after_qforms(all.get().as_slice(), next),
        QForm::Implies(a, b) => after_qform(b.get(), after_qform(a.get(), next)?),
        QForm::All(b, a) | QForm::Exists(b, a) => after_qform(a.get(), after_binder(b, next)?),
    }
}

/// The same for the binders of the formulas, one after another.
#[cycle(numbers)]
fn after_qforms(all: &[QForm], first: u64) -> Option<u64>
    ensures { MatchOption result (AreFrom first (flat_map binders_of all.now) → ⊥) (λ n. (n ≡ first + length (flat_map binders_of all.now)) × AreFrom first (flat_map binders_of all.now)) }
{
    let mut next = first;
    for f in all {
        next = after_qform(f, next)?;
    }
    Some(next)
}

/// Whether the numbers of the bound variables are 1, 2, 3 and so on, in the order of the binders.
pub(crate) fn is_numbered(f: &QForm) -> bool
    ensures { IsTrue result ↔ IsNumbered f.now }
{
    after_qform(f, FIRST_NUMBER).is_some()
}
