// Axioms: whether one may follow other declarations.
ghost use Rattle.std.specs.Prelude.{◌≡◌, ◌≢◌, ◌↔◌, [], All, IfOk, IsTrue};
ghost use Rattle.syn_form.specs.PlainQuantified.{binders_of};
ghost use Rattle.syn_form.specs.Quantified.{free_vars};
ghost use Rattle.syn_model.specs.Declaring.{IsOtherwiseFree, MayAxiom};

use crate::closed::is_closed;
use crate::naming::is_new_name;
use crate::theory::Theory;
use std::alloc::Global;
use syn_form::{Binder, QForm, is_plain_qform};
use syn_term::NoMemory;

/// Whether the binder has another name than this, and than axioms and monotonicity rows have.
fn has_new_name(theory: &Theory, name: &str, b: &Binder) -> bool
    ensures { IsTrue result ↔ IsOtherwiseFree (theory.now).decls b.now.name × (b.now.name ≢ name.now) }
{
    !theory.has_other(b.name.as_str()) && b.name.as_str() != name
}

/// The same for each binder of the formula.
#[cycle(binders)]
pub(crate) fn binds_new_names(theory: &Theory, name: &str, f: &QForm) -> bool
    ensures { IsTrue result ↔ All (λ b. IsOtherwiseFree (theory.now).decls b.name × (b.name ≢ name.now)) (binders_of f.now) }
{
    match f {
        QForm::True | QForm::False | QForm::Atom(_, _) | QForm::Equal(_, _) => true,
        QForm::Not(a) => binds_new_names(theory, name, a.get()),
        QForm::And(all) | QForm::Or(all) => bind_new_names(theory, name, all.get().as_slice()),
        QForm::Implies(a, b) => {
            binds_new_names(theory, name, a.get()) && binds_new_names(theory, name, b.get())
        }
        QForm::All(b, a) | QForm::Exists(b, a) => {
            has_new_name(theory, name, b) && binds_new_names(theory, name, a.get())
        }
    }
}

/// The same for the binders of the formulas.
#[cycle(binders)]
fn bind_new_names(theory: &Theory, name: &str, all: &[QForm]) -> bool
    ensures { IsTrue result ↔ All (λ f. All (λ b. IsOtherwiseFree (theory.now).decls b.name × (b.name ≢ name.now)) (binders_of f)) all.now }
{
    for f in all {
        if !binds_new_names(theory, name, f) {
            return false;
        }
    }
    true
}

/// Whether the formula has no free variables, and each of its binders has a new name.
fn is_closed_over_new_names(theory: &Theory, name: &str, form: &QForm) -> bool
    ensures { IsTrue result ↔ (free_vars form.now ≡ []) × All (λ b. IsOtherwiseFree (theory.now).decls b.name × (b.name ≢ name.now)) (binders_of form.now) }
{
    is_closed(form) && binds_new_names(theory, name, form)
}

/// Whether the axiom may follow the declarations. The one error is want of memory.
pub(crate) fn may_axiom(
    alloc: Global,
    theory: &Theory,
    name: &str,
    form: &QForm,
) -> Result<bool, NoMemory>
    ensures { IfOk result (λ b. IsTrue b ↔ MayAxiom (theory.now).decls name.now form.now) }
{
    if !is_new_name(theory, name) {
        return Ok(false);
    }
    if !is_closed_over_new_names(theory, name, form) {
        return Ok(false);
    }
    is_plain_qform(alloc, theory.symbols(), form)
}
