// Formulas and outputs of parts that are there.
ghost use Rattle.std.specs.Prelude.{◌≡◌, IfOk};
ghost use Rattle.syn_form.specs.declared.trees.Form.TheViews as views;
ghost use Rattle.syn_form.specs.declared.trees.Out.TheViews as out_views;

use sqlite_items::Items;
use std::alloc::Global;
use syn_form::{Form, Out};
use syn_term::{NoMemory, Shared};

/// `not a`.
pub(crate) fn negation_of(alloc: Global, a: Form) -> Result<Form, NoMemory>
    ensures { IfOk result (λ g. g ≡ views.Not a) }
{
    match Shared::new(alloc, a) {
        Ok(a) => Ok(Form::Not(a)),
        Err(_) => Err(NoMemory),
    }
}

/// The `and` of the formulas.
pub(crate) fn conjunction_of(alloc: Global, all: Items<Form>) -> Result<Form, NoMemory>
    ensures { IfOk result (λ g. g ≡ views.And all) }
{
    match Shared::new(alloc, all) {
        Ok(all) => Ok(Form::And(all)),
        Err(_) => Err(NoMemory),
    }
}

/// The `or` of the formulas.
pub(crate) fn disjunction_of(alloc: Global, all: Items<Form>) -> Result<Form, NoMemory>
    ensures { IfOk result (λ g. g ≡ views.Or all) }
{
    match Shared::new(alloc, all) {
        Ok(all) => Ok(Form::Or(all)),
        Err(_) => Err(NoMemory),
    }
}

/// `a -> b`.
pub(crate) fn implication_of(alloc: Global, a: Form, b: Form) -> Result<Form, NoMemory>
    ensures { IfOk result (λ g. g ≡ views.Implies a b) }
{
    match both_shared(alloc, a, b) {
        Ok((a, b)) => Ok(Form::Implies(a, b)),
        Err(error) => Err(error),
    }
}

/// The two behind pointers.
fn both_shared<T: Drop>(alloc: Global, a: T, b: T) -> Result<(Shared<T>, Shared<T>), NoMemory>
    ensures { IfOk result (λ both. (both.0 ≡ a) × (both.1 ≡ b)) }
{
    match Shared::new(alloc, a) {
        Err(_) => {
            drop(b);
            Err(NoMemory)
        }
        Ok(a) => match Shared::new(alloc, b) {
            Ok(b) => Ok((a, b)),
            Err(_) => {
                drop(a);
                Err(NoMemory)
            }
        },
    }
}

/// `if f then u else v`.
pub(crate) fn choice_of(alloc: Global, f: Form, u: Out, v: Out) -> Result<Out, NoMemory>
    ensures { IfOk result (λ p. p ≡ out_views.If f u v) }
{
    match both_shared(alloc, u, v) {
        Ok((u, v)) => match Shared::new(alloc, f) {
            Ok(f) => Ok(Out::If(f, u, v)),
            Err(_) => {
                drop(u);
                drop(v);
                Err(NoMemory)
            }
        },
        Err(error) => {
            drop(f);
            Err(error)
        }
    }
}
