// A formula with quantifiers once more.
ghost use Rattle.std.specs.Prelude.{◌≡◌, IfOk};
ghost use Rattle.syn_form.specs.declared.trees.QForm.TheVariants as variants;
ghost use Rattle.syn_form.specs.declared.trees.QForm.TheViews as views;

use crate::form::both_again;
use crate::trees::{Binder, QForm};
use syn_term::{NoMemory, Shared, Term};

impl Binder {
    /// The same binder once more, its name in memory of its own.
    pub fn again(&self) -> Result<Binder, NoMemory>
        ensures { IfOk result (λ b. b ≡ self.now) }
    {
        let var = self.var;
        let name = self.name.again()?;
        Ok(Binder { var, name })
    }
}

impl QForm {
    /// The same formula once more. All its parts are shared; the name of a quantifier at the top is
    /// copied. The one error, NoMemory, is that there is no room for it, or that a pointer's count of
    /// owners is at its end.
    pub fn again(&self) -> Result<QForm, NoMemory>
        ensures { IfOk result (λ g. g ≡ self.now) }
    {
        match self {
            QForm::True => Ok(QForm::True),
            QForm::False => Ok(QForm::False),
            QForm::Atom(r, args) => match args.again() {
                Ok(args) => Ok(QForm::Atom(*r, args)),
                Err(_) => Err(NoMemory),
            },
            QForm::Equal(s, t) => equality_again(s, t),
            QForm::Not(a) => match a.again() {
                Ok(a) => Ok(QForm::Not(a)),
                Err(_) => Err(NoMemory),
            },
            QForm::Implies(a, b) => implication_again(a, b),
            QForm::And(all) => match all.again() {
                Ok(all) => Ok(QForm::And(all)),
                Err(_) => Err(NoMemory),
            },
            QForm::Or(all) => match all.again() {
                Ok(all) => Ok(QForm::Or(all)),
                Err(_) => Err(NoMemory),
            },
            QForm::All(b, a) => all_again(b, a),
            QForm::Exists(b, a) => exists_again(b, a),
        }
    }
}

fn equality_again(s: &Term, t: &Term) -> Result<QForm, NoMemory>
    ensures { IfOk result (λ g. g ≡ variants.Equal s.now t.now) }
{
    match both_again(s, t) {
        Ok((s, t)) => Ok(QForm::Equal(s, t)),
        Err(error) => Err(error),
    }
}

fn implication_again(a: &Shared<QForm>, b: &Shared<QForm>) -> Result<QForm, NoMemory>
    ensures { IfOk result (λ g. g ≡ views.Implies a.now b.now) }
{
    match both_again(a, b) {
        Ok((a, b)) => Ok(QForm::Implies(a, b)),
        Err(error) => Err(error),
    }
}

/// The binder and what stands under it once more.
fn bound_again(b: &Binder, a: &Shared<QForm>) -> Result<(Binder, Shared<QForm>), NoMemory>
    ensures { IfOk result (λ both. (both.0 ≡ b.now) × (both.1 ≡ a.now)) }
{
    match a.again() {
        Err(_) => Err(NoMemory),
        Ok(a) => match b.again() {
            Ok(b) => Ok((b, a)),
            Err(error) => {
                drop(a);
                Err(error)
            }
        },
    }
}

fn all_again(b: &Binder, a: &Shared<QForm>) -> Result<QForm, NoMemory>
    ensures { IfOk result (λ g. g ≡ views.All b.now a.now) }
{
    match bound_again(b, a) {
        Ok((b, a)) => Ok(QForm::All(b, a)),
        Err(error) => Err(error),
    }
}

fn exists_again(b: &Binder, a: &Shared<QForm>) -> Result<QForm, NoMemory>
    ensures { IfOk result (λ g. g ≡ views.Exists b.now a.now) }
{
    match bound_again(b, a) {
        Ok((b, a)) => Ok(QForm::Exists(b, a)),
        Err(error) => Err(error),
    }
}
