// Formulas with quantifiers that have none, as formulas without them. Terms are shared.
ghost use Rattle.std.specs.Prelude.{◌≡◌, map, IfOk, Some};
ghost use Rattle.std.specs.Option.{option_map};
ghost use Rattle.syn_form.specs.declared.trees.Form.TheVariants as variant;
ghost use Rattle.syn_form.specs.declared.trees.Form.TheViews as view;
ghost use Rattle.syn_form.specs.Lists.{all_there};
ghost use Rattle.syn_form.specs.Quantified.{unquantified};

use crate::definitions::both_shared;
use sqlite_items::Items;
use std::alloc::Global;
use syn_form::{Form, QForm};
use syn_term::{NoMemory, Shared, SymId, Term};

/// The atom of the same terms.
fn atom(r: SymId, args: &Shared<Items<Term>>) -> Result<Option<Form>, NoMemory>
    ensures { IfOk result (λ o. o ≡ Some (variant.Atom r args.now)) }
{
    match args.again() {
        Ok(args) => Ok(Some(Form::Atom(r, args))),
        Err(_) => Err(NoMemory),
    }
}

/// The equality of the same terms.
fn equality(s: &Term, t: &Term) -> Result<Option<Form>, NoMemory>
    ensures { IfOk result (λ o. o ≡ Some (variant.Equal s.now t.now)) }
{
    let s = s.again()?;
    match t.again() {
        Ok(t) => Ok(Some(Form::Equal(s, t))),
        Err(_) => {
            drop(s);
            Err(NoMemory)
        }
    }
}

/// The negation of the formula, where there is one.
fn negation(alloc: Global, a: Option<Form>) -> Result<Option<Form>, NoMemory>
    ensures { IfOk result (λ o. o ≡ option_map view.Not a) }
{
    match a {
        None => Ok(None),
        Some(a) => Ok(Some(Form::Not(Shared::new(alloc, a)?))),
    }
}

/// The `and` of the formulas, where they are there.
fn conjunction(alloc: Global, all: Option<Items<Form>>) -> Result<Option<Form>, NoMemory>
    ensures { IfOk result (λ o. o ≡ option_map view.And all) }
{
    match all {
        None => Ok(None),
        Some(all) => Ok(Some(Form::And(Shared::new(alloc, all)?))),
    }
}

/// The `or` of the formulas, where they are there.
fn disjunction(alloc: Global, all: Option<Items<Form>>) -> Result<Option<Form>, NoMemory>
    ensures { IfOk result (λ o. o ≡ option_map view.Or all) }
{
    match all {
        None => Ok(None),
        Some(all) => Ok(Some(Form::Or(Shared::new(alloc, all)?))),
    }
}

/// The implication from the first to the second.
fn implication(alloc: Global, a: Form, b: Form) -> Result<Option<Form>, NoMemory>
    ensures { IfOk result (λ o. o ≡ Some (view.Implies a b)) }
{
    match both_shared(alloc, a, b) {
        Ok((a, b)) => Ok(Some(Form::Implies(a, b))),
        Err(error) => Err(error),
    }
}

/// The same formula as one without quantifiers; None where it has one.
#[cycle(unquantified)]
pub(crate) fn without_quantifiers(alloc: Global, f: &QForm) -> Result<Option<Form>, NoMemory>
    ensures { IfOk result (λ o. o ≡ unquantified f.now) }
{
    match f {
        QForm::True => Ok(Some(Form::True)),
        QForm::False => Ok(Some(Form::False)),
        QForm::Atom(r, args) => atom(*r, args),
        QForm::Equal(s, t) => equality(s, t),
        QForm::Not(a) => negation_without(alloc, a.get()),
        QForm::And(all) => conjunction_without(alloc, all.get().as_slice()),
        QForm::Or(all) => disjunction_without(alloc, all.get().as_slice()),
        QForm::Implies(a, b) => match without_quantifiers(alloc, a.get())? {
            None => Ok(None),
            Some(a) => implication_without(alloc, b.get(), a),
        },
        QForm::All(_, _) | QForm::Exists(_, _) => Ok(None),
    }
}

/// The negation of the formula; None where that has a quantifier.
#[cycle(unquantified)]
fn negation_without(alloc: Global, a: &QForm) -> Result<Option<Form>, NoMemory>
    ensures { IfOk result (λ o. o ≡ option_map view.Not (unquantified a.now)) }
{
    negation(alloc, without_quantifiers(alloc, a)?)
}

/// The `and` of the formulas; None where one has a quantifier.
#[cycle(unquantified)]
fn conjunction_without(alloc: Global, all: &[QForm]) -> Result<Option<Form>, NoMemory>
    ensures { IfOk result (λ o. o ≡ option_map view.And (all_there (map unquantified all.now))) }
{
    conjunction(alloc, all_without(alloc, all)?)
}

/// The `or` of the formulas; None where one has a quantifier.
#[cycle(unquantified)]
fn disjunction_without(alloc: Global, all: &[QForm]) -> Result<Option<Form>, NoMemory>
    ensures { IfOk result (λ o. o ≡ option_map view.Or (all_there (map unquantified all.now))) }
{
    disjunction(alloc, all_without(alloc, all)?)
}

/// The implication from a formula without quantifiers to `b`; None where that has a quantifier.
#[cycle(unquantified)]
fn implication_without(alloc: Global, b: &QForm, a: Form) -> Result<Option<Form>, NoMemory>
    ensures { IfOk result (λ o. o ≡ option_map (view.Implies a) (unquantified b.now)) }
{
    match without_quantifiers(alloc, b) {
        Ok(Some(b)) => implication(alloc, a, b),
        Ok(None) => {
            drop(a);
            Ok(None)
        }
        Err(error) => {
            drop(a);
            Err(error)
        }
    }
}

/// The same for several; None where one has a quantifier.
#[cycle(unquantified)]
fn all_without(alloc: Global, all: &[QForm]) -> Result<Option<Items<Form>>, NoMemory>
    ensures { IfOk result (λ o. o ≡ all_there (map unquantified all.now)) }
{
    let mut parts = Items::new(alloc);
    for f in all {
        match without_quantifiers(alloc, f)? {
            None => return Ok(None),
            Some(part) => parts.push(part)?,
        }
    }
    Ok(Some(parts))
}
