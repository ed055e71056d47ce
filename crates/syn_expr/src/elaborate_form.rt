// The formula that a syntax tree stands for, made by a bank. A binder's name is in scope of what is
// read inside: it stands on the stack of the calls.
ghost use Rattle.std.specs.Prelude.{◌≡◌, ◌+◌, ◌*◌, All, map, sum, IfOk, IfSome};
ghost use Rattle.std.specs.Option.{option_map};
ghost use Rattle.syn_term.specs.Bank.{Extends};
ghost use Rattle.syn_form.specs.Elaboration as elaboration;
ghost use Rattle.syn_form.specs.Elaboration.{and_then, in_turn, mapped, nested, quantified_reading, two_ways};
ghost use Rattle.syn_form.specs.declared.trees.QForm.TheViews as view;
ghost use Rattle.syn_expr.specs.Belonging.{QFormBelongs};
ghost use Rattle.syn_expr.specs.inner.Elaborating.{bare_reading, bare_readings};
ghost use Rattle.syn_expr.specs.Limits as limits;
ghost use Rattle.syn_expr.specs.inner.Places.{spoken_at};
ghost use Rattle.syn_expr.specs.inner.Spending.{Spends};

use crate::form_parts::{
    bound, conjunction, disjunction, implied, negated, numbered_binder, steady_atom,
    steady_equality, steady_false, steady_true, with_back,
};
use crate::names::{Inside, within};
use sqlite_items::{Boxed, Items};
use std::alloc::Global;
use syn_form::{BinderSyntax, FormSyntax, QForm, Quantifier};
use syn_term::{Bank, NoMemory};

/// The formula that the syntax tree stands for, and the number of the next binder; None where a name
/// isn't there or may not be bound, or sorts don't fit. The binders are numbered from `next` on. The
/// one error is want of memory, or of numbers.
#[cycle(forms)]
#[tactic(auto, using(crate::proofs::Owning::owning, crate::proofs::Spending::spending))]
pub(crate) fn elaborate_form(
    alloc: Global,
    bank: &mut Bank,
    place: &Inside,
    next: u32,
    syntax: &FormSyntax,
) -> Result<Option<(QForm, u32)>, NoMemory>
    ensures tree { IfOk result (λ o. option_map bare_reading o ≡ elaboration.elaborate_form syntax.now (spoken_at place.now) next) }
    ensures made { Spends bank.old bank.new (limits.form_cost syntax.now) }
    ensures extends { Extends bank.old bank.new }
    ensures belongs { IfOk result (λ o. IfSome o (λ r. QFormBelongs bank.new r.0)) }
{
    match syntax {
        FormSyntax::True => steady_true(next),
        FormSyntax::False => steady_false(next),
        FormSyntax::Atom(name, args) => steady_atom(alloc, bank, place, next, name, args),
        FormSyntax::Equal(s, t) => steady_equality(alloc, bank, place, next, s, t),
        FormSyntax::Not(a) => negation(alloc, bank, place, next, a),
        FormSyntax::And(all) => members_and(alloc, bank, place, next, all),
        FormSyntax::Or(all) => members_or(alloc, bank, place, next, all),
        FormSyntax::Implies(a, b) => implication(alloc, bank, place, next, a, b),
        FormSyntax::BothWays(a, b) => both_ways(alloc, bank, place, next, a, b),
        FormSyntax::Quantified(quantifier, binders, a) => {
            under_quantifier(alloc, bank, place, next, *quantifier, binders, a)
        }
    }
}

/// The negation of the formula.
#[cycle(forms)]
#[tactic(auto, using(crate::proofs::Owning::owning, crate::proofs::Spending::spending))]
fn negation(
    alloc: Global,
    bank: &mut Bank,
    place: &Inside,
    next: u32,
    a: &Boxed<FormSyntax>,
) -> Result<Option<(QForm, u32)>, NoMemory>
    ensures tree { IfOk result (λ o. option_map bare_reading o ≡ mapped view.Not (elaboration.elaborate_form a.now) (spoken_at place.now) next) }
    ensures made { Spends bank.old bank.new (limits.form_cost a.now) }
    ensures extends { Extends bank.old bank.new }
    ensures belongs { IfOk result (λ o. IfSome o (λ r. QFormBelongs bank.new r.0)) }
{
    match elaborate_form(alloc, bank, place, next, a.get()) {
        Ok(read) => negated(alloc, read),
        Err(error) => Err(error),
    }
}

/// The `and` of the formulas.
#[cycle(forms)]
#[tactic(auto, using(crate::proofs::Owning::owning, crate::proofs::Spending::spending))]
fn members_and(
    alloc: Global,
    bank: &mut Bank,
    place: &Inside,
    next: u32,
    all: &Items<FormSyntax>,
) -> Result<Option<(QForm, u32)>, NoMemory>
    ensures tree { IfOk result (λ o. option_map bare_reading o ≡ mapped view.And (in_turn (map elaboration.elaborate_form all.now)) (spoken_at place.now) next) }
    ensures made { Spends bank.old bank.new (sum (map limits.form_cost all.now)) }
    ensures extends { Extends bank.old bank.new }
    ensures belongs { IfOk result (λ o. IfSome o (λ r. QFormBelongs bank.new r.0)) }
{
    match elaborate_forms(alloc, bank, place, next, all.as_slice()) {
        Ok(read) => conjunction(alloc, read),
        Err(error) => Err(error),
    }
}

/// The `or` of the formulas.
#[cycle(forms)]
#[tactic(auto, using(crate::proofs::Owning::owning, crate::proofs::Spending::spending))]
fn members_or(
    alloc: Global,
    bank: &mut Bank,
    place: &Inside,
    next: u32,
    all: &Items<FormSyntax>,
) -> Result<Option<(QForm, u32)>, NoMemory>
    ensures tree { IfOk result (λ o. option_map bare_reading o ≡ mapped view.Or (in_turn (map elaboration.elaborate_form all.now)) (spoken_at place.now) next) }
    ensures made { Spends bank.old bank.new (sum (map limits.form_cost all.now)) }
    ensures extends { Extends bank.old bank.new }
    ensures belongs { IfOk result (λ o. IfSome o (λ r. QFormBelongs bank.new r.0)) }
{
    match elaborate_forms(alloc, bank, place, next, all.as_slice()) {
        Ok(read) => disjunction(alloc, read),
        Err(error) => Err(error),
    }
}

/// The formulas that the syntax trees stand for, one after the other.
#[cycle(forms)]
#[tactic(auto, using(crate::proofs::Owning::owning, crate::proofs::Spending::spending))]
fn elaborate_forms(
    alloc: Global,
    bank: &mut Bank,
    place: &Inside,
    next: u32,
    all: &[FormSyntax],
) -> Result<Option<(Items<QForm>, u32)>, NoMemory>
    ensures tree { IfOk result (λ o. option_map bare_readings o ≡ in_turn (map elaboration.elaborate_form all.now) (spoken_at place.now) next) }
    ensures made { Spends bank.old bank.new (sum (map limits.form_cost all.now)) }
    ensures extends { Extends bank.old bank.new }
    ensures belongs { IfOk result (λ o. IfSome o (λ r. All (QFormBelongs bank.new) r.0)) }
{
    let mut parts = Items::new(alloc);
    let mut after = next;
    for syntax in all {
        match elaborate_form(alloc, bank, place, after, syntax) {
            Ok(Some((part, last))) => match parts.push(part) {
                Ok(()) => after = last,
                Err(_) => return Err(NoMemory),
            },
            Ok(None) => return Ok(None),
            Err(error) => return Err(error),
        }
    }
    Ok(Some((parts, after)))
}

/// The implication from the first to the second.
#[cycle(forms)]
#[tactic(auto, using(crate::proofs::Owning::owning, crate::proofs::Spending::spending))]
fn implication(
    alloc: Global,
    bank: &mut Bank,
    place: &Inside,
    next: u32,
    a: &Boxed<FormSyntax>,
    b: &Boxed<FormSyntax>,
) -> Result<Option<(QForm, u32)>, NoMemory>
    ensures tree { IfOk result (λ o. option_map bare_reading o ≡ and_then view.Implies (elaboration.elaborate_form a.now) (elaboration.elaborate_form b.now) (spoken_at place.now) next) }
    ensures made { Spends bank.old bank.new (limits.form_cost a.now + limits.form_cost b.now) }
    ensures extends { Extends bank.old bank.new }
    ensures belongs { IfOk result (λ o. IfSome o (λ r. QFormBelongs bank.new r.0)) }
{
    let Some((left, after)) = elaborate_form(alloc, bank, place, next, a.get())? else {
        return Ok(None);
    };
    match elaborate_form(alloc, bank, place, after, b.get()) {
        Ok(read) => implied(alloc, left, read),
        Err(error) => {
            drop(left);
            Err(error)
        }
    }
}

/// The implications both ways, each with binders of its own; rows have none.
#[cycle(forms)]
#[tactic(auto, using(crate::proofs::Owning::owning, crate::proofs::Spending::spending))]
fn both_ways(
    alloc: Global,
    bank: &mut Bank,
    place: &Inside,
    next: u32,
    a: &Boxed<FormSyntax>,
    b: &Boxed<FormSyntax>,
) -> Result<Option<(QForm, u32)>, NoMemory>
    ensures tree { IfOk result (λ o. option_map bare_reading o ≡ two_ways (elaboration.elaborate_form a.now) (elaboration.elaborate_form b.now) (spoken_at place.now) next) }
    ensures made { Spends bank.old bank.new (2 * (limits.form_cost a.now + limits.form_cost b.now)) }
    ensures extends { Extends bank.old bank.new }
    ensures belongs { IfOk result (λ o. IfSome o (λ r. QFormBelongs bank.new r.0)) }
{
    if place.rows {
        return Ok(None);
    }
    let Some((there, after)) = implication(alloc, bank, place, next, a, b)? else {
        return Ok(None);
    };
    match implication(alloc, bank, place, after, b, a) {
        Ok(read) => with_back(alloc, there, read),
        Err(error) => {
            drop(there);
            Err(error)
        }
    }
}

/// The formula under a quantifier with its binders; None where there are none.
#[cycle(forms)]
#[tactic(auto, using(crate::proofs::Owning::owning, crate::proofs::Spending::spending))]
fn under_quantifier(
    alloc: Global,
    bank: &mut Bank,
    place: &Inside,
    next: u32,
    quantifier: Quantifier,
    binders: &Items<BinderSyntax>,
    a: &Boxed<FormSyntax>,
) -> Result<Option<(QForm, u32)>, NoMemory>
    ensures tree { IfOk result (λ o. option_map bare_reading o ≡ quantified_reading quantifier binders.now (elaboration.elaborate_form a.now) (spoken_at place.now) next) }
    ensures made { Spends bank.old bank.new (limits.form_cost a.now) }
    ensures extends { Extends bank.old bank.new }
    ensures belongs { IfOk result (λ o. IfSome o (λ r. QFormBelongs bank.new r.0)) }
{
    if binders.is_empty() {
        return Ok(None);
    }
    quantified(
        alloc,
        bank,
        place,
        next,
        quantifier,
        binders.as_slice(),
        a.get(),
    )
}

/// The formula under quantifiers, one for each binder, the first the outermost.
#[cycle(forms)]
#[tactic(auto, using(crate::proofs::Owning::owning, crate::proofs::Spending::spending))]
fn quantified(
    alloc: Global,
    bank: &mut Bank,
    place: &Inside,
    next: u32,
    quantifier: Quantifier,
    binders: &[BinderSyntax],
    a: &FormSyntax,
) -> Result<Option<(QForm, u32)>, NoMemory>
    ensures tree { IfOk result (λ o. option_map bare_reading o ≡ nested quantifier binders.now (elaboration.elaborate_form a.now) (spoken_at place.now) next) }
    ensures made { Spends bank.old bank.new (limits.form_cost a.now) }
    ensures extends { Extends bank.old bank.new }
    ensures belongs { IfOk result (λ o. IfSome o (λ r. QFormBelongs bank.new r.0)) }
{
    match binders {
        [] => elaborate_form(alloc, bank, place, next, a),
        [binder, rest @ ..] => {
            match numbered_binder(alloc, place, next, binder) {
                Ok(Some((binder, after))) => {
                    let place = within(&*place, &binder);
                    match quantified(alloc, bank, &place, after, quantifier, rest, a) {
                        Ok(read) => bound(alloc, quantifier, binder, read),
                        Err(error) => {
                            drop(binder);
                            Err(error)
                        }
                    }
                }
                Ok(None) => Ok(None),
                Err(error) => Err(error),
            }
        }
    }
}
