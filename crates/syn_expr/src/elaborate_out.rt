// The formula without quantifiers, and the output, that a syntax tree stands for, made by a bank.
ghost use Rattle.std.specs.Prelude.{◌≡◌, ◌+◌, IfOk, IfSome};
ghost use Rattle.std.specs.Option.{option_map};
ghost use Rattle.syn_term.specs.Bank.{Extends, Kept};
ghost use Rattle.syn_form.specs.Elaboration as elaboration;
ghost use Rattle.syn_form.specs.Plain as plain;
ghost use Rattle.syn_form.specs.Trees.{bare_form, bare_out};
ghost use Rattle.syn_expr.specs.Belonging.{FormBelongs, OutBelongs};
ghost use Rattle.syn_expr.specs.Limits as limits;
ghost use Rattle.syn_expr.specs.inner.Elaborating.{bare_arms, both_there};
ghost use Rattle.syn_expr.specs.inner.Places.{spoken_at};
ghost use Rattle.syn_expr.specs.inner.Spending.{Spends};

use crate::elaborate_form::elaborate_form;
use crate::elaborate_term::elaborate_term;
use crate::names::Inside;
use crate::pairs::both_shared;
use crate::unquantified::without_quantifiers;
use std::alloc::Global;
use syn_form::{Form, FormSyntax, Out, OutSyntax, are_of_one_sort, given_sort};
use syn_term::{Bank, NoMemory, Shared, Sort, Symbols};

/// The formula without quantifiers that the syntax tree stands for; None where it stands for none.
/// The one error is want of memory, or of numbers for binders.
#[tactic(auto, using(crate::proofs::Owning::owning_outs, crate::proofs::Spending::spending))]
pub(crate) fn elaborate_plain(
    alloc: Global,
    bank: &mut Bank,
    place: &Inside,
    syntax: &FormSyntax,
) -> Result<Option<Form>, NoMemory>
    ensures tree { IfOk result (λ o. option_map bare_form o ≡ elaboration.elaborate_plain (spoken_at place.now) syntax.now) }
    ensures made { Spends bank.old bank.new (limits.form_cost syntax.now) }
    ensures extends { Extends bank.old bank.new }
    ensures belongs { IfOk result (λ o. IfSome o (FormBelongs bank.new)) }
{
    match elaborate_form(alloc, bank, place, 1, syntax)? {
        None => Ok(None),
        Some((f, _)) => {
            let plain = without_quantifiers(alloc, &f);
            drop(f);
            plain
        }
    }
}

/// The choice between two arms; None where they don't give terms of one sort. The one error is want
/// of memory.
#[tactic(auto, using(crate::proofs::Owning::owning_outs))]
fn choice(alloc: Global, syms: &Symbols, f: Form, u: Out, v: Out) -> Result<Option<Out>, NoMemory>
    ensures tree { IfOk result (λ o. option_map bare_out o ≡ elaboration.sorted_choice syms.now (bare_form f) (bare_out u) (bare_out v)) }
    ensures belongs { (b : Kept) → FormBelongs b f → OutBelongs b u → OutBelongs b v → IfOk result (λ o. IfSome o (OutBelongs b)) }
{
    if !are_of_one_sort(given_sort(syms, &u), given_sort(syms, &v)) {
        drop(f);
        drop(u);
        drop(v);
        return Ok(None);
    }
    match both_shared(alloc, u, v) {
        Ok((u, v)) => match Shared::new(alloc, f) {
            Ok(f) => Ok(Some(Out::If(f, u, v))),
            Err(_) => {
                drop(u);
                drop(v);
                Err(NoMemory)
            }
        },
        Err(error) => {
            drop(f);
            Err(error)
        }
    }
}

/// The output that the syntax tree stands for; None where a name isn't there, sorts don't fit or a
/// test has a quantifier. The one error is want of memory, or of numbers for binders.
#[cycle(outs)]
#[tactic(auto, using(crate::proofs::Owning::owning_outs, crate::proofs::Spending::spending))]
pub(crate) fn elaborate_out(
    alloc: Global,
    bank: &mut Bank,
    place: &Inside,
    syntax: &OutSyntax,
) -> Result<Option<Out>, NoMemory>
    ensures tree { IfOk result (λ o. option_map bare_out o ≡ elaboration.elaborate_out (spoken_at place.now) syntax.now) }
    ensures made { Spends bank.old bank.new (limits.out_cost syntax.now) }
    ensures extends { Extends bank.old bank.new }
    ensures belongs { IfOk result (λ o. IfSome o (OutBelongs bank.new)) }
{
    match syntax {
        OutSyntax::Give(t) => match elaborate_term(alloc, bank, place, t)? {
            None => Ok(None),
            Some(t) => Ok(Some(Out::Give(t))),
        },
        OutSyntax::If(f, u, v) => elaborate_choice(alloc, bank, place, f, u.get(), v.get()),
    }
}

/// The choice that a test and two arms stand for.
#[cycle(outs)]
#[tactic(auto, using(crate::proofs::Owning::owning_outs, crate::proofs::Spending::spending))]
fn elaborate_choice(
    alloc: Global,
    bank: &mut Bank,
    place: &Inside,
    f: &FormSyntax,
    u: &OutSyntax,
    v: &OutSyntax,
) -> Result<Option<Out>, NoMemory>
    ensures tree { IfOk result (λ o. option_map bare_out o ≡ elaboration.choice_tree (spoken_at place.now).table (elaboration.elaborate_plain (spoken_at place.now) f.now) (elaboration.elaborate_out (spoken_at place.now) u.now) (elaboration.elaborate_out (spoken_at place.now) v.now)) }
    ensures made { Spends bank.old bank.new (limits.form_cost f.now + (limits.out_cost u.now + limits.out_cost v.now)) }
    ensures extends { Extends bank.old bank.new }
    ensures belongs { IfOk result (λ o. IfSome o (OutBelongs bank.new)) }
{
    let Some(f) = elaborate_plain(alloc, bank, place, f)? else {
        return Ok(None);
    };
    match elaborate_arms(alloc, bank, place, u, v) {
        Ok(Some((u, v))) => choice(alloc, place.syms, f, u, v),
        Ok(None) => {
            drop(f);
            Ok(None)
        }
        Err(error) => {
            drop(f);
            Err(error)
        }
    }
}

/// The arms of a choice; None where one of them stands for no output.
#[cycle(outs)]
#[tactic(auto, using(crate::proofs::Owning::owning_outs, crate::proofs::Spending::spending))]
fn elaborate_arms(
    alloc: Global,
    bank: &mut Bank,
    place: &Inside,
    u: &OutSyntax,
    v: &OutSyntax,
) -> Result<Option<(Out, Out)>, NoMemory>
    ensures tree { IfOk result (λ o. option_map bare_arms o ≡ both_there (elaboration.elaborate_out (spoken_at place.now) u.now) (elaboration.elaborate_out (spoken_at place.now) v.now)) }
    ensures made { Spends bank.old bank.new (limits.out_cost u.now + limits.out_cost v.now) }
    ensures extends { Extends bank.old bank.new }
    ensures belongs { IfOk result (λ o. IfSome o (λ both. OutBelongs bank.new both.0 × OutBelongs bank.new both.1)) }
{
    let Some(u) = elaborate_out(alloc, bank, place, u)? else {
        return Ok(None);
    };
    match elaborate_out(alloc, bank, place, v) {
        Ok(Some(v)) => Ok(Some((u, v))),
        Ok(None) => {
            drop(u);
            Ok(None)
        }
        Err(error) => {
            drop(u);
            Err(error)
        }
    }
}
