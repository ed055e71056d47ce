// The tree that a syntax tree is taken for. What it will have is counted before anything is made, and
// past a limit nothing is.
ghost use Rattle.std.specs.Prelude.{◌≡◌, ◌≤◌, ◌+◌, ◌↔◌, IfOk, IfSome, IsTrue, MatchOption};
ghost use Rattle.syn_term.specs.Bank.{Belongs, Extends};
ghost use Rattle.syn_term.specs.Terms.{bare};
ghost use Rattle.syn_form.specs.Plain.{HasOneSortEach};
ghost use Rattle.syn_form.specs.Quantified.{bare_qform, qform_vars};
ghost use Rattle.syn_form.specs.Trees.{bare_form, bare_out, form_vars, out_vars, term_vars};
ghost use Rattle.syn_expr.specs.inner.Accepting.{IfSorted, Taken, TakesForm, TakesOut, TakesQForm, TakesTerm, limit_of};
ghost use Rattle.syn_expr.specs.Belonging.{FormBelongs, OutBelongs, QFormBelongs};
ghost use Rattle.syn_expr.specs.Limits as limits;
ghost use Rattle.syn_expr.specs.Limits.{IsPast};
ghost use Rattle.syn_expr.specs.Scopes.{spoken};
ghost use Rattle.syn_expr.specs.inner.Spending.{Spends};

use crate::elaborate_form::elaborate_form;
use crate::elaborate_out::{elaborate_out, elaborate_plain};
use crate::elaborate_term::elaborate_term;
use crate::limits::{form_cost, form_levels, out_cost, out_levels, term_cost, term_levels};
use crate::names::outside;
use crate::scope::Scope;
use std::alloc::Global;
use syn_form::{
    Form, FormSyntax, Out, OutSyntax, QForm, TermSyntax, form_has_one_sort_each,
    out_has_one_sort_each, qform_has_one_sort_each, term_has_one_sort_each,
};
use syn_term::{Bank, NoMemory, Term};

/// Whether a term of the syntax tree would have at most so many nodes, and be at most so deep.
fn term_fits(syntax: &TermSyntax, nodes: u32, depth: u32) -> bool
    ensures { IsTrue result ↔ (limits.term_cost syntax.now ≤ nodes) × (limits.term_levels syntax.now ≤ depth) }
{
    term_cost(syntax, nodes) <= u64::from(nodes) && term_levels(syntax, depth) <= u64::from(depth)
}

/// The same for a formula.
fn form_fits(syntax: &FormSyntax, nodes: u32, depth: u32) -> bool
    ensures { IsTrue result ↔ (limits.form_cost syntax.now ≤ nodes) × (limits.form_levels syntax.now ≤ depth) }
{
    form_cost(syntax, nodes) <= u64::from(nodes) && form_levels(syntax, depth) <= u64::from(depth)
}

/// The same for an output.
fn out_fits(syntax: &OutSyntax, nodes: u32, depth: u32) -> bool
    ensures { IsTrue result ↔ (limits.out_cost syntax.now ≤ nodes) × (limits.out_levels syntax.now ≤ depth) }
{
    out_cost(syntax, nodes) <= u64::from(nodes) && out_levels(syntax, depth) <= u64::from(depth)
}

/// The term, where no number has two sorts in it.
fn sorted_term(alloc: Global, t: Term) -> Result<Option<Term>, NoMemory>
    ensures { IfOk result (IfSorted term_vars t) }
{
    match term_has_one_sort_each(alloc, &t) {
        Ok(true) => Ok(Some(t)),
        Ok(false) => {
            drop(t);
            Ok(None)
        }
        Err(error) => {
            drop(t);
            Err(error)
        }
    }
}

/// The same where what was counted is within the limit.
#[tactic(auto, using(crate::proofs::Growth::growth))]
fn fitting_term(
    alloc: Global,
    bank: &mut Bank,
    scope: &Scope,
    syntax: &TermSyntax,
    nodes: u32,
    depth: u32,
) -> Result<Option<Term>, NoMemory>
    requires { (limits.term_cost syntax.now ≤ nodes) × (limits.term_levels syntax.now ≤ depth) }
    ensures tree { IfOk result (Taken bare (TakesTerm (limit_of nodes depth) (spoken scope.now) syntax.now)) }
    ensures made { Spends bank.old bank.new (limits.term_cost syntax.now) }
    ensures extends { Extends bank.old bank.new }
    ensures belongs { IfOk result (λ o. IfSome o (Belongs bank.new)) }
{
    match elaborate_term(alloc, bank, &outside(scope), syntax)? {
        None => Ok(None),
        Some(t) => sorted_term(alloc, t),
    }
}

/// The term that the syntax tree is taken for; None where it stands for none, one that is too large
/// or too deep, or one in which a number has two sorts. The one error is want of memory.
#[tactic(auto, using(crate::proofs::Growth::growth))]
pub(crate) fn taken_term(
    alloc: Global,
    bank: &mut Bank,
    scope: &Scope,
    syntax: &TermSyntax,
    nodes: u32,
    depth: u32,
) -> Result<Option<Term>, NoMemory>
    ensures tree { IfOk result (Taken bare (TakesTerm (limit_of nodes depth) (spoken scope.now) syntax.now)) }
    ensures past { IsPast (limit_of nodes depth) (limits.term_cost syntax.now) (limits.term_levels syntax.now) → bank.new ≡ bank.old }
    ensures made { bank.new.made ≤ bank.old.made + nodes }
    ensures extends { Extends bank.old bank.new }
    ensures belongs { IfOk result (λ o. IfSome o (Belongs bank.new)) }
{
    if term_fits(syntax, nodes, depth) {
        fitting_term(alloc, bank, scope, syntax, nodes, depth)
    } else {
        Ok(None)
    }
}

/// The formula, where no number has two sorts in it.
fn sorted_form(alloc: Global, f: Form) -> Result<Option<Form>, NoMemory>
    ensures { IfOk result (IfSorted form_vars f) }
{
    match form_has_one_sort_each(alloc, &f) {
        Ok(true) => Ok(Some(f)),
        Ok(false) => {
            drop(f);
            Ok(None)
        }
        Err(error) => {
            drop(f);
            Err(error)
        }
    }
}

/// The same where what was counted is within the limit.
#[tactic(auto, using(crate::proofs::Growth::growth))]
fn fitting_form(
    alloc: Global,
    bank: &mut Bank,
    scope: &Scope,
    syntax: &FormSyntax,
    nodes: u32,
    depth: u32,
) -> Result<Option<Form>, NoMemory>
    requires { (limits.form_cost syntax.now ≤ nodes) × (limits.form_levels syntax.now ≤ depth) }
    ensures tree { IfOk result (Taken bare_form (TakesForm (limit_of nodes depth) (spoken scope.now) syntax.now)) }
    ensures made { Spends bank.old bank.new (limits.form_cost syntax.now) }
    ensures extends { Extends bank.old bank.new }
    ensures belongs { IfOk result (λ o. IfSome o (FormBelongs bank.new)) }
{
    match elaborate_plain(alloc, bank, &outside(scope), syntax)? {
        None => Ok(None),
        Some(f) => sorted_form(alloc, f),
    }
}

/// The formula without quantifiers that the syntax tree is taken for, with the same refusals, and
/// where it has a quantifier. The one error is want of memory.
#[tactic(auto, using(crate::proofs::Growth::growth))]
pub(crate) fn taken_form(
    alloc: Global,
    bank: &mut Bank,
    scope: &Scope,
    syntax: &FormSyntax,
    nodes: u32,
    depth: u32,
) -> Result<Option<Form>, NoMemory>
    ensures tree { IfOk result (Taken bare_form (TakesForm (limit_of nodes depth) (spoken scope.now) syntax.now)) }
    ensures past { IsPast (limit_of nodes depth) (limits.form_cost syntax.now) (limits.form_levels syntax.now) → bank.new ≡ bank.old }
    ensures made { bank.new.made ≤ bank.old.made + nodes }
    ensures extends { Extends bank.old bank.new }
    ensures belongs { IfOk result (λ o. IfSome o (FormBelongs bank.new)) }
{
    if form_fits(syntax, nodes, depth) {
        fitting_form(alloc, bank, scope, syntax, nodes, depth)
    } else {
        Ok(None)
    }
}

/// The formula, where no number has two sorts in it.
fn sorted_qform(alloc: Global, f: QForm) -> Result<Option<QForm>, NoMemory>
    ensures { IfOk result (IfSorted qform_vars f) }
{
    match qform_has_one_sort_each(alloc, &f) {
        Ok(true) => Ok(Some(f)),
        Ok(false) => {
            drop(f);
            Ok(None)
        }
        Err(error) => {
            drop(f);
            Err(error)
        }
    }
}

/// The same where what was counted is within the limit.
#[tactic(auto, using(crate::proofs::Growth::growth))]
fn fitting_qform(
    alloc: Global,
    bank: &mut Bank,
    scope: &Scope,
    syntax: &FormSyntax,
    nodes: u32,
    depth: u32,
) -> Result<Option<QForm>, NoMemory>
    requires { (limits.form_cost syntax.now ≤ nodes) × (limits.form_levels syntax.now ≤ depth) }
    ensures tree { IfOk result (Taken bare_qform (TakesQForm (limit_of nodes depth) (spoken scope.now) syntax.now)) }
    ensures made { Spends bank.old bank.new (limits.form_cost syntax.now) }
    ensures extends { Extends bank.old bank.new }
    ensures belongs { IfOk result (λ o. IfSome o (QFormBelongs bank.new)) }
{
    match elaborate_form(alloc, bank, &outside(scope), 1, syntax)? {
        None => Ok(None),
        Some((f, _)) => sorted_qform(alloc, f),
    }
}

/// The formula that the syntax tree is taken for, with the same refusals. The one error is want of
/// memory.
#[tactic(auto, using(crate::proofs::Growth::growth))]
pub(crate) fn taken_qform(
    alloc: Global,
    bank: &mut Bank,
    scope: &Scope,
    syntax: &FormSyntax,
    nodes: u32,
    depth: u32,
) -> Result<Option<QForm>, NoMemory>
    ensures tree { IfOk result (Taken bare_qform (TakesQForm (limit_of nodes depth) (spoken scope.now) syntax.now)) }
    ensures past { IsPast (limit_of nodes depth) (limits.form_cost syntax.now) (limits.form_levels syntax.now) → bank.new ≡ bank.old }
    ensures made { bank.new.made ≤ bank.old.made + nodes }
    ensures extends { Extends bank.old bank.new }
    ensures belongs { IfOk result (λ o. IfSome o (QFormBelongs bank.new)) }
{
    if form_fits(syntax, nodes, depth) {
        fitting_qform(alloc, bank, scope, syntax, nodes, depth)
    } else {
        Ok(None)
    }
}

/// The output, where no number has two sorts in it.
fn sorted_out(alloc: Global, o: Out) -> Result<Option<Out>, NoMemory>
    ensures { IfOk result (IfSorted out_vars o) }
{
    match out_has_one_sort_each(alloc, &o) {
        Ok(true) => Ok(Some(o)),
        Ok(false) => {
            drop(o);
            Ok(None)
        }
        Err(error) => {
            drop(o);
            Err(error)
        }
    }
}

/// The same where what was counted is within the limit.
#[tactic(auto, using(crate::proofs::Growth::growth))]
fn fitting_out(
    alloc: Global,
    bank: &mut Bank,
    scope: &Scope,
    syntax: &OutSyntax,
    nodes: u32,
    depth: u32,
) -> Result<Option<Out>, NoMemory>
    requires { (limits.out_cost syntax.now ≤ nodes) × (limits.out_levels syntax.now ≤ depth) }
    ensures tree { IfOk result (Taken bare_out (TakesOut (limit_of nodes depth) (spoken scope.now) syntax.now)) }
    ensures made { Spends bank.old bank.new (limits.out_cost syntax.now) }
    ensures extends { Extends bank.old bank.new }
    ensures belongs { IfOk result (λ o. IfSome o (OutBelongs bank.new)) }
{
    match elaborate_out(alloc, bank, &outside(scope), syntax)? {
        None => Ok(None),
        Some(o) => sorted_out(alloc, o),
    }
}

/// The output that the syntax tree is taken for, with the same refusals, and where its arms give
/// terms of two sorts. The one error is want of memory.
#[tactic(auto, using(crate::proofs::Growth::growth))]
pub(crate) fn taken_out(
    alloc: Global,
    bank: &mut Bank,
    scope: &Scope,
    syntax: &OutSyntax,
    nodes: u32,
    depth: u32,
) -> Result<Option<Out>, NoMemory>
    ensures tree { IfOk result (Taken bare_out (TakesOut (limit_of nodes depth) (spoken scope.now) syntax.now)) }
    ensures past { IsPast (limit_of nodes depth) (limits.out_cost syntax.now) (limits.out_levels syntax.now) → bank.new ≡ bank.old }
    ensures made { bank.new.made ≤ bank.old.made + nodes }
    ensures extends { Extends bank.old bank.new }
    ensures belongs { IfOk result (λ o. IfSome o (OutBelongs bank.new)) }
{
    if out_fits(syntax, nodes, depth) {
        fitting_out(alloc, bank, scope, syntax, nodes, depth)
    } else {
        Ok(None)
    }
}
