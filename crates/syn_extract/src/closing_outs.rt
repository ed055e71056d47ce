// Outputs with each variable replaced by the default term of its sort.
ghost use Rattle.std.specs.Prelude.{◌≡◌, IfOk};
ghost use Rattle.syn_term.specs.Bank.{Extends};
ghost use Rattle.syn_form.specs.declared.trees.Out.TheViews as out_views;
ghost use Rattle.syn_form.specs.Plain.{IsFormed, IsFormedOut};
ghost use Rattle.syn_form.specs.Trees.{bare_out};
ghost use Rattle.syn_extract.specs.Final.{closed_out};
ghost use Rattle.syn_extract.specs.inner.ClosedForms.{closed_form};

use crate::closing::close_term;
use crate::closing_forms::close_form;
use crate::making::choice_of;
use std::alloc::Global;
use syn_form::{Form, Out};
use syn_term::{Bank, NoMemory, Symbols};

/// The output with each variable replaced by the default term of its sort.
#[cycle(outs)]
#[tactic(auto, using(crate::proofs::ClosedTerms::growth))]
pub(crate) fn close_out(
    alloc: Global,
    bank: &mut Bank,
    syms: &Symbols,
    o: &Out,
) -> Result<Out, NoMemory>
    requires formed { IsFormedOut syms.now o.now }
    ensures tree { IfOk result (λ p. bare_out p ≡ closed_out syms.now o.now) }
    ensures extends { Extends bank.old bank.new }
{
    match o {
        Out::Give(t) => match close_term(alloc, bank, syms, t) {
            Ok(t) => Ok(Out::Give(t)),
            Err(error) => Err(error),
        },
        Out::If(f, u, v) => close_choice(alloc, bank, syms, f.get(), u.get(), v.get()),
    }
}

/// The choice with its variables replaced.
#[cycle(outs)]
#[tactic(auto, using(crate::proofs::ClosedTerms::growth))]
fn close_choice(
    alloc: Global,
    bank: &mut Bank,
    syms: &Symbols,
    f: &Form,
    u: &Out,
    v: &Out,
) -> Result<Out, NoMemory>
    requires test { IsFormed syms.now f.now }
    requires first { IsFormedOut syms.now u.now }
    requires second { IsFormedOut syms.now v.now }
    ensures tree { IfOk result (λ p. bare_out p ≡ out_views.If (closed_form syms.now f.now) (closed_out syms.now u.now) (closed_out syms.now v.now)) }
    ensures extends { Extends bank.old bank.new }
{
    let f = close_form(alloc, bank, syms, f)?;
    match close_arms(alloc, bank, syms, u, v) {
        Ok((u, v)) => choice_of(alloc, f, u, v),
        Err(error) => {
            drop(f);
            Err(error)
        }
    }
}

/// Both outputs with their variables replaced.
#[cycle(outs)]
#[tactic(auto, using(crate::proofs::ClosedTerms::growth))]
fn close_arms(
    alloc: Global,
    bank: &mut Bank,
    syms: &Symbols,
    u: &Out,
    v: &Out,
) -> Result<(Out, Out), NoMemory>
    requires first { IsFormedOut syms.now u.now }
    requires second { IsFormedOut syms.now v.now }
    ensures first { IfOk result (λ both. bare_out both.0 ≡ closed_out syms.now u.now) }
    ensures second { IfOk result (λ both. bare_out both.1 ≡ closed_out syms.now v.now) }
    ensures extends { Extends bank.old bank.new }
{
    let u = close_out(alloc, bank, syms, u)?;
    match close_out(alloc, bank, syms, v) {
        Ok(v) => Ok((u, v)),
        Err(error) => {
            drop(u);
            Err(error)
        }
    }
}
