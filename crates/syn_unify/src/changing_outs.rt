// Outputs whose variables become terms.
ghost use Rattle.std.specs.Prelude.{◌≡◌, ◌≤◌, ◌+◌, All, IfOk};
ghost use Rattle.syn_term.specs.Bank.{Belongs, Extends};
ghost use Rattle.syn_form.specs.declared.trees.Out.TheViews as out_views;
ghost use Rattle.syn_form.specs.Plain.{IsFormed, IsFormedOut};
ghost use Rattle.syn_form.specs.Trees.{bare_out, form_terms, out_terms};
ghost use Rattle.syn_unify.specs.Bindings.{remade_in_form, remade_in_out};
ghost use Rattle.syn_unify.specs.inner.Changes.{HoldsSorts, IsOwn, becomes, cost};
ghost use Rattle.syn_unify.specs.inner.Forms.{form_under, out_under};

use crate::changing::{Change, whole_term};
use crate::changing_forms::changed_form;
use crate::making::choice_of;
use std::alloc::Global;
use syn_form::{Form, Out};
use syn_term::{Bank, NoMemory, Symbols};

/// The output with its variables changed.
#[cycle(outs)]
#[tactic(auto, using(crate::proofs::Growth::growth))]
pub(crate) fn changed_out(
    alloc: Global,
    bank: &mut Bank,
    syms: &Symbols,
    change: &Change<'_>,
    o: &Out,
) -> Result<Out, NoMemory>
    requires sorts { HoldsSorts syms.now (becomes change.now) }
    requires held { IsOwn bank.old change.now }
    requires formed { IsFormedOut syms.now o.now }
    requires own { All (Belongs bank.old) (out_terms o.now) }
    ensures tree { IfOk result (λ p. bare_out p ≡ out_under (becomes change.now) o.now) }
    ensures made { bank.new.made ≤ bank.old.made + remade_in_out (cost change.now) o.now }
    ensures extends { Extends bank.old bank.new }
    ensures belongs { IfOk result (λ p. All (Belongs bank.new) (out_terms p)) }
{
    match o {
        Out::Give(t) => match whole_term(alloc, bank, syms, change, t) {
            Ok(t) => Ok(Out::Give(t)),
            Err(error) => Err(error),
        },
        Out::If(f, u, v) => changed_choice(alloc, bank, syms, change, f.get(), u.get(), v.get()),
    }
}

/// The choice with its variables changed.
#[cycle(outs)]
#[tactic(auto, using(crate::proofs::Growth::growth))]
fn changed_choice(
    alloc: Global,
    bank: &mut Bank,
    syms: &Symbols,
    change: &Change<'_>,
    f: &Form,
    u: &Out,
    v: &Out,
) -> Result<Out, NoMemory>
    requires sorts { HoldsSorts syms.now (becomes change.now) }
    requires held { IsOwn bank.old change.now }
    requires test { IsFormed syms.now f.now }
    requires first { IsFormedOut syms.now u.now }
    requires second { IsFormedOut syms.now v.now }
    requires own_test { All (Belongs bank.old) (form_terms f.now) }
    requires own_first { All (Belongs bank.old) (out_terms u.now) }
    requires own_second { All (Belongs bank.old) (out_terms v.now) }
    ensures tree { IfOk result (λ p. bare_out p ≡ out_views.If (form_under (becomes change.now) f.now) (out_under (becomes change.now) u.now) (out_under (becomes change.now) v.now)) }
    ensures made { bank.new.made ≤ bank.old.made + (remade_in_form (cost change.now) f.now + (remade_in_out (cost change.now) u.now + remade_in_out (cost change.now) v.now)) }
    ensures extends { Extends bank.old bank.new }
    ensures belongs { IfOk result (λ p. All (Belongs bank.new) (out_terms p)) }
{
    let f = changed_form(alloc, bank, syms, change, f)?;
    match changed_arms(alloc, bank, syms, change, u, v) {
        Ok((u, v)) => choice_of(alloc, f, u, v),
        Err(error) => {
            drop(f);
            Err(error)
        }
    }
}

/// Both outputs with their variables changed.
#[cycle(outs)]
#[tactic(auto, using(crate::proofs::Growth::growth))]
fn changed_arms(
    alloc: Global,
    bank: &mut Bank,
    syms: &Symbols,
    change: &Change<'_>,
    u: &Out,
    v: &Out,
) -> Result<(Out, Out), NoMemory>
    requires sorts { HoldsSorts syms.now (becomes change.now) }
    requires held { IsOwn bank.old change.now }
    requires first { IsFormedOut syms.now u.now }
    requires second { IsFormedOut syms.now v.now }
    requires own_first { All (Belongs bank.old) (out_terms u.now) }
    requires own_second { All (Belongs bank.old) (out_terms v.now) }
    ensures first { IfOk result (λ both. bare_out both.0 ≡ out_under (becomes change.now) u.now) }
    ensures second { IfOk result (λ both. bare_out both.1 ≡ out_under (becomes change.now) v.now) }
    ensures made { bank.new.made ≤ bank.old.made + (remade_in_out (cost change.now) u.now + remade_in_out (cost change.now) v.now) }
    ensures extends { Extends bank.old bank.new }
    ensures belongs { IfOk result (λ both. All (Belongs bank.new) (out_terms both.0) × All (Belongs bank.new) (out_terms both.1)) }
{
    let u = changed_out(alloc, bank, syms, change, u)?;
    match changed_out(alloc, bank, syms, change, v) {
        Ok(v) => Ok((u, v)),
        Err(error) => {
            drop(u);
            Err(error)
        }
    }
}
