// Rows kept apart: a formula and maybe an output with the numbers of their variables so much higher.
ghost use Rattle.std.specs.Prelude.{◌≡◌, [], All, IfOk, IfSome};
ghost use Rattle.std.specs.Option.{option_copied, option_map, option_map_or};
ghost use Rattle.syn_term.specs.Bank.{Belongs, Extends};
ghost use Rattle.syn_form.specs.Plain.{IsFormed, IsFormedOut, IsPlainRow};
ghost use Rattle.syn_form.specs.Trees.{bare_form, bare_out, form_terms, form_vars, out_terms, out_vars};
ghost use Rattle.syn_unify.specs.Apart.{MayRaise, apart_form, apart_out, terms_of_both, vars_of_both};

use crate::changing::Change;
use crate::changing_forms::changed_form;
use crate::changing_outs::changed_out;
use std::alloc::Global;
use syn_form::{Form, Out};
use syn_term::{Bank, NoMemory, Symbols};

/// The formula with the numbers of its variables so much higher.
#[tactic(auto, using(crate::proofs::Growth::growth))]
fn apart_formula(
    alloc: Global,
    bank: &mut Bank,
    syms: &Symbols,
    f: &Form,
    by: u32,
) -> Result<Form, NoMemory>
    requires formed { IsFormed syms.now f.now }
    requires own { All (Belongs bank.old) (form_terms f.now) }
    requires room { MayRaise by (form_vars f.now) }
    ensures tree { IfOk result (λ g. bare_form g ≡ apart_form by f.now) }
    ensures extends { Extends bank.old bank.new }
    ensures belongs { IfOk result (λ g. All (Belongs bank.new) (form_terms g)) }
{
    changed_form(alloc, bank, syms, &Change::Raise(by), f)
}

/// The output with the numbers of its variables so much higher, where there is one.
#[tactic(auto, using(crate::proofs::Growth::growth))]
fn apart_output(
    alloc: Global,
    bank: &mut Bank,
    syms: &Symbols,
    out: Option<&Out>,
    by: u32,
) -> Result<Option<Out>, NoMemory>
    requires formed { IfSome (option_copied out) (IsFormedOut syms.now) }
    requires own { All (Belongs bank.old) (option_map_or out_terms (option_copied out) []) }
    requires room { MayRaise by (option_map_or out_vars (option_copied out) []) }
    ensures tree { IfOk result (λ o. option_map bare_out o ≡ option_map (apart_out by) (option_copied out.entry)) }
    ensures extends { Extends bank.old bank.new }
    ensures belongs { IfOk result (λ o. All (Belongs bank.new) (option_map_or out_terms o [])) }
{
    match out {
        None => Ok(None),
        Some(out) => match changed_out(alloc, bank, syms, &Change::Raise(by), out) {
            Ok(out) => Ok(Some(out)),
            Err(error) => Err(error),
        },
    }
}

/// A formula and maybe an output, those of one row, with `by` added to the number of each variable. No
/// number may pass the last one of its type.
///
/// They are plain together where the row is. Each term with variables is made anew by the bank, to which
/// all terms belong. The one error is `NoMemory`.
#[tactic(auto, using(crate::proofs::Growth::growth))]
pub fn apart(
    alloc: Global,
    bank: &mut Bank,
    syms: &Symbols,
    f: &Form,
    out: Option<&Out>,
    by: u32,
) -> Result<(Form, Option<Out>), NoMemory>
    requires plain { IsPlainRow syms.now f.now (option_copied out) }
    requires own { All (Belongs bank.old) (terms_of_both f.now (option_copied out)) }
    requires room { MayRaise by (vars_of_both f.now (option_copied out)) }
    ensures form { IfOk result (λ both. bare_form both.0 ≡ apart_form by f.now) }
    ensures out { IfOk result (λ both. option_map bare_out both.1 ≡ option_map (apart_out by) (option_copied out.entry)) }
    ensures plain { IfOk result (λ both. IsPlainRow syms.now both.0 both.1) }
    ensures extends { Extends bank.old bank.new }
    ensures belongs { IfOk result (λ both. All (Belongs bank.new) (terms_of_both both.0 both.1)) }
{
    let form = apart_formula(alloc, bank, syms, f, by)?;
    match apart_output(alloc, bank, syms, out, by) {
        Ok(out) => Ok((form, out)),
        Err(error) => {
            drop(form);
            Err(error)
        }
    }
}
