// Instances of rows: formula and output with their variables replaced, where neither is too large for a step.
ghost use Rattle.std.specs.Prelude.{◌≡◌, [], All, IfOk, IfSome, MatchOption};
ghost use Rattle.std.specs.Option.{option_map, option_map_or};
ghost use Rattle.syn_term.specs.Bank.{Belongs, Extends};
ghost use Rattle.syn_form.specs.Plain.{IsFormed, IsFormedOut};
ghost use Rattle.syn_form.specs.Substitutions.{KeepsSorts, substituted_out};
ghost use Rattle.syn_form.specs.Trees.{bare_out, out_terms};
ghost use Rattle.syn_row.specs.Rows.{IsPlain, bare_row, row_terms, substituted_row};
ghost use Rattle.syn_unify.specs.Bindings.{BindsOwn};
ghost use Rattle.syn_resolve.specs.inner.Instances.{FitsOutput, FitsRow};
ghost use Rattle.syn_resolve.specs.inner.Resolving.{IsInstance, IsPair};

use std::alloc::Global;
use syn_form::Out;
use syn_row::Row;
use syn_term::{Bank, NoMemory, Symbols};
use syn_unify::{Subst, apply, apply_out};

/// The output with its variables replaced, where there is one; an inner None where there is none.
#[tactic(auto, using(crate::proofs::Growth::growth))]
fn output_instance(
    alloc: Global,
    bank: &mut Bank,
    syms: &Symbols,
    s: &Subst,
    out: &Option<Out>,
) -> Result<Option<Option<Out>>, NoMemory>
    requires keeps { KeepsSorts syms.now s.now }
    requires own { BindsOwn bank.old s.now }
    requires formed { IfSome out.now (IsFormedOut syms.now) }
    requires belongs { All (Belongs bank.old) (option_map_or out_terms out.now []) }
    ensures tree { IfOk result (λ r. MatchOption r (FitsOutput s.now out.now → ⊥) (λ o. option_map bare_out o ≡ option_map bare_out (option_map (substituted_out s.now) out.now))) }
    ensures formed { IfOk result (λ r. IfSome r (λ o. IfSome o (IsFormedOut syms.now))) }
    ensures extends { Extends bank.old bank.new }
    ensures belongs { IfOk result (λ r. IfSome r (λ o. All (Belongs bank.new) (option_map_or out_terms o []))) }
{
    match out {
        None => Ok(Some(None)),
        Some(out) => match apply_out(alloc, bank, syms, s, out) {
            Ok(Some(made)) => Ok(Some(Some(made))),
            Ok(None) => Ok(None),
            Err(error) => Err(error),
        },
    }
}

/// The row with its variables replaced; None only where what comes of its formula or its output is too large for a step.
#[tactic(auto, using(crate::proofs::Growth::growth))]
pub(crate) fn instance(
    alloc: Global,
    bank: &mut Bank,
    syms: &Symbols,
    s: &Subst,
    row: &Row,
) -> Result<Option<Row>, NoMemory>
    requires keeps { KeepsSorts syms.now s.now }
    requires own { BindsOwn bank.old s.now }
    requires plain { IsPlain syms.now row.now }
    requires belongs { All (Belongs bank.old) (row_terms row.now) }
    ensures tree { IfOk result (λ o. MatchOption o (FitsRow s.now row.now → ⊥) (λ q. bare_row q ≡ bare_row (substituted_row s.now row.now))) }
    ensures formed { IfOk result (λ o. IfSome o (λ q. IsFormed syms.now q.form × IfSome q.out (IsFormedOut syms.now))) }
    ensures extends { Extends bank.old bank.new }
    ensures belongs { IfOk result (λ o. IfSome o (λ q. All (Belongs bank.new) (row_terms q))) }
{
    let form = match apply(alloc, bank, syms, s, &row.form) {
        Ok(Some(form)) => form,
        Ok(None) => return Ok(None),
        Err(error) => return Err(error),
    };
    match output_instance(alloc, bank, syms, s, &row.out) {
        Ok(Some(out)) => Ok(Some(Row {
            side: row.side,
            form,
            out,
        })),
        Ok(None) => {
            drop(form);
            Ok(None)
        }
        Err(error) => {
            drop(form);
            Err(error)
        }
    }
}

/// The instances of both rows; None only where one of the two is too large for a step.
#[tactic(auto, using(crate::proofs::Growth::growth))]
pub(crate) fn both_instances(
    alloc: Global,
    bank: &mut Bank,
    syms: &Symbols,
    s: &Subst,
    first: &Row,
    second: &Row,
) -> Result<Option<(Row, Row)>, NoMemory>
    requires keeps { KeepsSorts syms.now s.now }
    requires own { BindsOwn bank.old s.now }
    requires pair { IsPair syms.now first.now second.now }
    requires first_own { All (Belongs bank.old) (row_terms first.now) }
    requires second_own { All (Belongs bank.old) (row_terms second.now) }
    ensures rows { IfOk result (λ o. MatchOption o (FitsRow s.now first.now × FitsRow s.now second.now → ⊥) (λ both. IsInstance syms.now s.now first.now both.0 × IsInstance syms.now s.now second.now both.1)) }
    ensures extends { Extends bank.old bank.new }
    ensures belongs { IfOk result (λ o. IfSome o (λ both. All (Belongs bank.new) (row_terms both.0) × All (Belongs bank.new) (row_terms both.1))) }
{
    let a = match instance(alloc, bank, syms, s, first) {
        Ok(Some(a)) => a,
        Ok(None) => return Ok(None),
        Err(error) => return Err(error),
    };
    match instance(alloc, bank, syms, s, second) {
        Ok(Some(b)) => Ok(Some((a, b))),
        Ok(None) => {
            drop(a);
            Ok(None)
        }
        Err(error) => {
            drop(a);
            Err(error)
        }
    }
}
