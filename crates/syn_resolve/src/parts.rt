// The parts of two rows, and their unifier.
ghost use Rattle.std.specs.Prelude.{◌≡◌, ◌++◌, List, All, IfOk, IfSome, MatchOption, OnOk};
ghost use Rattle.syn_term.specs.Bank.{Belongs, Extends};
ghost use Rattle.syn_form.specs.Substitutions.{KeepsSorts, Substitution, UnifiesForms};
ghost use Rattle.syn_form.specs.Trees.{FormTree};
ghost use Rattle.syn_row.specs.Rows.{IsPlain, row_terms};
ghost use Rattle.syn_unify.specs.Bindings.{BindsOwn};
ghost use Rattle.syn_resolve.specs.Resolution.{AreAt};
ghost use Rattle.syn_resolve.specs.inner.Resolving.{PartsOfBoth, UnifiesParts};

use crate::positions::formulas_at;
use sqlite_items::Items;
use std::alloc::Global;
use syn_form::Form;
use syn_row::Row;
use syn_term::{Bank, NoMemory, Pos, Symbols};
use syn_unify::{Subst, unify_forms};

/// Appends the formulas.
fn put_forms(forms: &[Form], parts: &mut Items<Form>) -> Result<(), NoMemory>
    ensures { OnOk result (parts.new ≡ parts.old ++ forms.now) }
{
    for form in forms {
        parts.push(form.again()?)?;
    }
    Ok(())
}

/// The parts, and those of the second formula behind them. None where the second has none at the positions.
fn with_parts(
    alloc: Global,
    mut parts: Items<Form>,
    form: &Form,
    positions: &[Pos],
) -> Result<Option<Items<Form>>, NoMemory>
    ensures { IfOk result (λ o. MatchOption o ((gs : List FormTree) → AreAt positions.now form.now gs → ⊥) (λ all. (gs : List FormTree) × AreAt positions.now form.now gs × (all ≡ parts ++ gs))) }
{
    match formulas_at(alloc, form, positions) {
        Ok(Some(more)) => {
            let put = put_forms(more.as_slice(), &mut parts);
            drop(more);
            match put {
                Ok(()) => Ok(Some(parts)),
                Err(error) => {
                    drop(parts);
                    Err(error)
                }
            }
        }
        Ok(None) => {
            drop(parts);
            Ok(None)
        }
        Err(error) => {
            drop(parts);
            Err(error)
        }
    }
}

/// The parts of both formulas, one after another. None exactly where one of the two has none at the positions.
fn both_parts(
    alloc: Global,
    f: &Form,
    ps: &[Pos],
    g: &Form,
    qs: &[Pos],
) -> Result<Option<Items<Form>>, NoMemory>
    ensures { IfOk result (λ o. MatchOption o ((fs gs : List FormTree) → AreAt ps.now f.now fs → AreAt qs.now g.now gs → ⊥) (PartsOfBoth ps.now qs.now f.now g.now)) }
{
    match formulas_at(alloc, f, ps) {
        Ok(Some(parts)) => with_parts(alloc, parts, g, qs),
        Ok(None) => Ok(None),
        Err(error) => Err(error),
    }
}

/// A most general unifier of the parts of both rows. None exactly where one of the two has none at the positions, or none makes
/// them one.
#[tactic(auto, using(crate::proofs::Growth::growth))]
pub(crate) fn parts_unifier(
    alloc: Global,
    bank: &mut Bank,
    syms: &Symbols,
    first: &Row,
    ps: &[Pos],
    second: &Row,
    qs: &[Pos],
) -> Result<Option<Subst>, NoMemory>
    requires plain_first { IsPlain syms.now first.now }
    requires plain_second { IsPlain syms.now second.now }
    requires own_first { All (Belongs bank.old) (row_terms first.now) }
    requires own_second { All (Belongs bank.old) (row_terms second.now) }
    ensures unifier { IfOk result (λ o. MatchOption o ((fs gs : List FormTree) → AreAt ps.now (first.now).form fs → AreAt qs.now (second.now).form gs → (τ : Substitution) → KeepsSorts syms.now τ → UnifiesForms (fs ++ gs) τ → ⊥) (λ s. UnifiesParts syms.now ps.now qs.now first.now second.now s)) }
    ensures extends { Extends bank.old bank.new }
    ensures own { IfOk result (λ o. IfSome o (BindsOwn bank.new)) }
{
    match both_parts(alloc, &first.form, ps, &second.form, qs) {
        Ok(Some(parts)) => {
            let made = unify_forms(alloc, bank, syms, parts.as_slice());
            drop(parts);
            made
        }
        Ok(None) => Ok(None),
        Err(error) => Err(error),
    }
}
