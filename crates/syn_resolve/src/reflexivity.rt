// Reflexivity: an equality whose sides are made one.
ghost use Rattle.std.specs.Prelude.{◌≡◌, All, IfOk, IfSome, MatchOption};
ghost use Rattle.std.specs.Option.{option_copied};
ghost use Rattle.syn_term.specs.Bank.{Belongs, Extends};
ghost use Rattle.syn_form.specs.Plain.{IsFormed, IsFormedOut};
ghost use Rattle.syn_form.specs.Substitutions.{KeepsSorts};
ghost use Rattle.syn_row.specs.Guards.{IsGuardRule, RuleBelongs};
ghost use Rattle.syn_row.specs.Results.{out_list};
ghost use Rattle.syn_row.specs.Rows.{IsPlain, IsSimplified, IsWithinRow, RowTree, bare_row, row_terms, row_vars, substituted_row};
ghost use Rattle.syn_unify.specs.Bindings.{BindsOwn};
ghost use Rattle.syn_resolve.specs.Resolution.{ReflexGives, reflexed};
ghost use Rattle.syn_resolve.specs.inner.Reflexing.{AreBoundAmong, FigureGives, guarded_figure, row_with_guards};

use crate::brought::brought_guards;
use crate::equality::equality_at;
use crate::instance::instance;
use crate::splitting::under;
use std::alloc::Global;
use syn_form::{Form, Out};
use syn_row::{GuardRule, Row, Weighed, given, guarded};
use syn_term::{Bank, NoMemory, Pos, Symbols};
use syn_unify::{Subst, unify_terms};

/// The row's output, as a list of one or none.
fn outputs(row: &Row) -> &[Out]
    ensures { result.now ≡ out_list (row.now).out }
{
    row.out.as_slice()
}

/// The row with the guards joined to its formula.
fn guarded_row(alloc: Global, row: &Row, guards: &[Form]) -> Result<Row, NoMemory>
    ensures { IfOk result (λ r. r ≡ row_with_guards row.now guards.now) }
{
    let form = guarded(alloc, row.side, row.form.again()?, guards)?;
    under(row, row.side, form)
}

/// The row that is given of a row and guards.
#[tactic(auto, using(crate::proofs::Growth::growth))]
fn given_with(
    alloc: Global,
    bank: &mut Bank,
    syms: &Symbols,
    row: &Row,
    guards: &[Form],
) -> Result<Option<Row>, NoMemory>
    requires plain { IsPlain syms.now (row_with_guards row.now guards.now) }
    requires own { All (Belongs bank.old) (row_terms (row_with_guards row.now guards.now)) }
    ensures row { IfOk result (FigureGives (guarded_figure row.now guards.now)) }
    ensures extends { Extends bank.old bank.new }
    ensures belongs { IfOk result (λ o. IfSome o (λ q. All (Belongs bank.new) (row_terms q))) }
    ensures plain { IfOk result (λ o. IfSome o (IsPlain syms.now)) }
    ensures simplified { IfOk result (λ o. IfSome o IsSimplified) }
    ensures within { IfOk result (λ o. IfSome o IsWithinRow) }
{
    let under = guarded_row(alloc, row, guards)?;
    let step = Weighed {
        forms: std::slice::from_ref(&row.form),
        outs: outputs(row),
        guards,
    };
    let made = given(alloc, bank, syms, step, &under);
    drop(under);
    made
}

/// The row that is given of the row's instance and the guards that the substitution brings.
#[tactic(auto, using(crate::proofs::Growth::growth))]
fn reflexed_instance(
    alloc: Global,
    bank: &mut Bank,
    syms: &Symbols,
    rule: Option<&GuardRule>,
    s: &Subst,
    row: &Row,
    instance: &Row,
) -> Result<Option<Row>, NoMemory>
    requires rule { IfSome (option_copied rule) (IsGuardRule syms.now) }
    requires rule_own { IfSome (option_copied rule) (RuleBelongs bank.old) }
    requires keeps { KeepsSorts syms.now s.now }
    requires own { BindsOwn bank.old s.now }
    requires among { AreBoundAmong (row_vars row.now) s.now }
    requires plain { IsPlain syms.now row.now }
    requires instance { bare_row instance.now ≡ bare_row (substituted_row s.now row.now) }
    requires formed { IsFormed syms.now (instance.now).form × IfSome (instance.now).out (IsFormedOut syms.now) }
    requires belongs { All (Belongs bank.old) (row_terms instance.now) }
    ensures row { IfOk result (FigureGives (reflexed (option_copied rule.entry) s.now row.now)) }
    ensures extends { Extends bank.old bank.new }
    ensures belongs { IfOk result (λ o. IfSome o (λ q. All (Belongs bank.new) (row_terms q))) }
    ensures plain { IfOk result (λ o. IfSome o (IsPlain syms.now)) }
    ensures simplified { IfOk result (λ o. IfSome o IsSimplified) }
    ensures within { IfOk result (λ o. IfSome o IsWithinRow) }
{
    let guards = brought_guards(alloc, bank, syms, rule, s, outputs(row))?;
    let made = given_with(alloc, bank, syms, instance, guards.as_slice());
    drop(guards);
    made
}

/// The row that is given by this unifier.
#[tactic(auto, using(crate::proofs::Growth::growth))]
fn reflexed_by(
    alloc: Global,
    bank: &mut Bank,
    syms: &Symbols,
    rule: Option<&GuardRule>,
    s: &Subst,
    row: &Row,
) -> Result<Option<Row>, NoMemory>
    requires rule { IfSome (option_copied rule) (IsGuardRule syms.now) }
    requires rule_own { IfSome (option_copied rule) (RuleBelongs bank.old) }
    requires keeps { KeepsSorts syms.now s.now }
    requires own { BindsOwn bank.old s.now }
    requires among { AreBoundAmong (row_vars row.now) s.now }
    requires plain { IsPlain syms.now row.now }
    requires belongs { All (Belongs bank.old) (row_terms row.now) }
    ensures row { IfOk result (FigureGives (reflexed (option_copied rule.entry) s.now row.now)) }
    ensures extends { Extends bank.old bank.new }
    ensures belongs { IfOk result (λ o. IfSome o (λ q. All (Belongs bank.new) (row_terms q))) }
    ensures plain { IfOk result (λ o. IfSome o (IsPlain syms.now)) }
    ensures simplified { IfOk result (λ o. IfSome o IsSimplified) }
    ensures within { IfOk result (λ o. IfSome o IsWithinRow) }
{
    match instance(alloc, bank, syms, s, row) {
        Ok(Some(instance)) => {
            let made = reflexed_instance(alloc, bank, syms, rule, s, row, &instance);
            drop(instance);
            made
        }
        Ok(None) => Ok(None),
        Err(error) => Err(error),
    }
}

/// The row that reflexivity gives at the equality that stands at this position. The rule is one of Manna and Waldinger
/// (1980, 1992): a most general unifier of the equality's two sides is put into the whole row, so that the equality becomes
/// `true` once the row is simplified. Of a goal F with the output u comes the goal `F and` the guards, of an assertion the
/// assertion `F or not` each guard, where a guard stands for each program call that the unifier brings into u; without a
/// guard rule there are none. What is answered is the canonical row of it, and every most general unifier gives the same.
///
/// None exactly where no equality stands at the position, no substitution that keeps sorts makes its sides one, the step has
/// more than 65,536 nodes or a part deeper than 2,400, or what comes of the row passes the limit of a row. The bank may have
/// made nodes then. The one error is `NoMemory`.
#[tactic(auto, using(crate::proofs::Growth::growth))]
pub fn reflex(
    alloc: Global,
    bank: &mut Bank,
    syms: &Symbols,
    rule: Option<&GuardRule>,
    row: &Row,
    at: &Pos,
) -> Result<Option<Row>, NoMemory>
    requires rule { IfSome (option_copied rule) (IsGuardRule syms.now) }
    requires rule_own { IfSome (option_copied rule) (RuleBelongs bank.old) }
    requires plain { IsPlain syms.now row.now }
    requires own { All (Belongs bank.old) (row_terms row.now) }
    ensures row { IfOk result (λ o. MatchOption o ((q : RowTree) → ReflexGives syms.now (option_copied rule.entry) row.now at.now q → ⊥) (λ q. ReflexGives syms.now (option_copied rule.entry) row.now at.now q)) }
    ensures extends { Extends bank.old bank.new }
    ensures belongs { IfOk result (λ o. IfSome o (λ q. All (Belongs bank.new) (row_terms q))) }
    ensures plain { IfOk result (λ o. IfSome o (IsPlain syms.now)) }
    ensures simplified { IfOk result (λ o. IfSome o IsSimplified) }
    ensures within { IfOk result (λ o. IfSome o IsWithinRow) }
{
    let (left, right) = match equality_at(&row.form, at) {
        None => return Ok(None),
        Some(sides) => sides,
    };
    match unify_terms(alloc, bank, syms, left, right) {
        Ok(Some(unifier)) => {
            let made = reflexed_by(alloc, bank, syms, rule, &unifier, row);
            drop(unifier);
            made
        }
        Ok(None) => Ok(None),
        Err(error) => Err(error),
    }
}
