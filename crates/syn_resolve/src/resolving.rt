// Nonclausal resolution: parts of two rows are made one formula, which is replaced in both.
ghost use Rattle.std.specs.Prelude.{◌++◌, All, Contains, IfOk, IfSome, MatchOption};
ghost use Rattle.std.specs.Option.{option_copied};
ghost use Rattle.syn_term.specs.Bank.{Belongs, Extends};
ghost use Rattle.syn_term.specs.declared.sorts.Var.{Var};
ghost use Rattle.syn_form.specs.Plain.{IsFormed};
ghost use Rattle.syn_form.specs.Substitutions.{KeepsSorts};
ghost use Rattle.syn_form.specs.Trees.{form_terms, form_vars};
ghost use Rattle.syn_row.specs.Guards.{IsGuardRule, RuleBelongs};
ghost use Rattle.syn_row.specs.JoinLaws.{GiveOneSort};
ghost use Rattle.syn_row.specs.Rows.{IsPlain, IsSimplified, IsWithinRow, RowTree, row_terms, row_vars};
ghost use Rattle.syn_unify.specs.Bindings.{BindsOwn};
ghost use Rattle.syn_resolve.specs.Resolution.{ResolveGives, resolved};
ghost use Rattle.syn_resolve.specs.inner.Reflexing.{AreBoundAmong, FigureGives};
ghost use Rattle.syn_resolve.specs.inner.Resolving.{ApartGives, HasPart, IsInstance, IsPair, PartGives, UnifiesParts};

use crate::instance::both_instances;
use crate::joining::given_of_both;
use crate::joint::joint_guards;
use crate::parts::parts_unifier;
use crate::positions::formula_at;
use crate::sizes::are_small;
use std::alloc::Global;
use syn_form::Form;
use syn_row::{GuardRule, Row, kept_apart};
use syn_term::{Bank, NoMemory, Pos, Symbols};
use syn_unify::Subst;

/// The row that is given of the instances of both rows, whose parts are this formula, and the guards.
#[tactic(auto, using(crate::proofs::Growth::growth))]
fn resolved_instances(
    alloc: Global,
    bank: &mut Bank,
    syms: &Symbols,
    rule: Option<&GuardRule>,
    s: &Subst,
    p: &Form,
    first: &Row,
    second: &Row,
    a: &Row,
    b: &Row,
) -> Result<Option<Row>, NoMemory>
    requires rule { IfSome (option_copied rule) (IsGuardRule syms.now) }
    requires rule_own { IfSome (option_copied rule) (RuleBelongs bank.old) }
    requires keeps { KeepsSorts syms.now s.now }
    requires own { BindsOwn bank.old s.now }
    requires pair { IsPair syms.now first.now second.now }
    requires among { AreBoundAmong (row_vars first.now ++ row_vars second.now) s.now }
    requires first_instance { IsInstance syms.now s.now first.now a.now }
    requires second_instance { IsInstance syms.now s.now second.now b.now }
    requires first_own { All (Belongs bank.old) (row_terms a.now) }
    requires second_own { All (Belongs bank.old) (row_terms b.now) }
    requires formed { IsFormed syms.now p.now }
    requires part_own { All (Belongs bank.old) (form_terms p.now) }
    requires part_among { (w : Var) → Contains (form_vars p.now) w → Contains (row_vars first.now ++ row_vars second.now) w }
    ensures row { IfOk result (FigureGives (resolved (option_copied rule.entry) s.now p.now first.now second.now)) }
    ensures extends { Extends bank.old bank.new }
    ensures belongs { IfOk result (λ o. IfSome o (λ q. All (Belongs bank.new) (row_terms q))) }
    ensures plain { IfOk result (λ o. IfSome o (IsPlain syms.now)) }
    ensures simplified { IfOk result (λ o. IfSome o IsSimplified) }
    ensures within { IfOk result (λ o. IfSome o IsWithinRow) }
{
    let guards = joint_guards(alloc, bank, syms, rule, s, p, first, second)?;
    let made = given_of_both(alloc, bank, syms, p, a, b, guards.as_slice());
    drop(guards);
    made
}

/// The same, where the formula stands in the first instance.
#[tactic(auto, using(crate::proofs::Growth::growth))]
fn resolved_at(
    alloc: Global,
    bank: &mut Bank,
    syms: &Symbols,
    rule: Option<&GuardRule>,
    s: &Subst,
    at: &Pos,
    first: &Row,
    second: &Row,
    a: &Row,
    b: &Row,
) -> Result<Option<Row>, NoMemory>
    requires rule { IfSome (option_copied rule) (IsGuardRule syms.now) }
    requires rule_own { IfSome (option_copied rule) (RuleBelongs bank.old) }
    requires keeps { KeepsSorts syms.now s.now }
    requires own { BindsOwn bank.old s.now }
    requires pair { IsPair syms.now first.now second.now }
    requires among { AreBoundAmong (row_vars first.now ++ row_vars second.now) s.now }
    requires there { HasPart at.now (first.now).form }
    requires first_instance { IsInstance syms.now s.now first.now a.now }
    requires second_instance { IsInstance syms.now s.now second.now b.now }
    requires first_own { All (Belongs bank.old) (row_terms a.now) }
    requires second_own { All (Belongs bank.old) (row_terms b.now) }
    ensures row { IfOk result (PartGives (option_copied rule.entry) s.now at.now first.now second.now) }
    ensures extends { Extends bank.old bank.new }
    ensures belongs { IfOk result (λ o. IfSome o (λ q. All (Belongs bank.new) (row_terms q))) }
    ensures plain { IfOk result (λ o. IfSome o (IsPlain syms.now)) }
    ensures simplified { IfOk result (λ o. IfSome o IsSimplified) }
    ensures within { IfOk result (λ o. IfSome o IsWithinRow) }
{
    match formula_at(&a.form, at) {
        Some(p) => resolved_instances(alloc, bank, syms, rule, s, p, first, second, a, b),
        None => unreachable!(),
    }
}

/// The row that is given by this unifier of parts of both rows, where one of the first row's parts stands at the position.
#[tactic(auto, using(crate::proofs::Growth::growth))]
fn resolved_by(
    alloc: Global,
    bank: &mut Bank,
    syms: &Symbols,
    rule: Option<&GuardRule>,
    s: &Subst,
    at: &Pos,
    first: &Row,
    second: &Row,
) -> Result<Option<Row>, NoMemory>
    requires rule { IfSome (option_copied rule) (IsGuardRule syms.now) }
    requires rule_own { IfSome (option_copied rule) (RuleBelongs bank.old) }
    requires keeps { KeepsSorts syms.now s.now }
    requires own { BindsOwn bank.old s.now }
    requires pair { IsPair syms.now first.now second.now }
    requires among { AreBoundAmong (row_vars first.now ++ row_vars second.now) s.now }
    requires there { HasPart at.now (first.now).form }
    requires first_own { All (Belongs bank.old) (row_terms first.now) }
    requires second_own { All (Belongs bank.old) (row_terms second.now) }
    ensures row { IfOk result (PartGives (option_copied rule.entry) s.now at.now first.now second.now) }
    ensures extends { Extends bank.old bank.new }
    ensures belongs { IfOk result (λ o. IfSome o (λ q. All (Belongs bank.new) (row_terms q))) }
    ensures plain { IfOk result (λ o. IfSome o (IsPlain syms.now)) }
    ensures simplified { IfOk result (λ o. IfSome o IsSimplified) }
    ensures within { IfOk result (λ o. IfSome o IsWithinRow) }
{
    match both_instances(alloc, bank, syms, s, first, second) {
        Ok(Some((a, b))) => {
            let made = resolved_at(alloc, bank, syms, rule, s, at, first, second, &a, &b);
            drop(a);
            drop(b);
            made
        }
        Ok(None) => Ok(None),
        Err(error) => Err(error),
    }
}

/// The row that is given by this unifier of the parts of both rows.
#[tactic(auto, using(crate::proofs::Growth::growth))]
fn resolved_parts(
    alloc: Global,
    bank: &mut Bank,
    syms: &Symbols,
    rule: Option<&GuardRule>,
    s: &Subst,
    first: &Row,
    ps: &[Pos],
    second: &Row,
    qs: &[Pos],
) -> Result<Option<Row>, NoMemory>
    requires rule { IfSome (option_copied rule) (IsGuardRule syms.now) }
    requires rule_own { IfSome (option_copied rule) (RuleBelongs bank.old) }
    requires own { BindsOwn bank.old s.now }
    requires pair { IsPair syms.now first.now second.now }
    requires unifies { UnifiesParts syms.now ps.now qs.now first.now second.now s.now }
    requires first_own { All (Belongs bank.old) (row_terms first.now) }
    requires second_own { All (Belongs bank.old) (row_terms second.now) }
    ensures row { IfOk result (ApartGives syms.now (option_copied rule.entry) ps.now qs.now first.now second.now) }
    ensures extends { Extends bank.old bank.new }
    ensures belongs { IfOk result (λ o. IfSome o (λ q. All (Belongs bank.new) (row_terms q))) }
    ensures plain { IfOk result (λ o. IfSome o (IsPlain syms.now)) }
    ensures simplified { IfOk result (λ o. IfSome o IsSimplified) }
    ensures within { IfOk result (λ o. IfSome o IsWithinRow) }
{
    match ps {
        [at, ..] => resolved_by(alloc, bank, syms, rule, s, at, first, second),
        [] => unreachable!(),
    }
}

/// The row that two rows kept apart give.
#[tactic(auto, using(crate::proofs::Growth::growth))]
fn resolved_apart(
    alloc: Global,
    bank: &mut Bank,
    syms: &Symbols,
    rule: Option<&GuardRule>,
    first: &Row,
    ps: &[Pos],
    second: &Row,
    qs: &[Pos],
) -> Result<Option<Row>, NoMemory>
    requires rule { IfSome (option_copied rule) (IsGuardRule syms.now) }
    requires rule_own { IfSome (option_copied rule) (RuleBelongs bank.old) }
    requires pair { IsPair syms.now first.now second.now }
    requires first_own { All (Belongs bank.old) (row_terms first.now) }
    requires second_own { All (Belongs bank.old) (row_terms second.now) }
    ensures row { IfOk result (ApartGives syms.now (option_copied rule.entry) ps.now qs.now first.now second.now) }
    ensures extends { Extends bank.old bank.new }
    ensures belongs { IfOk result (λ o. IfSome o (λ q. All (Belongs bank.new) (row_terms q))) }
    ensures plain { IfOk result (λ o. IfSome o (IsPlain syms.now)) }
    ensures simplified { IfOk result (λ o. IfSome o IsSimplified) }
    ensures within { IfOk result (λ o. IfSome o IsWithinRow) }
{
    match parts_unifier(alloc, bank, syms, first, ps, second, qs) {
        Ok(Some(s)) => {
            let made = resolved_parts(alloc, bank, syms, rule, &s, first, ps, second, qs);
            drop(s);
            made
        }
        Ok(None) => Ok(None),
        Err(error) => Err(error),
    }
}

/// The row that nonclausal resolution gives of two rows, at these positions of both. The rule is one of Manna and Waldinger
/// (1980, 1992): the variables of both rows are renamed apart, and a most general unifier makes the formulas at all the
/// positions one, P. Of two goals F and G with the outputs t and u comes the goal `F and G` and the guards, where P is `true`
/// in F and `false` in G, with the output `if P then t else u`, or the one that is there. An assertion takes part as the goal
/// of its negation; two assertions give an assertion, `F or G or not` each guard. A guard stands for each program call that
/// the unifier brings into an output, and for each in P where both rows have an output; without a guard rule there are none.
/// What is answered is the canonical row of it, and every way to rename and every most general unifier give the same. The two
/// may be one row.
///
/// Where both rows have an output, the two give terms of one sort: else no output could be put together of them.
///
/// None exactly where a list of positions is empty or has a position twice, no formula stands at one of the positions, no
/// substitution that keeps sorts makes them one, the step has more than 65,536 nodes or a part deeper than 2,400, or what
/// comes of it passes the limit of a row. The bank may have made nodes then. The one error is `NoMemory`.
#[tactic(auto, using(crate::proofs::Growth::growth))]
pub fn resolve(
    alloc: Global,
    bank: &mut Bank,
    syms: &Symbols,
    rule: Option<&GuardRule>,
    r: &Row,
    ps: &[Pos],
    s: &Row,
    qs: &[Pos],
) -> Result<Option<Row>, NoMemory>
    requires rule { IfSome (option_copied rule) (IsGuardRule syms.now) }
    requires rule_own { IfSome (option_copied rule) (RuleBelongs bank.old) }
    requires plain_r { IsPlain syms.now r.now }
    requires plain_s { IsPlain syms.now s.now }
    requires sorts { GiveOneSort syms.now (r.now).out (s.now).out }
    requires own_r { All (Belongs bank.old) (row_terms r.now) }
    requires own_s { All (Belongs bank.old) (row_terms s.now) }
    ensures row { IfOk result (λ o. MatchOption o ((q : RowTree) → ResolveGives syms.now (option_copied rule.entry) r.now ps.now s.now qs.now q → ⊥) (λ q. ResolveGives syms.now (option_copied rule.entry) r.now ps.now s.now qs.now q)) }
    ensures extends { Extends bank.old bank.new }
    ensures belongs { IfOk result (λ o. IfSome o (λ q. All (Belongs bank.new) (row_terms q))) }
    ensures plain { IfOk result (λ o. IfSome o (IsPlain syms.now)) }
    ensures simplified { IfOk result (λ o. IfSome o IsSimplified) }
    ensures within { IfOk result (λ o. IfSome o IsWithinRow) }
{
    if !are_small(r, s) {
        return Ok(None);
    }
    let (first, second) = kept_apart(alloc, bank, syms, r, s)?;
    let made = resolved_apart(alloc, bank, syms, rule, &first, ps, &second, qs);
    drop(first);
    drop(second);
    made
}
