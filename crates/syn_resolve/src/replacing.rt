// Equality replacement: a term of a row becomes the other side of an equality of another row.
ghost use Rattle.std.specs.Prelude.{◌≡◌, ◌++◌, Some, All, Contains, IfOk, IfSome, MatchOption};
ghost use Rattle.std.specs.Option.{option_copied};
ghost use Rattle.syn_term.specs.Bank.{Belongs, Extends};
ghost use Rattle.syn_term.specs.declared.sorts.Var.{Var};
ghost use Rattle.syn_term.specs.Terms.{TermTree};
ghost use Rattle.syn_form.specs.declared.trees.Form.TheVariants as variants;
ghost use Rattle.syn_form.specs.Plain.{IsFormed};
ghost use Rattle.syn_form.specs.Positions.{at_position, formula};
ghost use Rattle.syn_form.specs.Replacing.{MayReplaceTerm};
ghost use Rattle.syn_form.specs.Same.{OfOneBank};
ghost use Rattle.syn_form.specs.Substitutions.{KeepsSorts};
ghost use Rattle.syn_form.specs.Trees.{form_terms, form_vars};
ghost use Rattle.syn_row.specs.Calls.{forms_terms};
ghost use Rattle.syn_row.specs.Guards.{IsGuardRule, RuleBelongs};
ghost use Rattle.syn_row.specs.JoinLaws.{GiveOneSort};
ghost use Rattle.syn_row.specs.Rows.{IsPlain, IsSimplified, IsWithinRow, RowTree, row_terms, row_vars};
ghost use Rattle.syn_unify.specs.Bindings.{BindsOwn};
ghost use Rattle.syn_resolve.specs.Replacement.{EqualGives, looked_for, put_there, replaced};
ghost use Rattle.syn_resolve.specs.RuleLaws.{RuleLaws};
ghost use Rattle.syn_resolve.specs.inner.Reflexing.{AreBoundAmong, FigureGives};
ghost use Rattle.syn_resolve.specs.inner.Replacing.{ApartReplaces, NoneUnifiesSide, PutsSide, SideGives, UnifiesSide, row_replaced};
ghost use Rattle.syn_resolve.specs.inner.Resolving.{IsInstance, IsPair, figure_of};

use crate::equality::{equality_at, sides_of};
use crate::instance::both_instances;
use crate::joining::given_with;
use crate::joint::joint_guards;
use crate::positions::{formula_at, term_at};
use crate::sizes::are_small;
use std::alloc::Global;
use syn_form::{Form, replace_term};
use syn_row::{Dir, GuardRule, Row, kept_apart};
use syn_term::{Bank, NoMemory, Pos, Symbols, Term};
use syn_unify::{Subst, unify_terms};

/// The side of an equality that is looked for.
fn side_sought<'a>(way: Dir, left: &'a Term, right: &'a Term) -> &'a Term
    ensures { result.now ≡ looked_for way left.now right.now }
{
    match way {
        Dir::Lr => left,
        Dir::Rl => right,
    }
}

/// The side of an equality that takes its place.
fn side_put<'a>(way: Dir, left: &'a Term, right: &'a Term) -> &'a Term
    ensures { result.now ≡ put_there way left.now right.now }
{
    match way {
        Dir::Lr => right,
        Dir::Rl => left,
    }
}

/// The equality that stands at the position, and the side of it that is put in.
fn equality_put<'a>(form: &'a Form, at: &Pos, way: Dir) -> Option<(&'a Form, &'a Term)>
    ensures { MatchOption result ((left right : TermTree) → at_position at.now (formula form.now) ≡ Some (formula (variants.Equal left right)) → ⊥) (λ p. PutsSide at.now way form.now p.0.now p.1.now) }
{
    match formula_at(form, at) {
        None => None,
        Some(e) => match sides_of(e) {
            None => None,
            Some((left, right)) => Some((e, side_put(way, left, right))),
        },
    }
}

/// A most general unifier of the side that is looked for, of the equality of the first row, and the term of the second row.
/// None exactly where no equality or no term stands there, or nothing makes the two one.
#[tactic(auto, using(crate::proofs::Growth::growth))]
fn side_unifier(
    alloc: Global,
    bank: &mut Bank,
    syms: &Symbols,
    first: &Row,
    at: &Pos,
    way: Dir,
    second: &Row,
    place: &Pos,
) -> Result<Option<Subst>, NoMemory>
    requires plain_first { IsPlain syms.now first.now }
    requires plain_second { IsPlain syms.now second.now }
    requires own_first { All (Belongs bank.old) (row_terms first.now) }
    requires own_second { All (Belongs bank.old) (row_terms second.now) }
    ensures unifier { IfOk result (λ o. MatchOption o (NoneUnifiesSide syms.now at.now way place.now (first.now).form (second.now).form) (UnifiesSide syms.now at.now way place.now (first.now).form (second.now).form)) }
    ensures extends { Extends bank.old bank.new }
    ensures own { IfOk result (λ o. IfSome o (BindsOwn bank.new)) }
{
    match equality_at(&first.form, at) {
        None => Ok(None),
        Some((left, right)) => match term_at(&second.form, place) {
            None => Ok(None),
            Some(old) => unify_terms(alloc, bank, syms, side_sought(way, left, right), old),
        },
    }
}

/// The row that is given of the two instances and the guards, where the equality is `false` in the first, and the new term is
/// put into the second.
#[tactic(auto, using(crate::proofs::Growth::growth))]
fn given_replaced(
    alloc: Global,
    bank: &mut Bank,
    syms: &Symbols,
    e: &Form,
    new: &Term,
    place: &Pos,
    a: &Row,
    b: &Row,
    guards: &[Form],
) -> Result<Option<Row>, NoMemory>
    requires may { MayReplaceTerm syms.now (b.now).form place.now new.now }
    requires one { OfOneBank (form_terms (a.now).form ++ form_terms e.now) }
    requires plain { IsPlain syms.now (row_replaced e.now place.now new.now a.now b.now guards.now) }
    requires first_own { All (Belongs bank.old) (row_terms a.now) }
    requires second_own { All (Belongs bank.old) (row_terms b.now) }
    requires equality_own { All (Belongs bank.old) (form_terms e.now) }
    requires side_own { Belongs bank.old new.now }
    requires guards_own { All (Belongs bank.old) (forms_terms guards.now) }
    ensures row { IfOk result (FigureGives (figure_of a.now b.now guards.now (row_replaced e.now place.now new.now a.now b.now guards.now))) }
    ensures extends { Extends bank.old bank.new }
    ensures belongs { IfOk result (λ o. IfSome o (λ q. All (Belongs bank.new) (row_terms q))) }
    ensures plain { IfOk result (λ o. IfSome o (IsPlain syms.now)) }
    ensures simplified { IfOk result (λ o. IfSome o IsSimplified) }
    ensures within { IfOk result (λ o. IfSome o IsWithinRow) }
{
    match replace_term(alloc, bank, syms, &b.form, place, new) {
        Ok(Some(g)) => given_with(alloc, bank, syms, e, false, a, b, g, guards, &b.out, &a.out),
        Ok(None) => unreachable!(),
        Err(error) => Err(error),
    }
}

/// The row that is given of the instances of both rows, where this is the instance of the equality, and this the side of it that
/// is put in.
#[tactic(auto, using(crate::proofs::Growth::growth))]
fn replaced_instances(
    alloc: Global,
    bank: &mut Bank,
    syms: &Symbols,
    rule: Option<&GuardRule>,
    s: &Subst,
    e: &Form,
    new: &Term,
    place: &Pos,
    first: &Row,
    second: &Row,
    a: &Row,
    b: &Row,
) -> Result<Option<Row>, NoMemory>
    requires rule { IfSome (option_copied rule) (IsGuardRule syms.now) }
    requires rule_own { IfSome (option_copied rule) (RuleBelongs bank.old) }
    requires keeps { KeepsSorts syms.now s.now }
    requires own { BindsOwn bank.old s.now }
    requires pair { IsPair syms.now first.now second.now }
    requires among { AreBoundAmong (row_vars first.now ++ row_vars second.now) s.now }
    requires first_instance { IsInstance syms.now s.now first.now a.now }
    requires second_instance { IsInstance syms.now s.now second.now b.now }
    requires first_own { All (Belongs bank.old) (row_terms a.now) }
    requires second_own { All (Belongs bank.old) (row_terms b.now) }
    requires formed { IsFormed syms.now e.now }
    requires equality_own { All (Belongs bank.old) (form_terms e.now) }
    requires equality_among { (w : Var) → Contains (form_vars e.now) w → Contains (row_vars first.now ++ row_vars second.now) w }
    requires side { Contains (form_terms e.now) new.now }
    requires may { MayReplaceTerm syms.now (b.now).form place.now new.now }
    ensures row { IfOk result (FigureGives (replaced (option_copied rule.entry) s.now e.now place.now new.now first.now second.now)) }
    ensures extends { Extends bank.old bank.new }
    ensures belongs { IfOk result (λ o. IfSome o (λ q. All (Belongs bank.new) (row_terms q))) }
    ensures plain { IfOk result (λ o. IfSome o (IsPlain syms.now)) }
    ensures simplified { IfOk result (λ o. IfSome o IsSimplified) }
    ensures within { IfOk result (λ o. IfSome o IsWithinRow) }
{
    let guards = joint_guards(alloc, bank, syms, rule, s, e, first, second)?;
    let made = given_replaced(alloc, bank, syms, e, new, place, a, b, guards.as_slice());
    drop(guards);
    made
}

/// The same, where the equality stands in the first instance.
#[tactic(auto, using(crate::proofs::Growth::growth))]
fn replaced_in(
    alloc: Global,
    bank: &mut Bank,
    syms: &Symbols,
    rule: Option<&GuardRule>,
    s: &Subst,
    first: &Row,
    at: &Pos,
    way: Dir,
    second: &Row,
    place: &Pos,
    a: &Row,
    b: &Row,
) -> Result<Option<Row>, NoMemory>
    requires rule { IfSome (option_copied rule) (IsGuardRule syms.now) }
    requires rule_own { IfSome (option_copied rule) (RuleBelongs bank.old) }
    requires own { BindsOwn bank.old s.now }
    requires pair { IsPair syms.now first.now second.now }
    requires unifies { UnifiesSide syms.now at.now way place.now (first.now).form (second.now).form s.now }
    requires first_instance { IsInstance syms.now s.now first.now a.now }
    requires second_instance { IsInstance syms.now s.now second.now b.now }
    requires first_own { All (Belongs bank.old) (row_terms a.now) }
    requires second_own { All (Belongs bank.old) (row_terms b.now) }
    ensures row { IfOk result (SideGives syms.now (option_copied rule.entry) at.now way place.now first.now second.now s.now) }
    ensures extends { Extends bank.old bank.new }
    ensures belongs { IfOk result (λ o. IfSome o (λ q. All (Belongs bank.new) (row_terms q))) }
    ensures plain { IfOk result (λ o. IfSome o (IsPlain syms.now)) }
    ensures simplified { IfOk result (λ o. IfSome o IsSimplified) }
    ensures within { IfOk result (λ o. IfSome o IsWithinRow) }
{
    match equality_put(&a.form, at, way) {
        Some((e, new)) => replaced_instances(
            alloc, bank, syms, rule, s, e, new, place, first, second, a, b,
        ),
        None => unreachable!(),
    }
}

/// The row that is given by this unifier of the side and the term.
#[tactic(auto, using(crate::proofs::Growth::growth))]
fn replaced_by(
    alloc: Global,
    bank: &mut Bank,
    syms: &Symbols,
    rule: Option<&GuardRule>,
    s: &Subst,
    first: &Row,
    at: &Pos,
    way: Dir,
    second: &Row,
    place: &Pos,
) -> Result<Option<Row>, NoMemory>
    requires rule { IfSome (option_copied rule) (IsGuardRule syms.now) }
    requires rule_own { IfSome (option_copied rule) (RuleBelongs bank.old) }
    requires own { BindsOwn bank.old s.now }
    requires pair { IsPair syms.now first.now second.now }
    requires unifies { UnifiesSide syms.now at.now way place.now (first.now).form (second.now).form s.now }
    requires first_own { All (Belongs bank.old) (row_terms first.now) }
    requires second_own { All (Belongs bank.old) (row_terms second.now) }
    ensures row { IfOk result (SideGives syms.now (option_copied rule.entry) at.now way place.now first.now second.now s.now) }
    ensures extends { Extends bank.old bank.new }
    ensures belongs { IfOk result (λ o. IfSome o (λ q. All (Belongs bank.new) (row_terms q))) }
    ensures plain { IfOk result (λ o. IfSome o (IsPlain syms.now)) }
    ensures simplified { IfOk result (λ o. IfSome o IsSimplified) }
    ensures within { IfOk result (λ o. IfSome o IsWithinRow) }
{
    match both_instances(alloc, bank, syms, s, first, second) {
        Ok(Some((a, b))) => {
            let made = replaced_in(
                alloc, bank, syms, rule, s, first, at, way, second, place, &a, &b,
            );
            drop(a);
            drop(b);
            made
        }
        Ok(None) => Ok(None),
        Err(error) => Err(error),
    }
}

/// The row that two rows kept apart give.
#[tactic(auto, using(crate::proofs::Growth::growth))]
fn replaced_apart(
    alloc: Global,
    bank: &mut Bank,
    syms: &Symbols,
    rule: Option<&GuardRule>,
    first: &Row,
    at: &Pos,
    way: Dir,
    second: &Row,
    place: &Pos,
) -> Result<Option<Row>, NoMemory>
    requires rule { IfSome (option_copied rule) (IsGuardRule syms.now) }
    requires rule_own { IfSome (option_copied rule) (RuleBelongs bank.old) }
    requires pair { IsPair syms.now first.now second.now }
    requires first_own { All (Belongs bank.old) (row_terms first.now) }
    requires second_own { All (Belongs bank.old) (row_terms second.now) }
    ensures row { IfOk result (ApartReplaces syms.now (option_copied rule.entry) at.now way place.now first.now second.now) }
    ensures extends { Extends bank.old bank.new }
    ensures belongs { IfOk result (λ o. IfSome o (λ q. All (Belongs bank.new) (row_terms q))) }
    ensures plain { IfOk result (λ o. IfSome o (IsPlain syms.now)) }
    ensures simplified { IfOk result (λ o. IfSome o IsSimplified) }
    ensures within { IfOk result (λ o. IfSome o IsWithinRow) }
{
    match side_unifier(alloc, bank, syms, first, at, way, second, place) {
        Ok(Some(s)) => {
            let made = replaced_by(alloc, bank, syms, rule, &s, first, at, way, second, place);
            drop(s);
            made
        }
        Ok(None) => Ok(None),
        Err(error) => Err(error),
    }
}

/// The row that equality replacement gives of two rows, by the equality that stands in the first at this position, at this
/// place of the second. The rule is one of Manna and Waldinger (1980, 1992): the variables of both rows are renamed apart,
/// and a most general unifier makes one of the equality's sides, the one that is looked for, and the term at the place one.
/// Of two goals F and G with the outputs t and u, where e is the instance of the equality, comes the goal `F and G` and the
/// guards, where e is `false` in F and the other side stands at the place in G, with the output `if e then u else t`, or the
/// one that is there. An assertion takes part as the goal of its negation; two assertions give an assertion, `F or G or not`
/// each guard. A guard stands for each program call that the unifier brings into an output, and for each in e where both rows
/// have an output; without a guard rule there are none. What is answered is the canonical row of it, and every way to rename
/// and every most general unifier give the same. The two may be one row.
///
/// `Lr` looks for the left side and puts the right one there, `Rl` the other way round. Where both rows have an output, the
/// two give terms of one sort: else no output could be put together of them.
///
/// None exactly where no equality stands at the position, no term stands at the place, no substitution that keeps sorts makes
/// the side and the term one, the step has more than 65,536 nodes or a part deeper than 2,400, or what comes of it passes the
/// limit of a row. The bank may have made nodes then. The one error is `NoMemory`.
///
/// That each rule gives one row at most, this one and splitting, duality, reflexivity and resolution, is the record
/// `RuleLaws`.
#[tactic(auto, using(crate::proofs::Laws::law_rules))]
pub fn equal(
    alloc: Global,
    bank: &mut Bank,
    syms: &Symbols,
    rule: Option<&GuardRule>,
    r: &Row,
    at: &Pos,
    way: Dir,
    s: &Row,
    place: &Pos,
) -> Result<Option<Row>, NoMemory>
    requires rule { IfSome (option_copied rule) (IsGuardRule syms.now) }
    requires rule_own { IfSome (option_copied rule) (RuleBelongs bank.old) }
    requires plain_r { IsPlain syms.now r.now }
    requires plain_s { IsPlain syms.now s.now }
    requires sorts { GiveOneSort syms.now (s.now).out (r.now).out }
    requires own_r { All (Belongs bank.old) (row_terms r.now) }
    requires own_s { All (Belongs bank.old) (row_terms s.now) }
    ensures row { IfOk result (λ o. MatchOption o ((q : RowTree) → EqualGives syms.now (option_copied rule.entry) r.now at.now way s.now place.now q → ⊥) (EqualGives syms.now (option_copied rule.entry) r.now at.now way s.now place.now)) }
    ensures extends { Extends bank.old bank.new }
    ensures belongs { IfOk result (λ o. IfSome o (λ q. All (Belongs bank.new) (row_terms q))) }
    ensures plain { IfOk result (λ o. IfSome o (IsPlain syms.now)) }
    ensures simplified { IfOk result (λ o. IfSome o IsSimplified) }
    ensures within { IfOk result (λ o. IfSome o IsWithinRow) }
    ensures laws { RuleLaws }
{
    if !are_small(r, s) {
        return Ok(None);
    }
    let (first, second) = kept_apart(alloc, bank, syms, r, s)?;
    let made = replaced_apart(alloc, bank, syms, rule, &first, at, way, &second, place);
    drop(first);
    drop(second);
    made
}
