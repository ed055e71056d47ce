// Formulas made from their parts: atoms and equalities from syntax trees, the rest from what was read.
ghost use Rattle.std.specs.Prelude.{◌≡◌, ◌+◌, [], ◌∷◌, All, map, sum, IfOk, IfSome, Ok, Some};
ghost use Rattle.std.specs.Option.{option_and_then, option_map};
ghost use Rattle.syn_term.specs.Bank.{Belongs, Extends, Kept};
ghost use Rattle.syn_term.specs.Terms.{bare};
ghost use Rattle.syn_form.specs.Elaboration as elaboration;
ghost use Rattle.syn_form.specs.Elaboration.{quantifier_tree, sorted_atom};
ghost use Rattle.syn_form.specs.Quantified.{bare_qform};
ghost use Rattle.syn_form.specs.declared.trees.QForm.TheVariants as variant;
ghost use Rattle.syn_form.specs.declared.trees.QForm.TheViews as view;
ghost use Rattle.syn_expr.specs.Belonging.{QFormBelongs};
ghost use Rattle.syn_expr.specs.inner.Elaborating as elaborating;
ghost use Rattle.syn_expr.specs.inner.Elaborating.{bare_reading, bare_readings};
ghost use Rattle.syn_expr.specs.Limits as limits;
ghost use Rattle.syn_expr.specs.inner.Places.{spoken_at};
ghost use Rattle.syn_expr.specs.inner.Spending.{Spends};

use crate::elaborate_term::{elaborate_term, elaborate_terms};
use crate::lookups::{binder_var, symbol_named};
use crate::names::Inside;
use crate::pairs::both_shared;
use sqlite_items::{Boxed, Items};
use std::alloc::Global;
use syn_form::{
    Binder, BinderSyntax, NameText, QForm, Quantifier, TermSyntax, are_of_one_sort, is_atom,
};
use syn_term::{Bank, NoMemory, Shared, SymId, Symbols, Term, Text};

/// The symbol before the terms; None where there is no symbol, or it makes no atom of them.
#[tactic(auto, using(crate::proofs::Owning::owning))]
fn atom(
    alloc: Global,
    syms: &Symbols,
    symbol: Option<SymId>,
    args: Items<Term>,
) -> Result<Option<QForm>, NoMemory>
    ensures tree { IfOk result (λ o. option_map bare_qform o ≡ option_and_then (sorted_atom syms.now (map bare args)) symbol) }
    ensures belongs { (b : Kept) → All (Belongs b) args → IfOk result (λ o. IfSome o (QFormBelongs b)) }
{
    let Some(r) = symbol else {
        return Ok(None);
    };
    if !is_atom(syms, r, args.as_slice()) {
        return Ok(None);
    }
    Ok(Some(QForm::Atom(r, Shared::new(alloc, args)?)))
}

/// The atom that a name with arguments stands for.
#[tactic(auto, using(crate::proofs::Owning::owning, crate::proofs::Spending::spending))]
fn elaborate_atom(
    alloc: Global,
    bank: &mut Bank,
    place: &Inside,
    name: &NameText,
    args: &[TermSyntax],
) -> Result<Option<QForm>, NoMemory>
    ensures tree { IfOk result (λ o. option_map bare_qform o ≡ elaboration.atom_tree (spoken_at place.now) name.now (map (elaboration.elaborate_term (spoken_at place.now)) args.now)) }
    ensures made { Spends bank.old bank.new (sum (map limits.term_cost args.now)) }
    ensures extends { Extends bank.old bank.new }
    ensures belongs { IfOk result (λ o. IfSome o (QFormBelongs bank.new)) }
{
    if args.is_empty() {
        return Ok(None);
    }
    match elaborate_terms(alloc, bank, place, args)? {
        None => Ok(None),
        Some(args) => atom(
            alloc,
            place.syms,
            symbol_named(place.syms, name.as_str()),
            args,
        ),
    }
}

/// The equality of two terms; None where they aren't of one sort.
#[tactic(auto, using(crate::proofs::Owning::owning))]
fn equality(syms: &Symbols, s: Term, t: Term) -> Option<QForm>
    ensures tree { option_map bare_qform result ≡ elaboration.sorted_equality syms.now (bare s) (bare t) }
    ensures belongs { (b : Kept) → Belongs b s → Belongs b t → IfSome result (QFormBelongs b) }
{
    if are_of_one_sort(s.sort_in(syms), t.sort_in(syms)) {
        Some(QForm::Equal(s, t))
    } else {
        None
    }
}

/// The equality that two sides stand for.
#[tactic(auto, using(crate::proofs::Owning::owning, crate::proofs::Spending::spending))]
fn elaborate_equality(
    alloc: Global,
    bank: &mut Bank,
    place: &Inside,
    s: &TermSyntax,
    t: &TermSyntax,
) -> Result<Option<QForm>, NoMemory>
    ensures tree { IfOk result (λ o. option_map bare_qform o ≡ elaboration.equality_tree (spoken_at place.now) (elaboration.elaborate_term (spoken_at place.now) s.now) (elaboration.elaborate_term (spoken_at place.now) t.now)) }
    ensures made { Spends bank.old bank.new (limits.term_cost s.now + limits.term_cost t.now) }
    ensures extends { Extends bank.old bank.new }
    ensures belongs { IfOk result (λ o. IfSome o (QFormBelongs bank.new)) }
{
    let Some(s) = elaborate_term(alloc, bank, place, s)? else {
        return Ok(None);
    };
    let Some(t) = elaborate_term(alloc, bank, place, t)? else {
        return Ok(None);
    };
    Ok(equality(place.syms, s, t))
}

/// What has no binder leaves the number of the next one.
#[tactic(auto, using(crate::proofs::Owning::owning))]
fn steady(read: Option<QForm>, next: u32) -> Option<(QForm, u32)>
    ensures tree { option_map bare_reading result ≡ option_map (λ a. (a, next)) (option_map bare_qform read) }
    ensures belongs { (b : Kept) → IfSome read (QFormBelongs b) → IfSome result (λ r. QFormBelongs b r.0) }
{
    match read {
        None => None,
        Some(f) => Some((f, next)),
    }
}

/// `true`, and the number of the next binder.
pub(crate) fn steady_true(next: u32) -> Result<Option<(QForm, u32)>, NoMemory>
    ensures { result ≡ Ok (Some (variant.True, next)) }
{
    Ok(Some((QForm::True, next)))
}

/// `false`, and the number of the next binder.
pub(crate) fn steady_false(next: u32) -> Result<Option<(QForm, u32)>, NoMemory>
    ensures { result ≡ Ok (Some (variant.False, next)) }
{
    Ok(Some((QForm::False, next)))
}

/// The atom, and the number of the next binder.
#[tactic(auto, using(crate::proofs::Owning::owning, crate::proofs::Spending::spending))]
pub(crate) fn steady_atom(
    alloc: Global,
    bank: &mut Bank,
    place: &Inside,
    next: u32,
    name: &NameText,
    args: &Items<TermSyntax>,
) -> Result<Option<(QForm, u32)>, NoMemory>
    ensures tree { IfOk result (λ o. option_map bare_reading o ≡ option_map (λ a. (a, next)) (elaboration.atom_tree (spoken_at place.now) name.now (map (elaboration.elaborate_term (spoken_at place.now)) args.now))) }
    ensures made { Spends bank.old bank.new (sum (map limits.term_cost args.now)) }
    ensures extends { Extends bank.old bank.new }
    ensures belongs { IfOk result (λ o. IfSome o (λ r. QFormBelongs bank.new r.0)) }
{
    match elaborate_atom(alloc, bank, place, name, args.as_slice()) {
        Ok(read) => Ok(steady(read, next)),
        Err(error) => Err(error),
    }
}

/// The equality, and the number of the next binder.
#[tactic(auto, using(crate::proofs::Owning::owning, crate::proofs::Spending::spending))]
pub(crate) fn steady_equality(
    alloc: Global,
    bank: &mut Bank,
    place: &Inside,
    next: u32,
    s: &Boxed<TermSyntax>,
    t: &Boxed<TermSyntax>,
) -> Result<Option<(QForm, u32)>, NoMemory>
    ensures tree { IfOk result (λ o. option_map bare_reading o ≡ option_map (λ a. (a, next)) (elaboration.equality_tree (spoken_at place.now) (elaboration.elaborate_term (spoken_at place.now) s.now) (elaboration.elaborate_term (spoken_at place.now) t.now))) }
    ensures made { Spends bank.old bank.new (limits.term_cost s.now + limits.term_cost t.now) }
    ensures extends { Extends bank.old bank.new }
    ensures belongs { IfOk result (λ o. IfSome o (λ r. QFormBelongs bank.new r.0)) }
{
    match elaborate_equality(alloc, bank, place, s.get(), t.get()) {
        Ok(read) => Ok(steady(read, next)),
        Err(error) => Err(error),
    }
}

/// The negation of what was read.
#[tactic(auto, using(crate::proofs::Owning::owning))]
pub(crate) fn negated(
    alloc: Global,
    read: Option<(QForm, u32)>,
) -> Result<Option<(QForm, u32)>, NoMemory>
    ensures tree { IfOk result (λ o. option_map bare_reading o ≡ option_map (λ a. (view.Not a.0, a.1)) (option_map bare_reading read)) }
    ensures belongs { (b : Kept) → IfSome read (λ r. QFormBelongs b r.0) → IfOk result (λ o. IfSome o (λ r. QFormBelongs b r.0)) }
{
    match read {
        None => Ok(None),
        Some((f, next)) => Ok(Some((QForm::Not(Shared::new(alloc, f)?), next))),
    }
}

/// The `and` of what was read.
#[tactic(auto, using(crate::proofs::Owning::owning))]
pub(crate) fn conjunction(
    alloc: Global,
    read: Option<(Items<QForm>, u32)>,
) -> Result<Option<(QForm, u32)>, NoMemory>
    ensures tree { IfOk result (λ o. option_map bare_reading o ≡ option_map (λ a. (view.And a.0, a.1)) (option_map bare_readings read)) }
    ensures belongs { (b : Kept) → IfSome read (λ r. All (QFormBelongs b) r.0) → IfOk result (λ o. IfSome o (λ r. QFormBelongs b r.0)) }
{
    match read {
        None => Ok(None),
        Some((all, next)) => Ok(Some((QForm::And(Shared::new(alloc, all)?), next))),
    }
}

/// The `or` of what was read.
#[tactic(auto, using(crate::proofs::Owning::owning))]
pub(crate) fn disjunction(
    alloc: Global,
    read: Option<(Items<QForm>, u32)>,
) -> Result<Option<(QForm, u32)>, NoMemory>
    ensures tree { IfOk result (λ o. option_map bare_reading o ≡ option_map (λ a. (view.Or a.0, a.1)) (option_map bare_readings read)) }
    ensures belongs { (b : Kept) → IfSome read (λ r. All (QFormBelongs b) r.0) → IfOk result (λ o. IfSome o (λ r. QFormBelongs b r.0)) }
{
    match read {
        None => Ok(None),
        Some((all, next)) => Ok(Some((QForm::Or(Shared::new(alloc, all)?), next))),
    }
}

/// The implication from `left` to what was read.
#[tactic(auto, using(crate::proofs::Owning::owning))]
pub(crate) fn implied(
    alloc: Global,
    left: QForm,
    read: Option<(QForm, u32)>,
) -> Result<Option<(QForm, u32)>, NoMemory>
    ensures tree { IfOk result (λ o. option_map bare_reading o ≡ option_map (λ a. (view.Implies (bare_qform left) a.0, a.1)) (option_map bare_reading read)) }
    ensures belongs { (b : Kept) → QFormBelongs b left → IfSome read (λ r. QFormBelongs b r.0) → IfOk result (λ o. IfSome o (λ r. QFormBelongs b r.0)) }
{
    match read {
        None => {
            drop(left);
            Ok(None)
        }
        Some((right, last)) => match both_shared(alloc, left, right) {
            Ok((left, right)) => Ok(Some((QForm::Implies(left, right), last))),
            Err(error) => Err(error),
        },
    }
}

/// The `and` of two formulas.
fn both(alloc: Global, a: QForm, b: QForm) -> Result<QForm, NoMemory>
    ensures { IfOk result (λ f. f ≡ view.And (a ∷ b ∷ [])) }
{
    let mut all = Items::new(alloc);
    match all.push(a) {
        Ok(()) => {
            all.push(b)?;
            Ok(QForm::And(Shared::new(alloc, all)?))
        }
        Err(_) => {
            drop(b);
            Err(NoMemory)
        }
    }
}

/// The `and` of the implication there and the one back that was read.
#[tactic(auto, using(crate::proofs::Owning::owning))]
pub(crate) fn with_back(
    alloc: Global,
    there: QForm,
    read: Option<(QForm, u32)>,
) -> Result<Option<(QForm, u32)>, NoMemory>
    ensures tree { IfOk result (λ o. option_map bare_reading o ≡ option_map (λ a. (view.And (bare_qform there ∷ a.0 ∷ []), a.1)) (option_map bare_reading read)) }
    ensures belongs { (b : Kept) → QFormBelongs b there → IfSome read (λ r. QFormBelongs b r.0) → IfOk result (λ o. IfSome o (λ r. QFormBelongs b r.0)) }
{
    match read {
        None => {
            drop(there);
            Ok(None)
        }
        Some((back, last)) => match both(alloc, there, back) {
            Ok(f) => Ok(Some((f, last))),
            Err(error) => Err(error),
        },
    }
}

/// The formula under a quantifier.
fn quantify(
    alloc: Global,
    quantifier: Quantifier,
    binder: Binder,
    f: QForm,
) -> Result<QForm, NoMemory>
    ensures { IfOk result (λ g. g ≡ quantifier_tree quantifier binder.name binder.var f) }
{
    let f = Shared::new(alloc, f)?;
    match quantifier {
        Quantifier::All => Ok(QForm::All(binder, f)),
        Quantifier::Exists => Ok(QForm::Exists(binder, f)),
    }
}

/// The binder of a quantifier, whose variable has this number, and the number of the next binder;
/// None where its name may not be bound, or no sort has the name of its sort. The one error is want
/// of memory, or of numbers.
pub(crate) fn numbered_binder(
    alloc: Global,
    place: &Inside,
    next: u32,
    binder: &BinderSyntax,
) -> Result<Option<(Binder, u32)>, NoMemory>
    ensures { IfOk result (λ o. o ≡ elaborating.numbered_binder (spoken_at place.now) next binder.now) }
{
    let Some(var) = binder_var(place, next, binder) else {
        return Ok(None);
    };
    let Some(after) = next.checked_add(1) else {
        return Err(NoMemory);
    };
    let name = Text::from_str(alloc, binder.name.as_str())?;
    Ok(Some((Binder { var, name }, after)))
}

/// What was read, under a quantifier with this binder.
#[tactic(auto, using(crate::proofs::Owning::owning))]
pub(crate) fn bound(
    alloc: Global,
    quantifier: Quantifier,
    binder: Binder,
    read: Option<(QForm, u32)>,
) -> Result<Option<(QForm, u32)>, NoMemory>
    ensures tree { IfOk result (λ o. option_map bare_reading o ≡ option_map (λ a. (quantifier_tree quantifier binder.name binder.var a.0, a.1)) (option_map bare_reading read)) }
    ensures belongs { (b : Kept) → IfSome read (λ r. QFormBelongs b r.0) → IfOk result (λ o. IfSome o (λ r. QFormBelongs b r.0)) }
{
    match read {
        None => {
            drop(binder);
            Ok(None)
        }
        Some((f, last)) => match quantify(alloc, quantifier, binder, f) {
            Ok(f) => Ok(Some((f, last))),
            Err(error) => Err(error),
        },
    }
}
