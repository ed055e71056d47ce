// Splitting and duality.
ghost use Rattle.std.specs.Prelude.{◌≡◌, ◌↔◌, ◌∷◌, [], ℕ, suc, Some, All, IfNone, IfOk, IfSome, IsTrue, MatchOption, slice_get};
ghost use Rattle.syn_form.specs.declared.trees.Form.TheViews as views;
ghost use Rattle.syn_form.specs.Trees.{FormTree};
ghost use Rattle.syn_term.specs.Bank.{Belongs, Extends};
ghost use Rattle.syn_row.specs.Results.{IsLight, other_side, out_list};
ghost use Rattle.syn_row.specs.Rows.{IsPlain, IsSimplified, IsWithinRow, RowTree, row_terms};
ghost use Rattle.syn_resolve.specs.Splitting.{DualGives, SplitGives, Splits};
ghost use Rattle.syn_resolve.specs.inner.Answers.{Answered};

use sqlite_items::at;
use std::alloc::Global;
use syn_form::{Form, Out, Side};
use syn_row::{Row, canonical, is_light};
use syn_term::{Bank, NoMemory, Shared, Symbols};

/// Whether the row as it is makes a light step.
fn is_light_row(row: &Row) -> bool
    ensures { IsTrue result ↔ IsLight ((row.now).form ∷ []) (out_list (row.now).out) [] }
{
    is_light(std::slice::from_ref(&row.form), row.out.as_slice(), &[])
}

/// The member of the chain, counted from 1.
fn member_of(all: &[Form], member: u32) -> Option<&Form>
    ensures { MatchOption result ((i : ℕ) (f : FormTree) → member ≡ suc i → slice_get all.now i ≡ Some f → ⊥) (λ g. (i : ℕ) × (member ≡ suc i) × (slice_get all.now i ≡ Some g.now)) }
{
    match member.checked_sub(1) {
        None => None,
        Some(index) => at(all, index as usize),
    }
}

/// The side and the formula that splitting gives.
fn part(row: &Row, member: u32) -> Option<(Side, &Form)>
    ensures { MatchOption result ((u : RowTree) → Splits row.now member u → ⊥) (λ p. Splits row.now member (record { side = p.0; form = p.1.now; out = (row.now).out })) }
{
    match row.side {
        Side::Assertion => match &row.form {
            Form::And(all) => match member_of(all.get().as_slice(), member) {
                None => None,
                Some(f) => Some((Side::Assertion, f)),
            },
            _ => None,
        },
        Side::Goal => match &row.form {
            Form::Or(all) => match member_of(all.get().as_slice(), member) {
                None => None,
                Some(f) => Some((Side::Goal, f)),
            },
            Form::Implies(a, b) => match member {
                1 => Some((Side::Assertion, a.get())),
                2 => Some((Side::Goal, b.get())),
                _ => None,
            },
            _ => None,
        },
    }
}
/// The row of the side and the formula, with the output of this one.
pub(crate) fn under(row: &Row, side: Side, form: Form) -> Result<Row, NoMemory>
    ensures { IfOk result (λ r. r ≡ record { side = side; form = form; out = (row.now).out }) }
{
    match &row.out {
        None => Ok(Row {
            side,
            form,
            out: None,
        }),
        Some(out) => match out.again() {
            Ok(out) => Ok(Row {
                side,
                form,
                out: Some(out),
            }),
            Err(error) => {
                drop(form);
                Err(error)
            }
        },
    }
}

/// The canonical row of the row of this kind with this formula, and the output of the row.
#[tactic(auto, using(crate::proofs::Growth::growth))]
fn canonical_under(
    alloc: Global,
    bank: &mut Bank,
    syms: &Symbols,
    row: &Row,
    side: Side,
    form: &Form,
) -> Result<Option<Row>, NoMemory>
    requires plain { IsPlain syms.now (record { side = side; form = form.now; out = (row.now).out }) }
    requires own { All (Belongs bank.old) (row_terms (record { side = side; form = form.now; out = (row.now).out })) }
    ensures row { IfOk result (Answered (record { side = side; form = form.now; out = (row.now).out })) }
    ensures none { IfOk result (λ o. IfNone o (bank.new ≡ bank.old)) }
    ensures extends { Extends bank.old bank.new }
    ensures belongs { IfOk result (λ o. IfSome o (λ q. All (Belongs bank.new) (row_terms q))) }
    ensures plain { IfOk result (λ o. IfSome o (IsPlain syms.now)) }
    ensures simplified { IfOk result (λ o. IfSome o IsSimplified) }
    ensures within { IfOk result (λ o. IfSome o IsWithinRow) }
{
    let under = under(row, side, form.again()?)?;
    let made = canonical(alloc, bank, syms, &under);
    drop(under);
    made
}

/// The row of a member: a conjunct of an assertion, a disjunct of a goal, or of a goal that is an implication 1 the premise
/// as assertion and 2 the conclusion as goal, each with the row's output. Members count from 1. It is canonical. None
/// exactly where there is none such, the row as it is passes the limit of a step, or what comes of it passes the limit
/// of a row; nothing is made then. The one error is `NoMemory`.
#[tactic(auto, using(crate::proofs::Growth::growth))]
pub fn split(
    alloc: Global,
    bank: &mut Bank,
    syms: &Symbols,
    row: &Row,
    member: u32,
) -> Result<Option<Row>, NoMemory>
    requires plain { IsPlain syms.now row.now }
    requires own { All (Belongs bank.old) (row_terms row.now) }
    ensures row { IfOk result (λ o. MatchOption o ((q : RowTree) → SplitGives row.now member q → ⊥) (λ q. SplitGives row.now member q)) }
    ensures none { IfOk result (λ o. IfNone o (bank.new ≡ bank.old)) }
    ensures extends { Extends bank.old bank.new }
    ensures belongs { IfOk result (λ o. IfSome o (λ q. All (Belongs bank.new) (row_terms q))) }
    ensures plain { IfOk result (λ o. IfSome o (IsPlain syms.now)) }
    ensures simplified { IfOk result (λ o. IfSome o IsSimplified) }
    ensures within { IfOk result (λ o. IfSome o IsWithinRow) }
{
    if !is_light_row(row) {
        return Ok(None);
    }
    match part(row, member) {
        None => Ok(None),
        Some((side, form)) => canonical_under(alloc, bank, syms, row, side, form),
    }
}

/// The other kind of row.
fn other(side: Side) -> Side
    ensures { result ≡ other_side side }
{
    match side {
        Side::Goal => Side::Assertion,
        Side::Assertion => Side::Goal,
    }
}

/// The formula negated.
fn negated(alloc: Global, form: &Form) -> Result<Form, NoMemory>
    ensures { IfOk result (λ f. f ≡ views.Not form.now) }
{
    Ok(Form::Not(Shared::new(alloc, form.again()?)?))
}

/// The row of the other kind with the negated formula, and the row's output. It is canonical. None exactly where the row
/// as it is passes the limit of a step, or what comes of it passes the limit of a row; nothing is made then. The one
/// error is `NoMemory`.
#[tactic(auto, using(crate::proofs::Growth::growth))]
pub fn dual(
    alloc: Global,
    bank: &mut Bank,
    syms: &Symbols,
    row: &Row,
) -> Result<Option<Row>, NoMemory>
    requires plain { IsPlain syms.now row.now }
    requires own { All (Belongs bank.old) (row_terms row.now) }
    ensures row { IfOk result (λ o. MatchOption o ((q : RowTree) → DualGives row.now q → ⊥) (λ q. DualGives row.now q)) }
    ensures none { IfOk result (λ o. IfNone o (bank.new ≡ bank.old)) }
    ensures extends { Extends bank.old bank.new }
    ensures belongs { IfOk result (λ o. IfSome o (λ q. All (Belongs bank.new) (row_terms q))) }
    ensures plain { IfOk result (λ o. IfSome o (IsPlain syms.now)) }
    ensures simplified { IfOk result (λ o. IfSome o IsSimplified) }
    ensures within { IfOk result (λ o. IfSome o IsWithinRow) }
{
    if !is_light_row(row) {
        return Ok(None);
    }
    let negated = negated(alloc, &row.form)?;
    let made = canonical_under(alloc, bank, syms, row, other(row.side), &negated);
    drop(negated);
    made
}
