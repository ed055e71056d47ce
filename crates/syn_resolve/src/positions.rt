// The formulas and the terms that stand at positions of a formula.
ghost use Rattle.std.specs.Prelude.{◌≡◌, ◌↔◌, ◌≢◌, ◌++◌, [], List, Some, Contains, IfOk, IsTrue, MatchOption};
ghost use Rattle.syn_term.specs.Terms.{TermTree};
ghost use Rattle.syn_form.specs.Positions.{at_position, formula, term};
ghost use Rattle.syn_form.specs.Trees.{FormTree};
ghost use Rattle.syn_resolve.specs.Resolution.{AreAt, HasNoRepeats};
ghost use Rattle.syn_resolve.specs.inner.Standing.{Puts};

use sqlite_items::Items;
use std::alloc::Global;
use syn_form::{Form, Part};
use syn_term::{NoMemory, Pos, Term};

/// Whether the two are one position.
fn is_one_position(p: &Pos, q: &Pos) -> bool
    ensures { IsTrue result ↔ (p.now ≡ q.now) }
{
    p.as_slice() == q.as_slice()
}

/// Whether the position is one of these.
fn is_among(positions: &[Pos], p: &Pos) -> bool
    ensures { IsTrue result ↔ Contains positions.now p.now }
{
    match positions {
        [] => false,
        [q, rest @ ..] => {
            if is_one_position(q, p) {
                return true;
            }
            is_among(rest, p)
        }
    }
}

/// Whether no position is there twice.
fn are_distinct(positions: &[Pos]) -> bool
    ensures { IsTrue result ↔ HasNoRepeats positions.now }
{
    match positions {
        [] => true,
        [p, rest @ ..] => {
            if is_among(rest, p) {
                return false;
            }
            are_distinct(rest)
        }
    }
}

/// The formula that stands at the position. None exactly where none does.
pub(crate) fn formula_at<'a>(form: &'a Form, p: &Pos) -> Option<&'a Form>
    ensures { MatchOption result ((g : FormTree) → at_position p.now (formula form.now) ≡ Some (formula g) → ⊥) (λ g. at_position p.now (formula form.now) ≡ Some (formula g.now)) }
{
    match form.at(p) {
        Some(Part::F(part)) => Some(part),
        _ => None,
    }
}

/// The term that stands at the position. None exactly where none does.
pub(crate) fn term_at<'a>(form: &'a Form, p: &Pos) -> Option<&'a Term>
    ensures { MatchOption result ((t : TermTree) → at_position p.now (formula form.now) ≡ Some (term t) → ⊥) (λ t. at_position p.now (formula form.now) ≡ Some (term t.now)) }
{
    match form.at(p) {
        Some(Part::T(t)) => Some(t),
        _ => None,
    }
}

/// Appends the formulas that stand at the positions. False where none stands at one of them.
fn put_formulas_at(
    form: &Form,
    positions: &[Pos],
    parts: &mut Items<Form>,
) -> Result<bool, NoMemory>
    ensures { IfOk result (λ all. Puts all positions.now form.now parts.old parts.new) }
{
    match positions {
        [] => Ok(true),
        [p, rest @ ..] => match formula_at(form, p) {
            None => Ok(false),
            Some(part) => {
                parts.push(part.again()?)?;
                put_formulas_at(form, rest, parts)
            }
        },
    }
}

/// The formulas that stand at the positions, wherever they stand.
fn all_formulas_at(
    alloc: Global,
    form: &Form,
    positions: &[Pos],
) -> Result<Option<Items<Form>>, NoMemory>
    requires some { positions.now ≢ [] }
    requires once { HasNoRepeats positions.now }
    ensures { IfOk result (λ o. MatchOption o ((parts : List FormTree) → AreAt positions.now form.now parts → ⊥) (AreAt positions.now form.now)) }
{
    let mut parts = Items::new(alloc);
    if !put_formulas_at(form, positions, &mut parts)? {
        drop(parts);
        return Ok(None);
    }
    Ok(Some(parts))
}

/// The formulas that stand at the positions, in their order. None exactly where the list of positions is empty, a position is
/// there twice, or no formula stands at one of them. The one error is `NoMemory`.
pub(crate) fn formulas_at(
    alloc: Global,
    form: &Form,
    positions: &[Pos],
) -> Result<Option<Items<Form>>, NoMemory>
    ensures { IfOk result (λ o. MatchOption o ((parts : List FormTree) → AreAt positions.now form.now parts → ⊥) (AreAt positions.now form.now)) }
{
    if positions.is_empty() {
        return Ok(None);
    }
    if !are_distinct(positions) {
        return Ok(None);
    }
    all_formulas_at(alloc, form, positions)
}
