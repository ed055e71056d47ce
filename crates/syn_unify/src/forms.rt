// The pairs of terms that make formulas one.
ghost use Rattle.std.specs.Prelude.{◌≡◌, IfOk, IsTrue};
ghost use Rattle.std.specs.List.{flat_map};
ghost use Rattle.syn_term.specs.declared.sorts.Var.{Var};
ghost use Rattle.syn_term.specs.Terms.{TermTree};
ghost use Rattle.syn_form.specs.declared.trees.Form.TheVariants as form;
ghost use Rattle.syn_form.specs.declared.trees.Form.TheViews as views;
ghost use Rattle.syn_form.specs.Trees.{form_terms};
ghost use Rattle.syn_unify.specs.inner.Forms.{AreAllOne, AreEachOne, AreOne, IsOneWith, OpenedTo, form_under};

use crate::pairs::{Pair, put_pair, split};
use sqlite_items::Items;
use syn_form::Form;
use syn_term::{NoMemory, SymId, Term};

/// Whether the formula is `true`, which no other formula becomes.
fn is_true(g: &Form) -> bool
    ensures is { IsTrue result → g.now ≡ form.True }
    ensures only { (τ : Var → TermTree) → form.True ≡ form_under τ g.now → IsTrue result }
{
    match g {
        Form::True => true,
        _ => false,
    }
}

/// Whether the formula is `false`, which no other formula becomes.
fn is_false(g: &Form) -> bool
    ensures is { IsTrue result → g.now ≡ form.False }
    ensures only { (τ : Var → TermTree) → form.False ≡ form_under τ g.now → IsTrue result }
{
    match g {
        Form::False => true,
        _ => false,
    }
}

/// Puts the pairs of terms that make the two formulas one behind the others; false where nothing makes
/// them one, whatever becomes of variables.
#[cycle(forms)]
fn put_form_pairs(left: &mut Items<Pair>, f: &Form, g: &Form) -> Result<bool, NoMemory>
    ensures { IfOk result (OpenedTo (AreOne f.now g.now) (form_terms f.now) (form_terms g.now) left.old left.new) }
{
    match f {
        Form::True => Ok(is_true(g)),
        Form::False => Ok(is_false(g)),
        Form::Atom(r, args) => put_atom_pairs(left, *r, args.get().as_slice(), g),
        Form::Equal(s, t) => put_equality_pairs(left, s, t, g),
        Form::Not(a) => put_negation_pairs(left, a.get(), g),
        Form::And(all) => put_conjunction_pairs(left, all.get().as_slice(), g),
        Form::Or(all) => put_disjunction_pairs(left, all.get().as_slice(), g),
        Form::Implies(a, b) => put_implication_pairs(left, a.get(), b.get(), g),
    }
}

/// The same for an atom and a formula.
fn put_atom_pairs(left: &mut Items<Pair>, r: SymId, xs: &[Term], g: &Form) -> Result<bool, NoMemory>
    ensures { IfOk result (OpenedTo (AreOne (form.Atom r xs.now) g.now) (form_terms (form.Atom r xs.now)) (form_terms g.now) left.old left.new) }
{
    match g {
        Form::Atom(q, ys) => split(left, r, xs, *q, ys.get().as_slice()),
        _ => Ok(false),
    }
}

/// The same for an equality and a formula.
fn put_equality_pairs(
    left: &mut Items<Pair>,
    s: &Term,
    t: &Term,
    g: &Form,
) -> Result<bool, NoMemory>
    ensures { IfOk result (OpenedTo (AreOne (form.Equal s.now t.now) g.now) (form_terms (form.Equal s.now t.now)) (form_terms g.now) left.old left.new) }
{
    match g {
        Form::Equal(u, v) => {
            put_pair(left, s, u)?;
            put_pair(left, t, v)?;
            Ok(true)
        }
        _ => Ok(false),
    }
}

/// The same for a negation and a formula.
#[cycle(forms)]
fn put_negation_pairs(left: &mut Items<Pair>, a: &Form, g: &Form) -> Result<bool, NoMemory>
    ensures { IfOk result (OpenedTo (AreOne (views.Not a.now) g.now) (form_terms (views.Not a.now)) (form_terms g.now) left.old left.new) }
{
    match g {
        Form::Not(b) => put_form_pairs(left, a, b.get()),
        _ => Ok(false),
    }
}

/// The same for an `and` and a formula.
#[cycle(forms)]
fn put_conjunction_pairs(left: &mut Items<Pair>, all: &[Form], g: &Form) -> Result<bool, NoMemory>
    ensures { IfOk result (OpenedTo (AreOne (views.And all.now) g.now) (form_terms (views.And all.now)) (form_terms g.now) left.old left.new) }
{
    match g {
        Form::And(others) => put_member_pairs(left, all, others.get().as_slice()),
        _ => Ok(false),
    }
}

/// The same for an `or` and a formula.
#[cycle(forms)]
fn put_disjunction_pairs(left: &mut Items<Pair>, all: &[Form], g: &Form) -> Result<bool, NoMemory>
    ensures { IfOk result (OpenedTo (AreOne (views.Or all.now) g.now) (form_terms (views.Or all.now)) (form_terms g.now) left.old left.new) }
{
    match g {
        Form::Or(others) => put_member_pairs(left, all, others.get().as_slice()),
        _ => Ok(false),
    }
}

/// The same for an implication and a formula.
#[cycle(forms)]
fn put_implication_pairs(
    left: &mut Items<Pair>,
    a: &Form,
    b: &Form,
    g: &Form,
) -> Result<bool, NoMemory>
    ensures { IfOk result (OpenedTo (AreOne (views.Implies a.now b.now) g.now) (form_terms (views.Implies a.now b.now)) (form_terms g.now) left.old left.new) }
{
    match g {
        Form::Implies(c, d) => {
            if !put_form_pairs(left, a, c.get())? {
                return Ok(false);
            }
            put_form_pairs(left, b, d.get())
        }
        _ => Ok(false),
    }
}

/// The same for the members of two chains, each with the one at its place.
#[cycle(forms)]
fn put_member_pairs(left: &mut Items<Pair>, fs: &[Form], gs: &[Form]) -> Result<bool, NoMemory>
    ensures { IfOk result (OpenedTo (AreAllOne fs.now gs.now) (flat_map form_terms fs.now) (flat_map form_terms gs.now) left.old left.new) }
{
    if fs.len() != gs.len() {
        return Ok(false);
    }
    for i in 0..fs.len() {
        if !put_form_pairs(left, &fs[i], &gs[i])? {
            return Ok(false);
        }
    }
    Ok(true)
}

/// Puts the pairs of terms that make the formula one with each of the others behind the pairs.
fn put_pairs_of_first(left: &mut Items<Pair>, first: &Form, rest: &[Form]) -> Result<bool, NoMemory>
    ensures { IfOk result (OpenedTo (IsOneWith first.now rest.now) (form_terms first.now) (flat_map form_terms rest.now) left.old left.new) }
{
    for g in rest {
        if !put_form_pairs(left, first, g)? {
            return Ok(false);
        }
    }
    Ok(true)
}

/// Puts the pairs of terms that make all the formulas one behind the others.
pub(crate) fn put_all_pairs(left: &mut Items<Pair>, forms: &[Form]) -> Result<bool, NoMemory>
    ensures { IfOk result (OpenedTo (AreEachOne forms.now) (flat_map form_terms forms.now) (flat_map form_terms forms.now) left.old left.new) }
{
    match forms {
        [] => Ok(true),
        [first, rest @ ..] => put_pairs_of_first(left, first, rest),
    }
}
