// Simplification from the inside out: the parts of a tree first, then the tree by the shape of its
// parts.
ghost use Rattle.std.specs.Prelude.{◌≡◌, [], ◌∷◌, ◌++◌, map, IfOk};
ghost use Rattle.syn_form.specs.inner.Joining.{joining, terms_of};
ghost use Rattle.syn_term.specs.Same.{same_tree};
ghost use Rattle.syn_form.specs.Same.{OfOneBank, same_out};
ghost use Rattle.syn_form.specs.declared.trees.Out.TheViews as views;
ghost use Rattle.syn_form.specs.Simplification as rules;
ghost use Rattle.syn_form.specs.Simplification.{simplified_form, simplified_out};
ghost use Rattle.syn_form.specs.SimplificationLaws.{SimplifiesForm, SimplifiesOut};
ghost use Rattle.syn_form.specs.Trees.{form_terms, out_terms};

use crate::joins::{Junction, is_same, joined};
use crate::trees::{Form, Out};
use sqlite_items::Items;
use std::alloc::Global;
use syn_term::{NoMemory, Shared, Term};

/// `not f`.
fn negated(alloc: Global, f: &Form) -> Result<Form, NoMemory>
    ensures { IfOk result (λ g. g ≡ rules.negated f.now) }
{
    match f {
        Form::True => Ok(Form::False),
        Form::False => Ok(Form::True),
        Form::Not(part) => part.get().again(),
        _ => Ok(Form::Not(Shared::new(alloc, f.again()?)?)),
    }
}

/// Whether the two terms are one tree.
fn is_same_term(s: &Term, t: &Term) -> bool
    requires { OfOneBank (s.now ∷ t.now ∷ []) }
    ensures { result ≡ same_tree s.now t.now }
{
    s.same(t)
}

/// `s = t`.
fn equated(s: &Term, t: &Term) -> Result<Form, NoMemory>
    requires { OfOneBank (s.now ∷ t.now ∷ []) }
    ensures { IfOk result (λ f. f ≡ rules.equated s.now t.now) }
{
    if is_same_term(s, t) {
        return Ok(Form::True);
    }
    Ok(Form::Equal(s.again()?, t.again()?))
}

/// `a -> b`, where neither is `true` or `false`.
fn open_implication(alloc: Global, a: &Form, b: &Form) -> Result<Form, NoMemory>
    requires { OfOneBank (form_terms a.now ++ form_terms b.now) }
    ensures { IfOk result (λ f. f ≡ rules.implied_open a.now b.now) }
{
    if is_same(a, b) {
        return Ok(Form::True);
    }
    let a = Shared::new(alloc, a.again()?)?;
    Ok(Form::Implies(a, Shared::new(alloc, b.again()?)?))
}

/// `a -> b`.
fn implied(alloc: Global, a: &Form, b: &Form) -> Result<Form, NoMemory>
    requires { OfOneBank (form_terms a.now ++ form_terms b.now) }
    ensures { IfOk result (λ f. f ≡ rules.implied a.now b.now) }
{
    match (a, b) {
        (Form::True, _) => b.again(),
        (Form::False, _) => Ok(Form::True),
        (_, Form::True) => Ok(Form::True),
        (_, Form::False) => negated(alloc, a),
        _ => open_implication(alloc, a, b),
    }
}

/// The formula, each part first.
#[cycle(simple)]
fn simple(alloc: Global, f: &Form) -> Result<Form, NoMemory>
    requires { OfOneBank (form_terms f.now) }
    ensures { IfOk result (λ g. g ≡ simplified_form f.now) }
{
    match f {
        Form::True => Ok(Form::True),
        Form::False => Ok(Form::False),
        Form::Atom(_, _) => f.again(),
        Form::Equal(s, t) => equated(s, t),
        Form::Not(a) => simple_negation(alloc, a.get()),
        Form::Implies(a, b) => simple_implication(alloc, a.get(), b.get()),
        Form::And(all) => simple_chain(alloc, Junction::And, all.get().as_slice()),
        Form::Or(all) => simple_chain(alloc, Junction::Or, all.get().as_slice()),
    }
}

/// The negation of the formula, that first.
#[cycle(simple)]
fn simple_negation(alloc: Global, part: &Form) -> Result<Form, NoMemory>
    requires { OfOneBank (form_terms part.now) }
    ensures { IfOk result (λ g. g ≡ rules.negated (simplified_form part.now)) }
{
    let part = simple(alloc, part)?;
    let result = negated(alloc, &part);
    drop(part);
    result
}

/// The implication, each side first.
#[cycle(simple)]
fn simple_implication(alloc: Global, a: &Form, b: &Form) -> Result<Form, NoMemory>
    requires { OfOneBank (form_terms a.now ++ form_terms b.now) }
    ensures { IfOk result (λ g. g ≡ rules.implied (simplified_form a.now) (simplified_form b.now)) }
{
    let a = simple(alloc, a)?;
    match simple(alloc, b) {
        Ok(b) => {
            let result = implied(alloc, &a, &b);
            drop(a);
            drop(b);
            result
        }
        other => {
            drop(a);
            other
        }
    }
}

/// The chain, each member first.
#[cycle(simple)]
fn simple_chain(alloc: Global, j: Junction, all: &[Form]) -> Result<Form, NoMemory>
    requires { OfOneBank (terms_of all.now) }
    ensures { IfOk result (λ g. g ≡ rules.joined (joining j) (map simplified_form all.now)) }
{
    let mut parts = Items::new(alloc);
    for part in all {
        parts.push(simple(alloc, part)?)?;
    }
    joined(alloc, j, parts.as_slice())
}

/// Whether the two outputs are one tree.
fn is_same_out(u: &Out, v: &Out) -> bool
    requires { OfOneBank (out_terms u.now ++ out_terms v.now) }
    ensures { result ≡ same_out u.now v.now }
{
    u.same(v)
}

/// The formula once more, behind a pointer.
fn shared_form(alloc: Global, f: &Form) -> Result<Shared<Form>, NoMemory>
    ensures { IfOk result (λ g. g ≡ f.now) }
{
    match f.again() {
        Ok(f) => match Shared::new(alloc, f) {
            Ok(f) => Ok(f),
            Err(_) => Err(NoMemory),
        },
        Err(error) => Err(error),
    }
}

/// The output once more, behind a pointer.
fn shared_out(alloc: Global, o: &Out) -> Result<Shared<Out>, NoMemory>
    ensures { IfOk result (λ p. p ≡ o.now) }
{
    match o.again() {
        Ok(o) => match Shared::new(alloc, o) {
            Ok(o) => Ok(o),
            Err(_) => Err(NoMemory),
        },
        Err(error) => Err(error),
    }
}

/// The arms of a choice once more, each behind a pointer.
fn shared_arms(alloc: Global, u: &Out, v: &Out) -> Result<(Shared<Out>, Shared<Out>), NoMemory>
    ensures { IfOk result (λ both. (both.0 ≡ u.now) × (both.1 ≡ v.now)) }
{
    let u = shared_out(alloc, u)?;
    match shared_out(alloc, v) {
        Ok(v) => Ok((u, v)),
        Err(error) => {
            drop(u);
            Err(error)
        }
    }
}

/// The choice as it is.
fn kept_choice(alloc: Global, f: &Form, u: &Out, v: &Out) -> Result<Out, NoMemory>
    ensures { IfOk result (λ o. o ≡ views.If f.now u.now v.now) }
{
    let f = shared_form(alloc, f)?;
    match shared_arms(alloc, u, v) {
        Ok((u, v)) => Ok(Out::If(f, u, v)),
        Err(error) => {
            drop(f);
            Err(error)
        }
    }
}

/// `if f then u else v`, where f is neither `true` nor `false`.
fn open_choice(alloc: Global, f: &Form, u: &Out, v: &Out) -> Result<Out, NoMemory>
    requires { OfOneBank (out_terms u.now ++ out_terms v.now) }
    ensures { IfOk result (λ o. o ≡ rules.chosen_open f.now u.now v.now) }
{
    if is_same_out(u, v) {
        return u.again();
    }
    kept_choice(alloc, f, u, v)
}

/// `if f then u else v`.
fn chosen(alloc: Global, f: &Form, u: &Out, v: &Out) -> Result<Out, NoMemory>
    requires { OfOneBank (out_terms u.now ++ out_terms v.now) }
    ensures { IfOk result (λ o. o ≡ rules.chosen f.now u.now v.now) }
{
    match f {
        Form::True => u.again(),
        Form::False => v.again(),
        _ => open_choice(alloc, f, u, v),
    }
}

/// `if f then u else v` for arms that are simplified already, the test first.
fn tested(alloc: Global, f: &Form, u: Out, v: Out) -> Result<Out, NoMemory>
    requires test { OfOneBank (form_terms f.now) }
    requires arms { OfOneBank (out_terms u ++ out_terms v) }
    ensures { IfOk result (λ o. o ≡ rules.chosen (simplified_form f.now) u v) }
{
    match simple(alloc, f) {
        Ok(f) => {
            let choice = chosen(alloc, &f, &u, &v);
            drop(f);
            drop(u);
            drop(v);
            choice
        }
        Err(error) => {
            drop(u);
            drop(v);
            Err(error)
        }
    }
}

/// The choice, its arms and its test first.
#[cycle(outs)]
fn simple_choice(alloc: Global, f: &Form, u: &Out, v: &Out) -> Result<Out, NoMemory>
    requires test { OfOneBank (form_terms f.now) }
    requires arms { OfOneBank (out_terms u.now ++ out_terms v.now) }
    ensures { IfOk result (λ o. o ≡ rules.chosen (simplified_form f.now) (simplified_out u.now) (simplified_out v.now)) }
{
    let u = simple_out(alloc, u)?;
    match simple_out(alloc, v) {
        Ok(v) => tested(alloc, f, u, v),
        other => {
            drop(u);
            other
        }
    }
}

/// The output, its tests and arms first.
#[cycle(outs)]
fn simple_out(alloc: Global, o: &Out) -> Result<Out, NoMemory>
    requires { OfOneBank (out_terms o.now) }
    ensures { IfOk result (λ p. p ≡ simplified_out o.now) }
{
    match o {
        Out::Give(_) => o.again(),
        Out::If(f, u, v) => simple_choice(alloc, f.get(), u.get(), v.get()),
    }
}

/// The formula simplified from the inside out: the parts of each connective first, then the
/// connective by these rules.
///
/// - In `and`, a member that is itself an `and` gives its members in place; `true` is dropped, and
///   so is each later repeat of a member. `false`, or a formula and its negation both there, make
///   it `false`. No member left is `true`, and one is that member. `or` is the same with `true` and
///   `false` exchanged.
/// - `not true` is `false`, `not false` is `true`, and `not not A` is `A`.
/// - `true -> B` is `B`; `false -> B`, `A -> true` and `A -> A` are `true`; `A -> false` is what
///   `not A` is.
/// - `s = s` is `true`.
///
/// Two parts are the same where they are one tree, so the terms have to be of one bank. The work
/// grows with the square of the number of members of one chain, and the recursion goes as deep as
/// the tree. What it keeps, and what it never makes greater, is the record `SimplifiesForm`. The one
/// error is `NoMemory`.
#[tactic(auto, using(crate::proofs::Simplifies::simplifies_form_ok))]
pub fn simplify(alloc: Global, f: &Form) -> Result<Form, NoMemory>
    requires { OfOneBank (form_terms f.now) }
    ensures value { IfOk result (λ g. g ≡ simplified_form f.now) }
    ensures laws { IfOk result (SimplifiesForm f.now) }
{
    simple(alloc, f)
}

/// The output simplified: its tests as by [`simplify`] and its arms first. `if true then U else V`
/// is `U`, `if false then U else V` is `V`, and a choice between equal arms is the first. The one
/// error is `NoMemory`.
#[tactic(auto, using(crate::proofs::Simplifies::simplifies_out_ok))]
pub fn simplify_out(alloc: Global, o: &Out) -> Result<Out, NoMemory>
    requires { OfOneBank (out_terms o.now) }
    ensures value { IfOk result (λ p. p ≡ simplified_out o.now) }
    ensures laws { IfOk result (SimplifiesOut o.now) }
{
    simple_out(alloc, o)
}
