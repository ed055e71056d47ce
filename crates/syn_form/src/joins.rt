// Chains of members joined by `and` or by `or`, simplified by one code: what joins the members is a
// value. Each member is compared with those kept before it and with their negations, so the work
// grows with the square of the number of members of one chain.
ghost use Rattle.std.specs.Prelude.{◌≡◌, ◌≢◌, [], ◌∷◌, ◌++◌, ◌||◌, IfOk, OnOk, MatchOption, filter};
ghost use Rattle.syn_form.specs.declared.trees.Form.TheViews as views;
ghost use Rattle.syn_form.specs.inner.Joining.{joining, stays, terms_of};
ghost use Rattle.syn_form.specs.Same.{OfOneBank, same_form};
ghost use Rattle.syn_form.specs.Simplification as rules;
ghost use Rattle.syn_form.specs.Simplification.{has_both, has_form, without_repeats};
ghost use Rattle.syn_form.specs.Trees.{FormTree, form_terms};

use crate::trees::Form;
use sqlite_items::Items;
use std::alloc::Global;
use syn_term::{NoMemory, Shared};

/// The connective that joins the members of a chain.
#[derive(Clone, Copy)]
pub(crate) enum Junction {
    And,
    Or,
}

impl Junction {
    /// What a chain without members is.
    fn neutral(self) -> Form
        ensures { result ≡ rules.neutral (joining self) }
    {
        match self {
            Junction::And => Form::True,
            Junction::Or => Form::False,
        }
    }

    /// The member that decides a chain.
    fn deciding(self) -> Form
        ensures { result ≡ rules.deciding (joining self) }
    {
        match self {
            Junction::And => Form::False,
            Junction::Or => Form::True,
        }
    }

    /// The chain of these members.
    fn chain(self, members: Shared<Items<Form>>) -> Form
        ensures { result ≡ rules.chain (joining self) members }
    {
        match self {
            Junction::And => Form::And(members),
            Junction::Or => Form::Or(members),
        }
    }
}

/// The members of a chain of this kind; None where the formula is another.
fn members_of(j: Junction, f: &Form) -> Option<&[Form]>
    ensures { MatchOption result (rules.opened (joining j) f.now ≡ f.now ∷ []) (λ s. rules.opened (joining j) f.now ≡ s.now) }
{
    match (j, f) {
        (Junction::And, Form::And(all)) => Some(all.get().as_slice()),
        (Junction::Or, Form::Or(all)) => Some(all.get().as_slice()),
        _ => None,
    }
}

/// Whether the two are one tree.
pub(crate) fn is_same(f: &Form, g: &Form) -> bool
    requires { OfOneBank (form_terms f.now ++ form_terms g.now) }
    ensures { result ≡ same_form f.now g.now }
{
    f.same(g)
}

/// Whether a formula of the list is this one.
fn contains_form(fs: &[Form], f: &Form) -> bool
    requires { OfOneBank (terms_of fs.now ++ form_terms f.now) }
    ensures { result ≡ has_form fs.now f.now }
{
    for g in fs {
        if is_same(g, f) {
            return true;
        }
    }
    false
}

/// What stands under the `not` at the top.
fn part_under_not(f: &Form) -> Option<&Form>
    ensures { MatchOption result ((part : FormTree) → f.now ≢ views.Not part) (λ part. f.now ≡ views.Not part.now) }
{
    match f {
        Form::Not(part) => Some(part.get()),
        _ => None,
    }
}

/// Whether `g` is the negation of `f`, without making that.
fn is_negation(g: &Form, f: &Form) -> bool
    requires { OfOneBank (form_terms g.now ++ form_terms f.now) }
    ensures { result ≡ same_form g.now (views.Not f.now) }
{
    match part_under_not(g) {
        None => false,
        Some(part) => is_same(part, f),
    }
}

/// Whether a formula of the list is the negation of this one.
fn contains_negation_of(fs: &[Form], f: &Form) -> bool
    requires { OfOneBank (terms_of fs.now ++ form_terms f.now) }
    ensures { result ≡ has_form fs.now (views.Not f.now) }
{
    for g in fs {
        if is_negation(g, f) {
            return true;
        }
    }
    false
}

/// Whether some formula and its negation are both members.
fn contains_both(fs: &[Form]) -> bool
    requires { OfOneBank (terms_of fs.now) }
    ensures { result ≡ has_both fs.now }
{
    for f in fs {
        if contains_negation_of(fs, f) {
            return true;
        }
    }
    false
}

/// Whether the formula is the neutral one, which a chain drops.
fn is_neutral(j: Junction, f: &Form) -> bool
    requires { OfOneBank (form_terms f.now) }
    ensures { result ≡ same_form f.now (rules.neutral (joining j)) }
{
    is_same(f, &j.neutral())
}

/// Adds a formula that is not neutral and not there yet.
fn push_new(j: Junction, done: &mut Items<Form>, f: &Form) -> Result<(), NoMemory>
    requires { OfOneBank (terms_of done.old ++ form_terms f.now) }
    ensures { OnOk result (done.new ≡ without_repeats done.old (filter (stays (joining j)) (f.now ∷ []))) }
{
    if is_neutral(j, f) {
        return Ok(());
    }
    if contains_form(done.as_slice(), f) {
        return Ok(()); // the earlier one stays
    }
    done.push(f.again()?)?;
    Ok(())
}

/// Adds those of the formulas that are not neutral and not there yet.
fn push_all_new(j: Junction, done: &mut Items<Form>, fs: &[Form]) -> Result<(), NoMemory>
    requires { OfOneBank (terms_of done.old ++ terms_of fs.now) }
    ensures { OnOk result (done.new ≡ without_repeats done.old (filter (stays (joining j)) fs.now)) }
{
    for f in fs {
        push_new(j, done, f)?;
    }
    Ok(())
}

/// Adds a member, or its own members where it is a chain of the same kind.
fn push_opened(j: Junction, done: &mut Items<Form>, f: &Form) -> Result<(), NoMemory>
    requires { OfOneBank (terms_of done.old ++ form_terms f.now) }
    ensures { OnOk result (done.new ≡ without_repeats done.old (filter (stays (joining j)) (rules.opened (joining j) f.now))) }
{
    match members_of(j, f) {
        None => push_new(j, done, f),
        Some(members) => push_all_new(j, done, members),
    }
}

/// The members that are left of a chain.
fn members_left(alloc: Global, j: Junction, fs: &[Form]) -> Result<Items<Form>, NoMemory>
    requires { OfOneBank (terms_of fs.now) }
    ensures { IfOk result (λ gs. gs ≡ rules.members_left (joining j) fs.now) }
{
    let mut done = Items::new(alloc);
    for f in fs {
        push_opened(j, &mut done, f)?;
    }
    Ok(done)
}

/// Whether the member that decides a chain is among these.
fn contains_deciding(j: Junction, fs: &[Form]) -> bool
    requires { OfOneBank (terms_of fs.now) }
    ensures { result ≡ has_form fs.now (rules.deciding (joining j)) }
{
    contains_form(fs, &j.deciding())
}

/// Whether the members decide the chain.
fn is_decided(j: Junction, fs: &[Form]) -> bool
    requires { OfOneBank (terms_of fs.now) }
    ensures { result ≡ (has_form fs.now (rules.deciding (joining j)) || has_both fs.now) }
{
    if contains_deciding(j, fs) {
        return true;
    }
    contains_both(fs)
}

/// The chain of these members, however many they are.
pub(crate) fn chained(alloc: Global, j: Junction, members: Items<Form>) -> Result<Form, NoMemory>
    ensures { IfOk result (λ f. f ≡ rules.chain (joining j) members) }
{
    match Shared::new(alloc, members) {
        Ok(members) => Ok(j.chain(members)),
        Err(_) => Err(NoMemory),
    }
}

/// The chain of so many members: what it is without any, the one, or the chain.
fn chain_of(alloc: Global, j: Junction, members: Items<Form>) -> Result<Form, NoMemory>
    ensures { IfOk result (λ f. f ≡ rules.chain_of (joining j) members) }
{
    match members.as_slice() {
        [] => Ok(j.neutral()),
        [f] => f.again(),
        _ => Ok(j.chain(Shared::new(alloc, members)?)),
    }
}

/// The chain of members that are simplified already.
pub(crate) fn joined(alloc: Global, j: Junction, fs: &[Form]) -> Result<Form, NoMemory>
    requires { OfOneBank (terms_of fs.now) }
    ensures { IfOk result (λ f. f ≡ rules.joined (joining j) fs.now) }
{
    let left = members_left(alloc, j, fs)?;
    if is_decided(j, left.as_slice()) {
        return Ok(j.deciding());
    }
    chain_of(alloc, j, left)
}
