// What clauses stand for, as formulas.
ghost use Rattle.std.specs.Prelude.{◌≡◌, ◌∷◌, [], IfOk};
ghost use Rattle.syn_form.specs.declared.trees.Form.TheVariants as form;
ghost use Rattle.syn_form.specs.declared.trees.Form.TheViews as view;
ghost use Rattle.syn_start.specs.Definitions as definitions;

use sqlite_items::Items;
use std::alloc::Global;
use syn_form::{Form, Out};
use syn_term::{NoMemory, Shared, Term};

/// `t = u`.
fn equality(t: &Term, u: &Term) -> Result<Form, NoMemory>
    ensures { IfOk result (λ f. f ≡ form.Equal t.now u.now) }
{
    let Ok(t) = t.again() else {
        return Err(NoMemory);
    };
    match u.again() {
        Ok(u) => Ok(Form::Equal(t, u)),
        Err(_) => {
            drop(t);
            Err(NoMemory)
        }
    }
}

/// `not a`.
fn negation(alloc: Global, a: Form) -> Result<Form, NoMemory>
    ensures { IfOk result (λ f. f ≡ view.Not a) }
{
    match Shared::new(alloc, a) {
        Ok(a) => Ok(Form::Not(a)),
        Err(_) => Err(NoMemory),
    }
}

/// `a -> b`.
fn implication(alloc: Global, a: Form, b: Form) -> Result<Form, NoMemory>
    ensures { IfOk result (λ f. f ≡ view.Implies a b) }
{
    match both_shared(alloc, a, b) {
        Ok((a, b)) => Ok(Form::Implies(a, b)),
        Err(error) => Err(error),
    }
}

/// The two behind pointers.
pub(crate) fn both_shared(
    alloc: Global,
    a: Form,
    b: Form,
) -> Result<(Shared<Form>, Shared<Form>), NoMemory>
    ensures { IfOk result (λ both. (both.0 ≡ a) × (both.1 ≡ b)) }
{
    match Shared::new(alloc, a) {
        Err(_) => {
            drop(b);
            Err(NoMemory)
        }
        Ok(a) => match Shared::new(alloc, b) {
            Ok(b) => Ok((a, b)),
            Err(_) => {
                drop(a);
                Err(NoMemory)
            }
        },
    }
}

/// The list of the two.
fn pair(alloc: Global, a: Form, b: Form) -> Result<Items<Form>, NoMemory>
    ensures { IfOk result (λ all. all ≡ a ∷ b ∷ []) }
{
    let mut all = Items::new(alloc);
    match all.push(a) {
        Ok(()) => {
            all.push(b)?;
            Ok(all)
        }
        Err(_) => {
            drop(b);
            Err(NoMemory)
        }
    }
}

/// `a and b`.
fn conjunction(alloc: Global, a: Form, b: Form) -> Result<Form, NoMemory>
    ensures { IfOk result (λ f. f ≡ view.And (a ∷ b ∷ [])) }
{
    match Shared::new(alloc, pair(alloc, a, b)?) {
        Ok(all) => Ok(Form::And(all)),
        Err(_) => Err(NoMemory),
    }
}

/// `c -> a`, for a test that is kept.
fn when(alloc: Global, c: &Form, a: Form) -> Result<Form, NoMemory>
    ensures { IfOk result (λ f. f ≡ view.Implies c.now a) }
{
    match c.again() {
        Ok(c) => implication(alloc, c, a),
        Err(error) => {
            drop(a);
            Err(error)
        }
    }
}

/// `not c`, for a test that is kept.
fn opposite(alloc: Global, c: &Form) -> Result<Form, NoMemory>
    ensures { IfOk result (λ f. f ≡ view.Not c.now) }
{
    negation(alloc, c.again()?)
}

/// `not c -> a`, for a test that is kept.
fn unless(alloc: Global, c: &Form, a: Form) -> Result<Form, NoMemory>
    ensures { IfOk result (λ f. f ≡ view.Implies (view.Not c.now) a) }
{
    match opposite(alloc, c) {
        Ok(c) => implication(alloc, c, a),
        Err(error) => {
            drop(a);
            Err(error)
        }
    }
}

/// `(c -> a) and (not c -> b)`.
fn choice(alloc: Global, c: &Form, a: Form, b: Form) -> Result<Form, NoMemory>
    ensures { IfOk result (λ f. f ≡ view.And (view.Implies c.now a ∷ view.Implies (view.Not c.now) b ∷ [])) }
{
    match when(alloc, c, a) {
        Ok(a) => match unless(alloc, c, b) {
            Ok(b) => conjunction(alloc, a, b),
            Err(error) => {
                drop(a);
                Err(error)
            }
        },
        Err(error) => {
            drop(b);
            Err(error)
        }
    }
}

/// The formula that says that the term has the value of the output: `t = u` of a term u, and of
/// `if C then U else V` the formula `(C -> [t, U]) and (not C -> [t, V])`. The one error is `NoMemory`.
pub(crate) fn equals_output(alloc: Global, t: &Term, body: &Out) -> Result<Form, NoMemory>
    ensures { IfOk result (λ f. f ≡ definitions.equals_output t.now body.now) }
{
    match body {
        Out::Give(u) => equality(t, u),
        Out::If(c, u, v) => {
            let a = equals_output(alloc, t, u.get())?;
            match equals_output(alloc, t, v.get()) {
                Ok(b) => choice(alloc, c.get(), a, b),
                other => {
                    drop(a);
                    other
                }
            }
        }
    }
}

/// `a -> b`, for formulas that are kept.
fn implies(alloc: Global, a: &Form, b: &Form) -> Result<Form, NoMemory>
    ensures { IfOk result (λ f. f ≡ view.Implies a.now b.now) }
{
    when(alloc, a, b.again()?)
}

/// The formula that says that the atom is true just where the body is: `(r -> B) and (B -> r)`. The one
/// error is `NoMemory`.
pub(crate) fn defines_relation(alloc: Global, r: &Form, body: &Form) -> Result<Form, NoMemory>
    ensures { IfOk result (λ f. f ≡ definitions.defines_relation r.now body.now) }
{
    let there = implies(alloc, r, body)?;
    match implies(alloc, body, r) {
        Ok(back) => conjunction(alloc, there, back),
        other => {
            drop(there);
            other
        }
    }
}
