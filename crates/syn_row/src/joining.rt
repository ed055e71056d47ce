// How parts of the parents are joined: the kind, the formula and the output of the row that comes of them.
ghost use Rattle.std.specs.Prelude.{◌≡◌, ◌++◌, ◌∷◌, [], map, IfOk, OnOk};
ghost use Rattle.syn_form.specs.declared.trees.Form.TheViews as views;
ghost use Rattle.syn_form.specs.declared.trees.Out.TheViews as out_views;
ghost use Rattle.syn_row.specs.JoinLaws.{JoinLaws};
ghost use Rattle.syn_row.specs.Results as results;

use sqlite_items::Items;
use std::alloc::Global;
use syn_form::{Form, Out, Side};
use syn_term::{NoMemory, Shared};

/// The kind of row that comes of two: of two assertions an assertion, else a goal.
pub fn joined_side(first: Side, second: Side) -> Side
    ensures { result ≡ results.joined_side first second }
{
    match first {
        Side::Goal => Side::Goal,
        Side::Assertion => second,
    }
}

/// `not f`.
fn negation(alloc: Global, form: Form) -> Result<Form, NoMemory>
    ensures { IfOk result (λ g. g ≡ views.Not form) }
{
    Ok(Form::Not(Shared::new(alloc, form)?))
}

/// Appends the formulas.
fn put_forms(forms: &[Form], members: &mut Items<Form>) -> Result<(), NoMemory>
    ensures { OnOk result (members.new ≡ members.old ++ forms.now) }
{
    for form in forms {
        members.push(form.again()?)?;
    }
    Ok(())
}

/// Appends the negations of the formulas.
fn put_negations(alloc: Global, forms: &[Form], members: &mut Items<Form>) -> Result<(), NoMemory>
    ensures { OnOk result (members.new ≡ members.old ++ map views.Not forms.now) }
{
    for form in forms {
        members.push(negation(alloc, form.again()?)?)?;
    }
    Ok(())
}

/// The members and one more behind them.
fn with_member(mut members: Items<Form>, f: Form) -> Result<Items<Form>, NoMemory>
    ensures { IfOk result (λ fs. fs ≡ members ++ f ∷ []) }
{
    match members.push(f) {
        Ok(()) => Ok(members),
        Err(_) => {
            drop(members);
            Err(NoMemory)
        }
    }
}

/// The formula alone.
fn one_member(alloc: Global, f: Form) -> Result<Items<Form>, NoMemory>
    ensures { IfOk result (λ fs. fs ≡ f ∷ []) }
{
    with_member(Items::new(alloc), f)
}

/// The two formulas.
fn two_members(alloc: Global, f: Form, g: Form) -> Result<Items<Form>, NoMemory>
    ensures { IfOk result (λ fs. fs ≡ f ∷ g ∷ []) }
{
    match one_member(alloc, f) {
        Ok(members) => with_member(members, g),
        Err(error) => {
            drop(g);
            Err(error)
        }
    }
}

/// The `and` of the members and the guards.
fn conjunction(alloc: Global, mut members: Items<Form>, guards: &[Form]) -> Result<Form, NoMemory>
    ensures { IfOk result (λ g. g ≡ views.And (members ++ guards.now)) }
{
    put_forms(guards, &mut members)?;
    Ok(Form::And(Shared::new(alloc, members)?))
}

/// The `or` of the members and the negations of the guards.
fn disjunction(alloc: Global, mut members: Items<Form>, guards: &[Form]) -> Result<Form, NoMemory>
    ensures { IfOk result (λ g. g ≡ views.Or (members ++ map views.Not guards.now)) }
{
    put_negations(alloc, guards, &mut members)?;
    Ok(Form::Or(Shared::new(alloc, members)?))
}

/// The formula of a row that comes of one parent: of a goal `F and` the guards, of an assertion `F or not`
/// each guard, and F alone where there are no guards. The guards are shared. The one error is `NoMemory`.
pub fn guarded(alloc: Global, side: Side, form: Form, guards: &[Form]) -> Result<Form, NoMemory>
    ensures { IfOk result (λ f. f ≡ results.guarded side form guards.now) }
{
    match guards {
        [] => Ok(form),
        _ => match side {
            Side::Goal => conjunction(alloc, one_member(alloc, form)?, guards),
            Side::Assertion => disjunction(alloc, one_member(alloc, form)?, guards),
        },
    }
}

/// What stands in a goal for a part: that of an assertion is negated.
fn part_of(alloc: Global, side: Side, form: Form) -> Result<Form, NoMemory>
    ensures { IfOk result (λ f. f ≡ results.part_of side form) }
{
    match side {
        Side::Goal => Ok(form),
        Side::Assertion => negation(alloc, form),
    }
}

/// The `and` of the two and the guards.
fn both_and(alloc: Global, f: Form, g: Form, guards: &[Form]) -> Result<Form, NoMemory>
    ensures { IfOk result (λ h. h ≡ views.And (f ∷ g ∷ guards.now)) }
{
    conjunction(alloc, two_members(alloc, f, g)?, guards)
}

/// The `or` of the two and the negations of the guards.
fn either_or(alloc: Global, f: Form, g: Form, guards: &[Form]) -> Result<Form, NoMemory>
    ensures { IfOk result (λ h. h ≡ views.Or (f ∷ g ∷ map views.Not guards.now)) }
{
    disjunction(alloc, two_members(alloc, f, g)?, guards)
}

/// The goal of both parts and the guards.
fn joined_goal(
    alloc: Global,
    first: Side,
    f: Form,
    second: Side,
    g: Form,
    guards: &[Form],
) -> Result<Form, NoMemory>
    ensures { IfOk result (λ h. h ≡ views.And (results.part_of first f ∷ results.part_of second g ∷ guards.now)) }
{
    match part_of(alloc, first, f) {
        Ok(f) => match part_of(alloc, second, g) {
            Ok(g) => both_and(alloc, f, g, guards),
            Err(error) => {
                drop(f);
                Err(error)
            }
        },
        Err(error) => {
            drop(g);
            Err(error)
        }
    }
}

/// The formula of a row that comes of two parents. Of two assertions it is the assertion `F or G or not`
/// each guard; else it is a goal, the `and` of both parts and the guards, where the part of an assertion is
/// its negation. The guards are shared. The one error is `NoMemory`.
///
/// What is joined of formed parts is formed, and each term and each variable is one of a part. This, and the
/// same of `guarded` and `chosen`, is the record `JoinLaws`.
#[tactic(auto, using(crate::proofs::Joins::join_rules))]
pub fn joined(
    alloc: Global,
    first: Side,
    f: Form,
    second: Side,
    g: Form,
    guards: &[Form],
) -> Result<Form, NoMemory>
    ensures form { IfOk result (λ h. h ≡ results.joined_form first f second g guards.now) }
    ensures laws { JoinLaws }
{
    match first {
        Side::Goal => joined_goal(alloc, first, f, second, g, guards),
        Side::Assertion => match second {
            Side::Goal => joined_goal(alloc, first, f, second, g, guards),
            Side::Assertion => either_or(alloc, f, g, guards),
        },
    }
}

/// The two outputs behind pointers.
fn both_shared(alloc: Global, u: Out, v: Out) -> Result<(Shared<Out>, Shared<Out>), NoMemory>
    ensures { IfOk result (λ both. (both.0 ≡ u) × (both.1 ≡ v)) }
{
    match Shared::new(alloc, u) {
        Err(_) => {
            drop(v);
            Err(NoMemory)
        }
        Ok(u) => match Shared::new(alloc, v) {
            Ok(v) => Ok((u, v)),
            Err(_) => {
                drop(u);
                Err(NoMemory)
            }
        },
    }
}

/// The formula, shared, behind a pointer.
fn shared_form(alloc: Global, f: &Form) -> Result<Shared<Form>, NoMemory>
    ensures { IfOk result (λ g. g ≡ f.now) }
{
    Ok(Shared::new(alloc, f.again()?)?)
}

/// `if P then u else v`.
fn choice(alloc: Global, p: &Form, u: Out, v: Out) -> Result<Out, NoMemory>
    ensures { IfOk result (λ o. o ≡ out_views.If p.now u v) }
{
    let (u, v) = both_shared(alloc, u, v)?;
    match shared_form(alloc, p) {
        Ok(p) => Ok(Out::If(p, u, v)),
        Err(error) => {
            drop(u);
            drop(v);
            Err(error)
        }
    }
}

/// The output of a row that comes of two parents: `if P then` the first's `else` the second's, or the one that
/// is there, or none. The test is shared. The one error is `NoMemory`.
pub fn chosen(
    alloc: Global,
    p: &Form,
    u: Option<Out>,
    v: Option<Out>,
) -> Result<Option<Out>, NoMemory>
    ensures { IfOk result (λ o. o ≡ results.chosen_out p.now u v) }
{
    match u {
        None => Ok(v),
        Some(u) => match v {
            None => Ok(Some(u)),
            Some(v) => match choice(alloc, p, u, v) {
                Ok(o) => Ok(Some(o)),
                Err(error) => Err(error),
            },
        },
    }
}
