// The variables of trees, and whether each number has one sort among them.
ghost use Rattle.std.specs.Prelude.{◌≡◌, ◌↔◌, [], ◌∷◌, ◌++◌, nat_eq, IfOk, IsTrue, OnOk};
ghost use Rattle.std.specs.List.{flat_map};
ghost use Rattle.indexmap.specs.IndexMap.{get};
ghost use Rattle.syn_form.specs.Plain.{HasOneSortEach};
ghost use Rattle.syn_form.specs.Quantified.{qform_vars};
ghost use Rattle.syn_form.specs.Trees.{form_vars, out_vars, term_vars};
ghost use Rattle.syn_form.specs.inner.NotedSorts.{IsNoted};

use crate::sorts::same_sort;
use crate::trees::{Form, Out, QForm};
use indexmap::IndexMap;
use sqlite_items::Items;
use std::alloc::Global;
use syn_term::{NoMemory, Node, Sort, Term, Var};

/// The sort that was noted for the number.
fn noted(sorts: &IndexMap<u32, Sort>, number: u32) -> Option<Sort>
    ensures { result ≡ get nat_eq sorts.now number }
{
    match sorts.get(&number) {
        None => None,
        Some(sort) => Some(*sort),
    }
}

/// Notes the sort of the variable; false where another was noted for its number.
fn note(sorts: &mut IndexMap<u32, Sort>, var: Var) -> Result<bool, NoMemory>
    ensures { IfOk result (λ kept. IsNoted (get nat_eq sorts.old) (get nat_eq sorts.new) var kept) }
{
    match noted(sorts, var.number) {
        Some(sort) => Ok(same_sort(sort, var.sort)),
        None => match sorts.insert(var.number, var.sort) {
            Ok(_) => Ok(true),
            Err(_) => Err(NoMemory),
        },
    }
}

/// Whether no number has two sorts among the variables.
fn have_one_sort_each(alloc: Global, vars: &[Var]) -> Result<bool, NoMemory>
    ensures { IfOk result (λ b. IsTrue b ↔ HasOneSortEach vars.now) }
{
    let mut sorts: IndexMap<u32, Sort> = IndexMap::new(alloc);
    for i in 0..vars.len() {
        if !note(&mut sorts, vars[i])? {
            return Ok(false);
        }
    }
    Ok(true)
}

/// Puts the variable behind the others.
fn put_var(vars: &mut Items<Var>, v: Var) -> Result<(), NoMemory>
    ensures { OnOk result (vars.new ≡ vars.old ++ v ∷ []) }
{
    match vars.push(v) {
        Ok(()) => Ok(()),
        Err(_) => Err(NoMemory),
    }
}

/// Puts the variables of the term behind the others.
#[cycle(terms)]
fn put_term_vars(vars: &mut Items<Var>, t: &Term) -> Result<(), NoMemory>
    ensures { OnOk result (vars.new ≡ vars.old ++ term_vars t.now) }
{
    match t.get() {
        Node::Var(_, v) => Ok(vars.push(*v)?),
        Node::App(_, _, args) => put_all_vars(vars, args.as_slice()),
    }
}

/// Puts the variables of the terms behind the others, in order. The one error is want of memory.
#[cycle(terms)]
pub fn put_all_vars(vars: &mut Items<Var>, terms: &[Term]) -> Result<(), NoMemory>
    ensures { OnOk result (vars.new ≡ vars.old ++ flat_map term_vars terms.now) }
{
    for t in terms {
        put_term_vars(vars, t)?;
    }
    Ok(())
}

/// Puts the variables of both terms behind the others.
fn put_two_terms_vars(vars: &mut Items<Var>, s: &Term, t: &Term) -> Result<(), NoMemory>
    ensures { OnOk result (vars.new ≡ vars.old ++ (term_vars s.now ++ term_vars t.now)) }
{
    put_term_vars(vars, s)?;
    put_term_vars(vars, t)
}

/// Puts the variables of the formula behind the others.
#[cycle(forms)]
fn put_form_vars(vars: &mut Items<Var>, f: &Form) -> Result<(), NoMemory>
    ensures { OnOk result (vars.new ≡ vars.old ++ form_vars f.now) }
{
    match f {
        Form::True | Form::False => Ok(()),
        Form::Atom(_, args) => put_all_vars(vars, args.get().as_slice()),
        Form::Equal(s, t) => put_two_terms_vars(vars, s, t),
        Form::Not(a) => put_form_vars(vars, a.get()),
        Form::And(all) | Form::Or(all) => put_forms_vars(vars, all.get().as_slice()),
        Form::Implies(a, b) => {
            put_form_vars(vars, a.get())?;
            put_form_vars(vars, b.get())
        }
    }
}

/// Puts the variables of the formulas behind the others.
#[cycle(forms)]
fn put_forms_vars(vars: &mut Items<Var>, all: &[Form]) -> Result<(), NoMemory>
    ensures { OnOk result (vars.new ≡ vars.old ++ flat_map form_vars all.now) }
{
    for f in all {
        put_form_vars(vars, f)?;
    }
    Ok(())
}

/// Puts the variables of the formula behind the others, those of its binders too.
#[cycle(qforms)]
fn put_qform_vars(vars: &mut Items<Var>, f: &QForm) -> Result<(), NoMemory>
    ensures { OnOk result (vars.new ≡ vars.old ++ qform_vars f.now) }
{
    match f {
        QForm::True | QForm::False => Ok(()),
        QForm::Atom(_, args) => put_all_vars(vars, args.get().as_slice()),
        QForm::Equal(s, t) => put_two_terms_vars(vars, s, t),
        QForm::Not(a) => put_qform_vars(vars, a.get()),
        QForm::And(all) | QForm::Or(all) => put_qforms_vars(vars, all.get().as_slice()),
        QForm::Implies(a, b) => {
            put_qform_vars(vars, a.get())?;
            put_qform_vars(vars, b.get())
        }
        QForm::All(b, a) | QForm::Exists(b, a) => put_bound_vars(vars, b.var, a.get()),
    }
}

/// Puts the variable of a quantifier behind the others, and those of its formula.
#[cycle(qforms)]
fn put_bound_vars(vars: &mut Items<Var>, v: Var, a: &QForm) -> Result<(), NoMemory>
    ensures { OnOk result (vars.new ≡ vars.old ++ v ∷ qform_vars a.now) }
{
    put_var(vars, v)?;
    put_qform_vars(vars, a)
}

/// Puts the variables of the formulas behind the others, those of their binders too.
#[cycle(qforms)]
fn put_qforms_vars(vars: &mut Items<Var>, all: &[QForm]) -> Result<(), NoMemory>
    ensures { OnOk result (vars.new ≡ vars.old ++ flat_map qform_vars all.now) }
{
    for f in all {
        put_qform_vars(vars, f)?;
    }
    Ok(())
}

/// Puts the variables of the output behind the others.
fn put_out_vars(vars: &mut Items<Var>, o: &Out) -> Result<(), NoMemory>
    ensures { OnOk result (vars.new ≡ vars.old ++ out_vars o.now) }
{
    match o {
        Out::Give(t) => put_term_vars(vars, t),
        Out::If(f, u, v) => {
            put_form_vars(vars, f.get())?;
            put_out_vars(vars, u.get())?;
            put_out_vars(vars, v.get())
        }
    }
}

/// Whether no number has two sorts among the variables of the term. The one error is want of memory.
pub fn term_has_one_sort_each(alloc: Global, t: &Term) -> Result<bool, NoMemory>
    ensures { IfOk result (λ b. IsTrue b ↔ HasOneSortEach (term_vars t.now)) }
{
    let mut vars = Items::new(alloc);
    put_term_vars(&mut vars, t)?;
    have_one_sort_each(alloc, vars.as_slice())
}

/// The same for a formula without quantifiers.
pub fn form_has_one_sort_each(alloc: Global, f: &Form) -> Result<bool, NoMemory>
    ensures { IfOk result (λ b. IsTrue b ↔ HasOneSortEach (form_vars f.now)) }
{
    let mut vars = Items::new(alloc);
    put_form_vars(&mut vars, f)?;
    have_one_sort_each(alloc, vars.as_slice())
}

/// The same for a formula; the variables of its binders are among its own.
pub fn qform_has_one_sort_each(alloc: Global, f: &QForm) -> Result<bool, NoMemory>
    ensures { IfOk result (λ b. IsTrue b ↔ HasOneSortEach (qform_vars f.now)) }
{
    let mut vars = Items::new(alloc);
    put_qform_vars(&mut vars, f)?;
    have_one_sort_each(alloc, vars.as_slice())
}

/// The same for an output.
pub fn out_has_one_sort_each(alloc: Global, o: &Out) -> Result<bool, NoMemory>
    ensures { IfOk result (λ b. IsTrue b ↔ HasOneSortEach (out_vars o.now)) }
{
    let mut vars = Items::new(alloc);
    put_out_vars(&mut vars, o)?;
    have_one_sort_each(alloc, vars.as_slice())
}
