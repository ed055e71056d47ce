// The variables of a row, each once, in the order in which they first occur.
ghost use Rattle.std.specs.Prelude.{◌≡◌, ◌↔◌, ◌∷◌, [], Contains, IfOk, IsTrue, OnOk};
ghost use Rattle.std.specs.List.{flat_map};
ghost use Rattle.std.specs.Option.{option_map_or};
ghost use Rattle.syn_form.specs.Trees.{form_vars, out_vars, term_vars};
ghost use Rattle.syn_row.specs.Rows.{first_occurrences, row_vars};
ghost use Rattle.syn_row.specs.inner.Noting.{noted};

use crate::rows::Row;
use sqlite_items::Items;
use std::alloc::Global;
use syn_form::{Form, Out};
use syn_term::{NoMemory, Node, Term, Var};

/// Whether the variable is one of these.
fn is_noted(vars: &[Var], v: Var) -> bool
    ensures { IsTrue result ↔ Contains vars.now v }
{
    vars.contains(&v)
}

/// Notes the variable, unless it is noted already.
fn note_var(vars: &mut Items<Var>, v: Var) -> Result<(), NoMemory>
    ensures { OnOk result (vars.new ≡ noted vars.old (v ∷ [])) }
{
    if is_noted(vars.as_slice(), v) {
        return Ok(());
    }
    Ok(vars.push(v)?)
}

/// Notes the variables of the term, from the left.
#[cycle(terms)]
fn note_term(vars: &mut Items<Var>, t: &Term) -> Result<(), NoMemory>
    ensures { OnOk result (vars.new ≡ noted vars.old (term_vars t.now)) }
{
    match t.get() {
        Node::Var(_, v) => note_var(vars, *v),
        Node::App(_, _, args) => note_terms(vars, args.as_slice()),
    }
}

/// Notes the variables of the terms, in order.
#[cycle(terms)]
fn note_terms(vars: &mut Items<Var>, terms: &[Term]) -> Result<(), NoMemory>
    ensures { OnOk result (vars.new ≡ noted vars.old (flat_map term_vars terms.now)) }
{
    for t in terms {
        note_term(vars, t)?;
    }
    Ok(())
}

/// Notes the variables of both terms.
fn note_sides(vars: &mut Items<Var>, s: &Term, t: &Term) -> Result<(), NoMemory>
    ensures { OnOk result (vars.new ≡ noted (noted vars.old (term_vars s.now)) (term_vars t.now)) }
{
    note_term(vars, s)?;
    note_term(vars, t)
}

/// Notes the variables of the formula.
#[cycle(forms)]
fn note_form(vars: &mut Items<Var>, f: &Form) -> Result<(), NoMemory>
    ensures { OnOk result (vars.new ≡ noted vars.old (form_vars f.now)) }
{
    match f {
        Form::True | Form::False => Ok(()),
        Form::Atom(_, args) => note_terms(vars, args.get().as_slice()),
        Form::Equal(s, t) => note_sides(vars, s, t),
        Form::Not(a) => note_form(vars, a.get()),
        Form::And(all) | Form::Or(all) => note_forms(vars, all.get().as_slice()),
        Form::Implies(a, b) => {
            note_form(vars, a.get())?;
            note_form(vars, b.get())
        }
    }
}

/// Notes the variables of the formulas, in order.
#[cycle(forms)]
fn note_forms(vars: &mut Items<Var>, all: &[Form]) -> Result<(), NoMemory>
    ensures { OnOk result (vars.new ≡ noted vars.old (flat_map form_vars all.now)) }
{
    for f in all {
        note_form(vars, f)?;
    }
    Ok(())
}

/// Notes the variables of the output: those of a test before those of the arms.
fn note_out(vars: &mut Items<Var>, o: &Out) -> Result<(), NoMemory>
    ensures { OnOk result (vars.new ≡ noted vars.old (out_vars o.now)) }
{
    match o {
        Out::Give(t) => note_term(vars, t),
        Out::If(f, u, v) => {
            note_form(vars, f.get())?;
            note_out(vars, u.get())?;
            note_out(vars, v.get())
        }
    }
}

/// Notes the variables of the output, where there is one.
fn note_output(vars: &mut Items<Var>, out: &Option<Out>) -> Result<(), NoMemory>
    ensures { OnOk result (vars.new ≡ noted vars.old (option_map_or out_vars out.now [])) }
{
    match out {
        None => Ok(()),
        Some(out) => note_out(vars, out),
    }
}

/// The variables of the row, each once, in the order in which they first occur: in the formula, then
/// in the output.
pub(crate) fn occurrences(alloc: Global, row: &Row) -> Result<Items<Var>, NoMemory>
    ensures { IfOk result (λ vars. vars ≡ first_occurrences (row_vars row.now)) }
{
    let mut vars = Items::new(alloc);
    note_form(&mut vars, &row.form)?;
    note_output(&mut vars, &row.out)?;
    Ok(vars)
}

/// The variables of the output, each once, in the order in which they first occur: those of a test
/// before those of the arms. The one error is `NoMemory`.
pub fn output_occurrences(alloc: Global, out: &Out) -> Result<Items<Var>, NoMemory>
    ensures { IfOk result (λ vars. vars ≡ first_occurrences (out_vars out.now)) }
{
    let mut vars = Items::new(alloc);
    note_out(&mut vars, out)?;
    Ok(vars)
}
