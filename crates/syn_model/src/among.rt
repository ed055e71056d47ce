// Whether the variables of a tree are among others.
ghost use Rattle.std.specs.Prelude.{◌↔◌, All, Contains, IsTrue};
ghost use Rattle.syn_form.specs.Trees.{form_vars, out_vars, term_vars};
ghost use Rattle.syn_model.specs.Declaring.{AreAmong, IsNumberedIn};

use sqlite_items::at;
use syn_form::{Form, Out};
use syn_term::{Node, Sort, Term, Var};

/// Whether the variable is one of these.
fn is_one_of(v: Var, vars: &[Var]) -> bool
    ensures { IsTrue result ↔ Contains vars.now v }
{
    vars.contains(&v)
}

/// Whether the variable is numbered from 1 in these sorts.
fn is_numbered_in(v: Var, sorts: &[Sort]) -> bool
    ensures { IsTrue result ↔ IsNumberedIn sorts.now v }
{
    if v.number == 0 {
        return false;
    }
    match at(sorts, v.number as usize - 1) {
        None => false,
        Some(sort) => *sort == v.sort,
    }
}

/// Whether each variable of the term is one of these.
#[cycle(over)]
pub(crate) fn term_is_over(t: &Term, vars: &[Var]) -> bool
    ensures { IsTrue result ↔ AreAmong (term_vars t.now) vars.now }
{
    match t.get() {
        Node::Var(_, v) => is_one_of(*v, vars),
        Node::App(_, _, args) => terms_are_over(args.as_slice(), vars),
    }
}

/// The same for each of the terms.
#[cycle(over)]
fn terms_are_over(terms: &[Term], vars: &[Var]) -> bool
    ensures { IsTrue result ↔ All (λ t. AreAmong (term_vars t) vars.now) terms.now }
{
    for t in terms {
        if !term_is_over(t, vars) {
            return false;
        }
    }
    true
}

/// Whether each variable of the formula is one of these.
#[cycle(forms)]
pub(crate) fn form_is_over(f: &Form, vars: &[Var]) -> bool
    ensures { IsTrue result ↔ AreAmong (form_vars f.now) vars.now }
{
    match f {
        Form::True | Form::False => true,
        Form::Atom(_, args) => terms_are_over(args.get().as_slice(), vars),
        Form::Equal(s, t) => term_is_over(s, vars) && term_is_over(t, vars),
        Form::Not(a) => form_is_over(a.get(), vars),
        Form::And(all) | Form::Or(all) => forms_are_over(all.get().as_slice(), vars),
        Form::Implies(a, b) => form_is_over(a.get(), vars) && form_is_over(b.get(), vars),
    }
}

/// The same for each of the formulas.
#[cycle(forms)]
fn forms_are_over(all: &[Form], vars: &[Var]) -> bool
    ensures { IsTrue result ↔ All (λ f. AreAmong (form_vars f) vars.now) all.now }
{
    for f in all {
        if !form_is_over(f, vars) {
            return false;
        }
    }
    true
}

/// Whether each variable of the output is one of these.
pub(crate) fn out_is_over(o: &Out, vars: &[Var]) -> bool
    ensures { IsTrue result ↔ AreAmong (out_vars o.now) vars.now }
{
    match o {
        Out::Give(t) => term_is_over(t, vars),
        Out::If(f, u, v) => {
            if !form_is_over(f.get(), vars) {
                return false;
            }
            out_is_over(u.get(), vars) && out_is_over(v.get(), vars)
        }
    }
}

/// Whether each variable of the term is numbered from 1 in these sorts.
#[cycle(measured)]
pub(crate) fn is_measured_in(t: &Term, sorts: &[Sort]) -> bool
    ensures { IsTrue result ↔ All (IsNumberedIn sorts.now) (term_vars t.now) }
{
    match t.get() {
        Node::Var(_, v) => is_numbered_in(*v, sorts),
        Node::App(_, _, args) => are_measured_in(args.as_slice(), sorts),
    }
}

/// The same for each of the terms.
#[cycle(measured)]
fn are_measured_in(terms: &[Term], sorts: &[Sort]) -> bool
    ensures { IsTrue result ↔ All (λ t. All (IsNumberedIn sorts.now) (term_vars t)) terms.now }
{
    for t in terms {
        if !is_measured_in(t, sorts) {
            return false;
        }
    }
    true
}
