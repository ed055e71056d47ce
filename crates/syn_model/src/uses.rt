// Where the body of a clause uses the symbol that it defines, and whether it may.
ghost use Rattle.std.specs.Prelude.{◌≡◌, ◌↔◌, All, IsTrue};
ghost use Rattle.syn_term.specs.Terms.{head_of};
ghost use Rattle.syn_term.specs.declared.sorts.Head.TheVariants as heads;
ghost use Rattle.syn_model.specs.Clauses.{MayUse, UsesForm, UsesOut, UsesTerm};
ghost use Rattle.syn_model.specs.Specifications.{UsesQForm};

use sqlite_items::at;
use syn_form::{Form, Out, QForm};
use syn_term::{Head, Node, SymId, Term, Var};

/// Where a body may use the symbol that it defines: with this variable at this place, counted from 0.
#[derive(Clone, Copy, Debug)]
pub(crate) struct Rest {
    pub(crate) place: usize,
    pub(crate) var: Var,
}

/// Whether the term is this variable.
fn is_var(t: &Term, v: Var) -> bool
    ensures { IsTrue result ↔ (head_of t.now ≡ heads.Var v) }
{
    t.head() == Head::Var(v)
}

/// Whether the symbol may be used with these arguments.
fn may_use(rest: Option<Rest>, args: &[Term]) -> bool
    ensures { IsTrue result ↔ MayUse rest args.now }
{
    match rest {
        None => false,
        Some(rest) => match at(args, rest.place) {
            None => false,
            Some(t) => is_var(t, rest.var),
        },
    }
}

/// Whether the symbol may stand before these arguments: another than the one that is defined may.
fn may_stand(own: SymId, rest: Option<Rest>, f: SymId, args: &[Term]) -> bool
    ensures { IsTrue result ↔ (f ≡ own → MayUse rest args.now) }
{
    if f == own { may_use(rest, args) } else { true }
}

/// Whether the symbol is used in the term only where it may be, with this variable at this place, or
/// nowhere.
#[cycle(terms)]
pub(crate) fn uses_term(own: SymId, rest: Option<Rest>, t: &Term) -> bool
    ensures { IsTrue result ↔ UsesTerm own rest t.now }
{
    match t.get() {
        Node::Var(_, _) => true,
        Node::App(_, f, args) => {
            may_stand(own, rest, *f, args.as_slice()) && uses_terms(own, rest, args.as_slice())
        }
    }
}

/// The same for each of the terms.
#[cycle(terms)]
fn uses_terms(own: SymId, rest: Option<Rest>, terms: &[Term]) -> bool
    ensures { IsTrue result ↔ All (UsesTerm own rest) terms.now }
{
    for t in terms {
        if !uses_term(own, rest, t) {
            return false;
        }
    }
    true
}

/// Whether the symbol is used in the formula only where it may be.
#[cycle(forms)]
pub(crate) fn uses_form(own: SymId, rest: Option<Rest>, f: &Form) -> bool
    ensures { IsTrue result ↔ UsesForm own rest f.now }
{
    match f {
        Form::True | Form::False => true,
        Form::Atom(r, args) => {
            may_stand(own, rest, *r, args.get().as_slice())
                && uses_terms(own, rest, args.get().as_slice())
        }
        Form::Equal(s, t) => uses_term(own, rest, s) && uses_term(own, rest, t),
        Form::Not(a) => uses_form(own, rest, a.get()),
        Form::And(all) | Form::Or(all) => uses_forms(own, rest, all.get().as_slice()),
        Form::Implies(a, b) => uses_form(own, rest, a.get()) && uses_form(own, rest, b.get()),
    }
}

/// The same for each of the formulas.
#[cycle(forms)]
fn uses_forms(own: SymId, rest: Option<Rest>, all: &[Form]) -> bool
    ensures { IsTrue result ↔ All (UsesForm own rest) all.now }
{
    for f in all {
        if !uses_form(own, rest, f) {
            return false;
        }
    }
    true
}

/// Whether the symbol is used in the output only where it may be.
pub(crate) fn uses_out(own: SymId, rest: Option<Rest>, o: &Out) -> bool
    ensures { IsTrue result ↔ UsesOut own rest o.now }
{
    match o {
        Out::Give(t) => uses_term(own, rest, t),
        Out::If(f, u, v) => {
            if !uses_form(own, rest, f.get()) {
                return false;
            }
            uses_out(own, rest, u.get()) && uses_out(own, rest, v.get())
        }
    }
}

/// Whether the symbol is used in the formula, which may have quantifiers, only where it may be.
#[cycle(qforms)]
pub(crate) fn uses_qform(own: SymId, rest: Option<Rest>, f: &QForm) -> bool
    ensures { IsTrue result ↔ UsesQForm own rest f.now }
{
    match f {
        QForm::True | QForm::False => true,
        QForm::Atom(r, args) => {
            may_stand(own, rest, *r, args.get().as_slice())
                && uses_terms(own, rest, args.get().as_slice())
        }
        QForm::Equal(s, t) => uses_term(own, rest, s) && uses_term(own, rest, t),
        QForm::Not(a) => uses_qform(own, rest, a.get()),
        QForm::And(all) | QForm::Or(all) => uses_qforms(own, rest, all.get().as_slice()),
        QForm::Implies(a, b) => uses_qform(own, rest, a.get()) && uses_qform(own, rest, b.get()),
        QForm::All(_, a) | QForm::Exists(_, a) => uses_qform(own, rest, a.get()),
    }
}

/// The same for each of the formulas.
#[cycle(qforms)]
fn uses_qforms(own: SymId, rest: Option<Rest>, all: &[QForm]) -> bool
    ensures { IsTrue result ↔ All (UsesQForm own rest) all.now }
{
    for f in all {
        if !uses_qform(own, rest, f) {
            return false;
        }
    }
    true
}
