// Whether a formula has free variables.
ghost use Rattle.std.specs.Prelude.{◌≡◌, ◌↔◌, [], ◌∷◌, All, Contains, IsTrue};
ghost use Rattle.syn_form.specs.Trees.{term_vars};
ghost use Rattle.syn_model.specs.inner.Closing.{bound_vars};
ghost use Rattle.syn_form.specs.Quantified.{free_vars};
ghost use Rattle.syn_model.specs.Declaring.{AreAmong};

use syn_form::QForm;
use syn_term::{Node, Term, Var};

/// The variables that the quantifiers around a place bind, the innermost first. They stand on the
/// stack of the calls that go into the quantifiers.
#[derive(Clone, Copy)]
enum Bound<'a> {
    Nothing,
    Also(Var, &'a Bound<'a>),
}

/// What is bound outside of all quantifiers.
fn nothing<'a>() -> Bound<'a>
    ensures { bound_vars result ≡ [] }
{
    Bound::Nothing
}

/// What is bound inside a quantifier.
fn also<'a>(v: Var, outer: &'a Bound<'a>) -> Bound<'a>
    ensures { bound_vars result ≡ v ∷ bound_vars outer.now }
{
    Bound::Also(v, outer)
}

/// Whether no variable of the formula is free.
pub(crate) fn is_closed(f: &QForm) -> bool
    ensures { IsTrue result ↔ (free_vars f.now ≡ []) }
{
    form_is_bound(f, &nothing())
}

/// Whether no variable but this one is free in the formula.
pub(crate) fn has_free_only(f: &QForm, v: Var) -> bool
    ensures { IsTrue result ↔ All (λ w. w ≡ v) (free_vars f.now) }
{
    form_is_bound(f, &also(v, &nothing()))
}

/// Whether the two variables are one.
fn are_one(v: Var, w: Var) -> bool
    ensures { IsTrue result ↔ (v ≡ w) }
{
    v == w
}

/// Whether the variable is bound.
fn is_bound(v: Var, bound: &Bound) -> bool
    ensures { IsTrue result ↔ Contains (bound_vars bound.now) v }
{
    match bound {
        Bound::Nothing => false,
        Bound::Also(w, outer) => {
            if are_one(*w, v) {
                true
            } else {
                is_bound(v, outer)
            }
        }
    }
}

/// Whether each variable of the term is bound.
#[cycle(terms)]
fn term_is_bound(t: &Term, bound: &Bound) -> bool
    ensures { IsTrue result ↔ AreAmong (term_vars t.now) (bound_vars bound.now) }
{
    match t.get() {
        Node::Var(_, v) => is_bound(*v, bound),
        Node::App(_, _, args) => terms_are_bound(args.as_slice(), bound),
    }
}

/// The same for each of the terms.
#[cycle(terms)]
fn terms_are_bound(terms: &[Term], bound: &Bound) -> bool
    ensures { IsTrue result ↔ All (λ t. AreAmong (term_vars t) (bound_vars bound.now)) terms.now }
{
    for t in terms {
        if !term_is_bound(t, bound) {
            return false;
        }
    }
    true
}

/// Whether each free variable of the formula is bound.
#[cycle(forms)]
fn form_is_bound(f: &QForm, bound: &Bound) -> bool
    ensures { IsTrue result ↔ AreAmong (free_vars f.now) (bound_vars bound.now) }
{
    match f {
        QForm::True | QForm::False => true,
        QForm::Atom(_, args) => terms_are_bound(args.get().as_slice(), bound),
        QForm::Equal(s, t) => term_is_bound(s, bound) && term_is_bound(t, bound),
        QForm::Not(a) => form_is_bound(a.get(), bound),
        QForm::And(all) | QForm::Or(all) => forms_are_bound(all.get().as_slice(), bound),
        QForm::Implies(a, b) => form_is_bound(a.get(), bound) && form_is_bound(b.get(), bound),
        QForm::All(b, a) | QForm::Exists(b, a) => form_is_bound(a.get(), &also(b.var, &*bound)),
    }
}

/// The same for each of the formulas.
#[cycle(forms)]
fn forms_are_bound(all: &[QForm], bound: &Bound) -> bool
    ensures { IsTrue result ↔ All (λ f. AreAmong (free_vars f) (bound_vars bound.now)) all.now }
{
    for f in all {
        if !form_is_bound(f, bound) {
            return false;
        }
    }
    true
}
