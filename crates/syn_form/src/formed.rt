// Formulas and outputs without quantifiers whose terms have the sorts that they have to have, and whose
// chains have two members or more.
ghost use Rattle.std.specs.Prelude.{◌≡◌, ◌↔◌, ◌≤◌, All, IsTrue, length};
ghost use Rattle.syn_form.specs.Plain as plain;
ghost use Rattle.syn_form.specs.Plain.{IsFormed, IsFormedOut};

use crate::sorts::given_sort;
use crate::terms::{is_formed_atom, is_formed_equality, is_sorted};
use crate::trees::{Form, Out};
use syn_term::Symbols;

/// So many members has a chain at least.
pub(crate) const LEAST_MEMBERS: usize = 2;

/// Whether each atom of the formula is a relation or order of its sorts, the sides of each equality
/// have one sort, and chains have two members.
#[cycle(forms)]
pub fn is_formed_form(syms: &Symbols, f: &Form) -> bool
    ensures { IsTrue result ↔ IsFormed syms.now f.now }
{
    match f {
        Form::True | Form::False => true,
        Form::Atom(r, args) => is_formed_atom(syms, *r, args.get().as_slice()),
        Form::Equal(s, t) => is_formed_equality(syms, s, t),
        Form::Not(a) => is_formed_form(syms, a.get()),
        Form::And(all) | Form::Or(all) => is_formed_chain(syms, all.get().as_slice()),
        Form::Implies(a, b) => is_formed_form(syms, a.get()) && is_formed_form(syms, b.get()),
    }
}

/// Whether there are two formulas or more, and each is formed.
#[cycle(forms)]
fn is_formed_chain(syms: &Symbols, all: &[Form]) -> bool
    ensures { IsTrue result ↔ (2 ≤ length all.now) × All (IsFormed syms.now) all.now }
{
    for f in all {
        if !is_formed_form(syms, f) {
            return false;
        }
    }
    all.len() >= LEAST_MEMBERS
}

/// Whether the outputs give terms of one sort.
fn give_one_sort(syms: &Symbols, u: &Out, v: &Out) -> bool
    ensures { IsTrue result ↔ (plain.given_sort syms.now u.now ≡ plain.given_sort syms.now v.now) }
{
    given_sort(syms, u) == given_sort(syms, v)
}

/// Whether the test is formed, and both arms give terms of one sort.
fn is_formed_choice(syms: &Symbols, f: &Form, u: &Out, v: &Out) -> bool
    ensures { IsTrue result ↔ IsFormed syms.now f.now × (plain.given_sort syms.now u.now ≡ plain.given_sort syms.now v.now) }
{
    is_formed_form(syms, f) && give_one_sort(syms, u, v)
}

/// Whether each test of the output is formed, and both arms of each choice give terms of one sort.
pub fn is_formed_out(syms: &Symbols, o: &Out) -> bool
    ensures { IsTrue result ↔ IsFormedOut syms.now o.now }
{
    match o {
        Out::Give(t) => is_sorted(syms, t),
        Out::If(f, u, v) => {
            if !is_formed_choice(syms, f.get(), u.get(), v.get()) {
                return false;
            }
            is_formed_out(syms, u.get()) && is_formed_out(syms, v.get())
        }
    }
}
