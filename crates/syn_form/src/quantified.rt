// Formulas with quantifiers whose terms have the sorts that they have to have, and whose chains have
// two members or more.
ghost use Rattle.std.specs.Prelude.{◌↔◌, ◌≤◌, All, IsTrue, length};
ghost use Rattle.syn_form.specs.PlainQuantified.{IsFormedQ};

use crate::formed::LEAST_MEMBERS;
use crate::terms::{is_formed_atom, is_formed_equality};
use crate::trees::QForm;
use syn_term::Symbols;

/// Whether each atom of the formula is a relation or order of its sorts, the sides of each equality
/// have one sort, and chains have two members.
#[cycle(qforms)]
pub fn is_formed_qform(syms: &Symbols, f: &QForm) -> bool
    ensures { IsTrue result ↔ IsFormedQ syms.now f.now }
{
    match f {
        QForm::True | QForm::False => true,
        QForm::Atom(r, args) => is_formed_atom(syms, *r, args.get().as_slice()),
        QForm::Equal(s, t) => is_formed_equality(syms, s, t),
        QForm::Not(a) => is_formed_qform(syms, a.get()),
        QForm::All(_, a) | QForm::Exists(_, a) => is_formed_qform(syms, a.get()),
        QForm::And(all) | QForm::Or(all) => is_formed_qchain(syms, all.get().as_slice()),
        QForm::Implies(a, b) => is_formed_qform(syms, a.get()) && is_formed_qform(syms, b.get()),
    }
}

/// Whether there are two formulas or more, and each is formed.
#[cycle(qforms)]
fn is_formed_qchain(syms: &Symbols, all: &[QForm]) -> bool
    ensures { IsTrue result ↔ (2 ≤ length all.now) × All (IsFormedQ syms.now) all.now }
{
    for f in all {
        if !is_formed_qform(syms, f) {
            return false;
        }
    }
    all.len() >= LEAST_MEMBERS
}
