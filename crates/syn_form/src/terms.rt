// Terms whose symbols have arguments of their sorts and whose subterms have sorts of the table, and the
// atoms and equalities of such terms.
ghost use Rattle.std.specs.Prelude.{◌≡◌, ◌↔◌, All, IsTrue};
ghost use Rattle.syn_term.specs.Terms.{sort_of};
ghost use Rattle.syn_form.specs.Plain.{IsAtom, IsSorted};

use crate::sorts::{is_atom, is_sort, makes_sorted};
use syn_term::{Node, SymId, Symbols, Term};

/// Whether each symbol of the term has arguments of its sorts, and each subterm a sort of the table.
#[cycle(terms)]
pub fn is_sorted(syms: &Symbols, t: &Term) -> bool
    ensures { IsTrue result ↔ IsSorted syms.now t.now }
{
    match t.get() {
        Node::Var(_, v) => is_sort(syms, v.sort),
        Node::App(_, f, args) => {
            makes_sorted(syms, *f, args.as_slice()) && are_sorted(syms, args.as_slice())
        }
    }
}

/// The same for each of the terms.
#[cycle(terms)]
pub fn are_sorted(syms: &Symbols, terms: &[Term]) -> bool
    ensures { IsTrue result ↔ All (IsSorted syms.now) terms.now }
{
    for t in terms {
        if !is_sorted(syms, t) {
            return false;
        }
    }
    true
}

/// Whether the symbol makes an atom of the terms, and the terms are sorted.
pub(crate) fn is_formed_atom(syms: &Symbols, r: SymId, args: &[Term]) -> bool
    ensures { IsTrue result ↔ IsAtom syms.now r args.now × All (IsSorted syms.now) args.now }
{
    is_atom(syms, r, args) && are_sorted(syms, args)
}

/// Whether the terms are sorted, and of one sort.
pub(crate) fn is_formed_equality(syms: &Symbols, s: &Term, t: &Term) -> bool
    ensures { IsTrue result ↔ IsSorted syms.now s.now × IsSorted syms.now t.now × (sort_of syms.now s.now ≡ sort_of syms.now t.now) }
{
    is_sorted(syms, s) && is_sorted(syms, t) && s.sort_in(syms) == t.sort_in(syms)
}
