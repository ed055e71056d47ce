// What functions, relations and orders ask besides that the table takes their symbol, and sorts for
// the names that they bring.
ghost use Rattle.std.specs.Prelude.{◌≡◌, ◌↔◌, ◌≤◌, [], ◌∷◌, All, IsTrue, Some, length};
ghost use Rattle.syn_form.specs.Plain.{IsSorted};
ghost use Rattle.syn_form.specs.Trees.{term_vars};
ghost use Rattle.syn_term.specs.Terms.{sort_of};
ghost use Rattle.syn_term.specs.declared.sorts.Sort.TheVariants as sorts;
ghost use Rattle.syn_model.specs.Declaring.{AsksHead, AsksOrder, IsNumberedIn, IsOtherwiseFree};

use crate::among::is_measured_in;
use crate::theory::Theory;
use syn_form::is_sorted;
use syn_term::{Sort, Symbols, Term};

/// Whether no axiom and no monotonicity row has the name.
fn is_otherwise_free(theory: &Theory, name: &str) -> bool
    ensures { IsTrue result ↔ IsOtherwiseFree (theory.now).decls name.now }
{
    !theory.has_other(name)
}

/// Whether no axiom and no monotonicity row has one of the two names.
pub(crate) fn are_both_free(theory: &Theory, first: &str, second: &str) -> bool
    ensures { IsTrue result ↔ All (IsOtherwiseFree (theory.now).decls) (first.now ∷ second.now ∷ []) }
{
    is_otherwise_free(theory, first) && is_otherwise_free(theory, second)
}

/// Whether no axiom and no monotonicity row has one of the three names.
pub(crate) fn are_all_free(theory: &Theory, first: &str, second: &str, third: &str) -> bool
    ensures { IsTrue result ↔ All (IsOtherwiseFree (theory.now).decls) (first.now ∷ second.now ∷ third.now ∷ []) }
{
    is_otherwise_free(theory, first) && are_both_free(theory, second, third)
}

/// How many arguments a function or a relation has at most.
const MOST_ARGUMENTS: usize = 64;

/// How many arguments an order compares at most.
const MOST_COMPARED: usize = 4;

/// Whether the sorts are so many, at least one.
fn are_few(args: &[Sort], most: usize) -> bool
    ensures { IsTrue result ↔ (1 ≤ length args.now) × (length args.now ≤ most) }
{
    !args.is_empty() && args.len() <= most
}

/// Whether a function or relation of this name, with these arguments, asks nothing more.
pub(crate) fn asks_head(theory: &Theory, name: &str, args: &[Sort]) -> bool
    ensures { IsTrue result ↔ AsksHead (theory.now).decls name.now args.now }
{
    is_otherwise_free(theory, name) && are_few(args, MOST_ARGUMENTS)
}

/// Whether the term is a number.
fn is_number(syms: &Symbols, t: &Term) -> bool
    ensures { IsTrue result ↔ (sort_of syms.now t.now ≡ Some sorts.Nat) }
{
    t.sort_in(syms) == Some(Sort::Nat)
}

/// Whether the term is a number over variables of these sorts.
fn is_measure(syms: &Symbols, args: &[Sort], measure: &Term) -> bool
    ensures { IsTrue result ↔ IsSorted syms.now measure.now × (sort_of syms.now measure.now ≡ Some sorts.Nat) × All (IsNumberedIn args.now) (term_vars measure.now) }
{
    is_sorted(syms, measure) && is_number(syms, measure) && is_measured_in(measure, args)
}

/// Whether an order asks nothing more than that the table takes its symbol.
pub(crate) fn asks_order(theory: &Theory, name: &str, args: &[Sort], measure: &Term) -> bool
    ensures { IsTrue result ↔ AsksOrder (theory.now).decls name.now args.now measure.now }
{
    if !is_otherwise_free(theory, name) {
        return false;
    }
    are_few(args, MOST_COMPARED) && is_measure(theory.symbols(), args, measure)
}
