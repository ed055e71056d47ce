// Which clause may come behind which others, and whether its arguments are as the heading asks.
ghost use Rattle.std.specs.Prelude.{◌≡◌, ◌≢◌, ◌↔◌, ◌≤◌, ◌&&◌, ◌^◌, [], ◌∷◌, All, IfSome, IsTrue, Some, length, map, nat_eq};
ghost use Rattle.std.specs.List.{flat_map, range_with_len};
ghost use Rattle.syn_term.specs.declared.sorts.Kind.TheVariants as kinds;
ghost use Rattle.syn_term.specs.Terms.{IsApplication, args_of, sort_of};
ghost use Rattle.syn_form.specs.Plain.{IsSorted};
ghost use Rattle.syn_form.specs.Trees.{term_vars};
ghost use Rattle.syn_model.specs.Clauses as clauses;
ghost use Rattle.syn_model.specs.Clauses.{HasArguments, IsVariable};
ghost use Rattle.syn_model.specs.Headings as headings;
ghost use Rattle.syn_model.specs.Headings.{patterns_of};
ghost use Rattle.syn_model.specs.inner.Views.{IsClause, clause_args, later, numbered_from};

use crate::decl::Decl;
use crate::headings::arguments_in;
use crate::patterns::{Pattern, Patterns, Role, patterns_in, role_of};
use crate::uses::Rest;
use sqlite_items::at;
use syn_form::are_sorted;
use syn_term::{Head, Node, Sort, Symbols, Term, Var, have_sorts};

/// Whether the pattern of a first clause may be this for its sort.
fn begins_with(role: Role) -> bool
    ensures { result ≡ clauses.begins_with role }
{
    matches!(role, Role::FirstOfTwo | Role::OnlyOne)
}

/// Whether the patterns of two clauses may be these for their sorts.
fn go_together(first: Role, second: Role) -> bool
    ensures { result ≡ clauses.go_together first second }
{
    matches!((first, second), (Role::FirstOfTwo, Role::SecondOfTwo))
}

/// Whether a clause with these arguments may be the first, and where its body may use the symbol
/// that it defines.
fn first_turn(syms: &Symbols, args: &[Term]) -> Option<Option<Rest>>
    ensures { result ≡ clauses.first_turn syms.now (patterns_of args.now) }
{
    match patterns_in(args) {
        Patterns::Nothing => Some(None),
        Patterns::One(pattern) => {
            if begins_with(role_of(syms, pattern)) {
                Some(None)
            } else {
                None
            }
        }
        Patterns::Several(_) => None,
    }
}

/// The later one where there is one.
fn later(found: Option<Var>, next: Option<Var>) -> Option<Var>
    ensures { result ≡ later found next }
{
    match next {
        None => found,
        Some(var) => Some(var),
    }
}

/// The last variable of the term.
fn last_var(t: &Term) -> Option<Var>
    ensures { result ≡ clauses.last_var (term_vars t.now) }
{
    match t.get() {
        Node::Var(_, v) => Some(*v),
        Node::App(_, _, args) => {
            let mut found = None;
            for arg in args.as_slice() {
                found = later(found, last_var(arg));
            }
            found
        }
    }
}

/// The last variable of the argument at the place.
fn rest_at(args: &[Term], place: usize) -> Option<Rest>
    ensures { result ≡ clauses.rest_at args.now place }
{
    match at(args, place) {
        None => None,
        Some(t) => match last_var(t) {
            None => None,
            Some(var) => Some(Rest { place, var }),
        },
    }
}

/// Whether the second pattern goes with the first.
fn is_second(syms: &Symbols, first: Pattern, second: Pattern) -> bool
    ensures { result ≡ (clauses.go_together (headings.role_of syms.now first) (headings.role_of syms.now second) && nat_eq first.place second.place) }
{
    go_together(role_of(syms, first), role_of(syms, second)) && first.place == second.place
}

/// Whether a clause with this pattern may be the second, and where its body may use the symbol
/// that it defines.
fn second_with(
    syms: &Symbols,
    args: &[Term],
    first: Pattern,
    second: Pattern,
) -> Option<Option<Rest>>
    ensures { result ≡ clauses.second_turn syms.now args.now (first ∷ []) (second ∷ []) }
{
    if !is_second(syms, first, second) {
        return None;
    }
    match rest_at(args, second.place) {
        None => None,
        Some(rest) => Some(Some(rest)),
    }
}

/// Whether a clause with these arguments may be the second, and where its body may use the symbol
/// that it defines.
fn second_turn(syms: &Symbols, earlier: &[Term], args: &[Term]) -> Option<Option<Rest>>
    ensures { result ≡ clauses.second_turn syms.now args.now (patterns_of earlier.now) (patterns_of args.now) }
{
    match (patterns_in(earlier), patterns_in(args)) {
        (Patterns::One(first), Patterns::One(second)) => second_with(syms, args, first, second),
        _ => None,
    }
}

/// Whether a clause with these arguments may come behind this one.
fn turn_after(syms: &Symbols, earlier: &Decl, args: &[Term]) -> Option<Option<Rest>>
    requires { IsClause earlier.now }
    ensures { result ≡ clauses.turn_of syms.now (clause_args earlier.now) args.now }
{
    match arguments_in(earlier) {
        None => None,
        Some(others) => second_turn(syms, others, args),
    }
}

/// Whether the clause with these arguments may come behind the others, and where its body may use
/// the symbol that it defines.
pub(crate) fn turn_of(syms: &Symbols, earlier: &[Decl], args: &[Term]) -> Option<Option<Rest>>
    requires { All IsClause earlier.now }
    ensures { result ≡ clauses.turn_of syms.now (flat_map clause_args earlier.now) args.now }
{
    match earlier {
        [] => first_turn(syms, args),
        [clause] => turn_after(syms, clause, args),
        _ => None,
    }
}

/// Whether the term is a variable.
fn is_variable(t: &Term) -> bool
    ensures { IsTrue result ↔ IsVariable t.now }
{
    matches!(t.head(), Head::Var(_))
}

/// Whether the terms are variables.
fn are_variables(terms: &[Term]) -> bool
    ensures { IsTrue result ↔ All IsVariable terms.now }
{
    for t in terms {
        if !is_variable(t) {
            return false;
        }
    }
    true
}

/// Whether the term is a variable or a symbol over variables.
fn is_flat(t: &Term) -> bool
    ensures { IsTrue result ↔ All IsVariable (args_of t.now) }
{
    match t.get() {
        Node::Var(_, _) => true,
        Node::App(_, _, args) => are_variables(args.as_slice()),
    }
}

/// Whether each term is a variable or a symbol over variables.
fn are_flat(terms: &[Term]) -> bool
    ensures { IsTrue result ↔ All (λ t. All IsVariable (args_of t)) terms.now }
{
    for t in terms {
        if !is_flat(t) {
            return false;
        }
    }
    true
}

/// The number after that of the variable, where it has this one.
fn numbered_var(next: u64, var: Var) -> Option<u64>
    requires { next ≤ 2 ^ 32 }
    ensures number { result ≡ numbered_from next (var ∷ []) }
    ensures within { IfSome result (λ n. n ≤ 2 ^ 32) }
{
    if u64::from(var.number) == next {
        Some(next + 1)
    } else {
        None
    }
}

/// The number after those of the term's variables, where they are numbered from this one.
#[cycle(numbered)]
fn numbered_term(next: u64, t: &Term) -> Option<u64>
    requires { next ≤ 2 ^ 32 }
    ensures number { result ≡ numbered_from next (term_vars t.now) }
    ensures within { IfSome result (λ n. n ≤ 2 ^ 32) }
{
    match t.get() {
        Node::Var(_, v) => numbered_var(next, *v),
        Node::App(_, _, args) => numbered_terms(next, args.as_slice()),
    }
}

/// The number after those of the terms' variables, where they are numbered from this one.
#[cycle(numbered)]
fn numbered_terms(next: u64, terms: &[Term]) -> Option<u64>
    requires { next ≤ 2 ^ 32 }
    ensures number { result ≡ numbered_from next (flat_map term_vars terms.now) }
    ensures within { IfSome result (λ n. n ≤ 2 ^ 32) }
{
    let mut number = next;
    for t in terms {
        match numbered_term(number, t) {
            None => return None,
            Some(after) => number = after,
        }
    }
    Some(number)
}

/// Whether the variables are numbered from 1 in the order in which they stand.
fn are_numbered(terms: &[Term]) -> bool
    ensures { IsTrue result ↔ (map (λ v. v.number) (flat_map term_vars terms.now) ≡ range_with_len 1 (length (flat_map term_vars terms.now))) }
{
    numbered_terms(1, terms).is_some()
}

/// Whether the arguments are of these sorts, each a variable or a symbol over variables, numbered
/// from 1.
pub(crate) fn has_arguments(syms: &Symbols, sorts: &[Sort], args: &[Term]) -> bool
    ensures { IsTrue result ↔ HasArguments syms.now sorts.now args.now }
{
    if !are_flat(args) {
        return false;
    }
    if !are_sorted(syms, args) {
        return false;
    }
    if !have_sorts(syms, args, sorts) {
        return false;
    }
    are_numbered(args)
}
