// The printer of terms: where the text of a term is a number the number is printed, and elsewhere
// the name of its symbol with the arguments' texts, or its variable.
ghost use Rattle.std.specs.Prelude.{◌≡◌, ◌++◌, string_bytes, if◌then◌else◌, nat_lt, Option, ℕ, Some, None, IfOk, OnOk, false, [], ◌∷◌};
ghost use Rattle.syn_form.specs.Printing.{printed_term, printing_of, row_text, var_text};
ghost use Rattle.syn_expr.specs.Readable.{IsReadableTerm};
ghost use Rattle.syn_form.specs.Texts.{IsTermOf};
ghost use Rattle.syn_term.specs.Terms.{bare};
ghost use Rattle.syn_expr.specs.inner.Places.{arguments_text, ends_in_zero, next_number, spoken_at};
ghost use Rattle.syn_expr.specs.Told.{IsToldTerm};
ghost use Rattle.syn_expr.specs.TextAnswers.{ReadsBack};
ghost use Rattle.syn_expr.specs.Scopes.{spoken};

use crate::limits::LARGEST_NUMBER;
use crate::names::{Inside, look, name_for, outside, sort_name, symbol_kind, symbol_name};
use crate::scope::Scope;
use crate::text::{put, put_number, separator};
use std::alloc::Global;
use syn_term::{Kind, NoMemory, Node, Sort, Symbols, Term, Var};

/// The one text of the term. A plain term within a limit reads back where its variables are told
/// apart, and so does each that the scope can read. The one error is want of memory.
pub fn print_term(alloc: Global, scope: &Scope, t: &Term) -> Result<String, NoMemory>
    ensures text { IfOk result (λ text. string_bytes text ≡ printed_term (spoken scope.now) t.now) }
    ensures reads_back { IfOk result (λ text. ReadsBack bare (λ l. IsTermOf l (spoken scope.now)) (λ l. IsToldTerm l (spoken scope.now)) (string_bytes text) t.now) }
    ensures readable { IfOk result (λ text. ReadsBack bare (λ l. IsTermOf l (spoken scope.now)) (λ l. IsReadableTerm l (spoken scope.now)) (string_bytes text) t.now) }
{
    look(scope.syms);
    term_text(alloc, scope, t)
}

/// The text of the term. The one error is want of memory.
fn term_text(alloc: Global, scope: &Scope, t: &Term) -> Result<String, NoMemory>
    ensures { IfOk result (λ text. string_bytes text ≡ printed_term (spoken scope.now) t.now) }
{
    let mut out = String::new(alloc);
    put_term(&mut out, &outside(scope), t)?;
    Ok(out)
}

/// Puts the text of the term after what stands already. The one error is want of memory.
///
/// How the term ends is found once for all of its successors, so that printing takes time in
/// proportion to the text.
#[cycle(terms)]
pub(crate) fn put_term(out: &mut String, place: &Inside, t: &Term) -> Result<(), NoMemory>
    ensures { OnOk result (string_bytes out.new ≡ string_bytes out.old ++ printed_term (spoken_at place.now) t.now) }
{
    if !ends_in_zero(place, t) {
        return put_open(out, place, t);
    }
    match number_of(place, t) {
        Some(number) => put_number(out, number),
        None => put_numberless(out, place, t),
    }
}

/// Puts a term that is no number, and whose arguments may be.
#[cycle(terms)]
fn put_numberless(out: &mut String, place: &Inside, t: &Term) -> Result<(), NoMemory>
    requires none { (printing_of (spoken_at place.now) t.now).number ≡ None }
    ensures { OnOk result (string_bytes out.new ≡ string_bytes out.old ++ printed_term (spoken_at place.now) t.now) }
{
    match t.get() {
        Node::Var(_, v) => put_var(out, place, *v),
        Node::App(_, f, args) => {
            put(out, symbol_name(place.syms, *f))?;
            put_args(out, place, args.as_slice())
        }
    }
}

/// Puts a term that is not `0` under successors, so that no part under its successors is a number.
#[cycle(terms)]
fn put_open(out: &mut String, place: &Inside, t: &Term) -> Result<(), NoMemory>
    requires open_end { ends_in_zero (spoken_at place.now) t.now ≡ false }
    ensures { OnOk result (string_bytes out.new ≡ string_bytes out.old ++ printed_term (spoken_at place.now) t.now) }
{
    match t.get() {
        Node::Var(_, v) => put_var(out, place, *v),
        Node::App(_, f, args) => {
            put(out, symbol_name(place.syms, *f))?;
            match (symbol_kind(place.syms, *f), args.as_slice()) {
                (Some(Kind::Succ), [arg]) => put_open_argument(out, place, arg),
                (_, args) => put_args(out, place, args),
            }
        }
    }
}

/// Puts the argument of a successor in brackets, where it is not `0` under successors.
#[cycle(terms)]
fn put_open_argument(out: &mut String, place: &Inside, arg: &Term) -> Result<(), NoMemory>
    requires open_end { ends_in_zero (spoken_at place.now) arg.now ≡ false }
    ensures { OnOk result (string_bytes out.new ≡ string_bytes out.old ++ arguments_text (spoken_at place.now) (arg.now ∷ [])) }
{
    put(out, "(")?;
    put_open(out, place, arg)?;
    put(out, ")")
}

/// Puts the arguments in brackets, and nothing where there are none.
#[cycle(terms)]
pub(crate) fn put_args(out: &mut String, place: &Inside, args: &[Term]) -> Result<(), NoMemory>
    ensures { OnOk result (string_bytes out.new ≡ string_bytes out.old ++ arguments_text (spoken_at place.now) args.now) }
{
    if args.is_empty() {
        return Ok(());
    }
    put(out, "(")?;
    for (i, t) in args.iter().enumerate() {
        put(out, separator(i, ", "))?;
        put_term(out, place, t)?;
    }
    put(out, ")")
}

/// Puts a variable: a row variable, or its name.
fn put_var(out: &mut String, place: &Inside, v: Var) -> Result<(), NoMemory>
    ensures { OnOk result (string_bytes out.new ≡ string_bytes out.old ++ var_text (spoken_at place.now) v) }
{
    if place.rows {
        put_row_var(out, place.syms, v)
    } else {
        put(out, name_for(&place.names, v.number))
    }
}

/// Puts a row variable, with its sort where that is a declared one.
fn put_row_var(out: &mut String, syms: &Symbols, v: Var) -> Result<(), NoMemory>
    ensures { OnOk result (string_bytes out.new ≡ string_bytes out.old ++ row_text syms.now v v.sort) }
{
    put(out, "?")?;
    put_number(out, v.number)?;
    match v.sort {
        Sort::Nat => Ok(()),
        Sort::Named(_) => {
            put(out, ":")?;
            put(out, sort_name(syms, v.sort))
        }
    }
}

/// Whether the term is `0` under successors, of any number.
fn ends_in_zero(place: &Inside, t: &Term) -> bool
    ensures { result ≡ ends_in_zero (spoken_at place.now) t.now }
{
    match t.get() {
        Node::Var(_, _) => false,
        Node::App(_, f, args) => match (symbol_kind(place.syms, *f), args.as_slice()) {
            (Some(Kind::Zero), []) => true,
            (Some(Kind::Succ), [arg]) => ends_in_zero(place, arg),
            _ => false,
        },
    }
}

/// The number that the term's text is, None where it is none.
fn number_of(place: &Inside, t: &Term) -> Option<u32>
    ensures { result ≡ (printing_of (spoken_at place.now) t.now).number }
{
    match t.get() {
        Node::Var(_, _) => None,
        Node::App(_, f, args) => match (symbol_kind(place.syms, *f), args.as_slice()) {
            (Some(Kind::Zero), []) => Some(0),
            (Some(Kind::Succ), [arg]) => next_number(number_of(place, arg)),
            _ => None,
        },
    }
}

/// The number after this one, None where there is none or it is above 1,000.
fn next_number(number: Option<u32>) -> Option<u32>
    ensures { result ≡ next_number number }
{
    match number {
        Some(n) if n < LARGEST_NUMBER => Some(n + 1),
        _ => None,
    }
}
