// The printer of formulas. A formula inside another stands in brackets exactly where it is `and`,
// `or` or `->`; the pieces that formulas with quantifiers share are here too.
ghost use Rattle.std.specs.Prelude.{◌≡◌, ◌++◌, codes, map, string_bytes, IfOk, OnOk};
ghost use Rattle.syn_term.specs.Symbols.{symbol_at};
ghost use Rattle.syn_form.specs.Printing.{atom_text, equality_text, inner, joined, printed_form, printing_of_form};
ghost use Rattle.syn_expr.specs.Readable.{IsReadableForm};
ghost use Rattle.syn_form.specs.Texts.{IsFormOf};
ghost use Rattle.syn_form.specs.Trees.{bare_form};
ghost use Rattle.syn_expr.specs.inner.Places.{spoken_at};
ghost use Rattle.syn_expr.specs.Told.{IsToldForm};
ghost use Rattle.syn_expr.specs.TextAnswers.{ReadsBack};
ghost use Rattle.syn_expr.specs.Scopes.{spoken};

use crate::names::{Inside, look, outside, symbol_name};
use crate::print_terms::{put_args, put_term};
use crate::scope::Scope;
use crate::text::{put, separator};
use sqlite_items::Items;
use std::alloc::Global;
use syn_form::Form;
use syn_term::{NoMemory, Shared, SymId, Term};

pub(crate) const TRUE: &str = "true";

pub(crate) const FALSE: &str = "false";

pub(crate) const NOT: &str = "not ";

pub(crate) const AND: &str = " and ";

pub(crate) const OR: &str = " or ";

pub(crate) const IMPLIES: &str = " -> ";

pub(crate) const OPEN: &str = "(";

pub(crate) const CLOSE: &str = ")";

/// The one text of the formula. A plain formula within a limit reads back where its variables are
/// told apart, and so does each that the scope can read. The one error is want of memory.
pub fn print_form(alloc: Global, scope: &Scope, f: &Form) -> Result<String, NoMemory>
    ensures text { IfOk result (λ text. string_bytes text ≡ printed_form (spoken scope.now) f.now) }
    ensures reads_back { IfOk result (λ text. ReadsBack bare_form (λ l. IsFormOf l (spoken scope.now)) (λ l. IsToldForm l (spoken scope.now)) (string_bytes text) f.now) }
    ensures readable { IfOk result (λ text. ReadsBack bare_form (λ l. IsFormOf l (spoken scope.now)) (λ l. IsReadableForm l (spoken scope.now)) (string_bytes text) f.now) }
{
    look(scope.syms);
    form_text(alloc, scope, f)
}

/// The text of the formula. The one error is want of memory.
fn form_text(alloc: Global, scope: &Scope, f: &Form) -> Result<String, NoMemory>
    ensures { IfOk result (λ text. string_bytes text ≡ printed_form (spoken scope.now) f.now) }
{
    let mut out = String::new(alloc);
    put_form(&mut out, &outside(scope), f)?;
    Ok(out)
}

/// Puts the text of the formula after what stands already. The one error is want of memory.
#[cycle(forms)]
pub(crate) fn put_form(out: &mut String, place: &Inside, f: &Form) -> Result<(), NoMemory>
    ensures { OnOk result (string_bytes out.new ≡ string_bytes out.old ++ printed_form (spoken_at place.now) f.now) }
{
    match f {
        Form::True => put(out, TRUE),
        Form::False => put(out, FALSE),
        Form::Atom(r, args) => put_atom(out, place, *r, args),
        Form::Equal(s, t) => put_equality(out, place, s, t),
        Form::Not(a) => put_negation(out, place, a.get()),
        Form::And(all) => put_chain(out, place, AND, all.get().as_slice()),
        Form::Or(all) => put_chain(out, place, OR, all.get().as_slice()),
        Form::Implies(a, b) => put_implication(out, place, a.get(), b.get()),
    }
}

/// Puts the negation of the formula.
#[cycle(forms)]
fn put_negation(out: &mut String, place: &Inside, a: &Form) -> Result<(), NoMemory>
    ensures { OnOk result (string_bytes out.new ≡ string_bytes out.old ++ (codes "not " ++ inner (printing_of_form (spoken_at place.now) a.now))) }
{
    put(out, NOT)?;
    put_inner(out, place, a)
}

/// Puts the implication from the first to the second.
#[cycle(forms)]
fn put_implication(out: &mut String, place: &Inside, a: &Form, b: &Form) -> Result<(), NoMemory>
    ensures { OnOk result (string_bytes out.new ≡ string_bytes out.old ++ (inner (printing_of_form (spoken_at place.now) a.now) ++ codes " -> " ++ inner (printing_of_form (spoken_at place.now) b.now))) }
{
    put_inner(out, place, a)?;
    put(out, IMPLIES)?;
    put_inner(out, place, b)
}

/// Puts the formula as it stands inside another, in brackets where it has to.
#[cycle(forms)]
fn put_inner(out: &mut String, place: &Inside, f: &Form) -> Result<(), NoMemory>
    ensures { OnOk result (string_bytes out.new ≡ string_bytes out.old ++ inner (printing_of_form (spoken_at place.now) f.now)) }
{
    match f {
        Form::And(_) | Form::Or(_) | Form::Implies(_, _) => {
            put(out, OPEN)?;
            put_form(out, place, f)?;
            put(out, CLOSE)
        }
        _ => put_form(out, place, f),
    }
}

/// Puts the formulas as they stand inside another, with the text between.
#[cycle(forms)]
fn put_chain(out: &mut String, place: &Inside, between: &str, all: &[Form]) -> Result<(), NoMemory>
    ensures { OnOk result (string_bytes out.new ≡ string_bytes out.old ++ joined between.now (map (λ f. inner (printing_of_form (spoken_at place.now) f)) all.now)) }
{
    for (i, f) in all.iter().enumerate() {
        put(out, separator(i, between))?;
        put_inner(out, place, f)?;
    }
    Ok(())
}

/// Puts an atom: the name of its relation and the arguments.
pub(crate) fn put_atom(
    out: &mut String,
    place: &Inside,
    r: SymId,
    args: &Shared<Items<Term>>,
) -> Result<(), NoMemory>
    ensures { OnOk result (string_bytes out.new ≡ string_bytes out.old ++ atom_text (spoken_at place.now) (symbol_at place.now.syms.now r) args.now) }
{
    put(out, symbol_name(place.syms, r))?;
    put_args(out, place, args.get().as_slice())
}

/// Puts an equality, its sides in order.
pub(crate) fn put_equality(
    out: &mut String,
    place: &Inside,
    s: &Term,
    t: &Term,
) -> Result<(), NoMemory>
    ensures { OnOk result (string_bytes out.new ≡ string_bytes out.old ++ equality_text (spoken_at place.now) s.now t.now) }
{
    put_term(out, place, s)?;
    put(out, " = ")?;
    put_term(out, place, t)
}
