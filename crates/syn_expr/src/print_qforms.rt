// The printer of formulas with quantifiers. A quantified formula inside another stands in brackets
// too, and inside a quantifier its variable is printed by the name that the quantifier gives it.
ghost use Rattle.std.specs.Prelude.{◌≡◌, ◌++◌, codes, map, string_bytes, IfOk, OnOk};
ghost use Rattle.syn_form.specs.Printing.{in_scope_of, inner, joined, printed_qform, printing_of_qform};
ghost use Rattle.syn_expr.specs.Readable.{IsReadableQForm};
ghost use Rattle.syn_form.specs.Texts.{IsQFormOf};
ghost use Rattle.syn_form.specs.Quantified.{bare_qform};
ghost use Rattle.syn_expr.specs.inner.Places.{binder_text, spoken_at};
ghost use Rattle.syn_expr.specs.Told.{IsClosedQForm};
ghost use Rattle.syn_expr.specs.TextAnswers.{ReadsBack};
ghost use Rattle.syn_expr.specs.Scopes.{LeavesNumbersToBinders, spoken};

use crate::names::{Inside, look, outside, sort_name, within};
use crate::print_forms::{AND, CLOSE, FALSE, IMPLIES, NOT, OPEN, OR, TRUE, put_atom, put_equality};
use crate::scope::Scope;
use crate::text::{put, separator};
use sqlite_items::Items;
use std::alloc::Global;
use syn_form::{Binder, QForm};
use syn_term::{NoMemory, Shared};

/// The one text of the formula. A plain formula within a limit reads back where it has no free
/// variables and the scope no names, and so does each that the scope can read. The one error is want
/// of memory.
pub fn print_qform(alloc: Global, scope: &Scope, f: &QForm) -> Result<String, NoMemory>
    requires { LeavesNumbersToBinders (spoken scope.now) }
    ensures text { IfOk result (λ text. string_bytes text ≡ printed_qform (spoken scope.now) f.now) }
    ensures reads_back { IfOk result (λ text. ReadsBack bare_qform (λ l. IsQFormOf l (spoken scope.now)) (λ l. IsClosedQForm l (spoken scope.now)) (string_bytes text) f.now) }
    ensures readable { IfOk result (λ text. ReadsBack bare_qform (λ l. IsQFormOf l (spoken scope.now)) (λ l. IsReadableQForm l (spoken scope.now)) (string_bytes text) f.now) }
{
    look(scope.syms);
    qform_text(alloc, scope, f)
}

/// The text of the formula. The one error is want of memory.
fn qform_text(alloc: Global, scope: &Scope, f: &QForm) -> Result<String, NoMemory>
    ensures { IfOk result (λ text. string_bytes text ≡ printed_qform (spoken scope.now) f.now) }
{
    let mut out = String::new(alloc);
    put_qform(&mut out, &outside(scope), f)?;
    Ok(out)
}

/// Puts the text of the formula after what stands already. The one error is want of memory.
#[cycle(qforms)]
fn put_qform(out: &mut String, place: &Inside, f: &QForm) -> Result<(), NoMemory>
    ensures { OnOk result (string_bytes out.new ≡ string_bytes out.old ++ printed_qform (spoken_at place.now) f.now) }
{
    match f {
        QForm::True => put(out, TRUE),
        QForm::False => put(out, FALSE),
        QForm::Atom(r, args) => put_atom(out, place, *r, args),
        QForm::Equal(s, t) => put_equality(out, place, s, t),
        QForm::Not(a) => put_negation(out, place, a),
        QForm::And(all) => put_members(out, place, AND, all),
        QForm::Or(all) => put_members(out, place, OR, all),
        QForm::Implies(a, b) => put_implication(out, place, a, b),
        QForm::All(b, a) => put_quantified(out, place, "all ", b, a),
        QForm::Exists(b, a) => put_quantified(out, place, "some ", b, a),
    }
}

/// Puts the negation of the formula.
#[cycle(qforms)]
fn put_negation(out: &mut String, place: &Inside, a: &Shared<QForm>) -> Result<(), NoMemory>
    ensures { OnOk result (string_bytes out.new ≡ string_bytes out.old ++ (codes "not " ++ inner (printing_of_qform a.now (spoken_at place.now)))) }
{
    put(out, NOT)?;
    put_inner_qform(out, place, a.get())
}

/// Puts the implication from the first to the second.
#[cycle(qforms)]
fn put_implication(
    out: &mut String,
    place: &Inside,
    a: &Shared<QForm>,
    b: &Shared<QForm>,
) -> Result<(), NoMemory>
    ensures { OnOk result (string_bytes out.new ≡ string_bytes out.old ++ (inner (printing_of_qform a.now (spoken_at place.now)) ++ codes " -> " ++ inner (printing_of_qform b.now (spoken_at place.now)))) }
{
    put_inner_qform(out, place, a.get())?;
    put(out, IMPLIES)?;
    put_inner_qform(out, place, b.get())
}

/// Puts the members of a chain, with the text between.
#[cycle(qforms)]
fn put_members(
    out: &mut String,
    place: &Inside,
    between: &str,
    all: &Shared<Items<QForm>>,
) -> Result<(), NoMemory>
    ensures { OnOk result (string_bytes out.new ≡ string_bytes out.old ++ joined between.now (map (λ f. inner (printing_of_qform f (spoken_at place.now))) all.now)) }
{
    put_qform_chain(out, place, between, all.get().as_slice())
}

/// Puts the formula as it stands inside another, in brackets where it has to.
#[cycle(qforms)]
fn put_inner_qform(out: &mut String, place: &Inside, f: &QForm) -> Result<(), NoMemory>
    ensures { OnOk result (string_bytes out.new ≡ string_bytes out.old ++ inner (printing_of_qform f.now (spoken_at place.now))) }
{
    match f {
        QForm::And(_)
        | QForm::Or(_)
        | QForm::Implies(_, _)
        | QForm::All(_, _)
        | QForm::Exists(_, _) => {
            put(out, OPEN)?;
            put_qform(out, place, f)?;
            put(out, CLOSE)
        }
        _ => put_qform(out, place, f),
    }
}

/// Puts the formulas as they stand inside another, with the text between.
#[cycle(qforms)]
fn put_qform_chain(
    out: &mut String,
    place: &Inside,
    between: &str,
    all: &[QForm],
) -> Result<(), NoMemory>
    ensures { OnOk result (string_bytes out.new ≡ string_bytes out.old ++ joined between.now (map (λ f. inner (printing_of_qform f (spoken_at place.now))) all.now)) }
{
    for (i, f) in all.iter().enumerate() {
        put(out, separator(i, between))?;
        put_inner_qform(out, place, f)?;
    }
    Ok(())
}

/// Puts a quantified formula: its quantifier, and what stands under it.
#[cycle(qforms)]
fn put_quantified(
    out: &mut String,
    place: &Inside,
    word: &str,
    b: &Binder,
    a: &Shared<QForm>,
) -> Result<(), NoMemory>
    ensures { OnOk result (string_bytes out.new ≡ string_bytes out.old ++ (binder_text (spoken_at place.now) word.now b.now ++ inner (printing_of_qform a.now (in_scope_of (spoken_at place.now) b.now)))) }
{
    put_binder(out, place, word, b)?;
    put_inner_qform(out, &within(&*place, b), a.get())
}

/// Puts a quantifier up to its formula: the word, the name, the sort and a stop.
fn put_binder(out: &mut String, place: &Inside, word: &str, b: &Binder) -> Result<(), NoMemory>
    ensures { OnOk result (string_bytes out.new ≡ string_bytes out.old ++ binder_text (spoken_at place.now) word.now b.now) }
{
    put(out, word)?;
    put(out, b.name.as_str())?;
    put(out, ": ")?;
    put(out, sort_name(place.syms, b.var.sort))?;
    put(out, ". ")
}
