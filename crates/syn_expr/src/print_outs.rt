// The printer of outputs: a term, or a choice by a test.
ghost use Rattle.std.specs.Prelude.{◌≡◌, ◌++◌, codes, string_bytes, IfOk, OnOk};
ghost use Rattle.syn_form.specs.Printing.{printed_form, printed_out};
ghost use Rattle.syn_expr.specs.Readable.{IsReadableOut};
ghost use Rattle.syn_form.specs.Texts.{IsOutOf};
ghost use Rattle.syn_form.specs.Trees.{bare_out};
ghost use Rattle.syn_expr.specs.inner.Places.{spoken_at};
ghost use Rattle.syn_expr.specs.Told.{IsToldOut};
ghost use Rattle.syn_expr.specs.TextAnswers.{ReadsBack};
ghost use Rattle.syn_expr.specs.Scopes.{spoken};

use crate::names::{Inside, look, outside};
use crate::print_forms::put_form;
use crate::print_terms::put_term;
use crate::scope::Scope;
use crate::text::put;
use std::alloc::Global;
use syn_form::{Form, Out};
use syn_term::NoMemory;

/// The one text of the output. A plain output within a limit reads back where its variables are told
/// apart, and so does each that the scope can read. The one error is want of memory.
pub fn print_out(alloc: Global, scope: &Scope, o: &Out) -> Result<String, NoMemory>
    ensures text { IfOk result (λ text. string_bytes text ≡ printed_out (spoken scope.now) o.now) }
    ensures reads_back { IfOk result (λ text. ReadsBack bare_out (λ l. IsOutOf l (spoken scope.now)) (λ l. IsToldOut l (spoken scope.now)) (string_bytes text) o.now) }
    ensures readable { IfOk result (λ text. ReadsBack bare_out (λ l. IsOutOf l (spoken scope.now)) (λ l. IsReadableOut l (spoken scope.now)) (string_bytes text) o.now) }
{
    look(scope.syms);
    out_text(alloc, scope, o)
}

/// The text of the output. The one error is want of memory.
fn out_text(alloc: Global, scope: &Scope, o: &Out) -> Result<String, NoMemory>
    ensures { IfOk result (λ text. string_bytes text ≡ printed_out (spoken scope.now) o.now) }
{
    let mut out = String::new(alloc);
    put_out(&mut out, &outside(scope), o)?;
    Ok(out)
}

/// Puts the test of a choice, with the words around it.
fn put_test(out: &mut String, place: &Inside, f: &Form) -> Result<(), NoMemory>
    ensures { OnOk result (string_bytes out.new ≡ string_bytes out.old ++ (codes "if " ++ printed_form (spoken_at place.now) f.now ++ codes " then ")) }
{
    put(out, "if ")?;
    put_form(out, place, f)?;
    put(out, " then ")
}

/// Puts the text of the output after what stands already. The one error is want of memory.
fn put_out(out: &mut String, place: &Inside, o: &Out) -> Result<(), NoMemory>
    ensures { OnOk result (string_bytes out.new ≡ string_bytes out.old ++ printed_out (spoken_at place.now) o.now) }
{
    match o {
        Out::Give(t) => put_term(out, place, t),
        Out::If(f, u, v) => {
            put_test(out, place, f.get())?;
            put_out(out, place, u.get())?;
            put(out, " else ")?;
            put_out(out, place, v.get())
        }
    }
}
