// The text of a derivation: its first line, and a line for each row.
ghost use Rattle.std.specs.Prelude.{◌≡◌, ◌++◌, OnOk, IfOk, Some, codes, decimal, string_bytes, true};
ghost use Rattle.std.specs.List.{flat_map};
ghost use Rattle.syn_term.specs.DeclaredSorts.{IsTable};
ghost use Rattle.syn_form.specs.Printing.{printed_form};
ghost use Rattle.syn_form.specs.Writing.{CanWriteTable};
ghost use Rattle.syn_lex.specs.TextLines.{with_feed};
ghost use Rattle.syn_deriv.specs.DerivationLines as lines;
ghost use Rattle.syn_deriv.specs.DerivationLines.{IsDerivationText, bare_lines};
ghost use Rattle.syn_deriv.specs.PrintedDerivation.{ArePrintable, output_text, printed_derivation, printed_line};
ghost use Rattle.syn_deriv.specs.PrintedDerivation.{printed_lines, printed_row, step_text};

use crate::print_steps::put_step;
use crate::row_forms::row_scope;
use itoa::Buffer;
use std::alloc::Global;
use syn_expr::{print_form, print_out, put};
use syn_form::{Form, Out, Side};
use syn_row::Row;
use syn_start::{Derivation, Start, Step};
use syn_term::{NoMemory, Sort, Symbols};

/// The kind of a row as it is written.
fn side_name(side: Side) -> &'static str
    ensures { result.now ≡ lines.side_name side }
{
    match side {
        Side::Goal => "goal",
        Side::Assertion => "assertion",
    }
}

/// Puts the number in decimal.
fn put_count(out: &mut String, number: u64) -> Result<(), NoMemory>
    ensures { OnOk result (string_bytes out.new ≡ string_bytes out.old ++ decimal number) }
{
    let mut buffer = Buffer::new();
    put(out, buffer.format(number))
}

/// Puts the formula of a row.
fn put_form(alloc: Global, out: &mut String, syms: &Symbols, f: &Form) -> Result<(), NoMemory>
    ensures { OnOk result (string_bytes out.new ≡ string_bytes out.old ++ printed_form (lines.row_scope syms.now) f.now) }
{
    let text = print_form(alloc, &row_scope(syms), f)?;
    put(out, text.as_str())
}

/// Puts ` | ` and the output.
fn put_barred(alloc: Global, out: &mut String, syms: &Symbols, o: &Out) -> Result<(), NoMemory>
    ensures { OnOk result (string_bytes out.new ≡ string_bytes out.old ++ output_text syms.now (Some o.now)) }
{
    let text = print_out(alloc, &row_scope(syms), o)?;
    put(out, " | ")?;
    put(out, text.as_str())
}

/// The same where there is an output; else nothing.
fn put_output(
    alloc: Global,
    out: &mut String,
    syms: &Symbols,
    o: &Option<Out>,
) -> Result<(), NoMemory>
    ensures { OnOk result (string_bytes out.new ≡ string_bytes out.old ++ output_text syms.now o.now) }
{
    match o {
        None => Ok(()),
        Some(o) => put_barred(alloc, out, syms, o),
    }
}

/// `KIND FORM [ | OUT ]`.
fn put_row(alloc: Global, out: &mut String, syms: &Symbols, row: &Row) -> Result<(), NoMemory>
    ensures { OnOk result (string_bytes out.new ≡ string_bytes out.old ++ printed_row syms.now row.now) }
{
    put(out, side_name(row.side))?;
    put(out, " ")?;
    put_form(alloc, out, syms, &row.form)?;
    put_output(alloc, out, syms, &row.out)
}

/// `N RULE: `.
fn put_front(out: &mut String, number: u64, step: &Step) -> Result<(), NoMemory>
    ensures { OnOk result (
        string_bytes out.new ≡ string_bytes out.old ++ (decimal number ++ codes " " ++ step_text step.now ++ codes ": ")) }
{
    put_count(out, number)?;
    put(out, " ")?;
    put_step(out, step)?;
    put(out, ": ")
}

/// The line of a row, with a line feed.
fn put_line(
    alloc: Global,
    out: &mut String,
    syms: &Symbols,
    number: u64,
    line: &(Step, Row),
) -> Result<(), NoMemory>
    ensures { OnOk result (string_bytes out.new ≡ string_bytes out.old ++ with_feed (printed_line syms.now number line.now)) }
{
    put_front(out, number, &line.0)?;
    put_row(alloc, out, syms, &line.1)?;
    put(out, "\n")
}

/// Puts a line for each row, numbered from 1.
fn put_lines(
    alloc: Global,
    out: &mut String,
    syms: &Symbols,
    rows: &[(Step, Row)],
) -> Result<(), NoMemory>
    ensures { OnOk result (
        string_bytes out.new ≡ string_bytes out.old ++ flat_map with_feed (printed_lines syms.now 1 rows.now)) }
{
    for i in 0..rows.len() {
        put_line(alloc, out, syms, i as u64 + 1, &rows[i])?;
    }
    Ok(())
}

/// The text of the derivation. The one error is want of memory.
fn derivation_text(alloc: Global, start: &Start, d: &Derivation) -> Result<String, NoMemory>
    ensures { IfOk result (λ text. string_bytes text ≡ printed_derivation start.now d.now) }
{
    let mut out = String::new(alloc);
    put(&mut out, "derivation 1\n")?;
    put_lines(alloc, &mut out, start.symbols(), d.lines())?;
    Ok(out)
}

/// Nothing: what is told is that the table is well formed, and that each of its symbols has a text in rows.
fn look(start: &Start)
    ensures table { IsTable (start.now).spec.table }
    ensures written { CanWriteTable true (start.now).spec.table }
{
    let syms = start.spec().symbols();
    let _ = syms.sort_name(Sort::Nat);
}

/// The one text of the derivation. It reads back to an equal one where each line has a text: the step's names
/// are names and its numbers have at most seven digits; the row is plain and within the limit of a row, its
/// variables are numbered from 1 with at most seven digits, and its output has the sort of the program's
/// result; and there are fewer than 10,000,000 rows. The one error is want of memory.
pub fn print_derivation(alloc: Global, start: &Start, d: &Derivation) -> Result<String, NoMemory>
    ensures text { IfOk result (λ text. string_bytes text ≡ printed_derivation start.now d.now) }
    ensures reads_back { IfOk result (λ text.
        ArePrintable start.now d.now → IsDerivationText start.now (string_bytes text) (bare_lines d.now)) }
{
    look(start);
    derivation_text(alloc, start, d)
}
