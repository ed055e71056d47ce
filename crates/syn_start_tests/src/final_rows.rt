// Rows that end a derivation, and rows that don't; and the programs of rows.
ghost use Rattle.std.specs.Prelude.{◌≡◌, ◌↔◌, IsTrue, IfSome, Some};
ghost use Rattle.syn_form.specs.Plain as plain;
ghost use Rattle.syn_form.specs.Plain.{IsFormedOut};
ghost use Rattle.syn_model.specs.Specifications.{IsSpec};

use crate::samples::{spec_over, theory_of};
use std::alloc::Global;
use std::process::Abort;
use std::test::Fail;
use syn_cases::cut;
use syn_expr::{Scope, print_out};
use syn_extract::{is_final, program_of};
use syn_form::{Out, given_sort, is_formed_out};
use syn_model::{Program, Spec, Theory};
use syn_row::Row;
use syn_row_cases::{read_row, scope_of};
use syn_term::{Bank, Sort, Symbols};

/// A specification, a row, and whether it is final.
const FINAL: &str = "\
max2 / goal true | if le(a, b) then b else a => yes
max2 / goal true | a => yes
max2 / goal true => yes
max2 / goal true | ?1 => yes
max2 / goal true | if a = b then s(a) else 0 => yes
max2 / goal true | dbl(a) => no
max2 / goal true | if lt(a, b) then b else a => no
max2 / goal true | if le(a, b) then b else dbl(a) => no
max2 / goal true | max2(a, b) => no
max2 / goal false | a => no
max2 / goal le(a, a) | a => no
max2 / assert false | a => yes
max2 / assert false => yes
max2 / assert false | p(a) => no
max2 / assert true | a => no
twice / goal true | if a = 0 then 0 else s(s(twice(p(a)))) => yes
twice / goal true | if below(p(a), a) then a else 0 => no
twice / goal true | if le(a, 0) then a else 0 => no";

/// The row of the text over the symbols.
fn row_over(alloc: Global, syms: &Symbols, text: &str) -> Result<Row, Fail> {
    read_row(alloc, &mut Bank::new(alloc), &scope_of(syms), text)
}

fn is_final_row(alloc: Global, spec: &Spec, text: &str) -> Result<bool, Fail> {
    let row = row_over(alloc, spec.symbols(), text)?;
    Ok(is_final(spec, &row))
}

fn is_final_text(alloc: Global, theory: &Theory, name: &str, text: &str) -> Result<bool, Fail> {
    let spec = spec_over(alloc, theory, name)?;
    is_final_row(alloc, &spec, text)
}

fn tell_final_rows(rt: &impl Abort, alloc: Global, theory: &Theory) -> Result<(), Fail> {
    for line in FINAL.lines() {
        let (case, want) = cut(line, " => ");
        let (name, text) = cut(case, " / ");
        let got = is_final_text(alloc, theory, name, text)?;
        assert_eq!(rt; got, want == "yes", "at {line}");
    }
    Ok(())
}

#[test]
fn tells_final_rows(rt: HostRuntime) -> Result<(), Fail> {
    let theory = theory_of(rt.alloc())?;
    tell_final_rows(&rt, rt.alloc(), &theory)
}

/// A specification, a row, and the body of its program.
const PROGRAMS: &str = "\
max2 / goal true | if le(a, b) then b else a => if le(a, b) then b else a
max2 / goal true | ?1 => 0
max2 / goal true => 0
max2 / assert false | if ?2 = a then s(?1) else b => if 0 = a then 1 else b
twice / goal true | if a = 0 then 0 else s(s(twice(p(a)))) => if a = 0 then 0 else s(s(twice(p(a))))
twice / goal true | if not le(?3, a) and ?3 = ?4 then ?4 else p(?3) => if not le(0, a) and 0 = 0 then 0 else p(0)";

/// Whether the output is formed over the specification's table.
fn is_formed_over(spec: &Spec, out: &Out) -> bool
    ensures { IsTrue result ↔ IsFormedOut (spec.now).table out.now }
{
    is_formed_out(spec.symbols(), out)
}

/// Whether the output gives a term of the sort.
fn gives(syms: &Symbols, out: &Out, sort: Sort) -> bool
    ensures { IsTrue result ↔ (plain.given_sort syms.now out.now ≡ Some sort) }
{
    given_sort(syms, out) == Some(sort)
}

/// Whether the output gives a term of the result's sort.
fn gives_result(spec: &Spec, out: &Out) -> bool
    ensures { IsTrue result ↔ (plain.given_sort (spec.now).table out.now ≡ Some (spec.now).head.result) }
{
    let (_, sort) = spec.output();
    gives(spec.symbols(), out, sort)
}

/// Whether the row has no output, or one that a program may give.
fn may_give(spec: &Spec, row: &Row) -> bool
    ensures { IsTrue result → IfSome (row.now).out (λ o. IsFormedOut (spec.now).table o × (plain.given_sort (spec.now).table o ≡ Some (spec.now).head.result)) }
{
    match &row.out {
        None => true,
        Some(out) => is_formed_over(spec, out) && gives_result(spec, out),
    }
}

/// The text of the program's body.
fn body_text(alloc: Global, program: &Program) -> Result<String, Fail> {
    let scope = Scope {
        syms: program.symbols(),
        names: &[],
        rows: false,
    };
    Ok(print_out(alloc, &scope, program.body())?)
}

/// The text of the body of the row's program.
fn body_of_row(alloc: Global, theory: &Theory, spec: &Spec, row: &Row) -> Result<String, Fail>
    requires { IsSpec (theory.now).decls spec.now }
{
    if !may_give(spec, row) {
        return Err(Fail::new("no program"));
    }
    let program = program_of(alloc, &mut Bank::new(alloc), theory, spec, row)?;
    body_text(alloc, &program)
}

fn body_over(alloc: Global, theory: &Theory, spec: &Spec, text: &str) -> Result<String, Fail>
    requires { IsSpec (theory.now).decls spec.now }
{
    let row = row_over(alloc, spec.symbols(), text)?;
    body_of_row(alloc, theory, spec, &row)
}

fn body_of(alloc: Global, theory: &Theory, name: &str, text: &str) -> Result<String, Fail> {
    let spec = spec_over(alloc, theory, name)?;
    body_over(alloc, theory, &spec, text)
}

fn make_programs(rt: &impl Abort, alloc: Global, theory: &Theory) -> Result<(), Fail> {
    for line in PROGRAMS.lines() {
        let (case, want) = cut(line, " => ");
        let (name, text) = cut(case, " / ");
        let got = body_of(alloc, theory, name, text)?;
        assert_eq!(rt; got.as_str(), want, "at {line}");
    }
    Ok(())
}

#[test]
fn makes_programs(rt: HostRuntime) -> Result<(), Fail> {
    let theory = theory_of(rt.alloc())?;
    make_programs(&rt, rt.alloc(), &theory)
}
