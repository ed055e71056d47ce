// The program of a row of a derivation.
ghost use Rattle.std.specs.Prelude.{◌≡◌, IfOk, IfSome, Some};
ghost use Rattle.syn_term.specs.Bank.{Extends};
ghost use Rattle.syn_term.specs.Symbols.{IsSort};
ghost use Rattle.syn_form.specs.declared.trees.Out.TheVariants as views;
ghost use Rattle.syn_form.specs.Plain as plain;
ghost use Rattle.syn_form.specs.Plain.{IsFormedOut};
ghost use Rattle.syn_form.specs.Trees.{bare_out};
ghost use Rattle.syn_model.specs.BareParts.{bare_program_tree};
ghost use Rattle.syn_model.specs.Programs.{MayBeBody, with_body};
ghost use Rattle.syn_model.specs.Specifications.{IsSpec};
ghost use Rattle.syn_value.specs.Defaults.{default_term_tree};
ghost use Rattle.syn_extract.specs.Final as finals;
ghost use Rattle.syn_extract.specs.Final.{program_of_row};

use crate::closing_outs::close_out;
use crate::spec_head::spec_head;
use std::alloc::Global;
use syn_form::Out;
use syn_model::{DeclError, Program, ProgramHead, Spec, Theory};
use syn_row::Row;
use syn_term::{Bank, NoMemory, Sort, Symbols};
use syn_value::default_term;

/// The default term of the sort, as an output.
#[tactic(auto, using(crate::proofs::ClosedTerms::growth))]
fn default_out(alloc: Global, bank: &mut Bank, syms: &Symbols, sort: Sort) -> Result<Out, NoMemory>
    requires { IsSort syms.now sort }
    ensures tree { IfOk result (λ o. bare_out o ≡ views.Give (default_term_tree syms.now sort)) }
    ensures extends { Extends bank.old bank.new }
{
    match default_term(alloc, bank, syms, sort) {
        Ok(t) => Ok(Out::Give(t)),
        Err(error) => Err(error),
    }
}

/// The body that comes of the output of a row.
#[tactic(auto, using(crate::proofs::ClosedTerms::growth))]
fn body_of(alloc: Global, bank: &mut Bank, spec: &Spec, out: &Option<Out>) -> Result<Out, NoMemory>
    requires sort { IsSort (spec.now).table (spec.now).head.result }
    requires formed { IfSome out.now (IsFormedOut (spec.now).table) }
    ensures tree { IfOk result (λ o. bare_out o ≡ finals.body_of spec.now out.now) }
    ensures extends { Extends bank.old bank.new }
{
    match out {
        None => default_out(alloc, bank, spec.symbols(), spec.output().1),
        Some(out) => close_out(alloc, bank, spec.symbols(), out),
    }
}

/// The program of this head and a body that may be its.
fn program_with(head: ProgramHead, body: Out) -> Result<Program, NoMemory>
    requires { MayBeBody head body }
    ensures { IfOk result (λ p. p ≡ with_body head body) }
{
    match Program::new(head, body) {
        Ok(program) => Ok(program),
        Err(DeclError::NoMemory) => Err(NoMemory),
        Err(DeclError::Refused) => unreachable!(),
    }
}

/// The program of the row, for the specification: its body is the row's output. A variable that is left in an output may
/// be any value (Manna and Waldinger 1980), and it becomes the default term of its sort; where the row has no output, any
/// value does, and the body is the default term of the result's sort.
///
/// It asks that the specification is one over the theory, that the output is formed over its table, and that it gives a
/// term of the result's sort. It doesn't ask that the row is final: `is_final` tells whether a program may have the
/// symbols of the output. The output's terms may be of any bank. A default term has up to 64 nodes, so the body may be
/// larger than the output, and larger than a text of a program may be. The one error is want of memory.
#[tactic(auto, using(crate::proofs::ClosedTerms::growth))]
pub fn program_of(
    alloc: Global,
    bank: &mut Bank,
    theory: &Theory,
    spec: &Spec,
    row: &Row,
) -> Result<Program, NoMemory>
    requires spec { IsSpec (theory.now).decls spec.now }
    requires formed { IfSome (row.now).out (IsFormedOut (spec.now).table) }
    requires sort { IfSome (row.now).out (λ o. plain.given_sort (spec.now).table o ≡ Some (spec.now).head.result) }
    ensures program { IfOk result (λ p. bare_program_tree p ≡ bare_program_tree (program_of_row spec.now row.now)) }
    ensures extends { Extends bank.old bank.new }
{
    let head = spec_head(alloc, theory, spec)?;
    match body_of(alloc, bank, spec, &row.out) {
        Ok(body) => program_with(head, body),
        Err(error) => {
            drop(head);
            Err(error)
        }
    }
}
