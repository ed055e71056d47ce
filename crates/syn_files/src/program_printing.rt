// The text of a program: its head, and its body behind two spaces.
ghost use Rattle.std.specs.Prelude.{◌≡◌, ◌++◌, OnOk, IfOk, string_bytes};
ghost use Rattle.syn_model.specs.BareParts.{bare_program_tree};
ghost use Rattle.syn_model.specs.Programs.{IsProgram};
ghost use Rattle.syn_files.specs.ProgramLines.{IsBodyWithinLimit, IsProgramText, printed_body, printed_program, printed_program_head};

use crate::print_decls::put_out;
use crate::print_parts::put_called;
use std::alloc::Global;
use syn_expr::{Scope, put, sort_name};
use syn_model::{Program, Theory};
use syn_term::NoMemory;

/// `program f(a: S, ..): S`.
fn put_head(out: &mut String, program: &Program) -> Result<(), NoMemory>
    ensures { OnOk result (string_bytes out.new ≡ string_bytes out.old ++ printed_program_head program.now) }
{
    let syms = program.symbols();
    put_called(out, syms, program.program(), program.input_symbols())?;
    put(out, ": ")?;
    put(out, sort_name(syms, program.result()))
}

/// The body behind two spaces.
fn put_body(alloc: Global, out: &mut String, program: &Program) -> Result<(), NoMemory>
    ensures { OnOk result (string_bytes out.new ≡ string_bytes out.old ++ printed_body program.now) }
{
    let scope = Scope {
        syms: program.symbols(),
        names: &[],
        rows: false,
    };
    put(out, "  ")?;
    put_out(alloc, out, &scope, program.body())
}

/// The text of the program. The one error is want of memory.
fn program_text(alloc: Global, program: &Program) -> Result<String, NoMemory>
    ensures { IfOk result (λ text. string_bytes text ≡ printed_program program.now) }
{
    let mut out = String::new(alloc);
    put_head(&mut out, program)?;
    put(&mut out, "\n")?;
    put_body(alloc, &mut out, program)?;
    put(&mut out, "\n")?;
    Ok(out)
}

/// The one text of the program. Where its body is within the limit, of at most 262,144 nodes and at most
/// 1,264 deep, the text reads back, over the theory that the program is for. The one error is want of
/// memory.
pub fn print_program(alloc: Global, theory: &Theory, program: &Program) -> Result<String, NoMemory>
    requires over { IsProgram (theory.now).decls program.now }
    ensures text { IfOk result (λ text. string_bytes text ≡ printed_program program.now) }
    ensures reads_back { IfOk result (λ text. IsBodyWithinLimit program.now → IsProgramText (theory.now).decls (string_bytes text) (bare_program_tree program.now)) }
{
    // So it is known that these are a theory's.
    let _decls = theory.decls();
    program_text(alloc, program)
}
