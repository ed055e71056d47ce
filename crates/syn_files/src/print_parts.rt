// The text of a specification: its name, the head of its program, and a line for each part.
ghost use Rattle.std.specs.Prelude.{◌≡◌, ◌++◌, [], All, OnOk, IfOk, codes, map, string_bytes};
ghost use Rattle.std.specs.List.{flat_map};
ghost use Rattle.syn_term.specs.Symbols.{symbol_at};
ghost use Rattle.syn_expr.specs.Scopes.{listed};
ghost use Rattle.syn_form.specs.Printing.{printed_form, printed_qform};
ghost use Rattle.syn_lex.specs.Stepping.{IsTextOf};
ghost use Rattle.syn_lex.specs.TextLines.{with_feed};
ghost use Rattle.syn_model.specs.BareParts.{bare_spec_tree};
ghost use Rattle.syn_model.specs.Specifications.{IsSpec, IsWholeSpec};
ghost use Rattle.syn_model.specs.declared.spec_part.SpecPart.TheVariants as part;
ghost use Rattle.syn_files.specs.Printed.{comma_list};
ghost use Rattle.syn_files.specs.PrintedSpec.{IsPartWithinLimit, printed_head, printed_part, printed_spec};
ghost use Rattle.syn_files.specs.TheoryLines.{file_scope};
ghost use Rattle.syn_files.specs.SpecLines.{IsWholeText, SpecLine, known, nothing, output_names};
ghost use Rattle.syn_files.specs.inner.Entries.{called_text, input_text, program_text, result_text};

use crate::print_decls::{put_form, put_qform};
use crate::spec_forms::output_of;
use std::alloc::Global;
use syn_expr::{Scope, put, separator, sort_name, symbol_name};
use syn_form::{Form, QForm};
use syn_model::{Spec, SpecPart, Theory};
use syn_term::{NoMemory, SymId, Symbols, Text, Var};

/// The name of the sort that the symbol gives.
fn result_name(syms: &Symbols, symbol: SymId) -> &str
    ensures { result.now ≡ result_text syms.now (symbol_at syms.now symbol) }
{
    match syms.get(symbol) {
        None => "",
        Some(symbol) => match symbol.result {
            None => "",
            Some(sort) => sort_name(syms, sort),
        },
    }
}

/// `a: S`.
fn put_input(out: &mut String, syms: &Symbols, input: SymId) -> Result<(), NoMemory>
    ensures { OnOk result (string_bytes out.new ≡ string_bytes out.old ++ input_text syms.now input) }
{
    put(out, symbol_name(syms, input))?;
    put(out, ": ")?;
    put(out, result_name(syms, input))
}

/// Puts the inputs with commas between.
fn put_inputs(out: &mut String, syms: &Symbols, inputs: &[SymId]) -> Result<(), NoMemory>
    ensures { OnOk result (string_bytes out.new ≡ string_bytes out.old ++ comma_list (map (input_text syms.now) inputs.now)) }
{
    for i in 0..inputs.len() {
        put(out, separator(i, ", "))?;
        put_input(out, syms, inputs[i])?;
    }
    Ok(())
}

/// `program f(a: S, ..)`, by the numbers of the program and the inputs.
pub(crate) fn put_called(
    out: &mut String,
    syms: &Symbols,
    program: SymId,
    inputs: &[SymId],
) -> Result<(), NoMemory>
    ensures { OnOk result (string_bytes out.new ≡ string_bytes out.old ++ called_text syms.now program inputs.now) }
{
    put(out, "program ")?;
    put(out, symbol_name(syms, program))?;
    put(out, "(")?;
    put_inputs(out, syms, inputs)?;
    put(out, ")")
}

/// `program f(a: S, ..)`.
fn put_program(out: &mut String, spec: &Spec) -> Result<(), NoMemory>
    ensures { OnOk result (string_bytes out.new ≡ string_bytes out.old ++ program_text spec.now) }
{
    put_called(out, spec.symbols(), spec.program(), spec.inputs())
}

/// `program f(a: S, ..): z: S`.
fn put_head(out: &mut String, spec: &Spec) -> Result<(), NoMemory>
    ensures { OnOk result (string_bytes out.new ≡ string_bytes out.old ++ printed_head spec.now) }
{
    put_program(out, spec)?;
    let (output, sort) = spec.output();
    put(out, ": ")?;
    put(out, output)?;
    put(out, ": ")?;
    put(out, sort_name(spec.symbols(), sort))
}

/// Puts the names with commas between.
fn put_names(out: &mut String, names: &[Text]) -> Result<(), NoMemory>
    ensures { OnOk result (string_bytes out.new ≡ string_bytes out.old ++ comma_list names.now) }
{
    for (i, name) in names.iter().enumerate() {
        put(out, separator(i, ", "))?;
        put(out, name.as_str())?;
    }
    Ok(())
}

/// `requires FORM`.
fn put_requires(
    alloc: Global,
    out: &mut String,
    syms: &Symbols,
    form: &Form,
) -> Result<(), NoMemory>
    ensures { OnOk result (string_bytes out.new ≡ string_bytes out.old ++ (codes "requires " ++ printed_form (file_scope syms.now []) form.now)) }
{
    let scope = Scope {
        syms,
        names: &[],
        rows: false,
    };
    put(out, "requires ")?;
    put_form(alloc, out, &scope, form)
}

/// `ensures FORM`, where the output is known by these names.
fn put_ensures_with(
    alloc: Global,
    out: &mut String,
    spec: &Spec,
    names: &[(String, Var)],
    form: &QForm,
) -> Result<(), NoMemory>
    requires { listed names.now ≡ output_names spec.now }
    ensures { OnOk result (string_bytes out.new ≡ string_bytes out.old ++ printed_part spec.now (part.Ensures form.now)) }
{
    let scope = Scope {
        syms: spec.symbols(),
        names,
        rows: false,
    };
    put(out, "ensures ")?;
    put_qform(alloc, out, &scope, form)
}

/// `ensures FORM`.
fn put_ensures(alloc: Global, out: &mut String, spec: &Spec, form: &QForm) -> Result<(), NoMemory>
    ensures { OnOk result (string_bytes out.new ≡ string_bytes out.old ++ printed_part spec.now (part.Ensures form.now)) }
{
    let names = [output_of(alloc, spec)?];
    put_ensures_with(alloc, out, spec, &names, form)
}

/// Puts the line of a part.
fn put_part(alloc: Global, out: &mut String, spec: &Spec, part: &SpecPart) -> Result<(), NoMemory>
    ensures { OnOk result (string_bytes out.new ≡ string_bytes out.old ++ printed_part spec.now part.now) }
{
    match part {
        SpecPart::Requires(form) => put_requires(alloc, out, spec.symbols(), form),
        SpecPart::Ensures(form) => put_ensures(alloc, out, spec, form),
        SpecPart::Order(name) => {
            put(out, "order ")?;
            put(out, name.as_str())
        }
        SpecPart::Primitive(names) => {
            put(out, "primitive ")?;
            put_names(out, names.as_slice())
        }
        SpecPart::Taken(names) => {
            put(out, "use ")?;
            put_names(out, names.as_slice())
        }
    }
}

/// Puts a line for each part.
fn put_parts(
    alloc: Global,
    out: &mut String,
    spec: &Spec,
    parts: &[SpecPart],
) -> Result<(), NoMemory>
    ensures { OnOk result (string_bytes out.new ≡ string_bytes out.old ++ flat_map with_feed (map (printed_part spec.now) parts.now)) }
{
    for part in parts {
        put_part(alloc, out, spec, part)?;
        put(out, "\n")?;
    }
    Ok(())
}

/// Puts the lines of the specification.
fn put_spec(alloc: Global, out: &mut String, spec: &Spec) -> Result<(), NoMemory>
    ensures { OnOk result (string_bytes out.new ≡ string_bytes out.old ++ printed_spec spec.now) }
{
    put(out, "spec ")?;
    put(out, spec.name())?;
    put(out, "\n")?;
    put_head(out, spec)?;
    put(out, "\n")?;
    put_parts(alloc, out, spec, spec.parts())
}

/// The text of the specification. The one error is want of memory.
fn spec_text(alloc: Global, spec: &Spec) -> Result<String, NoMemory>
    ensures { IfOk result (λ text. string_bytes text ≡ printed_spec spec.now) }
{
    let mut out = String::new(alloc);
    put_spec(alloc, &mut out, spec)?;
    Ok(out)
}

/// The one text of the specification. Where it is whole and each expression is within the limit, the text
/// reads back, over the theory that it is for. The one error is want of memory.
pub fn print_spec(alloc: Global, theory: &Theory, spec: &Spec) -> Result<String, NoMemory>
    requires over { IsSpec (theory.now).decls spec.now }
    ensures text { IfOk result (λ text. string_bytes text ≡ printed_spec spec.now) }
    ensures reads_back { IfOk result (λ text. IsWholeSpec spec.now → All IsPartWithinLimit (spec.now).parts → IsTextOf (SpecLine (theory.now).decls) nothing IsWholeText (string_bytes text) (known (bare_spec_tree spec.now))) }
{
    // So it is known that these are a theory's.
    let _decls = theory.decls();
    spec_text(alloc, spec)
}
