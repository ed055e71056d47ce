// The lines of a specification in which no expression stands: its head, and parts that are names.
ghost use Rattle.std.specs.Prelude.{◌≡◌, ℕ, List, IfOk, MatchOption, None, Some};
ghost use Rattle.std.specs.Option.{option_map};
ghost use Rattle.syn_model.specs.Specifications.{IsSpec, MayBegin, given_spec};
ghost use Rattle.syn_model.specs.declared.spec_part.SpecPart.TheVariants as part;
ghost use Rattle.syn_model.specs.Tables.{table_of};
ghost use Rattle.syn_files.specs.inner.Params.{param};
ghost use Rattle.syn_files.specs.inner.SimpleLines.{title_line};
ghost use Rattle.syn_files.specs.inner.SpecTelling.{IsOver};
ghost use Rattle.syn_files.specs.inner.SpecWords as lines;

use crate::cursor::{Cursor, is_text};
use sqlite_items::Items;
use std::alloc::Global;
use syn_model::{DeclError, Spec, SpecPart, Theory};
use syn_term::{NoMemory, Sort, Symbols, Text};

/// `: z: S`: the name and the sort of the output, at the end of a head.
fn output_line<'a>(syms: &Symbols, cursor: &mut Cursor<'a>) -> Option<(&'a str, Sort)>
    ensures { MatchOption result (lines.output_line syms.now cursor.old.left ≡ None) (λ z. lines.output_line syms.now cursor.old.left ≡ Some (param z.0.now z.1)) }
{
    if !cursor.sign(b":") {
        return None;
    }
    match cursor.param(syms) {
        None => None,
        Some(output) => {
            if cursor.is_empty() {
                Some(output)
            } else {
                None
            }
        }
    }
}

/// The specification that begins so; None where none does. The one error is want of memory.
fn begun(
    alloc: Global,
    theory: &Theory,
    name: &str,
    program: &str,
    inputs: &[(String, Sort)],
    output: &str,
    value: Sort,
) -> Result<Option<Spec>, NoMemory>
    ensures told { IfOk result (λ o. MatchOption o (MayBegin (theory.now).decls (given_spec (theory.now).decls name.now program.now inputs.now output.now value) → ⊥) (λ s. MayBegin (theory.now).decls s × (s ≡ given_spec (theory.now).decls name.now program.now inputs.now output.now value))) }
    ensures over { IfOk result (IsOver (theory.now).decls) }
{
    match Spec::begin(alloc, theory, name, program, inputs, (output, value)) {
        Ok(spec) => Ok(Some(spec)),
        Err(DeclError::Refused) => Ok(None),
        Err(DeclError::NoMemory) => Err(NoMemory),
    }
}

/// `f(a: S, ..): z: S`, behind the word `program`: the specification of this name that the line begins.
pub(crate) fn head_line(
    alloc: Global,
    theory: &Theory,
    name: &str,
    cursor: &mut Cursor<'_>,
) -> Result<Option<Spec>, NoMemory>
    ensures told { IfOk result (lines.Begins (theory.now).decls name.now (lines.head_line (table_of (theory.now).decls) cursor.old.left)) }
    ensures over { IfOk result (IsOver (theory.now).decls) }
{
    let Some(program) = cursor.name() else {
        return Ok(None);
    };
    let Some(inputs) = cursor.params(alloc, theory.symbols())? else {
        return Ok(None);
    };
    match output_line(theory.symbols(), cursor) {
        None => {
            drop(inputs);
            Ok(None)
        }
        Some(output) => begun(
            alloc,
            theory,
            name,
            program,
            inputs.as_slice(),
            output.0,
            output.1,
        ),
    }
}

/// `w`, behind the word `order`.
fn order_line(alloc: Global, cursor: &mut Cursor<'_>) -> Result<Option<SpecPart>, NoMemory>
    ensures { IfOk result (λ o. o ≡ option_map part.Order (title_line cursor.old.left)) }
{
    match cursor.name() {
        None => Ok(None),
        Some(name) => {
            if cursor.is_empty() {
                Ok(Some(SpecPart::Order(Text::from_str(alloc, name)?)))
            } else {
                Ok(None)
            }
        }
    }
}

/// The names up to the end, with commas between.
fn names_on(alloc: Global, cursor: &mut Cursor<'_>) -> Result<Option<Items<Text>>, NoMemory>
    ensures { IfOk result (λ o. o ≡ lines.names_on None cursor.old.left) }
{
    let mut names = Items::new(alloc);
    while let Some(name) = cursor.name() {
        names.push(Text::from_str(alloc, name)?)?;
        if cursor.is_empty() {
            return Ok(Some(names));
        }
        if !cursor.sign(b",") {
            return Ok(None);
        }
    }
    Ok(None)
}

/// The same, or nothing.
fn names_line(alloc: Global, cursor: &mut Cursor<'_>) -> Result<Option<Items<Text>>, NoMemory>
    ensures { IfOk result (λ o. o ≡ lines.names_line cursor.old.left) }
{
    if cursor.is_empty() {
        return Ok(Some(Items::new(alloc)));
    }
    names_on(alloc, cursor)
}

/// `NAME, ..`, behind the word `primitive`.
fn primitive_line(alloc: Global, cursor: &mut Cursor<'_>) -> Result<Option<SpecPart>, NoMemory>
    ensures { IfOk result (λ o. o ≡ option_map part.Primitive (lines.names_line cursor.old.left)) }
{
    match names_line(alloc, cursor)? {
        None => Ok(None),
        Some(names) => Ok(Some(SpecPart::Primitive(names))),
    }
}

/// `NAME, ..`, behind the word `use`.
fn taken_line(alloc: Global, cursor: &mut Cursor<'_>) -> Result<Option<SpecPart>, NoMemory>
    ensures { IfOk result (λ o. o ≡ option_map part.Taken (lines.names_line cursor.old.left)) }
{
    match names_line(alloc, cursor)? {
        None => Ok(None),
        Some(names) => Ok(Some(SpecPart::Taken(names))),
    }
}

/// The part that a line says with this word before what is left, where it is one of names.
pub(crate) fn named_part(
    alloc: Global,
    keyword: &str,
    cursor: &mut Cursor<'_>,
) -> Result<Option<SpecPart>, NoMemory>
    ensures { IfOk result (λ o. o ≡ lines.named_part keyword.now cursor.old.left) }
{
    if is_text(keyword, "order") {
        return order_line(alloc, cursor);
    }
    if is_text(keyword, "primitive") {
        return primitive_line(alloc, cursor);
    }
    if is_text(keyword, "use") {
        return taken_line(alloc, cursor);
    }
    Ok(None)
}
