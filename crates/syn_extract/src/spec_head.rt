// The head of a specification's program, made anew as the head of a program.
ghost use Rattle.std.specs.Prelude.{◌≡◌, [], All, IfOk, Some, map};
ghost use Rattle.syn_term.specs.DeclaredSorts.{IsTable};
ghost use Rattle.syn_term.specs.Symbols.{symbol_at};
ghost use Rattle.syn_model.specs.Heads.{MayHead, given_head, given_param, input_symbol};
ghost use Rattle.syn_model.specs.Programs.{headed};
ghost use Rattle.syn_model.specs.Specifications.{IsSpec};
ghost use Rattle.syn_extract.specs.inner.SpecHeads.{IsInputAt, head_of_spec};

use sqlite_items::Items;
use std::alloc::Global;
use syn_model::{DeclError, ProgramHead, Spec, Theory};
use syn_term::{NoMemory, Sort, SymId, Symbols};

/// The name of the program.
fn program_name(spec: &Spec) -> &str
    ensures name { result.now ≡ (spec.now).head.program }
    ensures table { IsTable (spec.now).table }
{
    match spec.symbols().get(spec.program()) {
        None => unreachable!(),
        Some(sym) => sym.name.as_str(),
    }
}

/// A name and a sort, as an input is handed in.
fn given_of(alloc: Global, name: &str, sort: Sort) -> Result<(String, Sort), NoMemory>
    ensures { IfOk result (λ i. given_param i ≡ record { name = name.now; sort = sort }) }
{
    Ok((String::from_str(alloc, name)?, sort))
}

/// The name and the sort of the input with this number.
fn input_of(alloc: Global, syms: &Symbols, id: SymId) -> Result<(String, Sort), NoMemory>
    requires { IsInputAt syms.now id }
    ensures { IfOk result (λ i. Some (input_symbol (given_param i)) ≡ symbol_at syms.now id) }
{
    match syms.get(id) {
        None => unreachable!(),
        Some(sym) => match sym.result {
            None => unreachable!(),
            Some(sort) => given_of(alloc, sym.name.as_str(), sort),
        },
    }
}

/// The names and the sorts of the inputs.
fn inputs_of(
    alloc: Global,
    syms: &Symbols,
    ids: &[SymId],
) -> Result<Items<(String, Sort)>, NoMemory>
    requires { All (IsInputAt syms.now) ids.now }
    ensures { IfOk result (λ inputs. map (λ i. Some (input_symbol (given_param i))) inputs ≡ map (symbol_at syms.now) ids.now) }
{
    let mut done = Items::new(alloc);
    for id in ids {
        done.push(input_of(alloc, syms, *id)?)?;
    }
    Ok(done)
}

/// The head of a program with this name, these inputs and this result, which may be.
fn head_of(
    alloc: Global,
    theory: &Theory,
    name: &str,
    inputs: &[(String, Sort)],
    value: Sort,
) -> Result<ProgramHead, NoMemory>
    requires { MayHead (theory.now).decls (given_head name.now inputs.now value) [] }
    ensures { IfOk result (λ h. h ≡ headed (theory.now).decls (given_head name.now inputs.now value)) }
{
    match ProgramHead::new(alloc, theory, name, inputs, value) {
        Ok(head) => Ok(head),
        Err(DeclError::NoMemory) => Err(NoMemory),
        Err(DeclError::Refused) => unreachable!(),
    }
}

/// The head of the specification's program.
pub(crate) fn spec_head(
    alloc: Global,
    theory: &Theory,
    spec: &Spec,
) -> Result<ProgramHead, NoMemory>
    requires { IsSpec (theory.now).decls spec.now }
    ensures head { IfOk result (λ h. h ≡ head_of_spec spec.now) }
    ensures table { IsTable (spec.now).table }
{
    let name = program_name(spec);
    let inputs = inputs_of(alloc, spec.symbols(), spec.inputs())?;
    let made = head_of(alloc, theory, name, inputs.as_slice(), spec.output().1);
    drop(inputs);
    made
}
