// The table of symbols that a program's head makes behind that of a theory.
ghost use Rattle.std.specs.Prelude.{◌≡◌, [], List, IfOk, OnOk, length, ℕ};
ghost use Rattle.syn_term.specs.Symbols.{MayAdd, with_symbol};
ghost use Rattle.syn_model.specs.Heads.{MayHead, input_symbol, program_symbol, sorts_of, with_head, with_inputs};
ghost use Rattle.syn_model.specs.Tables.{table_of};
ghost use Rattle.syn_model.specs.inner.HeadTables.{AreIds, IsHeadTable, IsPushed, MayAddHead, MayAddInputs};

use crate::heads::{Head, Param};
use crate::theory::Theory;
use sqlite_items::Items;
use std::alloc::Global;
use syn_term::{Kind, NoMemory, Sort, Sym, SymId, Symbols, Text};

/// A table with the symbols of a head behind those of a theory: the program, and the inputs in order.
#[derive(Drop)]
pub(crate) struct HeadTable {
    pub(crate) syms: Symbols,
    pub(crate) program: SymId,
    pub(crate) inputs: Items<SymId>,
}

fn push_sorts(inputs: &[Param], sorts: &mut Items<Sort>) -> Result<(), NoMemory>
    requires { sorts.old ≡ [] }
    ensures { OnOk result (sorts.new ≡ sorts_of inputs.now) }
{
    for input in inputs {
        sorts.push(input.sort)?;
    }
    Ok(())
}

fn sorts_in(alloc: Global, inputs: &[Param]) -> Result<Items<Sort>, NoMemory>
    ensures { IfOk result (λ sorts. sorts ≡ sorts_of inputs.now) }
{
    let mut sorts = Items::new(alloc);
    push_sorts(inputs, &mut sorts)?;
    Ok(sorts)
}

fn program_sym(alloc: Global, head: &Head) -> Result<Sym, NoMemory>
    ensures { IfOk result (λ sym. sym ≡ program_symbol head.now) }
{
    let name = head.program.again()?;
    let args = sorts_in(alloc, head.inputs.as_slice())?;
    Ok(Sym {
        name,
        kind: Kind::Program,
        args,
        result: Some(head.result),
    })
}

fn input_sym(alloc: Global, input: &Param) -> Result<Sym, NoMemory>
    ensures { IfOk result (λ sym. sym ≡ input_symbol input.now) }
{
    Ok(Sym {
        name: input.name.again()?,
        kind: Kind::Input,
        args: Items::new(alloc),
        result: Some(input.sort),
    })
}

/// Adds a symbol that may be added, and gives its number.
fn enter(syms: &mut Symbols, sym: Sym) -> Result<SymId, NoMemory>
    requires { MayAdd syms.old sym }
    ensures { IfOk result (λ id. (id.0 ≡ length syms.old.syms) × (syms.new ≡ with_symbol syms.old sym)) }
{
    match syms.add(sym)? {
        Some(id) => Ok(id),
        None => unreachable!(),
    }
}

/// Adds the input and puts its number behind the others.
fn enter_input(
    alloc: Global,
    syms: &mut Symbols,
    input: &Param,
    ids: &mut Items<SymId>,
) -> Result<(), NoMemory>
    requires { MayAdd syms.old (input_symbol input.now) }
    ensures { OnOk result ((syms.new ≡ with_symbol syms.old (input_symbol input.now)) × IsPushed ids.old ids.new (length syms.old.syms)) }
{
    let id = enter(syms, input_sym(alloc, input)?)?;
    ids.push(id)?;
    Ok(())
}

/// Adds the inputs in order.
fn enter_inputs(
    alloc: Global,
    syms: &mut Symbols,
    inputs: &[Param],
    ids: &mut Items<SymId>,
) -> Result<(), NoMemory>
    requires may { MayAddInputs syms.old inputs.now }
    requires none { ids.old ≡ [] }
    ensures { OnOk result ((syms.new ≡ with_inputs syms.old inputs.now) × AreIds syms.new ids.new inputs.now) }
{
    for input in inputs {
        enter_input(alloc, &mut *syms, input, &mut *ids)?;
    }
    Ok(())
}

/// Adds the program and its inputs.
fn enter_head(
    alloc: Global,
    syms: &mut Symbols,
    head: &Head,
    ids: &mut Items<SymId>,
) -> Result<SymId, NoMemory>
    requires may { MayAddHead syms.old head.now }
    requires none { ids.old ≡ [] }
    ensures { IfOk result (λ id. (id.0 ≡ length syms.old.syms) × (syms.new ≡ with_head syms.old head.now) × AreIds syms.new ids.new head.now.inputs) }
{
    let id = enter(&mut *syms, program_sym(alloc, head)?)?;
    enter_inputs(alloc, syms, head.inputs.as_slice(), ids)?;
    Ok(id)
}

/// The table of a head that may stand behind the theory's declarations.
pub(crate) fn head_table(alloc: Global, theory: &Theory, head: &Head) -> Result<HeadTable, NoMemory>
    requires { (more : List (List ℕ)) × MayHead (theory.now).decls head.now more }
    ensures { IfOk result (IsHeadTable (table_of (theory.now).decls) head.now) }
{
    let mut syms = theory.symbols().copy(alloc)?;
    let mut inputs = Items::new(alloc);
    match enter_head(alloc, &mut syms, head, &mut inputs) {
        Ok(program) => Ok(HeadTable {
            syms,
            program,
            inputs,
        }),
        Err(error) => {
            drop(syms);
            drop(inputs);
            Err(error)
        }
    }
}

impl HeadTable {
    /// The same table once more.
    pub(crate) fn copy(&self, alloc: Global) -> Result<HeadTable, NoMemory>
        ensures { IfOk result (λ made. made ≡ self.now) }
    {
        let inputs = Items::from_slice(alloc, self.inputs.as_slice())?;
        match self.syms.copy(alloc) {
            Ok(syms) => Ok(HeadTable {
                syms,
                program: self.program,
                inputs,
            }),
            Err(error) => {
                drop(inputs);
                Err(error)
            }
        }
    }
}
