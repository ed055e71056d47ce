// A program: its head with the table over which its body speaks, and its body.
ghost use Rattle.std.specs.Prelude.{◌≡◌, ◌↔◌, [], Bool, Err, IfOk, IsTrue, List, Some, map};
ghost use Rattle.syn_term.specs.Names.{IsName};
ghost use Rattle.syn_term.specs.Symbols.{symbol_at};
ghost use Rattle.syn_form.specs.Plain as plain;
ghost use Rattle.syn_form.specs.Trees.{out_vars};
ghost use Rattle.syn_form.specs.Writing.{CanWriteTable};
ghost use Rattle.syn_model.specs.Heads.{MayHead, given_head, input_symbol, program_symbol};
ghost use Rattle.syn_model.specs.declared.decl.Decl.{Decl};
ghost use Rattle.syn_model.specs.Programs.{IsProgram, IsProgramHead, IsSomeProgram, IsSomeProgramHead, MayBeBody, headed, with_body};
ghost use Rattle.syn_model.specs.declared.theory.DeclError.TheVariants as error;

use crate::among::out_is_over;
use crate::clauses::gives;
use crate::head_table::{HeadTable, head_table};
use crate::heads::{Head, Param, head_of, may_head};
use crate::theory::{DeclError, Theory};
use std::alloc::Global;
use std::marker::Model;
use syn_form::{Out, is_plain_out};
use syn_term::{NoMemory, Sort, SymId, Symbols};

/// The head of a program over a theory: its name, its inputs, and the sort of its result. Contracts see
/// it with the table over which a body speaks.
#[derive(Drop)]
pub struct ProgramHead {
    alloc: Global,
    head: Head,
    table: HeadTable,
}

impl Model for ProgramHead {
    ghost use Rattle.syn_model.specs.inner.HoldingPrograms.{HoldsProgramHead, head_seen};
    ghost use Rattle.syn_model.specs.Programs.{ProgramHeadTree};

    ghost Value = { ProgramHeadTree };

    ghost view = { λ h. head_seen h.head h.table };

    ghost invariant = { λ h. HoldsProgramHead (head_seen h.head h.table) h.table };
}

/// The head with its table, where it may stand behind the theory's declarations.
fn head_over(
    alloc: Global,
    theory: &Theory,
    name: &str,
    inputs: &[(String, Sort)],
    value: Sort,
) -> Result<ProgramHead, NoMemory>
    requires { MayHead (theory.now).decls (given_head name.now inputs.now value) [] }
    ensures { IfOk result (λ h. h ≡ headed (theory.now).decls (given_head name.now inputs.now value)) }
{
    // So it is known that these are a theory's.
    let _decls = theory.decls();
    let head = head_of(alloc, name, inputs, value)?;
    match head_table(alloc, theory, &head) {
        Ok(table) => Ok(ProgramHead { alloc, head, table }),
        Err(error) => {
            drop(head);
            Err(error)
        }
    }
}

impl ProgramHead {
    /// The head of a program with this name, these inputs and a result of this sort. `Refused` comes
    /// exactly where the inputs are not one to four, where a name is no name, is declared or stands
    /// twice, or where a sort isn't there.
    pub fn new(
        alloc: Global,
        theory: &Theory,
        name: &str,
        inputs: &[(String, Sort)],
        value: Sort,
    ) -> Result<ProgramHead, DeclError>
        ensures ok { IfOk result (λ h. h ≡ headed (theory.now).decls (given_head name.now inputs.now value)) }
        ensures head { IfOk result (IsProgramHead (theory.now).decls) }
        ensures refused { result ≡ Err error.Refused ↔ (MayHead (theory.now).decls (given_head name.now inputs.now value) [] → ⊥) }
    {
        if !may_head(theory, name, inputs, value) {
            return Err(DeclError::Refused);
        }
        Ok(head_over(alloc, theory, name, inputs, value)?)
    }

    /// The name of the program.
    pub fn name(&self) -> &str
        ensures is { result.now ≡ (self.now).head.program }
        ensures named { IsName result.now }
    {
        self.head.program.as_str()
    }

    /// The inputs in order, with their names and sorts.
    pub fn inputs(&self) -> &[Param]
        ensures all { result.now ≡ (self.now).head.inputs }
        ensures head { IsSomeProgramHead self.now }
    {
        self.head.inputs.as_slice()
    }

    /// The sort of the result.
    pub fn result(&self) -> Sort
        ensures { result ≡ (self.now).head.result }
    {
        self.head.result
    }

    /// The table over which a body speaks: the theory's, with the program and the inputs behind it, in
    /// this order.
    pub fn symbols(&self) -> &Symbols
        ensures table { result.now ≡ (self.now).table }
        ensures written { (rows : Bool) → CanWriteTable rows result.now }
    {
        &self.table.syms
    }

    /// The program, by its number in the table.
    pub fn program(&self) -> SymId
        ensures { symbol_at (self.now).table result ≡ Some (program_symbol (self.now).head) }
    {
        self.table.program
    }

    /// The inputs in order, by their numbers in the table.
    pub fn input_symbols(&self) -> &[SymId]
        ensures { map (symbol_at (self.now).table) result.now ≡ map (λ p. Some (input_symbol p)) (self.now).head.inputs }
    {
        self.table.inputs.as_slice()
    }
}

/// Whether the output has no variables.
fn has_no_vars(body: &Out) -> bool
    ensures { IsTrue result ↔ (out_vars body.now ≡ []) }
{
    out_is_over(body, &[])
}

/// Whether the output has no variables, and gives a term of this sort.
fn gives_closed(syms: &Symbols, body: &Out, value: Sort) -> bool
    ensures { IsTrue result ↔ (out_vars body.now ≡ []) × (plain.given_sort syms.now body.now ≡ Some value) }
{
    has_no_vars(body) && gives(syms, body, value)
}

/// Whether the output may be the body. The one error is want of memory.
fn may_be_body(head: &ProgramHead, body: &Out) -> Result<bool, NoMemory>
    ensures { IfOk result (λ b. IsTrue b ↔ MayBeBody head.now body.now) }
{
    if !gives_closed(head.symbols(), body, head.result()) {
        return Ok(false);
    }
    is_plain_out(head.alloc, head.symbols(), body)
}

/// A program over a theory. Contracts see it as its head, the table over which its body speaks, and its
/// body.
#[derive(Drop)]
pub struct Program {
    head: ProgramHead,
    body: Out,
}

impl Model for Program {
    ghost use Rattle.syn_model.specs.Programs.{IsSomeProgram, ProgramTree, with_body};
    ghost use Rattle.syn_form.specs.contracts.trees.Out as out;
    ghost use Rattle.std.specs.Coded.{codes};

    ghost Value = { ProgramTree };

    ghost coded = { Prim.hlevel (codes, out.the_row.coded) };

    ghost view = { λ p. with_body p.head p.body };

    ghost invariant = { λ p. IsSomeProgram (with_body p.head p.body) };
}

impl Program {
    /// The program of this head and body. `Refused` comes exactly where the body isn't plain over the
    /// head's table, has a variable, or gives a term of another sort than the result's. Of how large and
    /// deep a body is nothing is asked: that is a matter of texts.
    pub fn new(head: ProgramHead, body: Out) -> Result<Program, DeclError>
        ensures ok { IfOk result (λ p. MayBeBody head body × (p ≡ with_body head body)) }
        ensures program { (ds : List Decl) → IsProgramHead ds head → IfOk result (IsProgram ds) }
        ensures refused { result ≡ Err error.Refused → MayBeBody head body → ⊥ }
    {
        // So it is known that this is a head.
        let _inputs = head.inputs();
        match may_be_body(&head, &body) {
            Ok(true) => Ok(Program { head, body }),
            Ok(false) => {
                drop(head);
                drop(body);
                Err(DeclError::Refused)
            }
            Err(error) => {
                drop(head);
                drop(body);
                Err(error.into())
            }
        }
    }

    /// The name of the program.
    pub fn name(&self) -> &str
        ensures is { result.now ≡ (self.now).head.program }
        ensures named { IsName result.now }
    {
        self.head.name()
    }

    /// The inputs in order, with their names and sorts.
    pub fn inputs(&self) -> &[Param]
        ensures { result.now ≡ (self.now).head.inputs }
    {
        self.head.inputs()
    }

    /// The sort of the result.
    pub fn result(&self) -> Sort
        ensures { result ≡ (self.now).head.result }
    {
        self.head.result()
    }

    /// The body, an output over the inputs, the theory's symbols and the program itself.
    pub fn body(&self) -> &Out
        ensures is { result.now ≡ (self.now).body }
        ensures program { IsSomeProgram self.now }
    {
        &self.body
    }

    /// The table over which the body speaks: the theory's, with the program and the inputs behind it, in
    /// this order.
    pub fn symbols(&self) -> &Symbols
        ensures table { result.now ≡ (self.now).table }
        ensures written { (rows : Bool) → CanWriteTable rows result.now }
    {
        self.head.symbols()
    }

    /// The program, by its number in the table.
    pub fn program(&self) -> SymId
        ensures { symbol_at (self.now).table result ≡ Some (program_symbol (self.now).head) }
    {
        self.head.program()
    }

    /// The inputs in order, by their numbers in the table.
    pub fn input_symbols(&self) -> &[SymId]
        ensures { map (symbol_at (self.now).table) result.now ≡ map (λ p. Some (input_symbol p)) (self.now).head.inputs }
    {
        self.head.input_symbols()
    }
}
