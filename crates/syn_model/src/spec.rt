// A specification: its head, the table of symbols over which it speaks, and its parts.
ghost use Rattle.std.specs.Prelude.{◌≡◌, ◌≢◌, ◌↔◌, ◌∷◌, [], All, Bool, Err, IfOk, IsTrue, OnErr, OnOk, Some, map};
ghost use Rattle.syn_term.specs.Names.{IsName};
ghost use Rattle.syn_term.specs.Symbols.{symbol_at};
ghost use Rattle.syn_form.specs.Writing.{CanWriteTable};
ghost use Rattle.syn_model.specs.Heads.{IsNewName, MayHead, given_head, given_name, input_symbol, program_id, program_symbol, sorts_of};
ghost use Rattle.syn_model.specs.Specifications.{IsSomeSpec, IsSpec, IsWholeSpec, MayBegin, MayExtend, given_spec, with_part};
ghost use Rattle.syn_model.specs.Tables.{table_of};
ghost use Rattle.syn_model.specs.declared.theory.DeclError.TheVariants as error;

use crate::extending::{has_ensures, may_extend};
use crate::head_table::{HeadTable, head_table};
use crate::heads::{Head, head_of, is_beside, may_head};
use crate::naming::is_new_name;
use crate::spec_part::{SpecPart, parts_again};
use crate::theory::{DeclError, Theory};
use sqlite_items::Items;
use std::alloc::Global;
use std::marker::Model;
use syn_term::{NoMemory, Sort, SymId, Symbols, Text, is_name};

/// A specification of a program over a theory. Contracts see it as its name, the head of its program,
/// the name of the output, its table of symbols and its parts.
#[derive(Drop)]
pub struct Spec {
    alloc: Global,
    name: Text,
    head: Head,
    output: Text,
    table: HeadTable,
    parts: Items<SpecPart>,
}

impl Model for Spec {
    ghost use Rattle.syn_model.specs.inner.HoldingSpecs.{HoldsSpec, spec_seen};
    ghost use Rattle.syn_model.specs.Specifications.{SpecTree};
    ghost use Rattle.syn_model.specs.contracts.spec_part.SpecPart as part;
    ghost use Rattle.std.specs.Coded.{codes};

    ghost Value = { SpecTree };

    ghost coded = { Prim.hlevel (codes, part.the_row.coded) };

    ghost view = { λ s. spec_seen s.name s.head s.output s.table s.parts };

    ghost invariant = { λ s. HoldsSpec (spec_seen s.name s.head s.output s.table s.parts) s.table };
}

/// Whether the output has a name that nothing declared has, and no symbol of the head.
fn is_new_output(theory: &Theory, program: &str, inputs: &[(String, Sort)], output: &str) -> bool
    ensures { IsTrue result ↔ IsNewName (theory.now).decls output.now × ((program.now ≢ output.now) × All (λ p. given_name p ≢ output.now) inputs.now) }
{
    is_new_name(theory, output) && is_beside(program, inputs, output)
}

/// Whether the head may stand behind the theory's declarations, with this name for the output.
fn may_head_with(
    theory: &Theory,
    program: &str,
    inputs: &[(String, Sort)],
    output: &str,
    value: Sort,
) -> bool
    ensures { IsTrue result ↔ MayHead (theory.now).decls (given_head program.now inputs.now value) (output.now ∷ []) }
{
    may_head(theory, program, inputs, value) && is_new_output(theory, program, inputs, output)
}

/// Whether a specification may begin so.
fn may_begin(
    theory: &Theory,
    name: &str,
    program: &str,
    inputs: &[(String, Sort)],
    output: &str,
    value: Sort,
) -> bool
    ensures { IsTrue result ↔ MayBegin (theory.now).decls (given_spec (theory.now).decls name.now program.now inputs.now output.now value) }
{
    is_name(name) && may_head_with(theory, program, inputs, output, value)
}

/// The specification without parts.
fn begun(
    alloc: Global,
    theory: &Theory,
    name: &str,
    program: &str,
    inputs: &[(String, Sort)],
    output: &str,
    value: Sort,
) -> Result<Spec, NoMemory>
    requires { MayBegin (theory.now).decls (given_spec (theory.now).decls name.now program.now inputs.now output.now value) }
    ensures { IfOk result (λ s. s ≡ given_spec (theory.now).decls name.now program.now inputs.now output.now value) }
{
    let name = Text::from_str(alloc, name)?;
    let output = Text::from_str(alloc, output)?;
    // So it is known that these are a theory's.
    let _decls = theory.decls();
    let head = head_of(alloc, program, inputs, value)?;
    match head_table(alloc, theory, &head) {
        Ok(table) => Ok(Spec {
            alloc,
            name,
            head,
            output,
            table,
            parts: Items::new(alloc),
        }),
        Err(error) => {
            drop(name);
            drop(output);
            drop(head);
            Err(error)
        }
    }
}

/// The two texts once more.
fn texts_again(first: &Text, second: &Text) -> Result<(Text, Text), NoMemory>
    ensures { IfOk result (λ texts. (texts.0 ≡ first.now) × (texts.1 ≡ second.now)) }
{
    let first = first.again()?;
    let second = second.again()?;
    Ok((first, second))
}

impl Spec {
    /// The specification of a program with this name, these inputs and this output, without parts.
    /// `Refused` comes exactly where a name is no name, is declared or stands twice, where the inputs
    /// are not one to four, or where a sort isn't there.
    pub fn begin(
        alloc: Global,
        theory: &Theory,
        name: &str,
        program: &str,
        inputs: &[(String, Sort)],
        output: (&str, Sort),
    ) -> Result<Spec, DeclError>
        ensures ok { IfOk result (λ s. MayBegin (theory.now).decls s × (s ≡ given_spec (theory.now).decls name.now program.now inputs.now output.entry.0.now output.entry.1)) }
        ensures spec { IfOk result (IsSpec (theory.now).decls) }
        ensures refused { result ≡ Err error.Refused ↔ (MayBegin (theory.now).decls (given_spec (theory.now).decls name.now program.now inputs.now output.entry.0.now output.entry.1) → ⊥) }
    {
        let (output, value) = output;
        if !may_begin(theory, name, program, inputs, output, value) {
            return Err(DeclError::Refused);
        }
        Ok(begun(alloc, theory, name, program, inputs, output, value)?)
    }

    /// The same specification once more. Its trees are shared; its names and its table are copied.
    pub fn copy(&self) -> Result<Spec, NoMemory>
        ensures { IfOk result (λ s. s ≡ self.now) }
    {
        let head = self.head.again(self.alloc)?;
        let parts = match parts_again(self.alloc, self.parts.as_slice()) {
            Ok(parts) => parts,
            Err(error) => {
                drop(head);
                return Err(error);
            }
        };
        let table = match self.table.copy(self.alloc) {
            Ok(table) => table,
            Err(error) => {
                drop(head);
                drop(parts);
                return Err(error);
            }
        };
        match texts_again(&self.name, &self.output) {
            Ok((name, output)) => Ok(Spec {
                alloc: self.alloc,
                name,
                head,
                output,
                table,
                parts,
            }),
            Err(error) => {
                drop(head);
                drop(parts);
                drop(table);
                Err(error)
            }
        }
    }

    /// The name of the specification, which is a name.
    pub fn name(&self) -> &str
        ensures is { result.now ≡ (self.now).name }
        ensures named { IsName result.now }
    {
        self.name.as_str()
    }

    /// The program, by its number in the table.
    pub fn program(&self) -> SymId
        ensures { symbol_at (self.now).table result ≡ Some (program_symbol (self.now).head) }
    {
        self.table.program
    }

    /// The inputs in order, by their numbers in the table.
    pub fn inputs(&self) -> &[SymId]
        ensures { map (symbol_at (self.now).table) result.now ≡ map (λ p. Some (input_symbol p)) (self.now).head.inputs }
    {
        self.table.inputs.as_slice()
    }

    /// The name of the output, and its sort.
    pub fn output(&self) -> (&str, Sort)
        ensures name { result.0.now ≡ (self.now).output }
        ensures sort { result.1 ≡ (self.now).head.result }
    {
        (self.output.as_str(), self.head.result)
    }

    /// The parts, in the order in which they came.
    pub fn parts(&self) -> &[SpecPart]
        ensures all { result.now ≡ (self.now).parts }
        ensures spec { IsSomeSpec self.now }
    {
        self.parts.as_slice()
    }

    /// The table over which the parts speak: the theory's, with the program and the inputs behind it.
    pub fn symbols(&self) -> &Symbols
        ensures table { result.now ≡ (self.now).table }
        ensures written { (rows : Bool) → CanWriteTable rows result.now }
    {
        &self.table.syms
    }

    /// Whether the output condition is there, so that nothing is missing.
    pub fn is_whole(&self) -> bool
        ensures { IsTrue result ↔ IsWholeSpec self.now }
    {
        has_ensures(self.parts.as_slice())
    }

    /// The program, where the specification is one over the theory.
    pub(crate) fn program_in(&self, theory: &Theory) -> SymId
        requires { IsSpec (theory.now).decls self.now }
        ensures { result ≡ program_id (table_of (theory.now).decls) }
    {
        self.table.program
    }

    /// The sorts of the inputs.
    pub(crate) fn sorts(&self) -> &[Sort]
        ensures { result.now ≡ sorts_of (self.now).head.inputs }
    {
        match self.symbols().get(self.program()) {
            None => &[],
            Some(sym) => sym.args.as_slice(),
        }
    }

    /// Puts a part behind the others. `Refused` comes exactly where it may not follow them; the
    /// specification is as it was after an error.
    pub fn extend(&mut self, theory: &Theory, part: SpecPart) -> Result<(), DeclError>
        requires { IsSpec (theory.now).decls self.old }
        ensures ok { OnOk result (MayExtend (theory.now).decls self.old part × (self.new ≡ with_part self.old part)) }
        ensures refused { result ≡ Err error.Refused → MayExtend (theory.now).decls self.old part → ⊥ }
        ensures err { OnErr result (self.new ≡ self.old) }
        ensures spec { IsSpec (theory.now).decls self.new }
    {
        // So it is known that these are a theory's.
        let _decls = theory.decls();
        match may_extend(self.alloc, theory, self, &part) {
            Ok(true) => Ok(self.push(part)?),
            Ok(false) => {
                drop(part);
                Err(DeclError::Refused)
            }
            Err(error) => {
                drop(part);
                Err(error.into())
            }
        }
    }

    /// Puts down a part that makes a specification.
    fn push(&mut self, part: SpecPart) -> Result<(), NoMemory>
        requires { IsSomeSpec (with_part self.old part) }
        ensures ok { OnOk result (self.new ≡ with_part self.old part) }
        ensures err { OnErr result (self.new ≡ self.old) }
    {
        self.parts.push(part)?;
        Ok(())
    }
}
