// The head of a program: whether one may stand behind the declarations of a theory.
ghost use Rattle.std.specs.Prelude.{◌≡◌, ◌≢◌, ◌↔◌, ◌≤◌, [], All, IfOk, IsTrue, OnOk, length, map};
ghost use Rattle.syn_term.specs.Symbols.{IsSort};
ghost use Rattle.syn_model.specs.Heads.{AreDistinct, IsNewName, MayHead, given_head, given_name, given_param, given_sort};
ghost use Rattle.syn_model.specs.inner.HeadTables.{HasGivenNames};

use crate::naming::is_new_name;
use crate::theory::Theory;
use sqlite_items::Items;
use std::alloc::Global;
use syn_form::is_sort;
use syn_term::{NoMemory, Sort, Symbols, Text};

/// An input of a program, with its sort.
#[derive(Drop)]
pub struct Param {
    pub name: Text,
    pub sort: Sort,
}

/// The name of a program, its inputs, and the sort of its result.
#[derive(Drop)]
pub struct Head {
    pub program: Text,
    pub inputs: Items<Param>,
    pub result: Sort,
}

/// How many inputs a program has at most.
const MOST_INPUTS: usize = 4;

/// Whether the inputs are one to four.
fn are_few(inputs: &[(String, Sort)]) -> bool
    ensures { IsTrue result ↔ (1 ≤ length inputs.now) × (length inputs.now ≤ 4) }
{
    !inputs.is_empty() && inputs.len() <= MOST_INPUTS
}

fn is_new_input(theory: &Theory, input: &(String, Sort)) -> bool
    ensures { IsTrue result ↔ IsNewName (theory.now).decls (given_name input.now) }
{
    is_new_name(theory, input.0.as_str())
}

/// Whether each input has a name that nothing declared has.
pub fn are_new_inputs(theory: &Theory, inputs: &[(String, Sort)]) -> bool
    ensures { IsTrue result ↔ All (λ p. IsNewName (theory.now).decls (given_name p)) inputs.now }
{
    for input in inputs {
        if !is_new_input(theory, input) {
            return false;
        }
    }
    true
}

fn is_other(input: &(String, Sort), name: &str) -> bool
    ensures { IsTrue result ↔ (given_name input.now ≢ name.now) }
{
    input.0.as_str() != name
}

/// Whether none of the inputs has the name.
fn are_others(inputs: &[(String, Sort)], name: &str) -> bool
    ensures { IsTrue result ↔ All (λ p. given_name p ≢ name.now) inputs.now }
{
    for input in inputs {
        if !is_other(input, name) {
            return false;
        }
    }
    true
}

/// Whether no two inputs have one name.
fn are_distinct_inputs(inputs: &[(String, Sort)]) -> bool
    ensures { IsTrue result ↔ AreDistinct (map given_name inputs.now) }
{
    for i in 0..inputs.len() {
        if !are_others(&inputs[..i], inputs[i].0.as_str()) {
            return false;
        }
    }
    true
}

fn is_other_name(name: &str, other: &str) -> bool
    ensures { IsTrue result ↔ (name.now ≢ other.now) }
{
    name != other
}

/// Whether the name is neither the program's nor an input's.
pub(crate) fn is_beside(program: &str, inputs: &[(String, Sort)], name: &str) -> bool
    ensures { IsTrue result ↔ (program.now ≢ name.now) × All (λ p. given_name p ≢ name.now) inputs.now }
{
    is_other_name(program, name) && are_others(inputs, name)
}

/// Whether the names of the program and of its inputs are names that nothing declared has.
fn are_new_names(theory: &Theory, program: &str, inputs: &[(String, Sort)]) -> bool
    ensures { IsTrue result ↔ IsNewName (theory.now).decls program.now × All (λ p. IsNewName (theory.now).decls (given_name p)) inputs.now }
{
    is_new_name(theory, program) && are_new_inputs(theory, inputs)
}

/// Whether the names of the program and of its inputs differ.
pub fn are_distinct_names(program: &str, inputs: &[(String, Sort)]) -> bool
    ensures { IsTrue result ↔ All (λ p. given_name p ≢ program.now) inputs.now × AreDistinct (map given_name inputs.now) }
{
    are_others(inputs, program) && are_distinct_inputs(inputs)
}

fn has_sort(syms: &Symbols, input: &(String, Sort)) -> bool
    ensures { IsTrue result ↔ IsSort syms.now (given_sort input.now) }
{
    is_sort(syms, input.1)
}

fn have_sorts(syms: &Symbols, inputs: &[(String, Sort)]) -> bool
    ensures { IsTrue result ↔ All (λ p. IsSort syms.now (given_sort p)) inputs.now }
{
    for input in inputs {
        if !has_sort(syms, input) {
            return false;
        }
    }
    true
}

/// Whether the sorts of the result and of the inputs are there.
fn are_sorts(syms: &Symbols, inputs: &[(String, Sort)], value: Sort) -> bool
    ensures { IsTrue result ↔ IsSort syms.now value × All (λ p. IsSort syms.now (given_sort p)) inputs.now }
{
    is_sort(syms, value) && have_sorts(syms, inputs)
}

/// Whether the names of the head are new and differ.
fn has_names(theory: &Theory, program: &str, inputs: &[(String, Sort)]) -> bool
    ensures { IsTrue result ↔ HasGivenNames (theory.now).decls program.now inputs.now }
{
    are_new_names(theory, program, inputs) && are_distinct_names(program, inputs)
}

/// Whether the head may stand behind the declarations.
pub(crate) fn may_head(
    theory: &Theory,
    program: &str,
    inputs: &[(String, Sort)],
    value: Sort,
) -> bool
    ensures { IsTrue result ↔ MayHead (theory.now).decls (given_head program.now inputs.now value) [] }
{
    if !are_few(inputs) {
        return false;
    }
    if !has_names(theory, program, inputs) {
        return false;
    }
    are_sorts(theory.symbols(), inputs, value)
}

fn param_of(alloc: Global, input: &(String, Sort)) -> Result<Param, NoMemory>
    ensures { IfOk result (λ p. p ≡ given_param input.now) }
{
    Ok(Param {
        name: Text::from_str(alloc, input.0.as_str())?,
        sort: input.1,
    })
}

fn push_params(
    alloc: Global,
    inputs: &[(String, Sort)],
    params: &mut Items<Param>,
) -> Result<(), NoMemory>
    requires { params.old ≡ [] }
    ensures { OnOk result (params.new ≡ map given_param inputs.now) }
{
    for input in inputs {
        params.push(param_of(alloc, input)?)?;
    }
    Ok(())
}

fn params_of(alloc: Global, inputs: &[(String, Sort)]) -> Result<Items<Param>, NoMemory>
    ensures { IfOk result (λ params. params ≡ map given_param inputs.now) }
{
    let mut params = Items::new(alloc);
    match push_params(alloc, inputs, &mut params) {
        Ok(()) => Ok(params),
        Err(error) => {
            drop(params);
            Err(error)
        }
    }
}

/// The head of these parts.
pub(crate) fn head_of(
    alloc: Global,
    program: &str,
    inputs: &[(String, Sort)],
    value: Sort,
) -> Result<Head, NoMemory>
    ensures { IfOk result (λ h. h ≡ given_head program.now inputs.now value) }
{
    let program = Text::from_str(alloc, program)?;
    let inputs = params_of(alloc, inputs)?;
    Ok(Head {
        program,
        inputs,
        result: value,
    })
}

impl Param {
    fn again(&self) -> Result<Param, NoMemory>
        ensures { IfOk result (λ p. p ≡ self.now) }
    {
        Ok(Param {
            name: self.name.again()?,
            sort: self.sort,
        })
    }
}

fn push_again(params: &[Param], copies: &mut Items<Param>) -> Result<(), NoMemory>
    requires { copies.old ≡ [] }
    ensures { OnOk result (copies.new ≡ params.now) }
{
    for param in params {
        copies.push(param.again()?)?;
    }
    Ok(())
}

fn params_again(alloc: Global, params: &[Param]) -> Result<Items<Param>, NoMemory>
    ensures { IfOk result (λ copies. copies ≡ params.now) }
{
    let mut copies = Items::new(alloc);
    match push_again(params, &mut copies) {
        Ok(()) => Ok(copies),
        Err(error) => {
            drop(copies);
            Err(error)
        }
    }
}

impl Head {
    /// The same head once more.
    pub(crate) fn again(&self, alloc: Global) -> Result<Head, NoMemory>
        ensures { IfOk result (λ h. h ≡ self.now) }
    {
        let program = self.program.again()?;
        let inputs = params_again(alloc, self.inputs.as_slice())?;
        Ok(Head {
            program,
            inputs,
            result: self.result,
        })
    }
}
