// The names that the variables of a printed line get: `x` and the number, or, where the theory declares
// such a name, `x`, a mark, `_` and the number, with the least mark by which no name is declared.
ghost use Rattle.std.specs.Prelude.{◌≡◌, ◌↔◌, ◌++◌, ◌∷◌, [], ◌<◌, ◌≤◌, ℕ, Option, Some, All, IfOk, OnOk, IsTrue, string_bytes};
ghost use Rattle.syn_expr.specs.Scopes.{listed};
ghost use Rattle.syn_form.specs.Scopes.{Named};
ghost use Rattle.syn_model.specs.Tables.{IsDeclared};
ghost use Rattle.syn_files.specs.Printed.{AreFree, IsMark, name_by, named_by};
ghost use Rattle.syn_files.specs.inner.Entries.{IsSmall, IsSmallMark};

use std::alloc::Global;
use syn_expr::{put, put_number};
use syn_model::Theory;
use syn_term::{NoMemory, Var};

/// The name of the variable with this number.
fn name_by(alloc: Global, mark: Option<u32>, number: u32) -> Result<String, NoMemory>
    ensures text { IfOk result (λ name. string_bytes name ≡ name_by mark number) }
    ensures small { IfOk result (λ name. IsSmall mark number) }
{
    let mut name = String::new(alloc);
    put(&mut name, "x")?;
    if let Some(mark) = mark {
        put_number(&mut name, mark)?;
        put(&mut name, "_")?;
    }
    put_number(&mut name, number)?;
    Ok(name)
}

/// Whether the theory does not declare the name that the variable with this number gets.
fn is_free(alloc: Global, theory: &Theory, mark: Option<u32>, number: u32) -> Result<bool, NoMemory>
    ensures { IfOk result (λ b. IsTrue b ↔ (IsDeclared (theory.now).decls (name_by mark number) → ⊥)) }
{
    let name = name_by(alloc, mark, number)?;
    Ok(!theory.declares(name.as_str()))
}

/// Whether none of these variables gets a name that the theory declares.
fn are_free(
    alloc: Global,
    theory: &Theory,
    mark: Option<u32>,
    vars: &[Var],
) -> Result<bool, NoMemory>
    ensures { IfOk result (λ b. IsTrue b ↔ AreFree (IsDeclared (theory.now).decls) vars.now mark) }
{
    for i in 0..vars.len() {
        if !is_free(alloc, theory, mark, vars[i].number)? {
            return Ok(false);
        }
    }
    Ok(true)
}

/// The least mark from 1 on that gives none of the variables a name that the theory declares. It is
/// found: each name that is declared rules out one mark at most, and there are fewer than 2^32.
fn least_mark(alloc: Global, theory: &Theory, vars: &[Var]) -> Result<u32, NoMemory>
    ensures { IfOk result (λ j. (1 ≤ j) × AreFree (IsDeclared (theory.now).decls) vars.now (Some j) × ((i : ℕ) → 1 ≤ i → i < j → AreFree (IsDeclared (theory.now).decls) vars.now (Some i) → ⊥)) }
{
    for mark in 1..u32::MAX {
        if are_free(alloc, theory, Some(mark), vars)? {
            return Ok(mark);
        }
    }
    Err(NoMemory)
}

/// The mark of a line with these variables.
fn mark_for(alloc: Global, theory: &Theory, vars: &[Var]) -> Result<Option<u32>, NoMemory>
    ensures { IfOk result (IsMark (IsDeclared (theory.now).decls) vars.now) }
{
    if are_free(alloc, theory, None, vars)? {
        return Ok(None);
    }
    Ok(Some(least_mark(alloc, theory, vars)?))
}

/// Puts a variable with its name behind the others.
pub(crate) fn push_named(
    names: &mut Vec<(String, Var)>,
    name: String,
    var: Var,
) -> Result<(), NoMemory>
    ensures { OnOk result (listed names.new.items ≡ listed names.old.items ++ record { text = string_bytes name; var = var } ∷ []) }
{
    match names.push((name, var)) {
        Ok(()) => Ok(()),
        Err(_) => Err(NoMemory),
    }
}

/// The variables with their names.
fn named_by(alloc: Global, mark: Option<u32>, vars: &[Var]) -> Result<Vec<(String, Var)>, NoMemory>
    ensures names { IfOk result (λ names. listed names.items ≡ named_by mark vars.now) }
    ensures small { IfOk result (λ names. All (λ v. IsSmall mark v.number) vars.now) }
{
    let mut names = Vec::new(alloc);
    for i in 0..vars.len() {
        let name = name_by(alloc, mark, vars[i].number)?;
        push_named(&mut names, name, vars[i])?;
    }
    Ok(names)
}

/// The variables of a line with their names.
pub(crate) fn line_names(
    alloc: Global,
    theory: &Theory,
    vars: &[Var],
) -> Result<Vec<(String, Var)>, NoMemory>
    ensures { IfOk result (λ names. (mark : Option ℕ) × IsSmallMark (theory.now).decls vars.now mark × (listed names.items ≡ named_by mark vars.now)) }
{
    let mark = mark_for(alloc, theory, vars)?;
    named_by(alloc, mark, vars)
}
