// Whether a row is plain, for whoever reads one.
ghost use Rattle.std.specs.Prelude.{◌↔◌, All, IfOk, IsTrue};
ghost use Rattle.syn_form.specs.Plain.{HasOneSortEach};
ghost use Rattle.syn_row.specs.Rows.{IsPlain};
ghost use Rattle.syn_row.specs.inner.Renumbering.{AreLike, IsFormedOutput};

use crate::occurrences::occurrences;
use crate::rows::Row;
use std::alloc::Global;
use syn_form::{Out, is_formed_form, is_formed_out};
use syn_term::{NoMemory, Symbols, Var};

/// Whether the output is formed, where there is one.
fn is_formed_output(syms: &Symbols, out: &Option<Out>) -> bool
    ensures { IsTrue result ↔ IsFormedOutput syms.now out.now }
{
    match out {
        None => true,
        Some(out) => is_formed_out(syms, out),
    }
}

/// Whether two variables have other numbers, or are of one sort.
fn is_like(v: Var, w: Var) -> bool
    ensures { IsTrue result ↔ AreLike v w }
{
    v.number != w.number || v.sort == w.sort
}

/// The same for each of the second.
fn is_like_all(v: Var, vars: &[Var]) -> bool
    ensures { IsTrue result ↔ All (AreLike v) vars.now }
{
    for w in vars {
        if !is_like(v, *w) {
            return false;
        }
    }
    true
}

/// Whether no number has two sorts among the variables.
fn have_one_sort_each(vars: &[Var]) -> bool
    ensures { IsTrue result ↔ All (λ v. All (AreLike v) vars.now) vars.now }
{
    for v in vars {
        if !is_like_all(*v, vars) {
            return false;
        }
    }
    true
}

/// Whether the row is plain: formula and output are formed over the table, and no variable number has
/// two sorts in the two together. The one error is `NoMemory`.
pub fn is_plain_row(alloc: Global, syms: &Symbols, row: &Row) -> Result<bool, NoMemory>
    ensures { IfOk result (λ b. IsTrue b ↔ IsPlain syms.now row.now) }
{
    if !is_formed_form(syms, &row.form) {
        return Ok(false);
    }
    if !is_formed_output(syms, &row.out) {
        return Ok(false);
    }
    let vars = occurrences(alloc, row)?;
    let one = have_one_sort_each(vars.as_slice());
    drop(vars);
    Ok(one)
}
