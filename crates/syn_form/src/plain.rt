// Whether a tree is plain: it is formed, and no variable number has two sorts in it.
ghost use Rattle.std.specs.Prelude.{◌↔◌, All, IfOk, IsTrue};
ghost use Rattle.syn_form.specs.Plain.{IsPlainForm, IsPlainOut};
ghost use Rattle.syn_form.specs.PlainQuantified.{BindsOnce, IsNumbered, IsPlainQForm, MayBind, binders_of};

use crate::binders::{binders_may_bind, binds_once};
use crate::formed::{is_formed_form, is_formed_out};
use crate::numbers::is_numbered;
use crate::quantified::is_formed_qform;
use crate::trees::{Form, Out, QForm};
use crate::vars::{form_has_one_sort_each, out_has_one_sort_each, qform_has_one_sort_each};
use std::alloc::Global;
use syn_term::{NoMemory, Symbols};

/// Whether the formula is plain. The one error is want of memory.
pub fn is_plain_form(alloc: Global, syms: &Symbols, f: &Form) -> Result<bool, NoMemory>
    ensures { IfOk result (λ b. IsTrue b ↔ IsPlainForm syms.now f.now) }
{
    if !is_formed_form(syms, f) {
        return Ok(false);
    }
    form_has_one_sort_each(alloc, f)
}

/// Whether the output is plain. The one error is want of memory.
pub fn is_plain_out(alloc: Global, syms: &Symbols, o: &Out) -> Result<bool, NoMemory>
    ensures { IfOk result (λ b. IsTrue b ↔ IsPlainOut syms.now o.now) }
{
    if !is_formed_out(syms, o) {
        return Ok(false);
    }
    out_has_one_sort_each(alloc, o)
}

/// Whether the binders are numbered in order and may be bound, and no name is bound again within its
/// scope.
fn binds_in_order(syms: &Symbols, f: &QForm) -> bool
    ensures { IsTrue result ↔ IsNumbered f.now × All (MayBind syms.now) (binders_of f.now) × BindsOnce f.now }
{
    is_numbered(f) && binders_may_bind(syms, f) && binds_once(f)
}

/// Whether the formula, which may have quantifiers, is plain. The one error is want of memory.
pub fn is_plain_qform(alloc: Global, syms: &Symbols, f: &QForm) -> Result<bool, NoMemory>
    ensures { IfOk result (λ b. IsTrue b ↔ IsPlainQForm syms.now f.now) }
{
    if !is_formed_qform(syms, f) {
        return Ok(false);
    }
    if !binds_in_order(syms, f) {
        return Ok(false);
    }
    qform_has_one_sort_each(alloc, f)
}
