// Which declaration may follow which others, as far as the table is not asked.
ghost use Rattle.std.specs.Prelude.{◌↔◌, IfOk, IsTrue};
ghost use Rattle.syn_model.specs.Declaring.{Asks, ComesInTime, MayFunClause, MayRelClause, is_clause};

use crate::axioms::may_axiom;
use crate::clauses::{may_fun_clause, may_rel_clause};
use crate::decl::Decl;
use crate::headings::is_clause;
use crate::monos::may_mono;
use crate::orders::{are_all_free, are_both_free, asks_head, asks_order};
use crate::theory::Theory;
use std::alloc::Global;
use syn_form::{Form, Out};
use syn_term::{NoMemory, Term};

/// Whether the declaration is a clause, or comes where no clause is missing.
fn comes_in_time(theory: &Theory, decl: &Decl) -> bool
    ensures { IsTrue result ↔ ComesInTime (theory.now).decls (is_clause decl.now) }
{
    if is_clause(decl) {
        true
    } else {
        theory.is_whole()
    }
}

/// Whether the clause of a function may follow. The one error is want of memory.
fn asks_fun_clause(
    alloc: Global,
    theory: &Theory,
    args: &[Term],
    body: &Out,
) -> Result<bool, NoMemory>
    ensures { IfOk result (λ b. IsTrue b ↔ MayFunClause (theory.now).decls args.now body.now) }
{
    may_fun_clause(alloc, theory.symbols(), theory.decls(), args, body)
}

/// Whether the clause of a relation may follow. The one error is want of memory.
fn asks_rel_clause(
    alloc: Global,
    theory: &Theory,
    args: &[Term],
    body: &Form,
) -> Result<bool, NoMemory>
    ensures { IfOk result (λ b. IsTrue b ↔ MayRelClause (theory.now).decls args.now body.now) }
{
    may_rel_clause(alloc, theory.symbols(), theory.decls(), args, body)
}

/// Whether what the declaration asks besides is there. The one error is want of memory.
fn asks(alloc: Global, theory: &Theory, decl: &Decl) -> Result<bool, NoMemory>
    ensures { IfOk result (λ b. IsTrue b ↔ Asks (theory.now).decls decl.now) }
{
    match decl {
        Decl::ListSort {
            name,
            nil,
            cons,
            ..
        } => Ok(are_all_free(theory, name.as_str(), nil.as_str(), cons.as_str())),
        Decl::TupleSort { name, make, .. } => {
            Ok(are_both_free(theory, name.as_str(), make.as_str()))
        }
        Decl::Fun { name, args, .. } => Ok(asks_head(theory, name.as_str(), args.as_slice())),
        Decl::Rel { name, args } => Ok(asks_head(theory, name.as_str(), args.as_slice())),
        Decl::FunClause { args, body } => asks_fun_clause(alloc, theory, args.as_slice(), body),
        Decl::RelClause { args, body } => asks_rel_clause(alloc, theory, args.as_slice(), body),
        Decl::Order {
            name,
            args,
            measure,
        } => Ok(asks_order(theory, name.as_str(), args.as_slice(), measure)),
        Decl::Axiom { name, form } => may_axiom(alloc, theory, name.as_str(), form),
        Decl::Monotone { name, mono } => Ok(may_mono(theory, name.as_str(), mono)),
    }
}

/// Whether the declaration may follow these, if the table takes what it brings. The one error is want
/// of memory.
pub(crate) fn may_follow(alloc: Global, theory: &Theory, decl: &Decl) -> Result<bool, NoMemory>
    ensures { IfOk result (λ b. IsTrue b ↔ ComesInTime (theory.now).decls (is_clause decl.now) × Asks (theory.now).decls decl.now) }
{
    if !comes_in_time(theory, decl) {
        return Ok(false);
    }
    asks(alloc, theory, decl)
}
