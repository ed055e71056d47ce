// The heading that is declared last, with its clauses, and whether one of them is missing.
ghost use Rattle.std.specs.Prelude.{◌≡◌, ◌∷◌, ◌+◌, ◌≤◌, [], ℕ, All, MatchOption, Some, drop, false, length, slice_get};
ghost use Rattle.std.specs.List.{flat_map};
ghost use Rattle.syn_model.specs.declared.decl.Decl.{Decl};
ghost use Rattle.syn_model.specs.Declaring as declaring;
ghost use Rattle.syn_model.specs.Headings as headings;
ghost use Rattle.syn_model.specs.Tables.{table_of};
ghost use Rattle.syn_model.specs.inner.Views.{IsClause, clause_args, heading_seen};

use crate::decl::Decl;
use crate::patterns::one_suffices;
use syn_term::{Symbols, Term};

/// The last declaration that is no clause, and the declarations behind it, which are its clauses.
#[derive(Clone, Copy)]
pub(crate) struct LastHeading<'a> {
    pub(crate) declared: Option<&'a Decl>,
    pub(crate) clauses: &'a [Decl],
}

/// Whether the declaration is a clause.
pub(crate) fn is_clause(decl: &Decl) -> bool
    ensures { result ≡ declaring.is_clause decl.now }
{
    matches!(decl, Decl::FunClause { .. } | Decl::RelClause { .. })
}

/// The arguments of a clause; None where the declaration is another.
pub(crate) fn arguments_in(decl: &Decl) -> Option<&[Term]>
    ensures { MatchOption result (clause_args decl.now ≡ []) (λ args. clause_args decl.now ≡ args.now ∷ []) }
{
    match decl {
        Decl::FunClause { args, .. } | Decl::RelClause { args, .. } => Some(args.as_slice()),
        _ => None,
    }
}

/// How many declarations there are up to the last one that is no clause.
fn before_clauses(decls: &[Decl]) -> usize
    ensures within { result ≤ length decls.now }
    ensures clauses { All IsClause (drop result decls.now) }
    ensures heading { (n : ℕ) (d : Decl) → result ≡ n + 1 → slice_get decls.now n ≡ Some d → declaring.is_clause d ≡ false }
{
    let mut n = decls.len();
    while 0 < n {
        if !is_clause(&decls[n - 1]) {
            return n;
        }
        n -= 1;
    }
    0
}

/// The heading that is declared last, with its clauses.
pub(crate) fn heading_of<'a>(decls: &'a [Decl]) -> LastHeading<'a>
    ensures heading { heading_seen result ≡ headings.heading_of decls.now }
    ensures clauses { All IsClause result.clauses.now }
{
    let n = before_clauses(decls);
    if n == 0 {
        return LastHeading {
            declared: None,
            clauses: decls,
        };
    }
    LastHeading {
        declared: Some(&decls[n - 1]),
        clauses: &decls[n..],
    }
}

/// Whether clauses belong to the declaration.
fn has_clauses(decl: &Decl) -> bool
    ensures { result ≡ headings.has_clauses (Some decl.now) }
{
    matches!(decl, Decl::Fun { .. } | Decl::Rel { .. })
}

/// Whether a clause with these arguments is the only one that it takes.
fn is_all(syms: &Symbols, clause: &Decl) -> bool
    requires { IsClause clause.now }
    ensures { result ≡ headings.are_all syms.now (clause_args clause.now) }
{
    match arguments_in(clause) {
        None => false,
        Some(args) => one_suffices(syms, args),
    }
}

/// Whether none of the clauses is missing.
fn are_all(syms: &Symbols, clauses: &[Decl]) -> bool
    requires { All IsClause clauses.now }
    ensures { result ≡ headings.are_all syms.now (flat_map clause_args clauses.now) }
{
    match clauses {
        [] => false,
        [clause] => is_all(syms, clause),
        _ => true,
    }
}

/// Whether no clause of the last heading is missing.
pub(crate) fn is_whole(syms: &Symbols, decls: &[Decl]) -> bool
    requires { syms.now ≡ table_of decls.now }
    ensures { result ≡ headings.is_whole decls.now }
{
    let heading = heading_of(decls);
    match heading.declared {
        None => true,
        Some(declared) => {
            if has_clauses(declared) {
                are_all(syms, heading.clauses)
            } else {
                true
            }
        }
    }
}
