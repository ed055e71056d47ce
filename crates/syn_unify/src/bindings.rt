// Substitutions as lists of bindings, none of which has the variable of another.
ghost use Rattle.std.specs.Prelude.{◌≡◌, length};
ghost use Rattle.std.specs.Option.{option_copied};
ghost use Rattle.syn_unify.specs.Bindings.{BindsOnce, bound_to};
ghost use Rattle.syn_unify.specs.inner.Changes.{seen};

use sqlite_items::Items;
use std::marker::Model;
use syn_term::{Term, Var};

/// A variable, and the term that it becomes.
#[derive(Drop)]
pub(crate) struct Bound {
    pub(crate) var: Var,
    pub(crate) term: Term,
}

/// A substitution: the terms that some variables become, one for each. Contracts see its bindings.
#[derive(Drop)]
pub struct Subst {
    pub(crate) bound: Items<Bound>,
}

impl Model for Subst {
    ghost use Rattle.std.specs.Coded.{codes};
    ghost use Rattle.syn_term.specs.contracts.sorts.Var as var;
    ghost use Rattle.syn_term.specs.contracts.term.Node as node;
    ghost use Rattle.syn_form.specs.Substitutions.{Substitution};
    ghost use Rattle.syn_unify.specs.Bindings.{BindsOnce};
    ghost use Rattle.syn_unify.specs.inner.Changes.{seen};

    ghost Value = { Substitution };

    ghost coded = { Prim.hlevel (codes, var.the_row.coded, node.the_row.coded) };

    ghost view = { λ s. seen s.bound };

    ghost invariant = { λ s. BindsOnce (seen s.bound) };
}

impl Subst {
    /// The term that the variable becomes; None exactly where the substitution doesn't bind it.
    pub fn get(&self, v: Var) -> Option<&Term>
        ensures term { option_copied result ≡ bound_to self.now v }
        ensures once { BindsOnce self.now }
    {
        bound_term(self.bound.as_slice(), v)
    }

    /// The number of variables that it binds.
    pub fn len(&self) -> usize
        ensures count { result ≡ length self.now }
        ensures once { BindsOnce self.now }
    {
        self.bound.len()
    }
}

/// The term that the variable is bound to.
pub(crate) fn bound_term(bound: &[Bound], v: Var) -> Option<&Term>
    ensures { option_copied result ≡ bound_to (seen bound.now) v }
{
    match bound {
        [] => None,
        [first, rest @ ..] => {
            if first.var == v {
                Some(&first.term)
            } else {
                bound_term(rest, v)
            }
        }
    }
}
