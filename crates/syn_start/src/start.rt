// What a derivation begins with: a theory, a specification over it, and the guard rule of that.
ghost use Rattle.std.specs.Prelude.{◌≡◌, IfOk, IfSome};
ghost use Rattle.std.specs.Option.{option_copied};
ghost use Rattle.syn_term.specs.Bank.{Extends};
ghost use Rattle.syn_row.specs.Guards.{IsGuardRule, RuleBelongs};
ghost use Rattle.syn_start.specs.Starts.{AreWhole, IsItsRule, IsStart};

use crate::guard_rule::guard_rule;
use std::alloc::Global;
use std::marker::Model;
use syn_model::{Spec, Theory};
use syn_row::GuardRule;
use syn_term::{Bank, NoMemory, Symbols};

/// A theory and a specification over it, of which nothing is missing, with the guard rule of the
/// specification. Contracts see it as the three.
#[derive(Drop)]
pub struct Start {
    theory: Theory,
    spec: Spec,
    rule: Option<GuardRule>,
}

impl Model for Start {
    ghost use Rattle.std.specs.Coded.{codes};
    ghost use Rattle.syn_model.specs.contracts.decl.Decl as decl;
    ghost use Rattle.syn_model.specs.contracts.spec_part.SpecPart as part;
    ghost use Rattle.syn_row.specs.contracts.guards.GuardRule as guard;
    ghost use Rattle.syn_start.specs.Starts.{IsStart, StartTree};

    ghost Value = { StartTree };

    ghost coded = { Prim.hlevel (codes, decl.the_row.coded, part.the_row.coded, guard.the_row.coded) };

    ghost view = { λ s. record { theory = s.theory; spec = s.spec; rule = s.rule } };

    ghost invariant = { λ s. IsStart (record { theory = s.theory; spec = s.spec; rule = s.rule }) };
}

/// The two once more: their trees are shared.
fn both_again(theory: &Theory, spec: &Spec) -> Result<(Theory, Spec), NoMemory>
    ensures { IfOk result (λ both. (both.0 ≡ theory.now) × (both.1 ≡ spec.now)) }
{
    let theory = theory.copy()?;
    match spec.copy() {
        Ok(spec) => Ok((theory, spec)),
        Err(error) => {
            drop(theory);
            Err(error)
        }
    }
}

impl Start {
    /// The two, each copied, where their trees are shared; and the guard rule of the specification, whose
    /// terms the bank makes: where an order is named, the program, the order, the inputs, each with its own
    /// term, and the input condition, `true` where none is stated. The one error is `NoMemory`.
    pub fn new(
        alloc: Global,
        bank: &mut Bank,
        theory: &Theory,
        spec: &Spec,
    ) -> Result<Start, NoMemory>
        requires { AreWhole theory.now spec.now }
        ensures both { IfOk result (λ s. (s.theory ≡ theory.now) × (s.spec ≡ spec.now)) }
        ensures start { IfOk result IsStart }
        ensures belongs { IfOk result (λ s. IfSome s.rule (RuleBelongs bank.new)) }
        ensures extends { Extends bank.old bank.new }
    {
        // So it is known that these are a theory's.
        let _decls = theory.decls();
        let rule = guard_rule(alloc, bank, spec)?;
        match both_again(theory, spec) {
            Ok((theory, spec)) => Ok(Start { theory, spec, rule }),
            Err(error) => {
                drop(rule);
                Err(error)
            }
        }
    }

    /// The theory.
    pub fn theory(&self) -> &Theory
        ensures is { result.now ≡ (self.now).theory }
        ensures start { IsStart self.now }
    {
        &self.theory
    }

    /// The specification.
    pub fn spec(&self) -> &Spec
        ensures is { result.now ≡ (self.now).spec }
        ensures start { IsStart self.now }
    {
        &self.spec
    }

    /// The guard rule of the specification; None exactly where it names no order. Its terms belong to the
    /// bank that the start was made with, and to each that extends that.
    pub fn guard_rule(&self) -> Option<&GuardRule>
        ensures is { option_copied result ≡ (self.now).rule }
        ensures rule { IsItsRule (self.now).spec (option_copied result) }
        ensures of_table { IfSome (option_copied result) (IsGuardRule (self.now).spec.table) }
    {
        self.rule.as_ref()
    }

    /// The table of symbols over which rows are: the specification's.
    pub fn symbols(&self) -> &Symbols
        ensures { result.now ≡ (self.now).spec.table }
    {
        self.spec.symbols()
    }
}
