// The guard rule of a specification, put together.
ghost use Rattle.std.specs.Prelude.{◌≡◌, IfOk, IfSome, MatchOption, None};
ghost use Rattle.syn_term.specs.Bank.{Extends};
ghost use Rattle.syn_term.specs.DeclaredSorts.{IsTable};
ghost use Rattle.syn_model.specs.Declaring.{symbol_of_name};
ghost use Rattle.syn_row.specs.Guards.{IsGuardRule, RuleBelongs};
ghost use Rattle.syn_start.specs.Rules.{IsRuleOf, order_name};
ghost use Rattle.syn_start.specs.Starts.{IsItsRule};
ghost use Rattle.syn_start.specs.inner.Orders.{IsOrderOf};

use crate::guard_rules::{named_order, own_condition, own_inputs};
use std::alloc::Global;
use syn_model::Spec;
use syn_row::GuardRule;
use syn_term::{Bank, NoMemory, SymId, Symbols, Text};

/// The symbol of this name.
fn symbol_named(syms: &Symbols, name: &Text) -> Option<SymId>
    ensures is { result ≡ symbol_of_name syms.now name.now }
    ensures table { IsTable syms.now }
{
    syms.find(name.as_str())
}

/// The order that the specification names; None where none is named.
fn order_of(spec: &Spec) -> Option<SymId>
    ensures { MatchOption result (order_name (spec.now).parts ≡ None) (IsOrderOf spec.now) }
{
    match named_order(spec.parts()) {
        None => None,
        Some(name) => match symbol_named(spec.symbols(), name) {
            None => unreachable!(),
            Some(order) => Some(order),
        },
    }
}

/// The guard rule with this order.
#[tactic(auto, using(crate::proofs::MadeAgain::growth))]
fn rule_with(
    alloc: Global,
    bank: &mut Bank,
    spec: &Spec,
    order: SymId,
) -> Result<GuardRule, NoMemory>
    requires { IsOrderOf spec.now order }
    ensures rule { IfOk result (IsRuleOf spec.now) }
    ensures belongs { IfOk result (RuleBelongs bank.new) }
    ensures extends { Extends bank.old bank.new }
{
    let inputs = own_inputs(alloc, bank, spec.symbols(), spec.inputs())?;
    match own_condition(alloc, bank, spec) {
        Ok(condition) => Ok(GuardRule {
            program: spec.program(),
            order,
            inputs,
            condition,
        }),
        Err(error) => {
            drop(inputs);
            Err(error)
        }
    }
}

/// The guard rule of the specification; None exactly where no order is named.
#[tactic(auto, using(crate::proofs::MadeAgain::growth))]
pub(crate) fn guard_rule(
    alloc: Global,
    bank: &mut Bank,
    spec: &Spec,
) -> Result<Option<GuardRule>, NoMemory>
    ensures rule { IfOk result (IsItsRule spec.now) }
    ensures of { IfOk result (λ o. IfSome o (IsGuardRule (spec.now).table)) }
    ensures belongs { IfOk result (λ o. IfSome o (RuleBelongs bank.new)) }
    ensures extends { Extends bank.old bank.new }
{
    // So it is known that this is a specification over some theory.
    let _parts = spec.parts();
    match order_of(spec) {
        None => Ok(None),
        Some(order) => Ok(Some(rule_with(alloc, bank, spec, order)?)),
    }
}
