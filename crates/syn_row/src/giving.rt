// What a rule gives: the canonical row of what it makes, where the step is light.
ghost use Rattle.std.specs.Prelude.{◌≡◌, All, IfNone, IfOk, IfSome, MatchOption};
ghost use Rattle.syn_term.specs.Bank.{Belongs, Extends};
ghost use Rattle.syn_row.specs.Results.{Gives};
ghost use Rattle.syn_row.specs.Rows.{IsPlain, IsSimplified, IsWithinRow, RowTree, row_terms};

use crate::normalizing::canonical;
use crate::rows::Row;
use crate::weighing::is_light;
use std::alloc::Global;
use syn_form::{Form, Out};
use syn_term::{Bank, NoMemory, Symbols};

/// The parts of a step that are weighed: the instances of the parents' formulas and outputs, and the guards.
#[derive(Clone, Copy)]
pub struct Weighed<'a> {
    pub forms: &'a [Form],
    pub outs: &'a [Out],
    pub guards: &'a [Form],
}

/// The row that a rule gives which makes this row, of a step with these parts: its canonical row. None exactly where the
/// step has more than 65,536 nodes or a part deeper than 2,400, or what comes of the row passes the limit of a row. The one
/// error is `NoMemory`.
#[tactic(auto, using(crate::proofs::Growth::growth))]
pub fn given(
    alloc: Global,
    bank: &mut Bank,
    syms: &Symbols,
    step: Weighed<'_>,
    row: &Row,
) -> Result<Option<Row>, NoMemory>
    requires plain { IsPlain syms.now row.now }
    requires own { All (Belongs bank.old) (row_terms row.now) }
    ensures row { IfOk result (λ o. MatchOption o ((q : RowTree) → Gives (record { forms = step.entry.forms.now; outs = step.entry.outs.now; guards = step.entry.guards.now; row = row.now }) q → ⊥) (Gives (record { forms = step.entry.forms.now; outs = step.entry.outs.now; guards = step.entry.guards.now; row = row.now }))) }
    ensures none { IfOk result (λ o. IfNone o (bank.new ≡ bank.old)) }
    ensures extends { Extends bank.old bank.new }
    ensures belongs { IfOk result (λ o. IfSome o (λ q. All (Belongs bank.new) (row_terms q))) }
    ensures plain { IfOk result (λ o. IfSome o (IsPlain syms.now)) }
    ensures simplified { IfOk result (λ o. IfSome o IsSimplified) }
    ensures within { IfOk result (λ o. IfSome o IsWithinRow) }
{
    if !is_light(step.forms, step.outs, step.guards) {
        return Ok(None);
    }
    canonical(alloc, bank, syms, row)
}
