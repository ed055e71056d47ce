// Initial rows: the canonical row of a formula, made by the bank.
ghost use Rattle.std.specs.Prelude.{◌≡◌, All, IfOk, IfSome};
ghost use Rattle.syn_term.specs.Bank.{Belongs, Extends};
ghost use Rattle.syn_form.specs.Plain.{IsPlainForm};
ghost use Rattle.syn_row.specs.Rows.{IsPlain, row_terms};
ghost use Rattle.syn_start.specs.Initial.{Exactly, IsGiven, IsReady, assertion_of};

use std::alloc::Global;
use syn_form::{Form, Side, put_inputs};
use syn_row::{Row, canonical};
use syn_term::{Bank, NoMemory, Symbols};

/// The row that is given of this one.
#[tactic(auto, using(crate::proofs::MadeAgain::growth))]
pub(crate) fn initial(
    alloc: Global,
    bank: &mut Bank,
    syms: &Symbols,
    row: Row,
) -> Result<Option<Row>, NoMemory>
    requires plain { IsPlain syms.now row }
    requires own { All (Belongs bank.old) (row_terms row) }
    ensures row { IfOk result (Exactly (IsGiven row)) }
    ensures ready { IfOk result (λ o. IfSome o (IsReady syms.now bank.new)) }
    ensures extends { Extends bank.old bank.new }
{
    let made = canonical(alloc, bank, syms, &row);
    drop(row);
    made
}

/// The row that is given of the formula as an assertion. The formula's terms needn't belong to the bank.
#[tactic(auto, using(crate::proofs::MadeAgain::growth))]
pub(crate) fn assertion(
    alloc: Global,
    bank: &mut Bank,
    syms: &Symbols,
    f: &Form,
) -> Result<Option<Row>, NoMemory>
    requires { IsPlainForm syms.now f.now }
    ensures row { IfOk result (Exactly (IsGiven (assertion_of f.now))) }
    ensures ready { IfOk result (λ o. IfSome o (IsReady syms.now bank.new)) }
    ensures extends { Extends bank.old bank.new }
{
    let form = put_inputs(alloc, bank, syms, f, &[])?;
    initial(
        alloc,
        bank,
        syms,
        Row {
            side: Side::Assertion,
            form,
            out: None,
        },
    )
}
