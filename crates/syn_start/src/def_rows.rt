// The initial rows of a theory's clauses.
ghost use Rattle.std.specs.Prelude.{◌≡◌, IfOk, IfSome, Some};
ghost use Rattle.std.specs.Option.{option_and_then, option_map};
ghost use Rattle.syn_term.specs.Bank.{Extends};
ghost use Rattle.syn_model.specs.Declaring.{symbol_of_name};
ghost use Rattle.syn_model.specs.Tables.{table_of};
ghost use Rattle.syn_start.specs.Initial as initial;
ghost use Rattle.syn_start.specs.Initial.{DefRow, Exactly, GivenOf, IsReady, assertion_of, clause_form};

use crate::clause_rows::clause_row;
use crate::clauses::clause_at;
use crate::start::Start;
use std::alloc::Global;
use syn_model::Theory;
use syn_row::Row;
use syn_term::{Bank, NoMemory, SymId};

/// The theory's symbol of this name.
fn symbol_named(theory: &Theory, name: &str) -> Option<SymId>
    ensures { result ≡ symbol_of_name (table_of (theory.now).decls) name.now }
{
    theory.symbols().find(name)
}

/// The row of a clause of the symbol that has the name.
#[tactic(auto, using(crate::proofs::MadeAgain::growth))]
fn numbered_row(
    alloc: Global,
    bank: &mut Bank,
    start: &Start,
    f: SymId,
    name: &str,
    k: u32,
) -> Result<Option<Row>, NoMemory>
    requires { symbol_of_name (table_of (start.now).theory.decls) name.now ≡ Some f }
    ensures row { IfOk result (Exactly (GivenOf (option_map assertion_of (option_and_then (clause_form f) (initial.clause_at (start.now).theory.decls name.now k))))) }
    ensures ready { IfOk result (λ o. IfSome o (IsReady (start.now).spec.table bank.new)) }
    ensures extends { Extends bank.old bank.new }
{
    match clause_at(start.theory().decls(), name, k) {
        None => Ok(None),
        Some(decl) => clause_row(alloc, bank, start.symbols(), f, decl),
    }
}

/// The initial row of a clause: what the K-th clause of the function or relation of this name says, counted
/// from 1, as an assertion. None exactly where there is no such clause, or the row passes the limit of a row.
/// The one error is `NoMemory`.
#[tactic(auto, using(crate::proofs::MadeAgain::growth))]
pub fn def_row(
    alloc: Global,
    bank: &mut Bank,
    start: &Start,
    name: &str,
    k: u32,
) -> Result<Option<Row>, NoMemory>
    ensures row { IfOk result (Exactly (DefRow (start.now).theory.decls name.now k)) }
    ensures ready { IfOk result (λ o. IfSome o (IsReady (start.now).spec.table bank.new)) }
    ensures extends { Extends bank.old bank.new }
{
    match symbol_named(start.theory(), name) {
        None => Ok(None),
        Some(f) => numbered_row(alloc, bank, start, f, name, k),
    }
}
