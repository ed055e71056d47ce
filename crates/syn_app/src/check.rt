// The check of a derivation against a specification: its symbols and its term are made, the rows
// are replayed, and the last one gives the program's body.
ghost use Rattle.std.specs.Prelude.{◌≡◌, ◌≢◌, map, IfOk, OnOk, MatchOption, MatchResult};
ghost use Rattle.syn_term.specs.Names.{IsName};
ghost use Rattle.syn_term.specs.Symbols.{MayAdd, first_symbols, with_symbol};
ghost use Rattle.syn_term.specs.Terms.{TermTree};
ghost use Rattle.syn_app.specs.Trees.{TheoryTree};
ghost use Rattle.syn_app.specs.Checks.{IsProven};
ghost use Rattle.syn_app.specs.inner.Checks.{EndsOtherwise, EndsWith, FailsCheck, flat_names, flat_spec};
ghost use Rattle.syn_app.specs.DerivationText.{entry_of};
ghost use Rattle.syn_app.specs.inner.Printing.{nat_input_symbol, nat_program, nat_program_symbol, nat_program_symbols};
ghost use Rattle.syn_app.specs.inner.Shapes.{solved_goal};
ghost use Rattle.syn_app.specs.SpecText.{AreProgramNames, IsCondition};

use crate::flat::{FlatRow, Row};
use crate::replay::{CheckError, replay};
use crate::rows::term_of;
use crate::spec_text::FlatSpec;
use crate::trees::{Form, Out};
use sqlite_items::Items;
use std::alloc::Global;
use syn_term::{Bank, Kind, NoMemory, Sort, Sym, Symbols, Term, Text};

/// The program symbol: one argument of sort `nat`, and the result `nat`.
fn program_symbol(alloc: Global, name: &str) -> Result<Sym, NoMemory>
    ensures { IfOk result (λ s. s ≡ nat_program_symbol name.now) }
{
    Ok(Sym {
        name: Text::from_str(alloc, name)?,
        kind: Kind::Program,
        args: Items::from_slice(alloc, &[Sort::Nat])?,
        result: Some(Sort::Nat),
    })
}

/// The symbol of the input, of sort `nat`.
fn input_symbol(alloc: Global, name: &str) -> Result<Sym, NoMemory>
    ensures { IfOk result (λ s. s ≡ nat_input_symbol name.now) }
{
    Ok(Sym {
        name: Text::from_str(alloc, name)?,
        kind: Kind::Input,
        args: Items::new(alloc),
        result: Some(Sort::Nat),
    })
}

/// Adds a symbol that may be added.
fn add(syms: &mut Symbols, sym: Sym) -> Result<(), NoMemory>
    requires { MayAdd syms.old sym }
    ensures { OnOk result (syms.new ≡ with_symbol syms.old sym) }
{
    match syms.add(sym)? {
        Some(_) => Ok(()),
        None => unreachable!(),
    }
}

/// Adds the program symbol and the input to `0` and `s`.
fn add_names(alloc: Global, syms: &mut Symbols, program: &str, input: &str) -> Result<(), NoMemory>
    requires first { syms.old ≡ first_symbols }
    requires program { IsName program.now }
    requires input { IsName input.now }
    requires distinct { program.now ≢ input.now }
    ensures { OnOk result (syms.new ≡ nat_program_symbols program.now input.now) }
{
    add(syms, program_symbol(alloc, program)?)?;
    add(syms, input_symbol(alloc, input)?)
}

/// The symbols of a specification: `0`, `s`, the program symbol, the input.
pub(crate) fn symbols_of(alloc: Global, program: &str, input: &str) -> Result<Symbols, NoMemory>
    requires program { IsName program.now }
    requires input { IsName input.now }
    requires distinct { program.now ≢ input.now }
    ensures { IfOk result (λ syms. syms ≡ nat_program_symbols program.now input.now) }
{
    let mut syms = Symbols::new(alloc)?;
    match add_names(alloc, &mut syms, program, input) {
        Ok(()) => Ok(syms),
        Err(error) => {
            drop(syms);
            Err(error)
        }
    }
}

/// The output of the last row, where that row is `true`.
fn last_output(rows: Vec<Row>) -> Option<Term>
    ensures { MatchOption result (EndsOtherwise rows.items) (EndsWith rows.items) }
{
    let mut rows = rows;
    match rows.pop() {
        None => None,
        Some(row) => solved_output(row),
    }
}

/// The output of the row, where its formula is `true`.
fn solved_output(row: Row) -> Option<Term>
    ensures { MatchOption result ((t : TermTree) → ¬ (row ≡ solved_goal t)) (λ t. row ≡ solved_goal t) }
{
    let Row { form, out } = row;
    let Out::Give(term) = out;
    match form {
        Form::True => Some(term),
        Form::Equal(_, _) => None,
    }
}

/// Checks the rows against the specification, given its symbols, and answers the body of their
/// program. The error says which row is the first that doesn't follow, or that the last one isn't
/// final.
pub(crate) fn check(
    alloc: Global,
    syms: &Symbols,
    spec: &FlatSpec<'_>,
    rows: &[FlatRow],
) -> Result<Term, CheckError>
    requires names { AreProgramNames (flat_names spec.now) }
    requires condition { IsCondition spec.now.term }
    requires symbols { syms.now ≡ nat_program_symbols spec.now.program.now spec.now.input.now }
    ensures { MatchResult result (λ body. (theory : TheoryTree) → IsProven theory (flat_spec spec.now) (map entry_of rows.now) (nat_program spec.now.program.now spec.now.input.now body)) (FailsCheck (flat_spec spec.now) (map entry_of rows.now)) }
{
    let mut bank = Bank::new(alloc);
    let target = term_of(alloc, &mut bank, syms, spec.term)?;
    match replay(alloc, &mut bank, syms, &target, rows) {
        Err(error) => Err(error),
        Ok(kept) => match last_output(kept) {
            None => Err(CheckError::NotFinal),
            Some(body) => Ok(body),
        },
    }
}
