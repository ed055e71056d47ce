// The rows that flat ones stand for, made by a bank, and their simplification.
ghost use Rattle.std.specs.Prelude.{◌≡◌, [], ◌∷◌, IfOk, Some};
ghost use Rattle.syn_term.specs.Bank.{Belongs, Extends};
ghost use Rattle.syn_term.specs.Terms.{application, bare, sort_of};
ghost use Rattle.syn_term.specs.declared.sorts.Sort.TheVariants as sorts;
ghost use Rattle.syn_app.specs.Terms.{base_tree, succ_id, successors_of, term_tree};
ghost use Rattle.syn_app.specs.DerivationText.{form_tree, row_tree};
ghost use Rattle.syn_app.specs.Rows as rows;
ghost use Rattle.syn_app.specs.Rows.{bare_form, bare_row, simplified_row};
ghost use Rattle.syn_app.specs.inner.Shapes.{FormBelongs, HasTexts, IsLeaf, RowBelongs, SidesAgree};

use crate::flat::{Base, FlatForm, FlatRow, FlatTerm, Row};
use crate::trees::{Form, Out};
use std::alloc::Global;
use syn_term::{Bank, NoMemory, Sort, SymId, Symbols, Term, Var};

/// The symbols of a specification with one input, by their numbers.
const ZERO: SymId = SymId(0);

const SUCC: SymId = SymId(1);

const INPUT: SymId = SymId(3);

/// A symbol without arguments, of sort `nat`.
fn leaf(alloc: Global, bank: &mut Bank, syms: &Symbols, symbol: SymId) -> Result<Term, NoMemory>
    requires { IsLeaf syms.now symbol }
    ensures tree { IfOk result (λ t. bare t ≡ application symbol []) }
    ensures sort { IfOk result (λ t. sort_of syms.now t ≡ Some sorts.Nat) }
    ensures extends { Extends bank.old bank.new }
    ensures belongs { IfOk result (Belongs bank.new) }
{
    match bank.app(alloc, syms, symbol, &[])? {
        Some(term) => Ok(term),
        None => unreachable!(),
    }
}

/// The successor of a term of sort `nat`.
fn successor(alloc: Global, bank: &mut Bank, syms: &Symbols, term: Term) -> Result<Term, NoMemory>
    requires table { HasTexts syms.now }
    requires sort { sort_of syms.now term ≡ Some sorts.Nat }
    requires belongs { Belongs bank.old term }
    ensures tree { IfOk result (λ t. bare t ≡ application succ_id (bare term ∷ [])) }
    ensures sort { IfOk result (λ t. sort_of syms.now t ≡ Some sorts.Nat) }
    ensures extends { Extends bank.old bank.new }
    ensures belongs { IfOk result (Belongs bank.new) }
{
    match bank.app(alloc, syms, SUCC, &[term])? {
        Some(term) => Ok(term),
        None => unreachable!(),
    }
}

/// So many successors of a term of sort `nat`.
#[tactic(auto, using(crate::proofs::Growth::growth))]
fn successors(
    alloc: Global,
    bank: &mut Bank,
    syms: &Symbols,
    count: u32,
    term: Term,
) -> Result<Term, NoMemory>
    requires table { HasTexts syms.now }
    requires sort { sort_of syms.now term ≡ Some sorts.Nat }
    requires belongs { Belongs bank.old term }
    ensures tree { IfOk result (λ t. bare t ≡ successors_of count (bare term)) }
    ensures sort { IfOk result (λ t. sort_of syms.now t ≡ Some sorts.Nat) }
    ensures extends { Extends bank.old bank.new }
    ensures belongs { IfOk result (Belongs bank.new) }
{
    let mut top = term;
    for _ in 0..count {
        top = successor(alloc, bank, syms, top)?;
    }
    Ok(top)
}

/// The term of a base.
#[tactic(auto, using(crate::proofs::Growth::growth))]
fn base_term(alloc: Global, bank: &mut Bank, syms: &Symbols, base: Base) -> Result<Term, NoMemory>
    requires table { HasTexts syms.now }
    ensures tree { IfOk result (λ t. bare t ≡ base_tree base) }
    ensures sort { IfOk result (λ t. sort_of syms.now t ≡ Some sorts.Nat) }
    ensures extends { Extends bank.old bank.new }
    ensures belongs { IfOk result (Belongs bank.new) }
{
    match base {
        Base::Input => leaf(alloc, bank, syms, INPUT),
        Base::Number(n) => {
            let zero = leaf(alloc, bank, syms, ZERO)?;
            successors(alloc, bank, syms, n, zero)
        }
        Base::RowVariable(number) => bank.var(
            alloc,
            Var {
                number,
                sort: Sort::Nat,
            },
        ),
    }
}

/// The tree of a term.
#[tactic(auto, using(crate::proofs::Growth::growth))]
pub(crate) fn term_of(
    alloc: Global,
    bank: &mut Bank,
    syms: &Symbols,
    flat: FlatTerm,
) -> Result<Term, NoMemory>
    requires table { HasTexts syms.now }
    ensures tree { IfOk result (λ t. bare t ≡ term_tree flat) }
    ensures extends { Extends bank.old bank.new }
    ensures belongs { IfOk result (Belongs bank.new) }
{
    let base = base_term(alloc, bank, syms, flat.base)?;
    successors(alloc, bank, syms, flat.successors, base)
}

/// The tree of a formula.
#[tactic(auto, using(crate::proofs::Growth::growth))]
fn form_of(alloc: Global, bank: &mut Bank, syms: &Symbols, flat: FlatForm) -> Result<Form, NoMemory>
    requires table { HasTexts syms.now }
    ensures tree { IfOk result (λ f. bare_form f ≡ form_tree flat) }
    ensures extends { Extends bank.old bank.new }
    ensures belongs { IfOk result (FormBelongs bank.new) }
{
    match flat {
        FlatForm::True => Ok(Form::True),
        FlatForm::Equal(left, right) => {
            let left = term_of(alloc, bank, syms, left)?;
            let right = term_of(alloc, bank, syms, right)?;
            Ok(Form::Equal(left, right))
        }
    }
}

/// The row with its trees, as it is written.
#[tactic(auto, using(crate::proofs::Growth::growth))]
pub(crate) fn row_of(
    alloc: Global,
    bank: &mut Bank,
    syms: &Symbols,
    flat: &FlatRow,
) -> Result<Row, NoMemory>
    requires table { HasTexts syms.now }
    ensures tree { IfOk result (λ row. bare_row row ≡ row_tree flat.now) }
    ensures extends { Extends bank.old bank.new }
    ensures belongs { IfOk result (RowBelongs bank.new) }
{
    let form = form_of(alloc, bank, syms, flat.form)?;
    let out = term_of(alloc, bank, syms, flat.out)?;
    Ok(Row {
        form,
        out: Out::Give(out),
    })
}

/// The row, simplified: an equality of a term with itself is `true`.
pub(crate) fn simplified(row: Row) -> Row
    requires { SidesAgree row.form }
    ensures { result ≡ simplified_row row }
{
    let Row { form, out } = row;
    Row {
        form: simplified_form(form),
        out,
    }
}

/// The formula, simplified.
fn simplified_form(form: Form) -> Form
    requires { SidesAgree form }
    ensures { result ≡ rows.simplified_form form }
{
    match form {
        Form::True => Form::True,
        Form::Equal(left, right) => {
            if left.same(&right) {
                Form::True
            } else {
                Form::Equal(left, right)
            }
        }
    }
}
