// The rows of clauses.
ghost use Rattle.std.specs.Prelude.{◌≡◌, [], IfOk, IfSome, OnOk};
ghost use Rattle.std.specs.Option.{option_map};
ghost use Rattle.syn_term.specs.Bank.{Extends};
ghost use Rattle.syn_term.specs.Terms.{application};
ghost use Rattle.syn_form.specs.declared.trees.Form.TheVariants as form;
ghost use Rattle.syn_form.specs.Plain.{IsPlainForm};
ghost use Rattle.syn_start.specs.Definitions as definitions;
ghost use Rattle.syn_start.specs.Initial.{Exactly, GivenOf, IsGiven, IsReady, assertion_of, clause_form};
ghost use Rattle.syn_start.specs.inner.Fine.{IsClauseOf, IsFunctionClause, IsRelationClause};

use crate::definitions::{defines_relation, equals_output};
use crate::initial::assertion;
use crate::owning::own_terms;
use sqlite_items::Items;
use std::alloc::Global;
use syn_form::{Form, Out};
use syn_model::Decl;
use syn_row::Row;
use syn_term::{Bank, NoMemory, Shared, SymId, Symbols, Term};

/// Puts the terms once more behind those that are there, which are none.
fn push_again(terms: &[Term], items: &mut Items<Term>) -> Result<(), NoMemory>
    requires { items.old ≡ [] }
    ensures { OnOk result (items.new ≡ terms.now) }
{
    for term in terms {
        items.push(term.again()?)?;
    }
    Ok(())
}

/// The atom of these terms.
fn atom(alloc: Global, r: SymId, args: &[Term]) -> Result<Form, NoMemory>
    ensures { IfOk result (λ f. f ≡ form.Atom r args.now) }
{
    let mut items = Items::new(alloc);
    match push_again(args, &mut items) {
        Ok(()) => Ok(Form::Atom(r, Shared::new(alloc, items)?)),
        Err(error) => {
            drop(items);
            Err(error)
        }
    }
}

/// The row of the formula that says that a call has the value of a body.
#[tactic(auto, using(crate::proofs::MadeAgain::growth))]
fn equality_row(
    alloc: Global,
    bank: &mut Bank,
    syms: &Symbols,
    call: &Term,
    body: &Out,
) -> Result<Option<Row>, NoMemory>
    requires { IsPlainForm syms.now (definitions.equals_output call.now body.now) }
    ensures row { IfOk result (Exactly (IsGiven (assertion_of (definitions.equals_output call.now body.now)))) }
    ensures ready { IfOk result (λ o. IfSome o (IsReady syms.now bank.new)) }
    ensures extends { Extends bank.old bank.new }
{
    let says = equals_output(alloc, call, body)?;
    let made = assertion(alloc, bank, syms, &says);
    drop(says);
    made
}

/// The row of a clause of the function.
#[tactic(auto, using(crate::proofs::MadeAgain::growth))]
fn function_row(
    alloc: Global,
    bank: &mut Bank,
    syms: &Symbols,
    f: SymId,
    args: &[Term],
    body: &Out,
) -> Result<Option<Row>, NoMemory>
    requires { IsFunctionClause syms.now f args.now body.now }
    ensures row { IfOk result (Exactly (IsGiven (assertion_of (definitions.equals_output (application f args.now) body.now)))) }
    ensures ready { IfOk result (λ o. IfSome o (IsReady syms.now bank.new)) }
    ensures extends { Extends bank.old bank.new }
{
    let parts = own_terms(bank, alloc, syms, args)?;
    match bank.app_owned(alloc, syms, f, parts) {
        Ok(Some(call)) => {
            let made = equality_row(alloc, bank, syms, &call, body);
            drop(call);
            made
        }
        Ok(None) => unreachable!(),
        Err(error) => Err(error),
    }
}

/// What a clause of the relation says.
fn relation_form(alloc: Global, r: SymId, args: &[Term], body: &Form) -> Result<Form, NoMemory>
    ensures { IfOk result (λ f. f ≡ definitions.defines_relation (form.Atom r args.now) body.now) }
{
    let head = atom(alloc, r, args)?;
    let says = defines_relation(alloc, &head, body);
    drop(head);
    says
}

/// The row of a clause of the relation.
#[tactic(auto, using(crate::proofs::MadeAgain::growth))]
fn relation_row(
    alloc: Global,
    bank: &mut Bank,
    syms: &Symbols,
    r: SymId,
    args: &[Term],
    body: &Form,
) -> Result<Option<Row>, NoMemory>
    requires { IsRelationClause syms.now r args.now body.now }
    ensures row { IfOk result (Exactly (IsGiven (assertion_of (definitions.defines_relation (form.Atom r args.now) body.now)))) }
    ensures ready { IfOk result (λ o. IfSome o (IsReady syms.now bank.new)) }
    ensures extends { Extends bank.old bank.new }
{
    let says = relation_form(alloc, r, args, body)?;
    let made = assertion(alloc, bank, syms, &says);
    drop(says);
    made
}

/// The row of a clause of the symbol; None where the declaration is no clause.
#[tactic(auto, using(crate::proofs::MadeAgain::growth))]
pub(crate) fn clause_row(
    alloc: Global,
    bank: &mut Bank,
    syms: &Symbols,
    f: SymId,
    decl: &Decl,
) -> Result<Option<Row>, NoMemory>
    requires { IsClauseOf syms.now f decl.now }
    ensures row { IfOk result (Exactly (GivenOf (option_map assertion_of (clause_form f decl.now)))) }
    ensures ready { IfOk result (λ o. IfSome o (IsReady syms.now bank.new)) }
    ensures extends { Extends bank.old bank.new }
{
    match decl {
        Decl::FunClause { args, body } => {
            function_row(alloc, bank, syms, f, args.as_slice(), body)
        }
        Decl::RelClause { args, body } => {
            relation_row(alloc, bank, syms, f, args.as_slice(), body)
        }
        _ => Ok(None),
    }
}
