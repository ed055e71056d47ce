// The term that a syntax tree stands for, made by a bank.
ghost use Rattle.std.specs.Prelude.{◌≡◌, ◌+◌, All, map, sum, IfOk, IfSome};
ghost use Rattle.std.specs.Option.{option_and_then, option_map};
ghost use Rattle.syn_term.specs.Bank.{Belongs, Extends};
ghost use Rattle.syn_term.specs.Terms.{bare};
ghost use Rattle.syn_form.specs.Elaboration as elaboration;
ghost use Rattle.syn_form.specs.Elaboration.{sorted_application};
ghost use Rattle.syn_form.specs.Lists.{all_there};
ghost use Rattle.syn_expr.specs.inner.Elaborating.{next_tree};
ghost use Rattle.syn_expr.specs.Limits as limits;
ghost use Rattle.syn_expr.specs.inner.Places.{spoken_at};
ghost use Rattle.syn_expr.specs.inner.Spending.{Spends};

use crate::limits::LARGEST_NUMBER;
use crate::lookups::{head_symbol, head_var, symbol_named, written_sort};
use crate::names::Inside;
use sqlite_items::Items;
use std::alloc::Global;
use syn_form::{HeadName, NameText, TermSyntax};
use syn_term::{Bank, NoMemory, SymId, Symbols, Term, Var};

/// The symbol with the arguments; None where there is no symbol, or it doesn't take them.
#[tactic(auto, using(crate::proofs::Growth::growth, crate::proofs::Spending::spending))]
fn applied(
    alloc: Global,
    bank: &mut Bank,
    syms: &Symbols,
    symbol: Option<SymId>,
    args: &[Term],
) -> Result<Option<Term>, NoMemory>
    requires { All (Belongs bank.old) args.now }
    ensures tree { IfOk result (λ o. option_map bare o ≡ option_and_then (sorted_application syms.now (map bare args.now)) symbol) }
    ensures made { Spends bank.old bank.new 1 }
    ensures extends { Extends bank.old bank.new }
    ensures belongs { IfOk result (λ o. IfSome o (Belongs bank.new)) }
{
    match symbol {
        None => Ok(None),
        Some(f) => bank.app(alloc, syms, f, args),
    }
}

/// The successor of the term, where there is one and `s` takes it.
#[tactic(auto, using(crate::proofs::Growth::growth, crate::proofs::Spending::spending))]
fn successor(
    alloc: Global,
    bank: &mut Bank,
    syms: &Symbols,
    term: Option<Term>,
) -> Result<Option<Term>, NoMemory>
    requires { IfSome term (Belongs bank.old) }
    ensures tree { IfOk result (λ o. option_map bare o ≡ option_and_then (next_tree syms.now) (option_map bare term)) }
    ensures made { Spends bank.old bank.new 1 }
    ensures extends { Extends bank.old bank.new }
    ensures belongs { IfOk result (λ o. IfSome o (Belongs bank.new)) }
{
    match term {
        None => Ok(None),
        Some(term) => applied(alloc, bank, syms, symbol_named(syms, "s"), &[term]),
    }
}

/// So many times `s` over `0`.
#[tactic(auto, using(crate::proofs::Growth::growth, crate::proofs::Spending::spending))]
fn successors(
    alloc: Global,
    bank: &mut Bank,
    syms: &Symbols,
    count: u32,
) -> Result<Option<Term>, NoMemory>
    ensures tree { IfOk result (λ o. option_map bare o ≡ elaboration.successors syms.now count) }
    ensures made { Spends bank.old bank.new (count + 1) }
    ensures extends { Extends bank.old bank.new }
    ensures belongs { IfOk result (λ o. IfSome o (Belongs bank.new)) }
{
    let mut top = applied(alloc, bank, syms, symbol_named(syms, "0"), &[])?;
    for _ in 0..count {
        top = successor(alloc, bank, syms, top)?;
    }
    Ok(top)
}

/// The term that a number stands for.
#[tactic(auto, using(crate::proofs::Growth::growth, crate::proofs::Spending::spending))]
fn number_term(
    alloc: Global,
    bank: &mut Bank,
    syms: &Symbols,
    number: u32,
) -> Result<Option<Term>, NoMemory>
    ensures tree { IfOk result (λ o. option_map bare o ≡ elaboration.number_tree syms.now number) }
    ensures made { Spends bank.old bank.new (number + 1) }
    ensures extends { Extends bank.old bank.new }
    ensures belongs { IfOk result (λ o. IfSome o (Belongs bank.new)) }
{
    if LARGEST_NUMBER < number {
        Ok(None)
    } else {
        successors(alloc, bank, syms, number)
    }
}

/// The row variable with the number and the sort; None outside of rows, or where no sort has the
/// name.
#[tactic(auto, using(crate::proofs::Growth::growth, crate::proofs::Spending::spending))]
fn row_term(
    alloc: Global,
    bank: &mut Bank,
    place: &Inside,
    number: u32,
    sort: &Option<NameText>,
) -> Result<Option<Term>, NoMemory>
    ensures tree { IfOk result (λ o. option_map bare o ≡ elaboration.row_tree (spoken_at place.now) number sort.now) }
    ensures made { Spends bank.old bank.new 1 }
    ensures extends { Extends bank.old bank.new }
    ensures belongs { IfOk result (λ o. IfSome o (Belongs bank.new)) }
{
    if !place.rows {
        return Ok(None);
    }
    match written_sort(place.syms, sort) {
        None => Ok(None),
        Some(sort) => Ok(Some(bank.var(alloc, Var { number, sort })?)),
    }
}

/// The term that a head stands for by itself.
#[tactic(auto, using(crate::proofs::Growth::growth, crate::proofs::Spending::spending))]
fn head_term(
    alloc: Global,
    bank: &mut Bank,
    place: &Inside,
    head: &HeadName,
) -> Result<Option<Term>, NoMemory>
    ensures tree { IfOk result (λ o. option_map bare o ≡ elaboration.alone_tree (spoken_at place.now) head.now (elaboration.head_var (spoken_at place.now) head.now)) }
    ensures made { Spends bank.old bank.new 1 }
    ensures extends { Extends bank.old bank.new }
    ensures belongs { IfOk result (λ o. IfSome o (Belongs bank.new)) }
{
    match head_var(place, head) {
        Some(var) => Ok(Some(bank.var(alloc, var)?)),
        None => applied(alloc, bank, place.syms, head_symbol(place, head), &[]),
    }
}

/// The term that the syntax tree stands for, None where a name isn't there or a symbol doesn't take
/// its arguments. The one error is want of memory.
#[cycle(terms)]
#[tactic(auto, using(crate::proofs::Growth::growth, crate::proofs::Spending::spending))]
pub(crate) fn elaborate_term(
    alloc: Global,
    bank: &mut Bank,
    place: &Inside,
    syntax: &TermSyntax,
) -> Result<Option<Term>, NoMemory>
    ensures tree { IfOk result (λ o. option_map bare o ≡ elaboration.elaborate_term (spoken_at place.now) syntax.now) }
    ensures made { Spends bank.old bank.new (limits.term_cost syntax.now) }
    ensures extends { Extends bank.old bank.new }
    ensures belongs { IfOk result (λ o. IfSome o (Belongs bank.new)) }
{
    match syntax {
        TermSyntax::Number(number) => number_term(alloc, bank, place.syms, *number),
        TermSyntax::RowVar(number, sort) => row_term(alloc, bank, place, *number, sort),
        TermSyntax::Alone(head) => head_term(alloc, bank, place, head),
        TermSyntax::Applied(head, args) => {
            elaborate_applied(alloc, bank, place, head, args.as_slice())
        }
    }
}

/// The symbol of the head with the arguments that the syntax trees stand for; None where there are
/// none of these.
#[cycle(terms)]
#[tactic(auto, using(crate::proofs::Growth::growth, crate::proofs::Spending::spending))]
fn elaborate_applied(
    alloc: Global,
    bank: &mut Bank,
    place: &Inside,
    head: &HeadName,
    args: &[TermSyntax],
) -> Result<Option<Term>, NoMemory>
    ensures tree { IfOk result (λ o. option_map bare o ≡ elaboration.applied_tree (spoken_at place.now) head.now (map (elaboration.elaborate_term (spoken_at place.now)) args.now)) }
    ensures made { Spends bank.old bank.new (sum (map limits.term_cost args.now) + 1) }
    ensures extends { Extends bank.old bank.new }
    ensures belongs { IfOk result (λ o. IfSome o (Belongs bank.new)) }
{
    if args.is_empty() {
        return Ok(None);
    }
    match elaborate_terms(alloc, bank, place, args)? {
        None => Ok(None),
        Some(terms) => applied(
            alloc,
            bank,
            place.syms,
            head_symbol(place, head),
            terms.as_slice(),
        ),
    }
}

/// The terms that the syntax trees stand for; None where one stands for none.
#[cycle(terms)]
#[tactic(auto, using(crate::proofs::Growth::growth, crate::proofs::Spending::spending))]
pub(crate) fn elaborate_terms(
    alloc: Global,
    bank: &mut Bank,
    place: &Inside,
    all: &[TermSyntax],
) -> Result<Option<Items<Term>>, NoMemory>
    ensures tree { IfOk result (λ o. option_map (map bare) o ≡ all_there (map (elaboration.elaborate_term (spoken_at place.now)) all.now)) }
    ensures made { Spends bank.old bank.new (sum (map limits.term_cost all.now)) }
    ensures extends { Extends bank.old bank.new }
    ensures belongs { IfOk result (λ o. IfSome o (All (Belongs bank.new))) }
{
    let mut terms = Items::new(alloc);
    for syntax in all {
        match elaborate_term(alloc, bank, place, syntax)? {
            None => return Ok(None),
            Some(term) => terms.push(term)?,
        }
    }
    Ok(Some(terms))
}
