// Terms with each variable replaced by the default term of its sort, made by a bank.
ghost use Rattle.std.specs.Prelude.{◌≡◌, All, IfOk, map};
ghost use Rattle.syn_term.specs.Bank.{Belongs, Extends};
ghost use Rattle.syn_term.specs.Terms.{bare, sort_of};
ghost use Rattle.syn_form.specs.Plain.{IsSorted};
ghost use Rattle.syn_extract.specs.Final.{closed_term};

use sqlite_items::Items;
use std::alloc::Global;
use syn_term::{Bank, NoMemory, Node, Symbols, Term};
use syn_value::default_term;

/// The term with each variable replaced by the default term of its sort.
#[cycle(terms)]
#[tactic(auto, using(crate::proofs::ClosedTerms::growth))]
pub(crate) fn close_term(
    alloc: Global,
    bank: &mut Bank,
    syms: &Symbols,
    t: &Term,
) -> Result<Term, NoMemory>
    requires { IsSorted syms.now t.now }
    ensures tree { IfOk result (λ r. bare r ≡ closed_term syms.now t.now) }
    ensures sort { IfOk result (λ r. sort_of syms.now r ≡ sort_of syms.now t.now) }
    ensures extends { Extends bank.old bank.new }
    ensures belongs { IfOk result (Belongs bank.new) }
{
    match t.get() {
        Node::Var(_, v) => default_term(alloc, bank, syms, v.sort),
        Node::App(_, f, args) => {
            let parts = close_terms(alloc, bank, syms, args.as_slice())?;
            match bank.app_owned(alloc, syms, *f, parts) {
                Ok(Some(made)) => Ok(made),
                Ok(None) => unreachable!(),
                Err(error) => Err(error),
            }
        }
    }
}

/// The same for each of the terms.
#[cycle(terms)]
#[tactic(auto, using(crate::proofs::ClosedTerms::growth))]
pub(crate) fn close_terms(
    alloc: Global,
    bank: &mut Bank,
    syms: &Symbols,
    ts: &[Term],
) -> Result<Items<Term>, NoMemory>
    requires { All (IsSorted syms.now) ts.now }
    ensures tree { IfOk result (λ rs. map bare rs ≡ map (closed_term syms.now) ts.now) }
    ensures sort { IfOk result (λ rs. map (sort_of syms.now) rs ≡ map (sort_of syms.now) ts.now) }
    ensures extends { Extends bank.old bank.new }
    ensures belongs { IfOk result (All (Belongs bank.new)) }
{
    let mut done = Items::new(alloc);
    for t in ts {
        done.push(close_term(alloc, bank, syms, t)?)?;
    }
    Ok(done)
}
