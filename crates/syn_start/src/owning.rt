// Terms made once more by a bank, so that they belong to it.
ghost use Rattle.std.specs.Prelude.{◌≡◌, All, IfOk, map};
ghost use Rattle.syn_term.specs.Bank.{Belongs, Extends};
ghost use Rattle.syn_term.specs.Terms.{bare};
ghost use Rattle.syn_form.specs.Plain.{IsSorted};

use sqlite_items::Items;
use std::alloc::Global;
use syn_term::{Bank, NoMemory, Node, Symbols, Term};

/// The term, made by the bank.
#[cycle(owned)]
#[tactic(auto, using(crate::proofs::MadeAgain::growth))]
pub(crate) fn own_term(
    bank: &mut Bank,
    alloc: Global,
    syms: &Symbols,
    t: &Term,
) -> Result<Term, NoMemory>
    requires { IsSorted syms.now t.now }
    ensures tree { IfOk result (λ r. bare r ≡ bare t.now) }
    ensures extends { Extends bank.old bank.new }
    ensures belongs { IfOk result (Belongs bank.new) }
{
    match t.get() {
        Node::Var(_, v) => bank.var(alloc, *v),
        Node::App(_, f, args) => {
            let parts = own_terms(bank, alloc, syms, args.as_slice())?;
            match bank.app_owned(alloc, syms, *f, parts) {
                Ok(Some(made)) => Ok(made),
                Ok(None) => unreachable!(),
                Err(error) => Err(error),
            }
        }
    }
}

/// The terms, made by the bank.
#[cycle(owned)]
#[tactic(auto, using(crate::proofs::MadeAgain::growth))]
pub(crate) fn own_terms(
    bank: &mut Bank,
    alloc: Global,
    syms: &Symbols,
    ts: &[Term],
) -> Result<Items<Term>, NoMemory>
    requires { All (IsSorted syms.now) ts.now }
    ensures tree { IfOk result (λ rs. map bare rs ≡ map bare ts.now) }
    ensures extends { Extends bank.old bank.new }
    ensures belongs { IfOk result (All (Belongs bank.new)) }
{
    let mut done = Items::new(alloc);
    for t in ts {
        done.push(own_term(bank, alloc, syms, t)?)?;
    }
    Ok(done)
}
