// The arguments of a clause, as terms.
ghost use Rattle.std.specs.Prelude.{◌≡◌, IfOk, map};
ghost use Rattle.std.specs.Option.{option_map};
ghost use Rattle.syn_term.specs.Bank.{Extends};
ghost use Rattle.syn_term.specs.Terms.{bare};
ghost use Rattle.syn_form.specs.Elaboration.{elaborate_term};
ghost use Rattle.syn_form.specs.Lists.{all_there};
ghost use Rattle.syn_expr.specs.Scopes.{spoken};

use sqlite_items::Items;
use std::alloc::Global;
use syn_expr::{Scope, term_of_syntax};
use syn_form::TermSyntax;
use syn_term::{Bank, NoMemory, Term};

/// The terms that the syntax trees stand for in the scope; None where one of them stands for none. The one
/// error is want of memory.
#[tactic(auto, using(syn_expr::proofs::Growth::growth))]
pub(crate) fn terms_of_syntax(
    alloc: Global,
    bank: &mut Bank,
    scope: &Scope,
    syntaxes: &[TermSyntax],
) -> Result<Option<Items<Term>>, NoMemory>
    ensures trees { IfOk result (λ o. option_map (map bare) o ≡ all_there (map (elaborate_term (spoken scope.now)) syntaxes.now)) }
    ensures extends { Extends bank.old bank.new }
{
    let mut terms = Items::new(alloc);
    for syntax in syntaxes {
        match term_of_syntax(alloc, bank, scope, syntax)? {
            None => return Ok(None),
            Some(term) => terms.push(term)?,
        }
    }
    Ok(Some(terms))
}
