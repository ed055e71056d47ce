// The front of a clause line: the names that its arguments bring, and the arguments as terms.
ghost use Rattle.std.specs.Prelude.{◌≡◌, ◌≢◌, ◌↔◌, All, IfOk, IsTrue, MatchOption, map};
ghost use Rattle.std.specs.List.{flat_map};
ghost use Rattle.syn_term.specs.Bank.{Extends};
ghost use Rattle.syn_term.specs.Terms.{bare};
ghost use Rattle.syn_form.specs.Trees.{term_vars};
ghost use Rattle.syn_expr.specs.Scopes.{listed};
ghost use Rattle.syn_model.specs.BareTrees.{bare_decl};
ghost use Rattle.syn_model.specs.Heads.{AreDistinct, IsNewName};
ghost use Rattle.syn_files.specs.TheoryLines.{AreLineNames};
ghost use Rattle.syn_files.specs.inner.ClauseReading.{AreArguments, text_of, vars_of};

use crate::clause_args::terms_of_syntax;
use crate::clause_parts::are_vars;
use sqlite_items::Items;
use std::alloc::Global;
use syn_expr::Scope;
use syn_form::{TermSyntax, put_all_vars};
use syn_model::Theory;
use syn_term::{Bank, NoMemory, Term, Var};

fn is_new(theory: &Theory, name: &(String, Var)) -> bool
    ensures { IsTrue result ↔ IsNewName (theory.now).decls (text_of name.now) }
{
    theory.is_new(name.0.as_str())
}

/// Whether nothing declared has one of the names.
fn are_new(theory: &Theory, names: &[(String, Var)]) -> bool
    ensures { IsTrue result ↔ All (λ e. IsNewName (theory.now).decls (text_of e)) names.now }
{
    for name in names {
        if !is_new(theory, name) {
            return false;
        }
    }
    true
}

fn is_other(name: &(String, Var), text: &str) -> bool
    ensures { IsTrue result ↔ (text_of name.now ≢ text.now) }
{
    name.0.as_str() != text
}

/// Whether none of the names is this text.
fn are_others(names: &[(String, Var)], text: &str) -> bool
    ensures { IsTrue result ↔ All (λ e. text_of e ≢ text.now) names.now }
{
    for name in names {
        if !is_other(name, text) {
            return false;
        }
    }
    true
}

/// Whether no two of the names are one.
fn are_distinct(names: &[(String, Var)]) -> bool
    ensures { IsTrue result ↔ AreDistinct (map text_of names.now) }
{
    for i in 0..names.len() {
        if !are_others(&names[..i], names[i].0.as_str()) {
            return false;
        }
    }
    true
}

/// Whether the names are new and differ.
fn are_line_names(theory: &Theory, names: &[(String, Var)]) -> bool
    ensures { IsTrue result ↔ AreLineNames (map bare_decl (theory.now).decls) (listed names.now) }
{
    are_new(theory, names) && are_distinct(names)
}

/// Whether the variables of the names are those of the arguments. The one error is want of memory, as of
/// each of these.
fn have_variables(alloc: Global, names: &[(String, Var)], args: &[Term]) -> Result<bool, NoMemory>
    ensures { IfOk result (λ b. IsTrue b ↔ (vars_of (listed names.now) ≡ flat_map term_vars args.now)) }
{
    let mut vars = Items::new(alloc);
    put_all_vars(&mut vars, args)?;
    Ok(are_vars(names, vars.as_slice()))
}

/// These arguments, where their variables are those of the names.
fn with_variables(
    alloc: Global,
    names: &[(String, Var)],
    args: Items<Term>,
) -> Result<Option<Items<Term>>, NoMemory>
    ensures { IfOk result (λ o. MatchOption o (vars_of (listed names.now) ≡ flat_map term_vars args → ⊥) (λ given. (given ≡ args) × (vars_of (listed names.now) ≡ flat_map term_vars args))) }
{
    match have_variables(alloc, names, args.as_slice()) {
        Ok(true) => Ok(Some(args)),
        Ok(false) => {
            drop(args);
            Ok(None)
        }
        Err(error) => {
            drop(args);
            Err(error)
        }
    }
}

/// The terms that the arguments of a clause stand for by these names; None where they stand for none, or
/// the names aren't those of its line.
#[tactic(auto, using(syn_expr::proofs::Growth::growth))]
pub(crate) fn arguments_of(
    alloc: Global,
    bank: &mut Bank,
    theory: &Theory,
    names: &[(String, Var)],
    patterns: &[TermSyntax],
) -> Result<Option<Items<Term>>, NoMemory>
    ensures told { IfOk result (λ o. MatchOption o ((args : _) → AreArguments (map bare_decl (theory.now).decls) patterns.now (listed names.now) args → ⊥) (λ args. AreArguments (map bare_decl (theory.now).decls) patterns.now (listed names.now) (map bare args))) }
    ensures extends { Extends bank.old bank.new }
{
    if !are_line_names(theory, names) {
        return Ok(None);
    }
    let scope = Scope {
        syms: theory.symbols(),
        names,
        rows: false,
    };
    match terms_of_syntax(alloc, bank, &scope, patterns)? {
        None => Ok(None),
        Some(args) => with_variables(alloc, names, args),
    }
}
