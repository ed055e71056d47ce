// Clauses: the arguments of the heading that is declared last, and the body behind a sign.
ghost use Rattle.std.specs.Prelude.{◌≡◌, ◌∷◌, All, IfOk, MatchOption, None, Some, codes, map, true};
ghost use Rattle.syn_term.specs.Bank.{Extends};
ghost use Rattle.syn_term.specs.Terms.{bare};
ghost use Rattle.syn_form.specs.Grammar.{name_word};
ghost use Rattle.syn_form.specs.Texts.{IsFormOf, IsOutOf, expression_limit};
ghost use Rattle.syn_expr.specs.Scopes.{listed};
ghost use Rattle.syn_expr.specs.declared.error.ExprError.TheVariants as errors;
ghost use Rattle.syn_expr.specs.inner.Proper.{is_symbol_name};
ghost use Rattle.syn_model.specs.BareTrees.{bare_decl};
ghost use Rattle.std.specs.Option.{option_copied};
ghost use Rattle.syn_model.specs.Declaring.{IsTheory};
ghost use Rattle.syn_model.specs.Headings.{heading_of};
ghost use Rattle.syn_model.specs.Tables.{table_of};
ghost use Rattle.syn_model.specs.declared.decl.Decl.TheVariants as decl;
ghost use Rattle.syn_files.specs.TheoryLines.{file_scope, own_name};
ghost use Rattle.syn_files.specs.inner.ClauseReading.{AreArguments, IsCut, IsOther, ReadsBody, ReadsFront};
ghost use Rattle.syn_files.specs.inner.ClauseWords as clause_words;
ghost use Rattle.syn_files.specs.inner.Telling.{ReadsDecl};

use crate::clause_fronts::arguments_of;
use crate::clause_names::clause_names;
use crate::clause_parts::{patterns_of, sign_place};
use crate::cursor::Cursor;
use sqlite_items::Items;
use std::alloc::Global;
use syn_expr::{ExprError, Scope, form_of_words, out_of_words};
use syn_form::TermSyntax;
use syn_lex::Words;
use syn_model::{Decl, Theory};
use syn_term::{Bank, NoMemory, Sort, Symbols, Term, Var};

/// What stands before the sign of a clause line: the names that its arguments bring, and the arguments.
#[derive(Drop)]
struct ClauseFront {
    names: Vec<(String, Var)>,
    args: Items<Term>,
}

/// The arguments by these names. The one error is want of memory, as of each of these.
#[tactic(auto, using(syn_expr::proofs::Growth::growth))]
fn with_names(
    alloc: Global,
    bank: &mut Bank,
    theory: &Theory,
    names: Vec<(String, Var)>,
    patterns: &[TermSyntax],
) -> Result<Option<ClauseFront>, NoMemory>
    ensures told { IfOk result (λ o. MatchOption o ((args : _) → AreArguments (map bare_decl (theory.now).decls) patterns.now (listed names.items) args → ⊥) (λ f. (listed f.names.items ≡ listed names.items) × AreArguments (map bare_decl (theory.now).decls) patterns.now (listed names.items) (map bare f.args))) }
    ensures extends { Extends bank.old bank.new }
{
    match arguments_of(alloc, bank, theory, names.as_slice(), patterns) {
        Ok(Some(args)) => Ok(Some(ClauseFront { names, args })),
        Ok(None) => {
            drop(names);
            Ok(None)
        }
        Err(error) => {
            drop(names);
            Err(error)
        }
    }
}

/// The front of a clause line by its arguments, where the heading takes these sorts.
#[tactic(auto, using(syn_expr::proofs::Growth::growth))]
fn front_from(
    alloc: Global,
    bank: &mut Bank,
    theory: &Theory,
    sorts: &[Sort],
    patterns: &[TermSyntax],
) -> Result<Option<ClauseFront>, NoMemory>
    ensures told { IfOk result (λ o. MatchOption o ((args : _) → AreArguments (map bare_decl (theory.now).decls) patterns.now (clause_words.clause_names (table_of (theory.now).decls) sorts.now patterns.now) args → ⊥) (λ f. (listed f.names.items ≡ clause_words.clause_names (table_of (theory.now).decls) sorts.now patterns.now) × AreArguments (map bare_decl (theory.now).decls) patterns.now (clause_words.clause_names (table_of (theory.now).decls) sorts.now patterns.now) (map bare f.args))) }
    ensures extends { Extends bank.old bank.new }
{
    let names = clause_names(alloc, theory.symbols(), sorts, patterns)?;
    with_names(alloc, bank, theory, names, patterns)
}

/// The front of a clause line that these words are, of the heading with this name, which takes these sorts.
#[tactic(auto, using(syn_expr::proofs::Growth::growth))]
fn front_of(
    alloc: Global,
    bank: &mut Bank,
    theory: &Theory,
    own: &str,
    sorts: &[Sort],
    words: &Words,
) -> Result<Option<ClauseFront>, NoMemory>
    requires is { own.now ≡ own_name (map bare_decl (theory.now).decls) }
    requires named { is_symbol_name own.now ≡ true }
    ensures told { IfOk result (λ o. MatchOption o (ReadsFront (map bare_decl (theory.now).decls) sorts.now words.now None) (λ f. ReadsFront (map bare_decl (theory.now).decls) sorts.now words.now (Some (record { names = listed f.names.items; args = map bare f.args })))) }
    ensures extends { Extends bank.old bank.new }
{
    match patterns_of(alloc, own, words)? {
        None => Ok(None),
        Some(patterns) => front_from(alloc, bank, theory, sorts, patterns.as_slice()),
    }
}

/// What stands before the sign of a line, and behind it.
#[derive(Drop)]
struct CutLine<'a> {
    front: Words<'a>,
    back: Words<'a>,
}

/// The words cut at the first that is this sign.
fn cut_words<'a>(words: &Words<'a>, sign: &[u8]) -> Option<CutLine<'a>>
    ensures { MatchOption result (All (IsOther sign.now) words.now) (λ c. IsCut sign.now words.now c.front c.back) }
{
    match sign_place(words, sign) {
        None => None,
        Some(n) => Some(CutLine {
            front: words.until(n),
            back: words.from(n).from(1),
        }),
    }
}

/// Nothing, where words are refused.
fn refused(error: ExprError) -> Result<Option<Decl>, NoMemory>
    ensures { IfOk result (λ o. (o ≡ None) × (error ≡ errors.Refused)) }
{
    match error {
        ExprError::Refused => Ok(None),
        ExprError::NoMemory => Err(NoMemory),
    }
}

/// The clause of a function with these arguments, by these names, whose body these words are.
#[tactic(auto, using(syn_expr::proofs::Growth::growth))]
fn fun_body(
    alloc: Global,
    bank: &mut Bank,
    syms: &Symbols,
    names: &[(String, Var)],
    args: Items<Term>,
    words: &Words,
) -> Result<Option<Decl>, NoMemory>
    ensures told { IfOk result (ReadsBody (IsOutOf expression_limit (file_scope syms.now (listed names.now)) words.now) (decl.FunClause (map bare args))) }
    ensures extends { Extends bank.old bank.new }
{
    let scope = Scope {
        syms,
        names,
        rows: false,
    };
    match out_of_words(alloc, bank, &scope, words) {
        Ok(body) => Ok(Some(Decl::FunClause { args, body })),
        Err(error) => {
            drop(args);
            refused(error)
        }
    }
}

/// The clause of a relation with these arguments, by these names, whose body these words are.
#[tactic(auto, using(syn_expr::proofs::Growth::growth))]
fn rel_body(
    alloc: Global,
    bank: &mut Bank,
    syms: &Symbols,
    names: &[(String, Var)],
    args: Items<Term>,
    words: &Words,
) -> Result<Option<Decl>, NoMemory>
    ensures told { IfOk result (ReadsBody (IsFormOf expression_limit (file_scope syms.now (listed names.now)) words.now) (decl.RelClause (map bare args))) }
    ensures extends { Extends bank.old bank.new }
{
    let scope = Scope {
        syms,
        names,
        rows: false,
    };
    match form_of_words(alloc, bank, &scope, words) {
        Ok(body) => Ok(Some(Decl::RelClause { args, body })),
        Err(error) => {
            drop(args);
            refused(error)
        }
    }
}

/// The clause of a function whose line is cut into these.
#[tactic(auto, using(syn_expr::proofs::Growth::growth))]
fn fun_of_cut(
    alloc: Global,
    bank: &mut Bank,
    theory: &Theory,
    own: &str,
    sorts: &[Sort],
    cut: &CutLine<'_>,
) -> Result<Option<Decl>, NoMemory>
    requires heading { (value : _) × ((heading_of (map bare_decl (theory.now).decls)).declared ≡ Some (decl.Fun own.now sorts.now value)) }
    requires named { is_symbol_name own.now ≡ true }
    ensures told { IfOk result (λ o. (ws : _) → IsCut (codes "=") ws cut.now.front cut.now.back → ReadsDecl (map bare_decl (theory.now).decls) (name_word (codes "clause") ∷ ws) o) }
    ensures extends { Extends bank.old bank.new }
{
    match front_of(alloc, bank, theory, own, sorts, &cut.front)? {
        None => Ok(None),
        Some(ClauseFront { names, args }) => {
            fun_body(
                alloc,
                bank,
                theory.symbols(),
                names.as_slice(),
                args,
                &cut.back,
            )
        }
    }
}

/// The clause of a function with this name and arguments of these sorts, whose line these words are, behind
/// `clause`.
#[tactic(auto, using(syn_expr::proofs::Growth::growth))]
fn fun_clause(
    alloc: Global,
    bank: &mut Bank,
    theory: &Theory,
    own: &str,
    sorts: &[Sort],
    words: &Words,
) -> Result<Option<Decl>, NoMemory>
    requires heading { (value : _) × ((heading_of (map bare_decl (theory.now).decls)).declared ≡ Some (decl.Fun own.now sorts.now value)) }
    requires named { is_symbol_name own.now ≡ true }
    ensures told { IfOk result (ReadsDecl (map bare_decl (theory.now).decls) (name_word (codes "clause") ∷ words.now)) }
    ensures extends { Extends bank.old bank.new }
{
    match cut_words(words, b"=") {
        None => Ok(None),
        Some(cut) => fun_of_cut(alloc, bank, theory, own, sorts, &cut),
    }
}

/// The clause of a relation whose line is cut into these.
#[tactic(auto, using(syn_expr::proofs::Growth::growth))]
fn rel_of_cut(
    alloc: Global,
    bank: &mut Bank,
    theory: &Theory,
    own: &str,
    sorts: &[Sort],
    cut: &CutLine<'_>,
) -> Result<Option<Decl>, NoMemory>
    requires heading { (heading_of (map bare_decl (theory.now).decls)).declared ≡ Some (decl.Rel own.now sorts.now) }
    requires named { is_symbol_name own.now ≡ true }
    ensures told { IfOk result (λ o. (ws : _) → IsCut (codes "<->") ws cut.now.front cut.now.back → ReadsDecl (map bare_decl (theory.now).decls) (name_word (codes "clause") ∷ ws) o) }
    ensures extends { Extends bank.old bank.new }
{
    match front_of(alloc, bank, theory, own, sorts, &cut.front)? {
        None => Ok(None),
        Some(ClauseFront { names, args }) => {
            rel_body(
                alloc,
                bank,
                theory.symbols(),
                names.as_slice(),
                args,
                &cut.back,
            )
        }
    }
}

/// The clause of a relation with this name and arguments of these sorts, whose line these words are, behind
/// `clause`.
#[tactic(auto, using(syn_expr::proofs::Growth::growth))]
fn rel_clause(
    alloc: Global,
    bank: &mut Bank,
    theory: &Theory,
    own: &str,
    sorts: &[Sort],
    words: &Words,
) -> Result<Option<Decl>, NoMemory>
    requires heading { (heading_of (map bare_decl (theory.now).decls)).declared ≡ Some (decl.Rel own.now sorts.now) }
    requires named { is_symbol_name own.now ≡ true }
    ensures told { IfOk result (ReadsDecl (map bare_decl (theory.now).decls) (name_word (codes "clause") ∷ words.now)) }
    ensures extends { Extends bank.old bank.new }
{
    match cut_words(words, b"<->") {
        None => Ok(None),
        Some(cut) => rel_of_cut(alloc, bank, theory, own, sorts, &cut),
    }
}

/// The heading to which a clause would belong, in a theory.
fn heading_in(theory: &Theory) -> Option<&Decl>
    ensures is { option_copied result ≡ (heading_of (theory.now).decls).declared }
    ensures theory { IsTheory (theory.now).decls }
{
    match theory.decls() {
        [] => None,
        _ => theory.last_heading(),
    }
}

/// The clause that a line declares, behind the word `clause` and the heading to which it belongs.
#[tactic(auto, using(syn_expr::proofs::Growth::growth))]
fn clause_behind(
    alloc: Global,
    bank: &mut Bank,
    theory: &Theory,
    heading: &Decl,
    words: &Words,
) -> Result<Option<Decl>, NoMemory>
    requires heading { Some heading.now ≡ (heading_of (theory.now).decls).declared }
    requires theory { IsTheory (theory.now).decls }
    ensures told { IfOk result (ReadsDecl (map bare_decl (theory.now).decls) (name_word (codes "clause") ∷ words.now)) }
    ensures extends { Extends bank.old bank.new }
{
    match heading {
        Decl::Fun { name, args, .. } => {
            fun_clause(alloc, bank, theory, name.as_str(), args.as_slice(), words)
        }
        Decl::Rel { name, args } => {
            rel_clause(alloc, bank, theory, name.as_str(), args.as_slice(), words)
        }
        _ => Ok(None),
    }
}

/// The clause that a line declares, behind the word `clause`; None where it declares none.
#[tactic(auto, using(syn_expr::proofs::Growth::growth))]
pub(crate) fn clause_line(
    alloc: Global,
    bank: &mut Bank,
    theory: &Theory,
    cursor: &mut Cursor<'_>,
) -> Result<Option<Decl>, NoMemory>
    ensures told { IfOk result (ReadsDecl (map bare_decl (theory.now).decls) (name_word (codes "clause") ∷ cursor.old.left)) }
    ensures extends { Extends bank.old bank.new }
{
    match heading_in(theory) {
        None => Ok(None),
        Some(heading) => clause_behind(alloc, bank, theory, heading, &cursor.left),
    }
}
