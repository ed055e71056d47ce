// Whether a clause may follow the declarations: its heading, its symbol, its arguments and its body.
ghost use Rattle.std.specs.Prelude.{◌≡◌, ◌↔◌, ℕ, List, IfOk, IsTrue, MatchOption, Some};
ghost use Rattle.std.specs.List.{flat_map};
ghost use Rattle.syn_term.specs.declared.sorts.Sort.{Sort};
ghost use Rattle.syn_term.specs.declared.sorts.SymId.{SymId};
ghost use Rattle.syn_form.specs.Plain as plain;
ghost use Rattle.syn_form.specs.Plain.{IsPlainForm, IsPlainOut};
ghost use Rattle.syn_form.specs.Trees.{form_vars, out_vars, term_vars};
ghost use Rattle.syn_model.specs.declared.decl.Decl.TheVariants as declared;
ghost use Rattle.syn_model.specs.Clauses as clauses;
ghost use Rattle.syn_model.specs.Clauses.{HasArguments, UsesForm, UsesOut};
ghost use Rattle.syn_model.specs.Declaring as declaring;
ghost use Rattle.syn_model.specs.Declaring.{AreAmong, MayFunClause, MayRelClause};
ghost use Rattle.syn_model.specs.Headings as headings;
ghost use Rattle.syn_model.specs.Tables.{table_of};

use crate::among::{form_is_over, out_is_over};
use crate::decl::Decl;
use crate::headings::heading_of;
use crate::turns::{has_arguments, turn_of};
use crate::uses::{Rest, uses_form, uses_out};
use sqlite_items::Items;
use std::alloc::Global;
use syn_form::{Form, Out, given_sort, is_plain_form, is_plain_out, put_all_vars};
use syn_term::{NoMemory, Sort, SymId, Symbols, Term, Var};

/// A function as it is declared.
#[derive(Clone, Copy)]
struct FunHeading<'a> {
    name: &'a str,
    sorts: &'a [Sort],
    value: Sort,
}

/// A relation as it is declared.
#[derive(Clone, Copy)]
struct RelHeading<'a> {
    name: &'a str,
    sorts: &'a [Sort],
}

/// The symbol that a clause defines, and where its body may use it.
#[derive(Clone, Copy)]
struct Own {
    symbol: SymId,
    rest: Option<Rest>,
}

/// The function that is declared; None where the declaration is another.
fn fun_in<'a>(decl: &'a Decl) -> Option<FunHeading<'a>>
    ensures { MatchOption result ((name : List ℕ) (sorts : List Sort) (value : Sort) → decl.now ≡ declared.Fun name sorts value → ⊥) (λ h. decl.now ≡ declared.Fun h.name.now h.sorts.now h.value) }
{
    match decl {
        Decl::Fun {
            name,
            args,
            result: value,
        } => Some(FunHeading {
            name: name.as_str(),
            sorts: args.as_slice(),
            value: *value,
        }),
        _ => None,
    }
}

/// The relation that is declared; None where the declaration is another.
fn rel_in<'a>(decl: &'a Decl) -> Option<RelHeading<'a>>
    ensures { MatchOption result ((name : List ℕ) (sorts : List Sort) → decl.now ≡ declared.Rel name sorts → ⊥) (λ h. decl.now ≡ declared.Rel h.name.now h.sorts.now) }
{
    match decl {
        Decl::Rel { name, args } => Some(RelHeading {
            name: name.as_str(),
            sorts: args.as_slice(),
        }),
        _ => None,
    }
}

/// The heading that is declared last, where it is a function.
fn fun_heading<'a>(decls: &'a [Decl]) -> Option<FunHeading<'a>>
    ensures { MatchOption result ((name : List ℕ) (sorts : List Sort) (value : Sort) → (headings.heading_of decls.now).declared ≡ Some (declared.Fun name sorts value) → ⊥) (λ h. (headings.heading_of decls.now).declared ≡ Some (declared.Fun h.name.now h.sorts.now h.value)) }
{
    match heading_of(decls).declared {
        None => None,
        Some(decl) => fun_in(decl),
    }
}

/// The heading that is declared last, where it is a relation.
fn rel_heading<'a>(decls: &'a [Decl]) -> Option<RelHeading<'a>>
    ensures { MatchOption result ((name : List ℕ) (sorts : List Sort) → (headings.heading_of decls.now).declared ≡ Some (declared.Rel name sorts) → ⊥) (λ h. (headings.heading_of decls.now).declared ≡ Some (declared.Rel h.name.now h.sorts.now)) }
{
    match heading_of(decls).declared {
        None => None,
        Some(decl) => rel_in(decl),
    }
}

/// The symbol that has the name.
fn symbol_of_name(syms: &Symbols, name: &str) -> Option<SymId>
    ensures { result ≡ declaring.symbol_of_name syms.now name.now }
{
    syms.find(name)
}

/// Whether a clause with these arguments may be the next of the last heading, and where its body may
/// use the symbol that it defines.
fn next_turn(syms: &Symbols, decls: &[Decl], args: &[Term]) -> Option<Option<Rest>>
    ensures { result ≡ clauses.turn_of syms.now (headings.heading_of decls.now).arguments args.now }
{
    turn_of(syms, heading_of(decls).clauses, args)
}

/// The symbol with the name and where the body of the next clause, with these arguments, may use it.
fn own_of(syms: &Symbols, decls: &[Decl], name: &str, args: &[Term]) -> Option<Own>
    ensures { MatchOption result ((own : SymId) (rest : _) → declaring.symbol_of_name syms.now name.now ≡ Some own → clauses.turn_of syms.now (headings.heading_of decls.now).arguments args.now ≡ Some rest → ⊥) (λ o. (declaring.symbol_of_name syms.now name.now ≡ Some o.symbol) × (clauses.turn_of syms.now (headings.heading_of decls.now).arguments args.now ≡ Some o.rest)) }
{
    match (symbol_of_name(syms, name), next_turn(syms, decls, args)) {
        (Some(symbol), Some(rest)) => Some(Own { symbol, rest }),
        _ => None,
    }
}

/// The variables of the arguments, in order.
fn vars_of(alloc: Global, args: &[Term]) -> Result<Items<Var>, NoMemory>
    ensures { IfOk result (λ vs. vs ≡ flat_map term_vars args.now) }
{
    let mut vars = Items::new(alloc);
    put_all_vars(&mut vars, args)?;
    Ok(vars)
}

/// Whether the output is over the variables of the arguments.
fn out_is_over_args(alloc: Global, args: &[Term], body: &Out) -> Result<bool, NoMemory>
    ensures { IfOk result (λ b. IsTrue b ↔ AreAmong (out_vars body.now) (flat_map term_vars args.now)) }
{
    let vars = vars_of(alloc, args)?;
    Ok(out_is_over(body, vars.as_slice()))
}

/// Whether the formula is over the variables of the arguments.
fn form_is_over_args(alloc: Global, args: &[Term], body: &Form) -> Result<bool, NoMemory>
    ensures { IfOk result (λ b. IsTrue b ↔ AreAmong (form_vars body.now) (flat_map term_vars args.now)) }
{
    let vars = vars_of(alloc, args)?;
    Ok(form_is_over(body, vars.as_slice()))
}

/// Whether the output is plain, over the variables of the arguments.
fn is_plain_out_over(
    alloc: Global,
    syms: &Symbols,
    args: &[Term],
    body: &Out,
) -> Result<bool, NoMemory>
    ensures { IfOk result (λ b. IsTrue b ↔ IsPlainOut syms.now body.now × AreAmong (out_vars body.now) (flat_map term_vars args.now)) }
{
    if !is_plain_out(alloc, syms, body)? {
        return Ok(false);
    }
    out_is_over_args(alloc, args, body)
}

/// Whether the formula is plain, over the variables of the arguments.
fn is_plain_form_over(
    alloc: Global,
    syms: &Symbols,
    args: &[Term],
    body: &Form,
) -> Result<bool, NoMemory>
    ensures { IfOk result (λ b. IsTrue b ↔ IsPlainForm syms.now body.now × AreAmong (form_vars body.now) (flat_map term_vars args.now)) }
{
    if !is_plain_form(alloc, syms, body)? {
        return Ok(false);
    }
    form_is_over_args(alloc, args, body)
}

/// Whether the output gives a term of this sort.
pub(crate) fn gives(syms: &Symbols, body: &Out, value: Sort) -> bool
    ensures { IsTrue result ↔ (plain.given_sort syms.now body.now ≡ Some value) }
{
    given_sort(syms, body) == Some(value)
}

/// Whether arguments and body are of the sorts of the function, and the body uses the symbol only
/// where it may.
fn fun_is_sorted(syms: &Symbols, own: Own, heading: &FunHeading, args: &[Term], body: &Out) -> bool
    ensures { IsTrue result ↔ HasArguments syms.now heading.now.sorts.now args.now × (plain.given_sort syms.now body.now ≡ Some heading.now.value) × UsesOut own.symbol own.rest body.now }
{
    has_arguments(syms, heading.sorts, args)
        && gives(syms, body, heading.value)
        && uses_out(own.symbol, own.rest, body)
}

/// Whether arguments and body make a clause of the function, where its symbol may be used as is said.
fn fun_body_fits(
    alloc: Global,
    syms: &Symbols,
    own: Own,
    heading: &FunHeading,
    args: &[Term],
    body: &Out,
) -> Result<bool, NoMemory>
    ensures { IfOk result (λ b. IsTrue b ↔ (HasArguments syms.now heading.now.sorts.now args.now × (plain.given_sort syms.now body.now ≡ Some heading.now.value) × UsesOut own.symbol own.rest body.now) × (IsPlainOut syms.now body.now × AreAmong (out_vars body.now) (flat_map term_vars args.now))) }
{
    if !fun_is_sorted(syms, own, heading, args, body) {
        return Ok(false);
    }
    is_plain_out_over(alloc, syms, args, body)
}

/// Whether the arguments are of the sorts of the relation, and the body uses the symbol only where it
/// may.
fn rel_is_sorted(syms: &Symbols, own: Own, heading: &RelHeading, args: &[Term], body: &Form) -> bool
    ensures { IsTrue result ↔ HasArguments syms.now heading.now.sorts.now args.now × UsesForm own.symbol own.rest body.now }
{
    has_arguments(syms, heading.sorts, args) && uses_form(own.symbol, own.rest, body)
}

/// Whether arguments and body make a clause of the relation, where its symbol may be used as is said.
fn rel_body_fits(
    alloc: Global,
    syms: &Symbols,
    own: Own,
    heading: &RelHeading,
    args: &[Term],
    body: &Form,
) -> Result<bool, NoMemory>
    ensures { IfOk result (λ b. IsTrue b ↔ (HasArguments syms.now heading.now.sorts.now args.now × UsesForm own.symbol own.rest body.now) × (IsPlainForm syms.now body.now × AreAmong (form_vars body.now) (flat_map term_vars args.now))) }
{
    if !rel_is_sorted(syms, own, heading, args, body) {
        return Ok(false);
    }
    is_plain_form_over(alloc, syms, args, body)
}

/// Whether the clause may be one of the function that is declared last.
fn fun_clause_fits(
    alloc: Global,
    syms: &Symbols,
    decls: &[Decl],
    heading: &FunHeading,
    args: &[Term],
    body: &Out,
) -> Result<bool, NoMemory>
    requires table { syms.now ≡ table_of decls.now }
    requires heading { (headings.heading_of decls.now).declared ≡ Some (declared.Fun heading.now.name.now heading.now.sorts.now heading.now.value) }
    ensures { IfOk result (λ b. IsTrue b ↔ MayFunClause decls.now args.now body.now) }
{
    match own_of(syms, decls, heading.name, args) {
        None => Ok(false),
        Some(own) => fun_body_fits(alloc, syms, own, heading, args, body),
    }
}

/// Whether the clause may be one of the relation that is declared last.
fn rel_clause_fits(
    alloc: Global,
    syms: &Symbols,
    decls: &[Decl],
    heading: &RelHeading,
    args: &[Term],
    body: &Form,
) -> Result<bool, NoMemory>
    requires table { syms.now ≡ table_of decls.now }
    requires heading { (headings.heading_of decls.now).declared ≡ Some (declared.Rel heading.now.name.now heading.now.sorts.now) }
    ensures { IfOk result (λ b. IsTrue b ↔ MayRelClause decls.now args.now body.now) }
{
    match own_of(syms, decls, heading.name, args) {
        None => Ok(false),
        Some(own) => rel_body_fits(alloc, syms, own, heading, args, body),
    }
}

/// Whether the clause of a function may follow the declarations. The one error is want of memory.
pub(crate) fn may_fun_clause(
    alloc: Global,
    syms: &Symbols,
    decls: &[Decl],
    args: &[Term],
    body: &Out,
) -> Result<bool, NoMemory>
    requires { syms.now ≡ table_of decls.now }
    ensures { IfOk result (λ b. IsTrue b ↔ MayFunClause decls.now args.now body.now) }
{
    match fun_heading(decls) {
        None => Ok(false),
        Some(heading) => fun_clause_fits(alloc, syms, decls, &heading, args, body),
    }
}

/// The same for the clause of a relation.
pub(crate) fn may_rel_clause(
    alloc: Global,
    syms: &Symbols,
    decls: &[Decl],
    args: &[Term],
    body: &Form,
) -> Result<bool, NoMemory>
    requires { syms.now ≡ table_of decls.now }
    ensures { IfOk result (λ b. IsTrue b ↔ MayRelClause decls.now args.now body.now) }
{
    match rel_heading(decls) {
        None => Ok(false),
        Some(heading) => rel_clause_fits(alloc, syms, decls, &heading, args, body),
    }
}
