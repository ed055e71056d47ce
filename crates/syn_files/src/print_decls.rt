// The line of each declaration, piece by piece, in the order in which it is read.
ghost use Rattle.std.specs.Prelude.{◌≡◌, ◌++◌, ◌∷◌, [], OnOk, IfOk, codes, decimal, map, string_bytes};
ghost use Rattle.syn_expr.specs.Scopes.{LeavesNumbersToBinders, listed, spoken};
ghost use Rattle.syn_form.specs.Printing.{printed_form, printed_out, printed_qform, printed_term, sort_text};
ghost use Rattle.syn_files.specs.Printed.{axiom_text, clause_front, comma_list, fun_clause_text, fun_text, given_text, in_brackets_text, list_sort_text, mono_front, mono_text, printed_decl, named_text, order_text, rel_clause_text, rel_text, sort_texts, symbol_text, tuple_sort_text};
ghost use Rattle.syn_files.specs.TheoryLines.{direction, file_scope, numbered};
ghost use Rattle.syn_files.specs.inner.Entries.{entry_text};

use sqlite_items::Items;
use std::alloc::Global;
use syn_expr::{
    Scope, print_form, print_out, print_qform, print_term, put, put_number, separator, sort_name,
    symbol_name,
};
use syn_form::{Form, Mono, Out, QForm};
use syn_term::{NoMemory, Sort, SymId, Symbols, Term, Var};

/// Puts the term after what stands already.
fn put_term(alloc: Global, out: &mut String, scope: &Scope, t: &Term) -> Result<(), NoMemory>
    ensures { OnOk result (string_bytes out.new ≡ string_bytes out.old ++ printed_term (spoken scope.now) t.now) }
{
    let text = print_term(alloc, scope, t)?;
    put(out, text.as_str())
}

/// Puts the output after what stands already.
pub(crate) fn put_out(
    alloc: Global,
    out: &mut String,
    scope: &Scope,
    o: &Out,
) -> Result<(), NoMemory>
    ensures { OnOk result (string_bytes out.new ≡ string_bytes out.old ++ printed_out (spoken scope.now) o.now) }
{
    let text = print_out(alloc, scope, o)?;
    put(out, text.as_str())
}

/// Puts the formula without quantifiers after what stands already.
pub(crate) fn put_form(
    alloc: Global,
    out: &mut String,
    scope: &Scope,
    f: &Form,
) -> Result<(), NoMemory>
    ensures { OnOk result (string_bytes out.new ≡ string_bytes out.old ++ printed_form (spoken scope.now) f.now) }
{
    let text = print_form(alloc, scope, f)?;
    put(out, text.as_str())
}

/// Puts the formula after what stands already.
pub(crate) fn put_qform(
    alloc: Global,
    out: &mut String,
    scope: &Scope,
    f: &QForm,
) -> Result<(), NoMemory>
    requires { LeavesNumbersToBinders (spoken scope.now) }
    ensures { OnOk result (string_bytes out.new ≡ string_bytes out.old ++ printed_qform (spoken scope.now) f.now) }
{
    let text = print_qform(alloc, scope, f)?;
    put(out, text.as_str())
}

/// Puts the sorts with commas between.
fn put_sorts(out: &mut String, syms: &Symbols, sorts: &[Sort]) -> Result<(), NoMemory>
    ensures { OnOk result (string_bytes out.new ≡ string_bytes out.old ++ comma_list (sort_texts syms.now sorts.now)) }
{
    for i in 0..sorts.len() {
        put(out, separator(i, ", "))?;
        put(out, sort_name(syms, sorts[i]))?;
    }
    Ok(())
}

/// Puts the terms with commas between.
fn put_terms(alloc: Global, out: &mut String, scope: &Scope, terms: &[Term]) -> Result<(), NoMemory>
    ensures { OnOk result (string_bytes out.new ≡ string_bytes out.old ++ comma_list (map (printed_term (spoken scope.now)) terms.now)) }
{
    for (i, t) in terms.iter().enumerate() {
        put(out, separator(i, ", "))?;
        put_term(alloc, out, scope, t)?;
    }
    Ok(())
}

/// `x: S`.
fn put_parameter(out: &mut String, syms: &Symbols, named: &(String, Var)) -> Result<(), NoMemory>
    ensures { OnOk result (string_bytes out.new ≡ string_bytes out.old ++ entry_text syms.now named.now) }
{
    put(out, named.0.as_str())?;
    put(out, ": ")?;
    put(out, sort_name(syms, named.1.sort))
}

/// Puts the variables with their sorts, commas between.
fn put_parameters(out: &mut String, syms: &Symbols, names: &[(String, Var)]) -> Result<(), NoMemory>
    ensures { OnOk result (string_bytes out.new ≡ string_bytes out.old ++ comma_list (map (named_text syms.now) (listed names.now))) }
{
    for (i, named) in names.iter().enumerate() {
        put(out, separator(i, ", "))?;
        put_parameter(out, syms, named)?;
    }
    Ok(())
}

/// `NAME(S1, .., Sn)`.
fn put_sorts_of(
    out: &mut String,
    syms: &Symbols,
    name: &str,
    sorts: &[Sort],
) -> Result<(), NoMemory>
    ensures { OnOk result (string_bytes out.new ≡ string_bytes out.old ++ in_brackets_text name.now (sort_texts syms.now sorts.now)) }
{
    put(out, name)?;
    put(out, "(")?;
    put_sorts(out, syms, sorts)?;
    put(out, ")")
}

/// `sort NAME = `.
fn put_sort_front(out: &mut String, name: &str) -> Result<(), NoMemory>
    ensures { OnOk result (string_bytes out.new ≡ string_bytes out.old ++ (codes "sort " ++ name.now ++ codes " = ")) }
{
    put(out, "sort ")?;
    put(out, name)?;
    put(out, " = ")
}

/// `c(E, L)`.
fn put_cons(out: &mut String, cons: &str, item: &str, name: &str) -> Result<(), NoMemory>
    ensures { OnOk result (string_bytes out.new ≡ string_bytes out.old ++ in_brackets_text cons.now (item.now ∷ name.now ∷ [])) }
{
    put(out, cons)?;
    put(out, "(")?;
    put(out, item)?;
    put(out, ", ")?;
    put(out, name)?;
    put(out, ")")
}

/// `sort L = n | c(E, L)`.
pub(crate) fn put_list_sort(
    out: &mut String,
    syms: &Symbols,
    name: &str,
    nil: &str,
    cons: &str,
    item: Sort,
) -> Result<(), NoMemory>
    ensures { OnOk result (string_bytes out.new ≡ string_bytes out.old ++ list_sort_text syms.now name.now nil.now cons.now item) }
{
    put_sort_front(out, name)?;
    put(out, nil)?;
    put(out, " | ")?;
    put_cons(out, cons, sort_name(syms, item), name)
}

/// `sort T = c(S1, .., Sk)`.
pub(crate) fn put_tuple_sort(
    out: &mut String,
    syms: &Symbols,
    name: &str,
    make: &str,
    parts: &[Sort],
) -> Result<(), NoMemory>
    ensures { OnOk result (string_bytes out.new ≡ string_bytes out.old ++ tuple_sort_text syms.now name.now make.now parts.now) }
{
    put_sort_front(out, name)?;
    put_sorts_of(out, syms, make, parts)
}

/// `fun f(S1, .., Sn): S`.
pub(crate) fn put_fun(
    out: &mut String,
    syms: &Symbols,
    name: &str,
    args: &[Sort],
    value: Sort,
) -> Result<(), NoMemory>
    ensures { OnOk result (string_bytes out.new ≡ string_bytes out.old ++ fun_text syms.now name.now args.now value) }
{
    put(out, "fun ")?;
    put_sorts_of(out, syms, name, args)?;
    put(out, ": ")?;
    put(out, sort_name(syms, value))
}

/// `rel r(S1, .., Sn)`.
pub(crate) fn put_rel(
    out: &mut String,
    syms: &Symbols,
    name: &str,
    args: &[Sort],
) -> Result<(), NoMemory>
    ensures { OnOk result (string_bytes out.new ≡ string_bytes out.old ++ rel_text syms.now name.now args.now) }
{
    put(out, "rel ")?;
    put_sorts_of(out, syms, name, args)
}

/// `clause f(q1, .., qn)`.
fn put_clause_front(
    alloc: Global,
    out: &mut String,
    scope: &Scope,
    own: &str,
    args: &[Term],
) -> Result<(), NoMemory>
    ensures { OnOk result (string_bytes out.new ≡ string_bytes out.old ++ clause_front (spoken scope.now) own.now args.now) }
{
    put(out, "clause ")?;
    put(out, own)?;
    put(out, "(")?;
    put_terms(alloc, out, scope, args)?;
    put(out, ")")
}

/// `clause f(q1, .., qn) = OUT`.
pub(crate) fn put_fun_clause(
    alloc: Global,
    out: &mut String,
    scope: &Scope,
    own: &str,
    args: &[Term],
    body: &Out,
) -> Result<(), NoMemory>
    ensures { OnOk result (string_bytes out.new ≡ string_bytes out.old ++ fun_clause_text (spoken scope.now) own.now args.now body.now) }
{
    put_clause_front(alloc, out, scope, own, args)?;
    put(out, " = ")?;
    put_out(alloc, out, scope, body)
}

/// `clause r(q1, .., qn) <-> FORM`.
pub(crate) fn put_rel_clause(
    alloc: Global,
    out: &mut String,
    scope: &Scope,
    own: &str,
    args: &[Term],
    body: &Form,
) -> Result<(), NoMemory>
    ensures { OnOk result (string_bytes out.new ≡ string_bytes out.old ++ rel_clause_text (spoken scope.now) own.now args.now body.now) }
{
    put_clause_front(alloc, out, scope, own, args)?;
    put(out, " <-> ")?;
    put_form(alloc, out, scope, body)
}

/// `order w(x: S, ..) by TERM`.
pub(crate) fn put_order(
    alloc: Global,
    out: &mut String,
    syms: &Symbols,
    name: &str,
    names: &[(String, Var)],
    measure: &Term,
) -> Result<(), NoMemory>
    ensures { OnOk result (string_bytes out.new ≡ string_bytes out.old ++ order_text syms.now name.now (listed names.now) measure.now) }
{
    put(out, "order ")?;
    put(out, name)?;
    put(out, "(")?;
    put_parameters(out, syms, names)?;
    put(out, ")")?;
    put(out, " by ")?;
    let scope = Scope {
        syms,
        names,
        rows: false,
    };
    put_term(alloc, out, &scope, measure)
}

/// `axiom NAME: FORM`.
pub(crate) fn put_axiom(
    alloc: Global,
    out: &mut String,
    syms: &Symbols,
    name: &str,
    form: &QForm,
) -> Result<(), NoMemory>
    ensures { OnOk result (string_bytes out.new ≡ string_bytes out.old ++ axiom_text syms.now name.now form.now) }
{
    put(out, "axiom ")?;
    put(out, name)?;
    put(out, ": ")?;
    let scope = Scope {
        syms,
        names: &[],
        rows: false,
    };
    put_qform(alloc, out, &scope, form)
}

/// `up` or `down`.
fn direction(up: bool) -> &'static str
    ensures { result.now ≡ direction up }
{
    if up { "up" } else { "down" }
}

/// A space and the relation that is given, where there is one.
fn put_given(out: &mut String, syms: &Symbols, gives: Option<SymId>) -> Result<(), NoMemory>
    ensures { OnOk result (string_bytes out.new ≡ string_bytes out.old ++ given_text syms.now gives) }
{
    match gives {
        None => Ok(()),
        Some(rel) => {
            put(out, " ")?;
            put(out, symbol_name(syms, rel))
        }
    }
}

/// `mono NAME: REL up`.
fn put_mono_front(out: &mut String, syms: &Symbols, name: &str, mono: &Mono) -> Result<(), NoMemory>
    ensures { OnOk result (string_bytes out.new ≡ string_bytes out.old ++ mono_front syms.now name.now mono.now) }
{
    put(out, "mono ")?;
    put(out, name)?;
    put(out, ": ")?;
    put(out, symbol_name(syms, mono.rel))?;
    put(out, " ")?;
    put(out, direction(mono.up))
}

/// `SYM K`, and what is given.
fn put_mono_place(out: &mut String, syms: &Symbols, mono: &Mono) -> Result<(), NoMemory>
    ensures { OnOk result (string_bytes out.new ≡ string_bytes out.old ++ (symbol_text syms.now (mono.now).sym ++ codes " " ++ decimal (mono.now).place ++ given_text syms.now (mono.now).gives)) }
{
    put(out, symbol_name(syms, mono.sym))?;
    put(out, " ")?;
    put_number(out, mono.place)?;
    put_given(out, syms, mono.gives)
}

/// `mono NAME: REL up SYM K`, and its kin.
pub(crate) fn put_mono(
    out: &mut String,
    syms: &Symbols,
    name: &str,
    mono: &Mono,
) -> Result<(), NoMemory>
    ensures { OnOk result (string_bytes out.new ≡ string_bytes out.old ++ mono_text syms.now name.now mono.now) }
{
    put_mono_front(out, syms, name, mono)?;
    put(out, " ")?;
    put_mono_place(out, syms, mono)
}

/// Puts a variable behind the others.
fn push_var(vars: &mut Items<Var>, number: u32, sort: Sort) -> Result<(), NoMemory>
    ensures { OnOk result (vars.new ≡ vars.old ++ record { number = number; sort = sort } ∷ []) }
{
    Ok(vars.push(Var { number, sort })?)
}

/// Variables of these sorts, numbered from 1. That the numbers run out can't be reached: an order has four arguments at most.
pub(crate) fn numbered(alloc: Global, sorts: &[Sort]) -> Result<Items<Var>, NoMemory>
    ensures { IfOk result (λ vars. vars ≡ numbered 1 sorts.now) }
{
    let mut vars = Items::new(alloc);
    let mut number = 1u32;
    for i in 0..sorts.len() {
        push_var(&mut vars, number, sorts[i])?;
        match number.checked_add(1) {
            None => return Err(NoMemory),
            Some(next) => number = next,
        }
    }
    Ok(vars)
}
