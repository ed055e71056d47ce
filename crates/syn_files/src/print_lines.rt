// The text of a theory: its name, and a line for each declaration.
ghost use Rattle.std.specs.Prelude.{◌≡◌, ◌++◌, true, All, None, Some, OnOk, IfOk, string_bytes};
ghost use Rattle.std.specs.List.{flat_map};
ghost use Rattle.syn_expr.specs.Scopes.{listed};
ghost use Rattle.syn_form.specs.Trees.{term_vars};
ghost use Rattle.syn_term.specs.Names.{IsName};
ghost use Rattle.syn_lex.specs.Stepping.{IsTextOf};
ghost use Rattle.syn_model.specs.BareTrees.{bare_theory_tree};
ghost use Rattle.syn_model.specs.Declaring.{IsTheory};
ghost use Rattle.syn_model.specs.Headings.{is_whole};
ghost use Rattle.syn_files.specs.TheoryLines.{IsWholeTheory, TheoryLine};
ghost use Rattle.syn_files.specs.Printed.{IsPrintedTheory, IsWithinLimit, line_vars, own_after, printed_decl};
ghost use Rattle.syn_files.specs.inner.Entries.{IsNamedTheory, PutsLine, PutsLines};

use crate::naming::line_names;
use crate::print_decls::{
    numbered, put_axiom, put_fun, put_fun_clause, put_list_sort, put_mono, put_order, put_rel,
    put_rel_clause, put_tuple_sort,
};
use sqlite_items::Items;
use std::alloc::Global;
use syn_expr::{Scope, put};
use syn_form::put_all_vars;
use syn_model::{Decl, Theory};
use syn_term::{NoMemory, Symbols, Term, Var};

/// The variables of the arguments.
fn vars_of(alloc: Global, args: &[Term]) -> Result<Items<Var>, NoMemory>
    ensures { IfOk result (λ vars. vars ≡ flat_map term_vars args.now) }
{
    let mut vars = Items::new(alloc);
    put_all_vars(&mut vars, args)?;
    Ok(vars)
}

/// The variables of the declaration's line.
fn line_vars(alloc: Global, decl: &Decl) -> Result<Items<Var>, NoMemory>
    ensures { IfOk result (λ vars. vars ≡ line_vars decl.now) }
{
    match decl {
        Decl::FunClause { args, .. } => vars_of(alloc, args.as_slice()),
        Decl::RelClause { args, .. } => vars_of(alloc, args.as_slice()),
        Decl::Order { args, .. } => numbered(alloc, args.as_slice()),
        _ => Ok(Items::new(alloc)),
    }
}

/// The name of the last heading behind one more declaration.
fn own_after<'a>(own: &'a str, decl: &'a Decl) -> &'a str
    ensures { result.now ≡ own_after own.now decl.now }
{
    match decl {
        Decl::FunClause { .. } | Decl::RelClause { .. } => own,
        Decl::Fun { name, .. } => name.as_str(),
        Decl::Rel { name, .. } => name.as_str(),
        _ => "",
    }
}

/// Puts the line of a declaration, where the last heading has this name and the variables these.
fn put_decl(
    alloc: Global,
    out: &mut String,
    syms: &Symbols,
    own: &str,
    names: &[(String, Var)],
    decl: &Decl,
) -> Result<(), NoMemory>
    ensures { OnOk result (string_bytes out.new ≡ string_bytes out.old ++ printed_decl syms.now own.now (listed names.now) decl.now) }
{
    let scope = Scope {
        syms,
        names,
        rows: false,
    };
    match decl {
        Decl::ListSort {
            name,
            nil,
            cons,
            item,
        } => put_list_sort(out, syms, name.as_str(), nil.as_str(), cons.as_str(), *item),
        Decl::TupleSort { name, make, parts } => {
            put_tuple_sort(out, syms, name.as_str(), make.as_str(), parts.as_slice())
        }
        Decl::Fun { name, args, result } => {
            put_fun(out, syms, name.as_str(), args.as_slice(), *result)
        }
        Decl::Rel { name, args } => put_rel(out, syms, name.as_str(), args.as_slice()),
        Decl::FunClause { args, body } => {
            put_fun_clause(alloc, out, &scope, own, args.as_slice(), body)
        }
        Decl::RelClause { args, body } => {
            put_rel_clause(alloc, out, &scope, own, args.as_slice(), body)
        }
        Decl::Order { name, measure, .. } => {
            put_order(alloc, out, syms, name.as_str(), names, measure)
        }
        Decl::Axiom { name, form } => put_axiom(alloc, out, syms, name.as_str(), form),
        Decl::Monotone { name, mono } => put_mono(out, syms, name.as_str(), mono),
    }
}

/// Puts the line of a declaration with its line feed.
fn put_line(
    alloc: Global,
    out: &mut String,
    theory: &Theory,
    own: &str,
    decl: &Decl,
) -> Result<(), NoMemory>
    ensures { OnOk result (PutsLine (theory.now).decls own.now decl.now (string_bytes out.old) (string_bytes out.new)) }
{
    let vars = line_vars(alloc, decl)?;
    let names = line_names(alloc, theory, vars.as_slice())?;
    put_decl(alloc, out, theory.symbols(), own, names.as_slice(), decl)?;
    put(out, "\n")
}

/// Puts a line for each declaration of the theory.
fn put_lines(
    alloc: Global,
    out: &mut String,
    theory: &Theory,
    decls: &[Decl],
) -> Result<(), NoMemory>
    requires { decls.now ≡ (theory.now).decls }
    ensures { OnOk result (PutsLines (theory.now).decls (theory.now).decls (string_bytes out.old) (string_bytes out.new)) }
{
    let mut own = "";
    for (i, decl) in decls.iter().enumerate() {
        put_line(alloc, out, theory, own, decl)?;
        own = own_after(own, decl);
    }
    Ok(())
}

/// The text of the theory. The one error is want of memory.
fn theory_text(alloc: Global, theory: &Theory) -> Result<String, NoMemory>
    ensures { IfOk result (λ text. IsNamedTheory theory.now (string_bytes text) × IsName (theory.now).name × IsTheory (theory.now).decls) }
{
    let mut out = String::new(alloc);
    put(&mut out, "theory ")?;
    put(&mut out, theory.name())?;
    put(&mut out, "\n")?;
    put_lines(alloc, &mut out, theory, theory.decls())?;
    Ok(out)
}

/// The one text of the theory. Where the theory is whole and each expression is within the limit,
/// the text reads back. The one error is want of memory.
pub fn print_theory(alloc: Global, theory: &Theory) -> Result<String, NoMemory>
    ensures text { IfOk result (λ text. IsPrintedTheory theory.now (string_bytes text)) }
    ensures reads_back { IfOk result (λ text. is_whole (theory.now).decls ≡ true → All IsWithinLimit (theory.now).decls → IsTextOf TheoryLine None IsWholeTheory (string_bytes text) (Some (bare_theory_tree theory.now))) }
{
    theory_text(alloc, theory)
}
