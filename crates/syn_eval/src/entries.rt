// What is known of each symbol when a term is evaluated, looked up once, before evaluation begins.
ghost use Rattle.std.specs.Prelude.{◌≡◌, [], IfOk, length, map};
ghost use Rattle.std.specs.Option.{option_copied};
ghost use Rattle.syn_term.specs.declared.sorts.Kind.TheVariants as kinds;
ghost use Rattle.syn_model.specs.Declaring.{IsTheory};
ghost use Rattle.syn_eval.specs.inner.Rules.{entry_seen, known_by, known_of};

use crate::headed::{functions_of, next_heading, order_measure, relations_of};
use crate::rules::Rule;
use sqlite_items::Items;
use std::alloc::Global;
use syn_form::{Form, Out};
use syn_model::Decl;
use syn_term::{Kind, NoMemory, Sym, SymId, Symbols, Term};

/// A symbol's kind, and its clauses or its measure among the declarations.
#[derive(Drop)]
pub struct Entry<'a> {
    pub kind: Kind,
    pub functions: Items<Rule<'a, Out>>,
    pub relations: Items<Rule<'a, Form>>,
    pub measure: Option<&'a Term>,
}

/// What is known of a function.
fn function_entry<'a>(
    alloc: Global,
    decls: &'a [Decl],
    place: usize,
    name: &str,
) -> Result<Entry<'a>, NoMemory>
    requires { IsTheory decls.now }
    ensures { IfOk result (λ e. entry_seen e ≡ known_by decls.entry.now name.now kinds.Fun) }
{
    let functions = functions_of(alloc, decls, place, name)?;
    Ok(Entry {
        kind: Kind::Fun,
        functions,
        relations: Items::new(alloc),
        measure: None,
    })
}

/// What is known of a relation.
fn relation_entry<'a>(
    alloc: Global,
    decls: &'a [Decl],
    place: usize,
    name: &str,
) -> Result<Entry<'a>, NoMemory>
    requires { IsTheory decls.now }
    ensures { IfOk result (λ e. entry_seen e ≡ known_by decls.entry.now name.now kinds.Rel) }
{
    let relations = relations_of(alloc, decls, place, name)?;
    Ok(Entry {
        kind: Kind::Rel,
        functions: Items::new(alloc),
        relations,
        measure: None,
    })
}

/// What is known of an order, or of another symbol that has no clauses.
fn plain_entry<'a>(alloc: Global, kind: Kind, measure: Option<&'a Term>) -> Entry<'a>
    ensures { entry_seen result ≡ record { kind = kind; functions = []; relations = []; measure = option_copied measure.entry } }
{
    Entry {
        kind,
        functions: Items::new(alloc),
        relations: Items::new(alloc),
        measure,
    }
}

/// What is known of the symbol, whose heading may be at the place.
fn entry_of<'a>(
    alloc: Global,
    decls: &'a [Decl],
    place: usize,
    sym: &Sym,
) -> Result<Entry<'a>, NoMemory>
    requires { IsTheory decls.now }
    ensures { IfOk result (λ e. entry_seen e ≡ known_of decls.entry.now sym.now) }
{
    match sym.kind {
        Kind::Fun => function_entry(alloc, decls, place, sym.name.as_str()),
        Kind::Rel => relation_entry(alloc, decls, place, sym.name.as_str()),
        Kind::Order => Ok(plain_entry(
            alloc,
            Kind::Order,
            order_measure(decls, place, sym.name.as_str()),
        )),
        kind => Ok(plain_entry(alloc, kind, None)),
    }
}

/// Where the next heading is expected behind this symbol: behind the place, where the symbol has a
/// heading. What is expected says nothing of what is found.
fn next_place(decls: &[Decl], place: usize, kind: Kind) -> usize {
    match kind {
        Kind::Fun | Kind::Rel | Kind::Order => {
            if place < decls.len() {
                next_heading(decls, place + 1)
            } else {
                place
            }
        }
        _ => place,
    }
}

/// What is known of each symbol of the table, by their numbers. NoMemory comes also where a table has
/// more symbols than numbers can tell.
pub(crate) fn entries_of<'a>(
    alloc: Global,
    decls: &'a [Decl],
    symbols: &Symbols,
) -> Result<Items<Entry<'a>>, NoMemory>
    requires { IsTheory decls.now }
    ensures { IfOk result (λ es. map entry_seen es ≡ map (known_of decls.entry.now) symbols.now.syms) }
{
    let mut entries = Items::new(alloc);
    let mut place = next_heading(decls, 0);
    let mut id: u32 = 0;
    while let Some(sym) = symbols.get(SymId(id)) {
        if id == u32::MAX {
            drop(entries);
            return Err(NoMemory);
        }
        match entry_of(alloc, decls, place, sym) {
            Ok(entry) => entries.push(entry)?,
            Err(error) => {
                drop(entries);
                return Err(error);
            }
        }
        place = next_place(decls, place, sym.kind);
        id += 1;
    }
    Ok(entries)
}

/// How many symbols there are; None where these are more than numbers can tell.
pub(crate) fn count(symbols: &Symbols) -> Result<u32, NoMemory>
    ensures { IfOk result (λ n. n ≡ length symbols.now.syms) }
{
    let mut id: u32 = 0;
    while symbols.get(SymId(id)).is_some() {
        if id == u32::MAX {
            return Err(NoMemory);
        }
        id += 1;
    }
    Ok(id)
}
