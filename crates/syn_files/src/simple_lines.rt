// Lines in which no expression stands: sorts, functions and relations.
ghost use Rattle.std.specs.Prelude.{◌≡◌, IfOk, MatchOption, None, Some, if◌then◌else◌};
ghost use Rattle.syn_model.specs.declared.decl.Decl.TheVariants as decl;
ghost use Rattle.syn_files.specs.inner.Firsts.{got};
ghost use Rattle.syn_files.specs.inner.Params.{param};
ghost use Rattle.syn_files.specs.inner.SimpleLines as lines;

use crate::cursor::{Cursor, is_text};
use sqlite_items::Items;
use std::alloc::Global;
use syn_model::Decl;
use syn_term::{NoMemory, Sort, Symbols, Text};

/// Two texts.
fn two_texts(alloc: Global, first: &str, second: &str) -> Result<(Text, Text), NoMemory>
    ensures { IfOk result (λ texts. (texts.0 ≡ first.now) × (texts.1 ≡ second.now)) }
{
    let first = Text::from_str(alloc, first)?;
    match Text::from_str(alloc, second) {
        Ok(second) => Ok((first, second)),
        Err(_) => {
            drop(first);
            Err(NoMemory)
        }
    }
}

/// A sort of lists.
fn list_sort(alloc: Global, name: &str, nil: &str, cons: &str, item: Sort) -> Result<Decl, NoMemory>
    ensures { IfOk result (λ d. d ≡ decl.ListSort name.now nil.now cons.now item) }
{
    let cons = Text::from_str(alloc, cons)?;
    match two_texts(alloc, name, nil) {
        Ok((name, nil)) => Ok(Decl::ListSort {
            name,
            nil,
            cons,
            item,
        }),
        Err(error) => {
            drop(cons);
            Err(error)
        }
    }
}

/// `c(E`: the name and the sort.
fn cons_front<'a>(syms: &Symbols, cursor: &mut Cursor<'a>) -> Option<(&'a str, Sort)>
    ensures { MatchOption result (lines.cons_first syms.now cursor.old.left ≡ None) (λ c. lines.cons_first syms.now cursor.old.left ≡ Some (got (param c.0.now c.1) cursor.new.left)) }
{
    let cons = cursor.name()?;
    if !cursor.sign(b"(") {
        return None;
    }
    let item = cursor.sort(syms)?;
    Some((cons, item))
}

/// Whether `, L)` is what is left, with this name.
fn is_name_again(name: &str, cursor: &mut Cursor<'_>) -> bool
    ensures { lines.again_line name.now cursor.old.left ≡ (if result then Some name.now else None) }
{
    if !cursor.sign(b",") {
        return false;
    }
    match cursor.name() {
        None => false,
        Some(again) => cursor.sign(b")") && is_text(again, name) && cursor.is_empty(),
    }
}

/// `c(E, L)`, behind `sort L = n |`. The one error is want of memory, as of each of these.
fn list_line(
    alloc: Global,
    syms: &Symbols,
    name: &str,
    nil: &str,
    cursor: &mut Cursor<'_>,
) -> Result<Option<Decl>, NoMemory>
    ensures { IfOk result (λ o. o ≡ lines.list_line syms.now name.now nil.now cursor.old.left) }
{
    let Some((cons, item)) = cons_front(syms, cursor) else {
        return Ok(None);
    };
    if is_name_again(name, cursor) {
        Ok(Some(list_sort(alloc, name, nil, cons, item)?))
    } else {
        Ok(None)
    }
}

/// A sort of tuples.
fn tuple_sort(alloc: Global, name: &str, make: &str, parts: Items<Sort>) -> Result<Decl, NoMemory>
    ensures { IfOk result (λ d. d ≡ decl.TupleSort name.now make.now parts) }
{
    match two_texts(alloc, name, make) {
        Ok((name, make)) => Ok(Decl::TupleSort { name, make, parts }),
        Err(error) => {
            drop(parts);
            Err(error)
        }
    }
}

/// `(S1, .., Sk)`, behind `sort T = c`.
fn tuple_line(
    alloc: Global,
    syms: &Symbols,
    name: &str,
    make: &str,
    cursor: &mut Cursor<'_>,
) -> Result<Option<Decl>, NoMemory>
    ensures { IfOk result (λ o. o ≡ lines.tuple_line syms.now name.now make.now cursor.old.left) }
{
    match cursor.sorts(alloc, syms)? {
        None => Ok(None),
        Some(parts) => {
            if cursor.is_empty() {
                Ok(Some(tuple_sort(alloc, name, make, parts)?))
            } else {
                drop(parts);
                Ok(None)
            }
        }
    }
}

/// `L = n | c(E, L)`, or `T = c(S1, .., Sk)`.
pub(crate) fn sort_line(
    alloc: Global,
    syms: &Symbols,
    cursor: &mut Cursor<'_>,
) -> Result<Option<Decl>, NoMemory>
    ensures { IfOk result (λ o. o ≡ lines.sort_line syms.now cursor.old.left) }
{
    let Some(name) = cursor.name() else {
        return Ok(None);
    };
    if !cursor.sign(b"=") {
        return Ok(None);
    }
    let Some(first) = cursor.name() else {
        return Ok(None);
    };
    if cursor.sign(b"|") {
        list_line(alloc, syms, name, first, cursor)
    } else {
        tuple_line(alloc, syms, name, first, cursor)
    }
}

/// `: S`, at the end of a line.
pub(crate) fn value_line(syms: &Symbols, cursor: &mut Cursor<'_>) -> Option<Sort>
    ensures { result ≡ lines.value_line syms.now cursor.old.left }
{
    if !cursor.sign(b":") {
        return None;
    }
    let value = cursor.sort(syms)?;
    if cursor.is_empty() { Some(value) } else { None }
}

/// A function.
fn function(alloc: Global, name: &str, args: Items<Sort>, value: Sort) -> Result<Decl, NoMemory>
    ensures { IfOk result (λ d. d ≡ decl.Fun name.now args value) }
{
    match Text::from_str(alloc, name) {
        Ok(name) => Ok(Decl::Fun {
            name,
            args,
            result: value,
        }),
        Err(_) => {
            drop(args);
            Err(NoMemory)
        }
    }
}

/// `(S1, .., Sn): S`, behind `fun f`.
fn fun_behind(
    alloc: Global,
    syms: &Symbols,
    name: &str,
    cursor: &mut Cursor<'_>,
) -> Result<Option<Decl>, NoMemory>
    ensures { IfOk result (λ o. o ≡ lines.fun_behind syms.now name.now cursor.old.left) }
{
    match cursor.sorts(alloc, syms)? {
        None => Ok(None),
        Some(args) => match value_line(syms, cursor) {
            None => {
                drop(args);
                Ok(None)
            }
            Some(value) => Ok(Some(function(alloc, name, args, value)?)),
        },
    }
}

/// `f(S1, .., Sn): S`.
pub(crate) fn fun_line(
    alloc: Global,
    syms: &Symbols,
    cursor: &mut Cursor<'_>,
) -> Result<Option<Decl>, NoMemory>
    ensures { IfOk result (λ o. o ≡ lines.fun_line syms.now cursor.old.left) }
{
    match cursor.name() {
        None => Ok(None),
        Some(name) => fun_behind(alloc, syms, name, cursor),
    }
}

/// A relation.
fn relation(alloc: Global, name: &str, args: Items<Sort>) -> Result<Decl, NoMemory>
    ensures { IfOk result (λ d. d ≡ decl.Rel name.now args) }
{
    match Text::from_str(alloc, name) {
        Ok(name) => Ok(Decl::Rel { name, args }),
        Err(_) => {
            drop(args);
            Err(NoMemory)
        }
    }
}

/// `(S1, .., Sn)`, behind `rel r`.
fn rel_behind(
    alloc: Global,
    syms: &Symbols,
    name: &str,
    cursor: &mut Cursor<'_>,
) -> Result<Option<Decl>, NoMemory>
    ensures { IfOk result (λ o. o ≡ lines.rel_behind syms.now name.now cursor.old.left) }
{
    match cursor.sorts(alloc, syms)? {
        None => Ok(None),
        Some(args) => {
            if cursor.is_empty() {
                Ok(Some(relation(alloc, name, args)?))
            } else {
                drop(args);
                Ok(None)
            }
        }
    }
}

/// `r(S1, .., Sn)`.
pub(crate) fn rel_line(
    alloc: Global,
    syms: &Symbols,
    cursor: &mut Cursor<'_>,
) -> Result<Option<Decl>, NoMemory>
    ensures { IfOk result (λ o. o ≡ lines.rel_line syms.now cursor.old.left) }
{
    match cursor.name() {
        None => Ok(None),
        Some(name) => rel_behind(alloc, syms, name, cursor),
    }
}
