// What a declaration brings: a symbol, a sort with its makers, or a name that is looked up.
ghost use Rattle.std.specs.Prelude.{◌≡◌, ◌++◌, IfOk, OnErr};
ghost use Rattle.syn_term.specs.Symbols.{MayAdd, with_symbol};
ghost use Rattle.syn_term.specs.DeclaredSorts.{MayAddList, MayAddTuple, with_list, with_tuple};
ghost use Rattle.syn_model.specs.Theories.{MayBring, Steps};
ghost use Rattle.syn_model.specs.Tables.{fun_symbol, order_symbol, rel_symbol, table_after};
ghost use Rattle.syn_model.specs.inner.Keeping.{Settles};
ghost use Rattle.syn_model.specs.inner.Indexing.{IsNewIn};

use crate::decl::Decl;
use crate::index::{Index, is_indexed};
use sqlite_items::Items;
use std::alloc::Global;
use syn_term::{Kind, NoMemory, Sort, Sym, Symbols, Text};

/// Adds the symbol. Whether it may be added is the answer.
fn add_symbol(syms: &mut Symbols, sym: Sym) -> Result<bool, NoMemory>
    ensures added { IfOk result (Steps syms.old syms.new (with_symbol syms.old sym) (MayAdd syms.old sym)) }
    ensures err { OnErr result (syms.new ≡ syms.old) }
{
    match syms.add(sym)? {
        None => Ok(false),
        Some(_) => Ok(true),
    }
}

/// Declares the list sort. Whether it may be declared is the answer.
fn add_list(
    syms: &mut Symbols,
    name: &str,
    nil: &str,
    cons: &str,
    item: Sort,
) -> Result<bool, NoMemory>
    ensures added { IfOk result (Steps syms.old syms.new (with_list syms.old name.now nil.now cons.now item) (MayAddList syms.old name.now nil.now cons.now item)) }
    ensures err { OnErr result (syms.new ≡ syms.old) }
{
    match syms.add_list(name, nil, cons, item)? {
        None => Ok(false),
        Some(_) => Ok(true),
    }
}

/// Declares the tuple sort. Whether it may be declared is the answer.
fn add_tuple(syms: &mut Symbols, name: &str, make: &str, parts: &[Sort]) -> Result<bool, NoMemory>
    ensures added { IfOk result (Steps syms.old syms.new (with_tuple syms.old name.now make.now parts.now) (MayAddTuple syms.old name.now make.now parts.now)) }
    ensures err { OnErr result (syms.new ≡ syms.old) }
{
    match syms.add_tuple(name, make, parts)? {
        None => Ok(false),
        Some(_) => Ok(true),
    }
}

fn fun_sym(alloc: Global, name: &str, args: &[Sort], value: Sort) -> Result<Sym, NoMemory>
    ensures { IfOk result (λ sym. sym ≡ fun_symbol name.now args.now value) }
{
    Ok(Sym {
        name: Text::from_str(alloc, name)?,
        kind: Kind::Fun,
        args: Items::from_slice(alloc, args)?,
        result: Some(value),
    })
}

fn rel_sym(alloc: Global, name: &str, args: &[Sort]) -> Result<Sym, NoMemory>
    ensures { IfOk result (λ sym. sym ≡ rel_symbol name.now args.now) }
{
    Ok(Sym {
        name: Text::from_str(alloc, name)?,
        kind: Kind::Rel,
        args: Items::from_slice(alloc, args)?,
        result: None,
    })
}

fn order_sym(alloc: Global, name: &str, args: &[Sort]) -> Result<Sym, NoMemory>
    ensures { IfOk result (λ sym. sym ≡ order_symbol name.now args.now) }
{
    let mut both = Items::from_slice(alloc, args)?;
    both.append(Items::from_slice(alloc, args)?)?;
    Ok(Sym {
        name: Text::from_str(alloc, name)?,
        kind: Kind::Order,
        args: both,
        result: None,
    })
}

/// Adds the symbol of a function. Whether it may be added is the answer.
fn bring_fun(
    alloc: Global,
    syms: &mut Symbols,
    name: &str,
    args: &[Sort],
    value: Sort,
) -> Result<bool, NoMemory>
    ensures added { IfOk result (Steps syms.old syms.new (with_symbol syms.old (fun_symbol name.now args.now value)) (MayAdd syms.old (fun_symbol name.now args.now value))) }
    ensures err { OnErr result (syms.new ≡ syms.old) }
{
    let sym = fun_sym(alloc, name, args, value)?;
    add_symbol(syms, sym)
}

/// Adds the symbol of a relation. Whether it may be added is the answer.
fn bring_rel(alloc: Global, syms: &mut Symbols, name: &str, args: &[Sort]) -> Result<bool, NoMemory>
    ensures added { IfOk result (Steps syms.old syms.new (with_symbol syms.old (rel_symbol name.now args.now)) (MayAdd syms.old (rel_symbol name.now args.now))) }
    ensures err { OnErr result (syms.new ≡ syms.old) }
{
    let sym = rel_sym(alloc, name, args)?;
    add_symbol(syms, sym)
}

/// Adds the symbol of an order. Whether it may be added is the answer.
fn bring_order(
    alloc: Global,
    syms: &mut Symbols,
    name: &str,
    args: &[Sort],
) -> Result<bool, NoMemory>
    ensures added { IfOk result (Steps syms.old syms.new (with_symbol syms.old (order_symbol name.now args.now)) (MayAdd syms.old (order_symbol name.now args.now))) }
    ensures err { OnErr result (syms.new ≡ syms.old) }
{
    let sym = order_sym(alloc, name, args)?;
    add_symbol(syms, sym)
}

/// Adds to the table what the declaration brings. Whether it may be added is the answer.
fn bring(alloc: Global, syms: &mut Symbols, decl: &Decl) -> Result<bool, NoMemory>
    ensures added { IfOk result (Steps syms.old syms.new (table_after syms.old decl.now) (MayBring syms.old decl.now)) }
    ensures err { OnErr result (syms.new ≡ syms.old) }
{
    match decl {
        Decl::ListSort {
            name,
            nil,
            cons,
            item,
        } => add_list(syms, name.as_str(), nil.as_str(), cons.as_str(), *item),
        Decl::TupleSort { name, make, parts } => {
            add_tuple(syms, name.as_str(), make.as_str(), parts.as_slice())
        }
        Decl::Fun {
            name,
            args,
            result: value,
        } => bring_fun(alloc, syms, name.as_str(), args.as_slice(), *value),
        Decl::Rel { name, args } => bring_rel(alloc, syms, name.as_str(), args.as_slice()),
        Decl::Order { name, args, .. } => {
            bring_order(alloc, syms, name.as_str(), args.as_slice())
        }
        _ => Ok(true),
    }
}

/// Puts what the declaration brings into the table, or what is looked up of it into the index. Whether
/// it may be put there is the answer.
pub(crate) fn settle(
    alloc: Global,
    syms: &mut Symbols,
    index: &mut Index,
    decl: &Decl,
) -> Result<bool, NoMemory>
    requires { IsNewIn index.old decl.now }
    ensures settled { IfOk result (Settles syms.old syms.new index.old index.new decl.now) }
    ensures err { OnErr result ((syms.new ≡ syms.old) × (index.new ≡ index.old)) }
{
    if is_indexed(decl) {
        index.enter(decl)?;
        return Ok(true);
    }
    bring(alloc, syms, decl)
}
