// A table of symbols once more: each symbol and each sort is a copy.
ghost use Rattle.std.specs.Prelude.{◌≡◌, ◌<◌, ◌^◌, ◌++◌, [], IfOk, OnOk, length};
ghost use Rattle.std.specs.Option.{option_copied};
ghost use Rattle.indexmap.specs.IndexMap.{values};
ghost use Rattle.syn_term.specs.Symbols.{HasDistinctNames};
ghost use Rattle.syn_term.specs.DeclaredSorts.{IsTable};
ghost use Rattle.syn_term.specs.inner.SymbolKeys.{AreSameSizes, HasDistinctKeys, IsKeyed, IsPut};

use crate::memory::NoMemory;
use crate::sorts::{NamedSort, Shape, Sym};
use crate::symbols::{Symbols, enter, make_sym, nth, put, ready};
use crate::text::Text;
use indexmap::IndexMap;
use sqlite_items::Items;
use std::alloc::Global;

fn copy_sym(alloc: Global, sym: &Sym) -> Result<Sym, NoMemory>
    ensures { IfOk result (λ copy. copy ≡ sym.now) }
{
    make_sym(
        alloc,
        sym.name.as_str(),
        sym.kind,
        sym.args.as_slice(),
        sym.result,
    )
}

fn copy_shape(alloc: Global, shape: &Shape) -> Result<Shape, NoMemory>
    ensures { IfOk result (λ copy. copy ≡ shape.now) }
{
    match shape {
        Shape::Nat => Ok(Shape::Nat),
        Shape::List { nil, cons, item } => Ok(Shape::List {
            nil: *nil,
            cons: *cons,
            item: *item,
        }),
        Shape::Tuple { make, parts } => Ok(Shape::Tuple {
            make: *make,
            parts: Items::from_slice(alloc, parts.as_slice())?,
        }),
    }
}

fn copy_sort(alloc: Global, sort: &NamedSort) -> Result<NamedSort, NoMemory>
    ensures { IfOk result (λ copy. copy ≡ sort.now) }
{
    let shape = copy_shape(alloc, &sort.shape)?;
    match Text::from_str(alloc, sort.name.as_str()) {
        Ok(name) => Ok(NamedSort { name, shape }),
        Err(_) => {
            drop(shape);
            Err(NoMemory)
        }
    }
}

fn push_sorts(
    alloc: Global,
    sorts: &[NamedSort],
    copies: &mut Items<NamedSort>,
) -> Result<(), NoMemory>
    requires { copies.old ≡ [] }
    ensures { OnOk result (copies.new ≡ sorts.now) }
{
    for sort in sorts {
        copies.push(copy_sort(alloc, sort)?)?;
    }
    Ok(())
}

fn copy_sorts(alloc: Global, sorts: &[NamedSort]) -> Result<Items<NamedSort>, NoMemory>
    ensures { IfOk result (λ copies. copies ≡ sorts.now) }
{
    let mut copies = Items::new(alloc);
    match push_sorts(alloc, sorts, &mut copies) {
        Ok(()) => Ok(copies),
        Err(error) => {
            drop(copies);
            Err(error)
        }
    }
}

// Puts the size under a copy of the name.
fn put_size(sizes: &mut IndexMap<String, u32>, name: &str, size: u32) -> Result<(), NoMemory>
    ensures is { OnOk result (IsPut name.now size sizes.old.entries sizes.new.entries) }
    ensures few { OnOk result (length sizes.old.entries < 2 ^ 32) }
{
    let (_, key) = ready(sizes, name)?;
    put(sizes, key, size);
    Ok(())
}

// Puts each size of a table into an empty one, under the same name.
fn put_sizes(
    from: &IndexMap<String, u32>,
    sizes: &mut IndexMap<String, u32>,
) -> Result<(), NoMemory>
    requires empty { sizes.old.entries ≡ [] }
    requires distinct { HasDistinctKeys from.now.entries }
    ensures { OnOk result (AreSameSizes from.now.entries sizes.new.entries) }
{
    let mut index = 0;
    while let Some((name, size)) = from.get_index(index) {
        put_size(sizes, name.as_str(), *size)?;
        index += 1;
    }
    Ok(())
}

fn copy_sizes(
    alloc: Global,
    from: &IndexMap<String, u32>,
) -> Result<IndexMap<String, u32>, NoMemory>
    requires { HasDistinctKeys from.now.entries }
    ensures { IfOk result (λ copy. AreSameSizes from.now.entries copy.entries) }
{
    let mut sizes = IndexMap::new(alloc);
    match put_sizes(from, &mut sizes) {
        Ok(()) => Ok(sizes),
        Err(error) => {
            drop(sizes);
            Err(error)
        }
    }
}

// The declared sorts and the sizes of their default terms.
fn copy_tables(
    alloc: Global,
    sorts: &[NamedSort],
    sizes: &IndexMap<String, u32>,
) -> Result<(Items<NamedSort>, IndexMap<String, u32>), NoMemory>
    requires { HasDistinctKeys sizes.now.entries }
    ensures { IfOk result (λ copy. (copy.0 ≡ sorts.now) × AreSameSizes sizes.now.entries copy.1.entries) }
{
    let sizes = copy_sizes(alloc, sizes)?;
    match copy_sorts(alloc, sorts) {
        Ok(sorts) => Ok((sorts, sizes)),
        Err(error) => {
            drop(sizes);
            Err(error)
        }
    }
}

// Enters copies of the symbols into an empty hash table.
fn enter_all(
    alloc: Global,
    from: &IndexMap<String, Sym>,
    by_name: &mut IndexMap<String, Sym>,
) -> Result<(), NoMemory>
    requires empty { by_name.old.entries ≡ [] }
    requires distinct { HasDistinctNames (record { syms = values from.now; sorts = [] }) }
    ensures { OnOk result (IsKeyed by_name.new.entries × (values by_name.new ≡ values from.now)) }
{
    let mut index = 0;
    while let Some(sym) = nth(from, index) {
        enter(by_name, copy_sym(alloc, sym)?)?;
        index += 1;
    }
    Ok(())
}

fn copy_symbols(
    alloc: Global,
    from: &IndexMap<String, Sym>,
) -> Result<IndexMap<String, Sym>, NoMemory>
    requires { HasDistinctNames (record { syms = values from.now; sorts = [] }) }
    ensures { IfOk result (λ copy. IsKeyed copy.entries × (values copy ≡ values from.now)) }
{
    let mut by_name = IndexMap::new(alloc);
    match enter_all(alloc, from, &mut by_name) {
        Ok(()) => Ok(by_name),
        Err(error) => {
            drop(by_name);
            Err(error)
        }
    }
}

impl Symbols {
    /// The same table once more.
    pub fn copy(&self, alloc: Global) -> Result<Symbols, NoMemory>
        ensures same { IfOk result (λ copy. copy ≡ self.now) }
        ensures table { IfOk result IsTable }
    {
        let by_name = copy_symbols(alloc, &self.by_name)?;
        match copy_tables(alloc, self.sorts.as_slice(), &self.sizes) {
            Ok((sorts, sizes)) => Ok(Symbols {
                by_name,
                sorts,
                sizes,
                nat: Shape::Nat,
            }),
            Err(error) => {
                drop(by_name);
                Err(error)
            }
        }
    }
}
