// The table of symbols. A symbol is found by its name in a hash table and by its number in order, and
// so is a declared sort; a symbol is added only where every test passes, so that a table stays one, and
// what it says of a symbol never changes.
ghost use Rattle.std.specs.Prelude.{◌≡◌, ◌↔◌, ◌+◌, ◌<◌, ◌≤◌, ◌^◌, ◌∷◌, string_bytes, ℕ, IsTrue, Some, IfSome, IfNone, IfOk, OnOk, OnErr, MatchOption, Contains, All, Any, [], slice_get, length, map, position};
ghost use Rattle.std.specs.Option.{option_copied, option_map};
ghost use Rattle.std.specs.Str.{bytes_eq};
ghost use Rattle.std.specs.String.{string_eq};
ghost use Rattle.indexmap.specs.IndexMap.{insert_entry, spare, values};
ghost use Rattle.syn_term.specs.declared.sorts.Kind.TheVariants.{Input};
ghost use Rattle.syn_term.specs.Symbols.{SymbolTable, IsTaken, IsSortBelow, FitsName, FitsResult, IsAddable, FitsKind, MayAdd, IsPrefix, zero_symbol, succ_symbol, first_symbols, with_symbol, symbol_at, names_of};
ghost use Rattle.syn_term.specs.DeclaredSorts.{IsTable};
ghost use Rattle.syn_term.specs.inner.SymbolKeys.{IsEntered, IsKeyed};

use crate::memory::NoMemory;
use crate::names::{is_name, is_skolem_name};
use crate::sorts::{Kind, NamedSort, Shape, Sort, Sym, SymId};
use crate::text::Text;
use indexmap::IndexMap;
use sqlite_items::Items;
use std::alloc::Global;
use std::marker::Model;

fn fits_name(kind: Kind, name: &str) -> bool
    ensures { IsTrue result ↔ FitsName kind name.now }
{
    match kind {
        Kind::Skolem => is_skolem_name(name),
        _ => is_name(name),
    }
}

fn is_addable(kind: Kind) -> bool
    ensures { IsTrue result ↔ IsAddable kind }
{
    match kind {
        Kind::Zero | Kind::Succ | Kind::Nil | Kind::Cons | Kind::Tuple => false,
        _ => true,
    }
}

fn fits_result(kind: Kind, sort: Option<Sort>) -> bool
    ensures { IsTrue result ↔ FitsResult kind sort }
{
    match kind {
        Kind::Rel | Kind::Order => sort.is_none(),
        _ => sort.is_some(),
    }
}

fn fits_input(kind: Kind, args: &[Sort]) -> bool
    ensures { IsTrue result ↔ (kind ≡ Input → args.now ≡ []) }
{
    match kind {
        Kind::Input => args.is_empty(),
        _ => true,
    }
}

fn fits_kind(sym: &Sym) -> bool
    ensures { IsTrue result ↔ FitsKind sym.now }
{
    is_addable(sym.kind)
        && fits_name(sym.kind, sym.name.as_str())
        && fits_result(sym.kind, sym.result)
        && fits_input(sym.kind, sym.args.as_slice())
}

// A sort is a number below the count of the declared ones, so the count alone decides.
pub(crate) fn is_sort(count: usize, sort: Sort) -> bool
    ensures { IsTrue result ↔ IsSortBelow count sort }
{
    match sort {
        Sort::Nat => true,
        Sort::Named(number) => (number as usize) < count,
    }
}

pub(crate) fn are_sorts(count: usize, sorts: &[Sort]) -> bool
    ensures { IsTrue result ↔ All (IsSortBelow count) sorts.now }
{
    sorts.iter().all(|sort| is_sort(count, *sort))
}

fn is_result(count: usize, sort: Option<Sort>) -> bool
    ensures { IsTrue result ↔ IfSome sort (IsSortBelow count) }
{
    match sort {
        None => true,
        Some(sort) => is_sort(count, sort),
    }
}

// The symbol, each of its parts a copy.
pub(crate) fn make_sym(
    alloc: Global,
    name: &str,
    kind: Kind,
    args: &[Sort],
    value: Option<Sort>,
) -> Result<Sym, NoMemory>
    ensures { IfOk result (λ sym. sym ≡ record { name = name.now; kind = kind; args = args.now; result = value }) }
{
    let args = Items::from_slice(alloc, args)?;
    match Text::from_str(alloc, name) {
        Ok(name) => Ok(Sym {
            name,
            kind,
            args,
            result: value,
        }),
        Err(_) => {
            drop(args);
            Err(NoMemory)
        }
    }
}

// The number of what is put next, and a copy of the name as the key that it will stand under; there is
// room for it then.
pub(crate) fn ready<V>(
    table: &mut IndexMap<String, V>,
    name: &str,
) -> Result<(u32, String), NoMemory>
    ensures entries { table.new.entries ≡ table.old.entries }
    ensures room { OnOk result (0 < spare table.new) }
    ensures number { IfOk result (λ made. made.0 ≡ length table.old.entries) }
    ensures own { IfOk result (λ made. string_bytes made.1 ≡ name.now) }
{
    let Ok(number) = u32::try_from(table.len()) else {
        return Err(NoMemory);
    };
    table.reserve(1)?;
    Ok((number, String::from_str(*table.allocator(), name)?))
}

// Puts the value under the key, where there is room: this takes no memory.
pub(crate) fn put<V: Drop>(table: &mut IndexMap<String, V>, key: String, value: V)
    requires { 0 < spare table.old }
    ensures entries { table.new.entries ≡ insert_entry string_eq table.old.entries key value }
    ensures room { spare table.old ≤ spare table.new + 1 }
{
    drop(table.insert(key, value));
}

// Enters the symbol under its name and gives its number, or leaves the hash table as it was.
pub(crate) fn enter(by_name: &mut IndexMap<String, Sym>, sym: Sym) -> Result<SymId, NoMemory>
    ensures ok { OnOk result (IsEntered sym by_name.old.entries by_name.new.entries) }
    ensures number { IfOk result (λ id. (id.0 ≡ length by_name.old.entries) × (length by_name.old.entries < 2 ^ 32)) }
    ensures err { OnErr result (by_name.new.entries ≡ by_name.old.entries) }
{
    match ready(by_name, sym.name.as_str()) {
        Ok((number, key)) => {
            put(by_name, key, sym);
            Ok(SymId(number))
        }
        Err(error) => {
            drop(sym);
            Err(error)
        }
    }
}

// The value that was put so many after the first.
pub(crate) fn nth<V>(table: &IndexMap<String, V>, index: usize) -> Option<&V>
    ensures { option_copied result ≡ slice_get (values table.now) index }
{
    match table.get_index(index) {
        None => None,
        Some((_, value)) => Some(value),
    }
}

// Enters `0` and `s` into a hash table that is empty.
fn enter_first(alloc: Global, by_name: &mut IndexMap<String, Sym>) -> Result<(), NoMemory>
    requires { by_name.old.entries ≡ [] }
    ensures { OnOk result (IsKeyed by_name.new.entries × (values by_name.new ≡ zero_symbol ∷ succ_symbol ∷ [])) }
{
    let nat = Some(Sort::Nat);
    enter(by_name, make_sym(alloc, "0", Kind::Zero, &[], nat)?)?;
    enter(
        by_name,
        make_sym(alloc, "s", Kind::Succ, &[Sort::Nat], nat)?,
    )?;
    Ok(())
}

/// The symbols of a problem, each with a name of its own and a number in the order in which they
/// came, and the declared sorts. Contracts see it as its two lists.
pub struct Symbols {
    pub(crate) by_name: IndexMap<String, Sym>,
    pub(crate) sorts: Items<NamedSort>,
    // The number of nodes of each declared sort's default term, under the sort's name.
    pub(crate) sizes: IndexMap<String, u32>,
    // How numbers are built, to be lent.
    pub(crate) nat: Shape,
}

impl Drop for Symbols {
    fn drop(self) {
        let Symbols {
            by_name: _,
            sorts: _,
            sizes: _,
            nat: _,
        } = self;
    }
}

impl Model for Symbols {
    ghost use Rattle.indexmap.specs.IndexMap.{values};
    ghost use Rattle.syn_term.specs.Symbols.{SymbolTable};
    ghost use Rattle.syn_term.specs.inner.SymbolKeys.{IsIndexed};

    ghost Value = { SymbolTable };

    ghost view = { λ table. record { syms = values table.by_name; sorts = table.sorts } };

    ghost invariant = { λ table. IsIndexed table.by_name.entries table.sorts table.sizes.entries table.nat };
}

impl Symbols {
    /// The table of zero, which is written `0`, and the successor, which is written `s`.
    pub fn new(alloc: Global) -> Result<Symbols, NoMemory>
        ensures first { IfOk result (λ table. table ≡ first_symbols) }
        ensures table { IfOk result IsTable }
    {
        let mut by_name = IndexMap::new(alloc);
        match enter_first(alloc, &mut by_name) {
            Ok(()) => Ok(Symbols {
                by_name,
                sorts: Items::new(alloc),
                sizes: IndexMap::new(alloc),
                nat: Shape::Nat,
            }),
            Err(error) => {
                drop(by_name);
                Err(error)
            }
        }
    }

    // The name is copied, since the hash table owns its keys and the symbol its name.
    fn push(&mut self, sym: Sym) -> Result<SymId, NoMemory>
        requires { IsTable (with_symbol self.old sym) }
        ensures ok { IfOk result (λ id. (id.0 ≡ length self.old.syms) × (self.new ≡ with_symbol self.old sym)) }
        ensures err { OnErr result (self.new ≡ self.old) }
        ensures table { IsTable self.new }
    {
        let id = enter(&mut self.by_name, sym)?;
        Ok(id)
    }

    // The place of the declared sort with this name.
    pub(crate) fn place_of_sort(&self, name: &str) -> Option<usize>
        ensures place { result ≡ position (bytes_eq name.now) (map (λ sort. sort.name) self.now.sorts) }
        ensures few { IfSome result (λ place. place < 2 ^ 32) }
        ensures named { MatchOption result (¬ (Any (λ sort. sort.name ≡ name.now) self.now.sorts)) (λ _. Any (λ sort. sort.name ≡ name.now) self.now.sorts) }
        ensures table { IsTable self.now }
    {
        self.sizes.get_index_of(name)
    }

    pub(crate) fn is_taken(&self, name: &str) -> bool
        ensures taken { IsTrue result ↔ IsTaken self.now name.now }
        ensures table { IsTable self.now }
    {
        self.find(name).is_some() || self.place_of_sort(name).is_some()
    }

    fn may_add(&self, sym: &Sym) -> bool
        ensures allowed { IsTrue result ↔ MayAdd self.now sym.now }
        ensures table { IsTable self.now }
    {
        let count = self.sorts.len();
        !self.is_taken(sym.name.as_str())
            && are_sorts(count, sym.args.as_slice())
            && is_result(count, sym.result)
            && fits_kind(sym)
    }

    /// Adds a symbol after the others and gives its number. None: it may not be added, since its
    /// name is taken or not of the form that its kind asks for, a sort is not there, the kind is
    /// not one that is added, an input has arguments, or a result is there or missing against the
    /// kind; the table is then as it was. NoMemory: memory was refused; the table is then as it was
    /// too. That numbers run out, at 2^32 symbols, can't be reached: a file has at most 4,194,304
    /// bytes, and each declaration takes at least one.
    #[tactic(auto, using(crate::proofs::SymbolLaws::growth, crate::proofs::TableLaws::table_added))]
    pub fn add(&mut self, sym: Sym) -> Result<Option<SymId>, NoMemory>
        ensures added { IfOk result (λ o. MatchOption o (¬ (MayAdd self.old sym)) (λ id. MayAdd self.old sym × (id.0 ≡ length self.old.syms) × (self.new ≡ with_symbol self.old sym))) }
        ensures kept { IfOk result (λ o. IfNone o (self.new ≡ self.old)) }
        ensures err { OnErr result (self.new ≡ self.old) }
        ensures extends { IsPrefix self.old self.new }
        ensures table { IsTable self.new }
    {
        if !self.may_add(&sym) {
            return Ok(None);
        }
        let id = self.push(sym)?;
        Ok(Some(id))
    }

    /// The number of the symbol with this name. None: no symbol has it.
    pub fn find(&self, name: &str) -> Option<SymId>
        ensures place { option_map (λ id. id.0) result ≡ position (bytes_eq name.now) (names_of self.now) }
        ensures named { MatchOption result (¬ (Contains (names_of self.now) name.now)) (λ id. slice_get (names_of self.now) id.0 ≡ Some name.now) }
        ensures table { IsTable self.now }
    {
        match self.by_name.get_index_of(name) {
            None => None,
            Some(index) => Some(SymId(index as u32)),
        }
    }

    /// The symbol with this number. None: the table has no such number.
    pub fn get(&self, id: SymId) -> Option<&Sym>
        ensures symbol { option_copied result ≡ symbol_at self.now id }
        ensures table { IsTable self.now }
    {
        nth(&self.by_name, id.0 as usize)
    }
}
