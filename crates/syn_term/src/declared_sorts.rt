// The declared sorts of a table. A sort comes with the symbols that make its values, under names
// that nothing else has.
ghost use Rattle.std.specs.Prelude.{◌≡◌, ◌≢◌, ◌↔◌, ◌+◌, ◌-◌, ◌<◌, ◌≤◌, ◌^◌, min, [], ◌∷◌, ◌++◌, IsTrue, Some, IfNone, IfOk, OnOk, OnErr, MatchOption, length, map, position, string_bytes};
ghost use Rattle.std.specs.List.{sum_by};
ghost use Rattle.std.specs.Option.{option_copied};
ghost use Rattle.std.specs.String.{string_eq};
ghost use Rattle.indexmap.specs.IndexMap.{insert_entry, spare, values};
ghost use Rattle.syn_term.specs.declared.sorts.Kind.TheVariants.{Cons, Nil, Tuple};
ghost use Rattle.syn_term.specs.declared.sorts.Shape.TheVariants as shapes;
ghost use Rattle.syn_term.specs.Names.{IsName};
ghost use Rattle.syn_term.specs.Symbols.{IsTaken, IsPrefix, with_symbol};
ghost use Rattle.syn_term.specs.DeclaredSorts.{IsTable, MayAddList, MayAddTuple, cons_symbol, default_size, default_sizes, name_of_sort, list_sort, next_sort, next_symbol, nil_symbol, shape_of_sort, shape_size, size_in, sort_named, tuple_sort, with_list, with_sort, with_tuple};

use crate::memory::NoMemory;
use crate::names::is_name;
use crate::sorts::{Kind, NamedSort, Shape, Sort, Sym, SymId};
use crate::symbols::{Symbols, are_sorts, is_sort, make_sym, nth, put};
use crate::text::Text;
use indexmap::IndexMap;
use sqlite_items::{Items, at};
use std::alloc::Global;

const NAT: &str = "nat";

// The most nodes that the default term of a tuple sort may have.
const MOST_NODES: u32 = 64;

// The least and the greatest number of parts of a tuple.
const LEAST_PARTS: usize = 2;

const MOST_PARTS: usize = 4;

// The number of nodes of the sort's default term.
fn size_of(sizes: &IndexMap<String, u32>, sort: Sort) -> u32
    ensures { result ≡ size_in (values sizes.now) sort }
{
    match sort {
        Sort::Nat => 1,
        Sort::Named(number) => match nth(sizes, number as usize) {
            None => 0,
            Some(size) => *size,
        },
    }
}

// The same for the sort of tuples with these parts. The sum stays at its last value.
fn tuple_size(sizes: &IndexMap<String, u32>, parts: &[Sort]) -> u32
    ensures { result ≡ min (1 + sum_by (size_in (values sizes.now)) parts.now) (2 ^ 32 - 1) }
{
    let mut total = 1u32;
    for part in parts {
        total = total.saturating_add(size_of(sizes, *part));
    }
    total
}

fn are_few(parts: &[Sort]) -> bool
    ensures { IsTrue result ↔ ((2 ≤ length parts.now) × (length parts.now ≤ 4)) }
{
    LEAST_PARTS <= parts.len() && parts.len() <= MOST_PARTS
}

fn differ(name: &str, nil: &str, cons: &str) -> bool
    ensures { IsTrue result ↔ ((name.now ≢ nil.now) × (name.now ≢ cons.now) × (nil.now ≢ cons.now)) }
{
    name != nil && name != cons && nil != cons
}

// A symbol, and the key that it stands under in the hash table, which is its name once more.
fn keyed(
    alloc: Global,
    name: &str,
    kind: Kind,
    args: &[Sort],
    sort: Sort,
) -> Result<(String, Sym), NoMemory>
    ensures { IfOk result (λ made. (string_bytes made.0 ≡ name.now) × (made.1 ≡ record { name = name.now; kind = kind; args = args.now; result = Some sort })) }
{
    let sym = make_sym(alloc, name, kind, args, Some(sort))?;
    match String::from_str(alloc, name) {
        Ok(key) => Ok((key, sym)),
        Err(_) => {
            drop(sym);
            Err(NoMemory)
        }
    }
}

// A sort, and the key that the size of its default term stands under, which is its name once more.
fn keyed_sort(alloc: Global, name: &str, shape: Shape) -> Result<(String, NamedSort), NoMemory>
    ensures { IfOk result (λ made. (string_bytes made.0 ≡ name.now) × (made.1 ≡ record { name = name.now; shape = shape })) }
{
    match named(alloc, name, shape) {
        Err(error) => Err(error),
        Ok(sort) => match String::from_str(alloc, name) {
            Ok(key) => Ok((key, sort)),
            Err(_) => {
                drop(sort);
                Err(NoMemory)
            }
        },
    }
}

fn named(alloc: Global, name: &str, shape: Shape) -> Result<NamedSort, NoMemory>
    ensures { IfOk result (λ sort. sort ≡ record { name = name.now; shape = shape }) }
{
    match Text::from_str(alloc, name) {
        Ok(name) => Ok(NamedSort { name, shape }),
        Err(_) => {
            drop(shape);
            Err(NoMemory)
        }
    }
}

// The sort of lists with these items and symbols.
fn keyed_list(
    alloc: Global,
    name: &str,
    nil: SymId,
    cons: SymId,
    item: Sort,
) -> Result<(String, NamedSort), NoMemory>
    ensures { IfOk result (λ made. (string_bytes made.0 ≡ name.now) × (made.1 ≡ record { name = name.now; shape = shapes.List nil cons item })) }
{
    keyed_sort(alloc, name, Shape::List { nil, cons, item })
}

// The sort of tuples with these parts.
fn keyed_tuple(
    alloc: Global,
    name: &str,
    make: SymId,
    parts: &[Sort],
) -> Result<(String, NamedSort), NoMemory>
    ensures { IfOk result (λ made. (string_bytes made.0 ≡ name.now) × (made.1 ≡ record { name = name.now; shape = shapes.Tuple make parts.now })) }
{
    let parts = Items::from_slice(alloc, parts)?;
    keyed_sort(alloc, name, Shape::Tuple { make, parts })
}

// The same and the symbol that makes its values.
fn made_tuple(
    alloc: Global,
    name: &str,
    make: &str,
    parts: &[Sort],
    next: (Sort, SymId, SymId),
) -> Result<((String, NamedSort), (String, Sym)), NoMemory>
    ensures sort { IfOk result (λ made. (string_bytes made.0.0 ≡ name.now) × (made.0.1 ≡ record { name = name.now; shape = shapes.Tuple next.1 parts.now })) }
    ensures make { IfOk result (λ made. (string_bytes made.1.0 ≡ make.now) × (made.1.1 ≡ record { name = make.now; kind = Tuple; args = parts.now; result = Some next.0 })) }
{
    let named = keyed_tuple(alloc, name, next.1, parts)?;
    match keyed(alloc, make, Kind::Tuple, parts, next.0) {
        Ok(make) => Ok((named, make)),
        Err(error) => {
            drop(named);
            Err(error)
        }
    }
}

// The two symbols of a list sort.
fn keyed_makers(
    alloc: Global,
    nil: &str,
    cons: &str,
    item: Sort,
    sort: Sort,
) -> Result<((String, Sym), (String, Sym)), NoMemory>
    ensures nil { IfOk result (λ made. (string_bytes made.0.0 ≡ nil.now) × (made.0.1 ≡ record { name = nil.now; kind = Nil; args = []; result = Some sort })) }
    ensures cons { IfOk result (λ made. (string_bytes made.1.0 ≡ cons.now) × (made.1.1 ≡ record { name = cons.now; kind = Cons; args = item ∷ sort ∷ []; result = Some sort })) }
{
    let nil = keyed(alloc, nil, Kind::Nil, &[], sort)?;
    match keyed(alloc, cons, Kind::Cons, &[item, sort], sort) {
        Ok(cons) => Ok((nil, cons)),
        Err(error) => {
            drop(nil);
            Err(error)
        }
    }
}

// The list sort and its two symbols.
fn made_list(
    alloc: Global,
    name: &str,
    nil: &str,
    cons: &str,
    item: Sort,
    next: (Sort, SymId, SymId),
) -> Result<((String, NamedSort), ((String, Sym), (String, Sym))), NoMemory>
    ensures sort { IfOk result (λ made. (string_bytes made.0.0 ≡ name.now) × (made.0.1 ≡ record { name = name.now; shape = shapes.List next.1 next.2 item })) }
    ensures nil { IfOk result (λ made. (string_bytes made.1.0.0 ≡ nil.now) × (made.1.0.1 ≡ record { name = nil.now; kind = Nil; args = []; result = Some next.0 })) }
    ensures cons { IfOk result (λ made. (string_bytes made.1.1.0 ≡ cons.now) × (made.1.1.1 ≡ record { name = cons.now; kind = Cons; args = item ∷ next.0 ∷ []; result = Some next.0 })) }
{
    let named = keyed_list(alloc, name, next.1, next.2, item)?;
    match keyed_makers(alloc, nil, cons, item, next.0) {
        Ok(makers) => Ok((named, makers)),
        Err(error) => {
            drop(named);
            Err(error)
        }
    }
}

// Puts the sort after the others and the size under its name, or leaves both as they were.
fn push_sort(
    sorts: &mut Items<NamedSort>,
    sizes: &mut IndexMap<String, u32>,
    sort: (String, NamedSort),
    size: u32,
) -> Result<(), NoMemory>
    ensures sorts { OnOk result (sorts.new ≡ sorts.old ++ sort.1 ∷ []) }
    ensures sizes { OnOk result (sizes.new.entries ≡ insert_entry string_eq sizes.old.entries sort.0 size) }
    ensures err_sorts { OnErr result (sorts.new ≡ sorts.old) }
    ensures err_sizes { OnErr result (sizes.new.entries ≡ sizes.old.entries) }
{
    if sizes.reserve(1).is_err() {
        drop(sort);
        return Err(NoMemory);
    }
    let (key, sort) = sort;
    if sorts.push(sort).is_err() {
        drop(key);
        return Err(NoMemory);
    }
    put(sizes, key, size);
    Ok(())
}

// The same where there is to be room for so many symbols more.
fn push_room(
    by_name: &mut IndexMap<String, Sym>,
    count: usize,
    sorts: &mut Items<NamedSort>,
    sizes: &mut IndexMap<String, u32>,
    sort: (String, NamedSort),
    size: u32,
) -> Result<(), NoMemory>
    ensures entries { by_name.new.entries ≡ by_name.old.entries }
    ensures room { OnOk result (count ≤ spare by_name.new) }
    ensures sorts { OnOk result (sorts.new ≡ sorts.old ++ sort.1 ∷ []) }
    ensures sizes { OnOk result (sizes.new.entries ≡ insert_entry string_eq sizes.old.entries sort.0 size) }
    ensures err_sorts { OnErr result (sorts.new ≡ sorts.old) }
    ensures err_sizes { OnErr result (sizes.new.entries ≡ sizes.old.entries) }
{
    if by_name.reserve(count).is_err() {
        drop(sort);
        return Err(NoMemory);
    }
    push_sort(sorts, sizes, sort, size)
}

// Puts a symbol under its key, where there is room.
fn put_keyed(by_name: &mut IndexMap<String, Sym>, made: (String, Sym))
    requires { 0 < spare by_name.old }
    ensures entries { by_name.new.entries ≡ insert_entry string_eq by_name.old.entries made.0 made.1 }
    ensures room { spare by_name.old ≤ spare by_name.new + 1 }
{
    let (key, sym) = made;
    put(by_name, key, sym);
}

impl Symbols {
    fn is_free(&self, name: &str) -> bool
        ensures free { IsTrue result ↔ (IsName name.now × ¬ (IsTaken self.now name.now)) }
        ensures table { IsTable self.now }
    {
        !self.is_taken(name) && is_name(name)
    }

    // The numbers of the next sort and of the next two symbols. NoMemory: there is no number left.
    fn next(&self) -> Result<(Sort, SymId, SymId), NoMemory>
        ensures sort { IfOk result (λ next. (next.0 ≡ next_sort self.now) × (length self.now.sorts < 2 ^ 32)) }
        ensures symbols { IfOk result (λ next. (next.1 ≡ next_symbol self.now 0) × (next.2 ≡ next_symbol self.now 1) × (length self.now.syms + 1 < 2 ^ 32)) }
    {
        let Ok(sort) = u32::try_from(self.sorts.len()) else {
            return Err(NoMemory);
        };
        let Ok(first) = u32::try_from(self.by_name.len()) else {
            return Err(NoMemory);
        };
        let Some(second) = first.checked_add(1) else {
            return Err(NoMemory);
        };
        Ok((Sort::Named(sort), SymId(first), SymId(second)))
    }

    // Declares the sort and adds the one symbol that makes its values. Room is made first, so that
    // nothing is left half done where memory is refused.
    fn push_one(
        &mut self,
        sort: (String, NamedSort),
        size: u32,
        make: (String, Sym),
    ) -> Result<(), NoMemory>
        requires sort { string_bytes sort.0 ≡ sort.1.name }
        requires own { string_bytes make.0 ≡ make.1.name }
        requires table { IsTable (with_symbol (with_sort self.old sort.1) make.1) }
        requires sized { size ≡ shape_size (default_sizes self.old.sorts) sort.1.shape }
        requires few { (length self.old.sorts < 2 ^ 32) × (length self.old.syms + 1 < 2 ^ 32) }
        ensures ok { OnOk result (self.new ≡ with_symbol (with_sort self.old sort.1) make.1) }
        ensures err { OnErr result (self.new ≡ self.old) }
        ensures table { IsTable self.new }
    {
        match push_room(
            &mut self.by_name,
            1,
            &mut self.sorts,
            &mut self.sizes,
            sort,
            size,
        ) {
            Ok(()) => {
                put_keyed(&mut self.by_name, make);
                Ok(())
            }
            Err(error) => {
                drop(make);
                Err(error)
            }
        }
    }

    // The same with two symbols.
    fn push_two(
        &mut self,
        sort: (String, NamedSort),
        size: u32,
        nil: (String, Sym),
        cons: (String, Sym),
    ) -> Result<(), NoMemory>
        requires sort { string_bytes sort.0 ≡ sort.1.name }
        requires own { (string_bytes nil.0 ≡ nil.1.name) × (string_bytes cons.0 ≡ cons.1.name) }
        requires table { IsTable (with_symbol (with_symbol (with_sort self.old sort.1) nil.1) cons.1) }
        requires sized { size ≡ shape_size (default_sizes self.old.sorts) sort.1.shape }
        requires few { (length self.old.sorts < 2 ^ 32) × (length self.old.syms + 1 < 2 ^ 32) }
        ensures ok { OnOk result (self.new ≡ with_symbol (with_symbol (with_sort self.old sort.1) nil.1) cons.1) }
        ensures err { OnErr result (self.new ≡ self.old) }
        ensures table { IsTable self.new }
    {
        match push_room(
            &mut self.by_name,
            2,
            &mut self.sorts,
            &mut self.sizes,
            sort,
            size,
        ) {
            Ok(()) => {
                put_keyed(&mut self.by_name, nil);
                put_keyed(&mut self.by_name, cons);
                Ok(())
            }
            Err(error) => {
                drop(nil);
                drop(cons);
                Err(error)
            }
        }
    }

    fn may_add_list(&self, name: &str, nil: &str, cons: &str, item: Sort) -> bool
        ensures allowed { IsTrue result ↔ MayAddList self.now name.now nil.now cons.now item }
        ensures table { IsTable self.now }
    {
        self.is_free(name)
            && self.is_free(nil)
            && self.is_free(cons)
            && differ(name, nil, cons)
            && is_sort(self.sorts.len(), item)
    }

    fn push_list(&mut self, name: &str, nil: &str, cons: &str, item: Sort) -> Result<Sort, NoMemory>
        requires { MayAddList self.old name.now nil.now cons.now item }
        ensures ok { IfOk result (λ sort. (sort ≡ next_sort self.old) × (self.new ≡ with_list self.old name.now nil.now cons.now item)) }
        ensures err { OnErr result (self.new ≡ self.old) }
        ensures table { IsTable self.new }
    {
        let alloc = *self.by_name.allocator();
        let next = self.next()?;
        let (named, (nil, cons)) = made_list(alloc, name, nil, cons, item, next)?;
        self.push_two(named, 1, nil, cons)?;
        Ok(next.0)
    }

    /// Declares the sort of lists `name = nil | cons(item, name)`, adds its two symbols after the
    /// others, `nil` first, and gives the sort. None: it may not be declared, since one of the three
    /// names is no name, is taken or is given twice, or the items' sort is not there; the table is
    /// then as it was. NoMemory: memory was refused; the table is then as it was too. That numbers
    /// run out, at 2^32 sorts or symbols, can't be reached: a file has at most 4,194,304 bytes, and
    /// each declaration takes at least one.
    #[tactic(auto, using(crate::proofs::SymbolLaws::growth))]
    pub fn add_list(
        &mut self,
        name: &str,
        nil: &str,
        cons: &str,
        item: Sort,
    ) -> Result<Option<Sort>, NoMemory>
        ensures added { IfOk result (λ o. MatchOption o (¬ (MayAddList self.old name.now nil.now cons.now item)) (λ sort. MayAddList self.old name.now nil.now cons.now item × (sort ≡ next_sort self.old) × (self.new ≡ with_list self.old name.now nil.now cons.now item))) }
        ensures kept { IfOk result (λ o. IfNone o (self.new ≡ self.old)) }
        ensures err { OnErr result (self.new ≡ self.old) }
        ensures extends { IsPrefix self.old self.new }
        ensures table { IsTable self.new }
    {
        if !self.may_add_list(name, nil, cons, item) {
            return Ok(None);
        }
        let sort = self.push_list(name, nil, cons, item)?;
        Ok(Some(sort))
    }

    fn is_small(&self, parts: &[Sort]) -> bool
        ensures { IsTrue result ↔ (1 + sum_by (default_size self.now) parts.now ≤ 64) }
    {
        tuple_size(&self.sizes, parts) <= MOST_NODES
    }

    fn may_add_tuple(&self, name: &str, make: &str, parts: &[Sort]) -> bool
        ensures allowed { IsTrue result ↔ MayAddTuple self.now name.now make.now parts.now }
        ensures table { IsTable self.now }
    {
        self.is_free(name)
            && self.is_free(make)
            && name != make
            && are_few(parts)
            && are_sorts(self.sorts.len(), parts)
            && self.is_small(parts)
    }

    fn push_tuple(&mut self, name: &str, make: &str, parts: &[Sort]) -> Result<Sort, NoMemory>
        requires { MayAddTuple self.old name.now make.now parts.now }
        ensures ok { IfOk result (λ sort. (sort ≡ next_sort self.old) × (self.new ≡ with_tuple self.old name.now make.now parts.now)) }
        ensures err { OnErr result (self.new ≡ self.old) }
        ensures table { IsTable self.new }
    {
        let alloc = *self.by_name.allocator();
        let next = self.next()?;
        let size = tuple_size(&self.sizes, parts);
        let (named, make) = made_tuple(alloc, name, make, parts, next)?;
        self.push_one(named, size, make)?;
        Ok(next.0)
    }

    /// Declares the sort of tuples `name = make(parts..)`, adds its symbol after the others and gives
    /// the sort. None: it may not be declared, since one of the two names is no name, is taken or is
    /// given twice, the parts are not two to four, the sort of one is not there, or the default term
    /// of the new sort has more than 64 nodes; the table is then as it was. NoMemory: as for
    /// `add_list`.
    ///
    /// A default term is `0` for the natural numbers, the empty list for a list sort, and the tuple of
    /// its parts' default terms for a tuple sort.
    #[tactic(auto, using(crate::proofs::SymbolLaws::growth))]
    pub fn add_tuple(
        &mut self,
        name: &str,
        make: &str,
        parts: &[Sort],
    ) -> Result<Option<Sort>, NoMemory>
        ensures added { IfOk result (λ o. MatchOption o (¬ (MayAddTuple self.old name.now make.now parts.now)) (λ sort. MayAddTuple self.old name.now make.now parts.now × (sort ≡ next_sort self.old) × (self.new ≡ with_tuple self.old name.now make.now parts.now))) }
        ensures kept { IfOk result (λ o. IfNone o (self.new ≡ self.old)) }
        ensures err { OnErr result (self.new ≡ self.old) }
        ensures extends { IsPrefix self.old self.new }
        ensures table { IsTable self.new }
    {
        if !self.may_add_tuple(name, make, parts) {
            return Ok(None);
        }
        let sort = self.push_tuple(name, make, parts)?;
        Ok(Some(sort))
    }

    /// The sort with this name: `nat` for the natural numbers, or that of a declared sort. None: no
    /// sort has it.
    pub fn find_sort(&self, name: &str) -> Option<Sort>
        ensures place { result ≡ sort_named self.now name.now }
        ensures named { MatchOption result ((sort : Sort) → name_of_sort self.now sort ≢ Some name.now) (λ sort. name_of_sort self.now sort ≡ Some name.now) }
        ensures table { IsTable self.now }
    {
        let place = self.place_of_sort(name);
        if name == NAT {
            return Some(Sort::Nat);
        }
        match place {
            None => None,
            Some(place) => Some(Sort::Named(place as u32)),
        }
    }

    /// How the values of the sort are built. None: the table has no such sort.
    pub fn shape(&self, sort: Sort) -> Option<&Shape>
        ensures shape { option_copied result ≡ shape_of_sort self.now sort }
        ensures table { IsTable self.now }
    {
        match sort {
            Sort::Nat => Some(&self.nat),
            Sort::Named(number) => match at(self.sorts.as_slice(), number as usize) {
                None => None,
                Some(sort) => Some(&sort.shape),
            },
        }
    }

    /// The name of the sort, which is `nat` for the natural numbers. None: the table has no such
    /// sort.
    pub fn sort_name(&self, sort: Sort) -> Option<&str>
        ensures name { option_copied result ≡ name_of_sort self.now sort }
        ensures table { IsTable self.now }
    {
        match sort {
            Sort::Nat => Some(NAT),
            Sort::Named(number) => match at(self.sorts.as_slice(), number as usize) {
                None => None,
                Some(sort) => Some(sort.name.as_str()),
            },
        }
    }
}
