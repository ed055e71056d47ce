// What is looked up among the declarations of a theory, found by hash: so that no declaration walks the
// others.
ghost use Rattle.std.specs.Prelude.{◌≡◌, ◌↔◌, ◌<◌, ◌++◌, ◌∷◌, [], Contains, IfOk, IsTrue, OnErr, OnOk};
ghost use Rattle.indexmap.specs.IndexSet.{spare};
ghost use Rattle.syn_model.specs.Declaring.{IsTheory};
ghost use Rattle.syn_model.specs.inner.Hashing.{texts};
ghost use Rattle.syn_model.specs.inner.Indexing as indexing;
ghost use Rattle.syn_model.specs.inner.Indexing.{IsNewIn, index_after, index_of, row_key};

use crate::decl::Decl;
use crate::hashed::{has_name, put_name};
use indexmap::IndexSet;
use std::alloc::Global;
use std::marker::Model;
use syn_form::Mono;
use syn_term::NoMemory;

/// What a monotonicity row is known by: the numbers of its relation and of its symbol, and the place.
#[derive(Clone, Copy, PartialEq, Eq, Hash)]
pub(crate) struct RowKey {
    rel: u32,
    sym: u32,
    place: u32,
}

/// What the row is known by.
pub(crate) fn key_of(mono: &Mono) -> RowKey
    ensures { result ≡ row_key mono.now }
{
    RowKey {
        rel: mono.rel.0,
        sym: mono.sym.0,
        place: mono.place,
    }
}

/// The names of the axioms, those of the monotonicity rows, and what these are known by.
pub(crate) struct Index {
    axioms: IndexSet<String>,
    rows: IndexSet<String>,
    keys: IndexSet<RowKey>,
}

impl Drop for Index {
    fn drop(self) {
        let Index {
            axioms: _,
            rows: _,
            keys: _,
        } = self;
    }
}

impl Model for Index {
    ghost use Rattle.syn_model.specs.inner.Hashing.{texts};
    ghost use Rattle.syn_model.specs.inner.Indexing.{Indexed};

    ghost Value = { Indexed };

    ghost view = { λ i. record { axioms = texts i.axioms; rows = texts i.rows; keys = i.keys.keys } };
}

/// Whether this is one of the keys.
fn has_key(keys: &IndexSet<RowKey>, key: RowKey) -> bool
    ensures { IsTrue result ↔ Contains (keys.now).keys key }
{
    keys.contains(&key)
}

/// Makes room for one key more.
fn make_room(keys: &mut IndexSet<RowKey>) -> Result<(), NoMemory>
    ensures keys { keys.new.keys ≡ keys.old.keys }
    ensures room { OnOk result (0 < spare keys.new) }
{
    keys.reserve(1)?;
    Ok(())
}

/// Puts a new key behind the others, where there is room: this takes no memory.
fn put_key(keys: &mut IndexSet<RowKey>, key: RowKey)
    requires room { 0 < spare keys.old }
    requires new { Contains keys.old.keys key → ⊥ }
    ensures { keys.new.keys ≡ keys.old.keys ++ key ∷ [] }
{
    let _ = keys.insert(key);
}

/// Puts down a new name and a new key.
fn put_row(
    rows: &mut IndexSet<String>,
    keys: &mut IndexSet<RowKey>,
    name: &str,
    key: RowKey,
) -> Result<(), NoMemory>
    requires name { Contains (texts rows.old) name.now → ⊥ }
    requires key { Contains keys.old.keys key → ⊥ }
    ensures ok { OnOk result ((texts rows.new ≡ texts rows.old ++ name.now ∷ []) × (keys.new.keys ≡ keys.old.keys ++ key ∷ [])) }
    ensures err { OnErr result ((texts rows.new ≡ texts rows.old) × (keys.new.keys ≡ keys.old.keys)) }
{
    make_room(&mut *keys)?;
    put_name(rows, name)?;
    put_key(keys, key);
    Ok(())
}

/// Whether the declaration is an axiom or a monotonicity row.
pub(crate) fn is_indexed(decl: &Decl) -> bool
    ensures { result ≡ indexing.is_indexed decl.now }
{
    matches!(decl, Decl::Axiom { .. } | Decl::Monotone { .. })
}

impl Index {
    /// The index of no declarations.
    pub(crate) fn new(alloc: Global) -> Index
        ensures { result ≡ index_of [] }
    {
        Index {
            axioms: IndexSet::new(alloc),
            rows: IndexSet::new(alloc),
            keys: IndexSet::new(alloc),
        }
    }

    /// Whether an axiom has the name.
    pub(crate) fn has_axiom(&self, name: &str) -> bool
        ensures { IsTrue result ↔ Contains (self.now).axioms name.now }
    {
        has_name(&self.axioms, name)
    }

    /// Whether a monotonicity row has the name.
    pub(crate) fn has_row(&self, name: &str) -> bool
        ensures { IsTrue result ↔ Contains (self.now).rows name.now }
    {
        has_name(&self.rows, name)
    }

    /// Whether a monotonicity row is known by the same as this.
    pub(crate) fn has_like(&self, mono: &Mono) -> bool
        ensures { IsTrue result ↔ Contains (self.now).keys (row_key mono.now) }
    {
        has_key(&self.keys, key_of(mono))
    }

    /// Puts down what is looked up of a declaration behind the others. It is as it was after an error.
    pub(crate) fn enter(&mut self, decl: &Decl) -> Result<(), NoMemory>
        requires { IsNewIn self.old decl.now }
        ensures ok { OnOk result (self.new ≡ index_after self.old decl.now) }
        ensures err { OnErr result (self.new ≡ self.old) }
    {
        match decl {
            Decl::Axiom { name, .. } => put_name(&mut self.axioms, name.as_str()),
            Decl::Monotone { name, mono } => put_row(
                &mut self.rows,
                &mut self.keys,
                name.as_str(),
                key_of(mono),
            ),
            _ => Ok(()),
        }
    }
}

fn enter_all(index: &mut Index, decls: &[Decl]) -> Result<(), NoMemory>
    requires theory { IsTheory decls.now }
    requires empty { index.old ≡ index_of [] }
    ensures { OnOk result (index.new ≡ index_of decls.now) }
{
    for decl in decls {
        index.enter(decl)?;
    }
    Ok(())
}

/// The index of a theory's declarations.
pub(crate) fn indexed(alloc: Global, decls: &[Decl]) -> Result<Index, NoMemory>
    requires { IsTheory decls.now }
    ensures { IfOk result (λ i. i ≡ index_of decls.now) }
{
    let mut index = Index::new(alloc);
    match enter_all(&mut index, decls) {
        Ok(()) => Ok(index),
        Err(error) => {
            drop(index);
            Err(error)
        }
    }
}
