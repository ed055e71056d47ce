// A theory: its declarations, and the table of symbols that they make.
ghost use Rattle.std.specs.Prelude.{◌≡◌, ◌↔◌, ◌++◌, [], ◌∷◌, Bool, Contains, Err, IfOk, IsTrue, OnErr, OnOk, map};
ghost use Rattle.std.specs.Option.{option_copied};
ghost use Rattle.syn_term.specs.Names.{IsName};
ghost use Rattle.syn_form.specs.Writing.{CanWriteTable};
ghost use Rattle.syn_model.specs.Declaring.{Asks, ComesInTime, IsTheory, MayDeclare, is_clause};
ghost use Rattle.syn_model.specs.Headings as headings;
ghost use Rattle.syn_model.specs.Heads.{IsNewName};
ghost use Rattle.syn_model.specs.Theories.{MayBring, Steps, bare_theory, with_decl};
ghost use Rattle.syn_model.specs.Stability.{TruthIsStable};
ghost use Rattle.syn_model.specs.Totality.{SymbolsAlwaysGive};
ghost use Rattle.syn_model.specs.Tables.{IsDeclared, axiom_names, monos_of, other_names, table_of};
ghost use Rattle.syn_model.specs.inner.Indexing.{IsNewIn, row_key};
ghost use Rattle.syn_model.specs.inner.Keeping.{Settles};
ghost use Rattle.syn_model.specs.declared.theory.DeclError.TheVariants as error;

use crate::bringing::settle;
use crate::copying::decls_again;
use crate::decl::Decl;
use crate::headings::{heading_of, is_whole};
use crate::index::{Index, indexed};
use crate::may_follow::may_follow;
use crate::naming::{is_declared, is_new_name};
use sqlite_items::Items;
use std::alloc::Global;
use std::marker::Model;
use syn_form::Mono;
use syn_term::{NoMemory, Symbols, Text, is_name};

/// Why a theory or a declaration was refused.
#[derive(Clone, Copy, Debug, PartialEq, Eq)]
pub enum DeclError {
    /// The name is no name, or the declaration may not follow those before it.
    Refused,
    /// Memory was refused.
    NoMemory,
}

impl From<NoMemory> for DeclError {
    ghost use Rattle.syn_model.specs.declared.theory.DeclError.{DeclError};
    ghost use Rattle.syn_model.specs.declared.theory.DeclError.TheVariants as error;

    ghost from_gives = { λ _ e. e ≡ error.NoMemory };

    fn from(_error: NoMemory) -> DeclError {
        DeclError::NoMemory
    }
}

/// A theory. Contracts see it as its name and its declarations.
#[derive(Drop)]
pub struct Theory {
    alloc: Global,
    name: Text,
    syms: Symbols,
    index: Index,
    decls: Items<Decl>,
}

impl Model for Theory {
    ghost use Rattle.syn_model.specs.inner.Keeping.{HoldsTheory};
    ghost use Rattle.syn_model.specs.Theories.{TheoryTree};
    ghost use Rattle.syn_model.specs.contracts.decl.Decl as decl;
    ghost use Rattle.std.specs.Coded.{codes};

    ghost Value = { TheoryTree };

    ghost coded = { Prim.hlevel (codes, decl.the_row.coded) };

    ghost view = { λ t. record { name = t.name; decls = t.decls } };

    ghost invariant = { λ t. HoldsTheory t.name t.syms t.index t.decls };
}

// The same for the last of the declarations.
fn settle_last(
    alloc: Global,
    syms: &mut Symbols,
    index: &mut Index,
    decls: &[Decl],
) -> Result<bool, NoMemory>
    requires { (ds : _) (d : Decl) → decls.now ≡ ds ++ d ∷ [] → IsNewIn index.old d }
    ensures settled { (ds : _) (d : Decl) → decls.now ≡ ds ++ d ∷ [] → IfOk result (Settles syms.old syms.new index.old index.new d) }
    ensures err { OnErr result ((syms.new ≡ syms.old) × (index.new ≡ index.old)) }
{
    match decls {
        [.., decl] => settle(alloc, syms, index, decl),
        [] => Ok(true),
    }
}

// Lets the last declaration go.
fn drop_last(decls: &mut Items<Decl>)
    ensures { (ds : _) (d : Decl) → decls.old ≡ ds ++ d ∷ [] → decls.new ≡ ds }
{
    drop(decls.pop());
}

impl Theory {
    /// The theory of this name that declares nothing.
    pub fn new(alloc: Global, name: &str) -> Result<Theory, DeclError>
        ensures ok { IfOk result (λ t. IsName name.now × (t ≡ bare_theory name.now)) }
        ensures refused { result ≡ Err error.Refused ↔ (IsName name.now → ⊥) }
    {
        if !is_name(name) {
            return Err(DeclError::Refused);
        }
        let Ok(name) = Text::from_str(alloc, name) else {
            return Err(DeclError::NoMemory);
        };
        Ok(Theory {
            alloc,
            name,
            syms: Symbols::new(alloc)?,
            index: Index::new(alloc),
            decls: Items::new(alloc),
        })
    }

    /// The same theory once more. Its trees are shared; its names and its table are copied.
    pub fn copy(&self) -> Result<Theory, NoMemory>
        ensures { IfOk result (λ t. t ≡ self.now) }
    {
        let name = self.name.again()?;
        let syms = self.syms.copy(self.alloc)?;
        let index = indexed(self.alloc, self.decls.as_slice())?;
        match decls_again(self.alloc, self.decls.as_slice()) {
            Ok(decls) => Ok(Theory {
                alloc: self.alloc,
                name,
                syms,
                index,
                decls,
            }),
            Err(error) => {
                drop(name);
                drop(syms);
                drop(index);
                Err(error)
            }
        }
    }

    /// The name of the theory, which is a name.
    pub fn name(&self) -> &str
        ensures is { result.now ≡ (self.now).name }
        ensures named { IsName result.now }
    {
        self.name.as_str()
    }

    /// The declarations, in the order in which they came.
    pub fn decls(&self) -> &[Decl]
        ensures all { result.now ≡ (self.now).decls }
        ensures theory { IsTheory result.now }
    {
        self.decls.as_slice()
    }

    /// The table of symbols that the declarations make.
    pub fn symbols(&self) -> &Symbols
        ensures table { result.now ≡ table_of (self.now).decls }
        ensures written { (rows : Bool) → CanWriteTable rows result.now }
    {
        &self.syms
    }

    /// Whether an axiom or a monotonicity row has the name.
    pub(crate) fn has_other(&self, name: &str) -> bool
        ensures { IsTrue result ↔ Contains (other_names (self.now).decls) name.now }
    {
        self.index.has_axiom(name) || self.index.has_row(name)
    }

    /// Whether an axiom has the name.
    pub(crate) fn has_axiom(&self, name: &str) -> bool
        ensures { IsTrue result ↔ Contains (axiom_names (self.now).decls) name.now }
    {
        self.index.has_axiom(name)
    }

    /// Whether a monotonicity row is of the same relation, symbol and place.
    pub(crate) fn has_like(&self, mono: &Mono) -> bool
        ensures { IsTrue result ↔ Contains (map row_key (monos_of (self.now).decls)) (row_key mono.now) }
    {
        self.index.has_like(mono)
    }

    /// The declaration to which a clause would belong: the last one that is no clause.
    pub fn last_heading(&self) -> Option<&Decl>
        ensures { option_copied result ≡ (headings.heading_of (self.now).decls).declared }
    {
        heading_of(self.decls.as_slice()).declared
    }

    /// Whether the text is a name that nothing declared has.
    pub fn is_new(&self, name: &str) -> bool
        ensures { IsTrue result ↔ IsNewName (self.now).decls name.now }
    {
        is_new_name(self, name)
    }

    /// Whether something that is declared has the text as its name.
    pub fn declares(&self, text: &str) -> bool
        ensures { IsTrue result ↔ IsDeclared (self.now).decls text.now }
    {
        is_declared(self, text)
    }

    /// Whether no clause of the function or relation declared last is missing. Then each symbol of the theory gives a
    /// result on all values of the sorts of its arguments: each case has a clause, and a recursion goes down the values.
    /// So the truth of formulas is stable.
    pub fn is_whole(&self) -> bool
        ensures is { result ≡ headings.is_whole (self.now).decls }
        ensures total { IsTrue result → SymbolsAlwaysGive (self.now).decls }
        ensures stable { IsTrue result → TruthIsStable (self.now).decls }
    {
        is_whole(&self.syms, self.decls.as_slice())
    }

    /// Puts a declaration behind the others. `Refused` comes exactly where it may not follow them; the
    /// theory is as it was after an error.
    pub fn declare(&mut self, decl: Decl) -> Result<(), DeclError>
        ensures ok { OnOk result (MayDeclare self.old.decls decl × (self.new ≡ with_decl self.old decl)) }
        ensures refused { result ≡ Err error.Refused → MayDeclare self.old.decls decl → ⊥ }
        ensures err { OnErr result (self.new ≡ self.old) }
    {
        match may_follow(self.alloc, self, &decl) {
            Ok(true) => self.put_or_refuse(decl),
            Ok(false) => {
                drop(decl);
                Err(DeclError::Refused)
            }
            Err(error) => {
                drop(decl);
                Err(error.into())
            }
        }
    }

    /// Puts down a declaration that asks nothing more. `Refused`: the table may not take what it brings.
    fn put_or_refuse(&mut self, decl: Decl) -> Result<(), DeclError>
        requires { ComesInTime self.old.decls (is_clause decl) × Asks self.old.decls decl }
        ensures ok { OnOk result (MayBring (table_of self.old.decls) decl × (self.new ≡ with_decl self.old decl)) }
        ensures refused { result ≡ Err error.Refused → MayBring (table_of self.old.decls) decl → ⊥ }
        ensures err { OnErr result (self.new ≡ self.old) }
    {
        if self.put(decl)? {
            Ok(())
        } else {
            Err(DeclError::Refused)
        }
    }

    /// Puts down a declaration with all that it brings. False: the table may not take that.
    fn put(&mut self, decl: Decl) -> Result<bool, NoMemory>
        requires { ComesInTime self.old.decls (is_clause decl) × Asks self.old.decls decl }
        ensures ok { IfOk result (Steps self.old self.new (with_decl self.old decl) (MayBring (table_of self.old.decls) decl)) }
        ensures err { OnErr result (self.new ≡ self.old) }
    {
        self.decls.push(decl)?;
        match settle_last(
            self.alloc,
            &mut self.syms,
            &mut self.index,
            self.decls.as_slice(),
        ) {
            Ok(true) => Ok(true),
            Ok(false) => {
                drop_last(&mut self.decls);
                Ok(false)
            }
            Err(error) => {
                drop_last(&mut self.decls);
                Err(error)
            }
        }
    }
}
