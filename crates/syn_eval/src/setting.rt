// What evaluation stands on: the declarations, the symbols, and the body of the program.
ghost use Rattle.std.specs.Prelude.{◌≡◌, IfOk, length};
ghost use Rattle.std.specs.Option.{option_copied, option_map};
ghost use Rattle.syn_term.specs.Symbols.{symbol_at};
ghost use Rattle.syn_model.specs.Tables.{table_of};
ghost use Rattle.syn_eval.specs.inner.Rules.{entry_seen, known_of};

use crate::entries::{Entry, count, entries_of};
use sqlite_items::Items;
use std::alloc::Global;
use std::marker::Model;
use syn_form::Out;
use syn_model::{Decl, Theory};
use syn_term::{NoMemory, SymId, Symbols};

/// The declarations of a theory, a table that begins with its symbols, and the body of a program.
/// Contracts see it as what gives symbols their meaning.
#[derive(Drop)]
pub struct Setting<'a> {
    alloc: Global,
    decls: &'a [Decl],
    symbols: &'a Symbols,
    body: Option<&'a Out>,
    entries: Items<Entry<'a>>,
    program: u32,
}

impl<'a> Model for Setting<'a> {
    ghost use Rattle.std.specs.Option.{option_copied};
    ghost use Rattle.std.specs.Coded.{codes};
    ghost use Rattle.syn_model.specs.Calls.{Meaning};
    ghost use Rattle.syn_model.specs.contracts.decl.Decl as decl;
    ghost use Rattle.syn_form.specs.contracts.trees.Out as out;
    ghost use Rattle.syn_eval.specs.inner.Rules.{HoldsSetting};

    ghost Value = { Meaning };

    ghost coded = { Prim.hlevel (codes, decl.the_row.coded, out.the_row.coded) };

    ghost view = { λ s. record { decls = s.decls.now; table = s.symbols.now; body = option_copied s.body } };

    ghost invariant = { λ s. HoldsSetting s.decls.now s.symbols.now s.entries s.program };
}

impl<'a> Setting<'a> {
    /// The meaning that the theory and the body give to the symbols of the table.
    pub fn new(
        alloc: Global,
        theory: &'a Theory,
        symbols: &'a Symbols,
        body: Option<&'a Out>,
    ) -> Result<Setting<'a>, NoMemory>
        ensures { IfOk result (λ s. s ≡ record { decls = (theory.entry.now).decls; table = symbols.entry.now; body = option_copied body.entry }) }
    {
        let decls = theory.decls();
        let program = count(theory.symbols())?;
        let entries = entries_of(alloc, decls, symbols)?;
        Ok(Setting {
            alloc,
            decls,
            symbols,
            body,
            entries,
            program,
        })
    }

    pub fn alloc(&self) -> Global {
        self.alloc
    }

    /// What is known of the symbol; None where it isn't in the table.
    pub fn entry(&self, f: SymId) -> Option<&Entry<'a>>
        ensures { option_map (λ e. entry_seen e.now) result ≡ option_map (known_of self.now.decls) (symbol_at self.now.table f) }
    {
        self.entries.get(f.0 as usize)
    }

    /// The table of symbols.
    pub fn symbols(&self) -> &Symbols
        ensures { result.now ≡ self.now.table }
    {
        self.symbols
    }

    /// The body of the program.
    pub fn body(&self) -> Option<&Out>
        ensures { option_copied result ≡ self.now.body }
    {
        self.body
    }

    /// The program, which stands behind the symbols of the theory.
    pub fn program(&self) -> SymId
        ensures { result.0 ≡ length (table_of self.now.decls).syms }
    {
        SymId(self.program)
    }
}
