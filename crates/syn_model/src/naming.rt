// Names: what has one, and whether it is new.
ghost use Rattle.std.specs.Prelude.{◌↔◌, IsTrue};
ghost use Rattle.syn_term.specs.Names.{IsName};
ghost use Rattle.syn_term.specs.Symbols.{IsTaken};
ghost use Rattle.syn_model.specs.Heads.{IsNewName};
ghost use Rattle.syn_model.specs.Tables.{IsDeclared};

use crate::theory::Theory;
use syn_term::{Symbols, is_name};

// Whether a symbol or a declared sort has the name.
fn is_taken(syms: &Symbols, name: &str) -> bool
    requires { IsName name.now }
    ensures { IsTrue result ↔ IsTaken syms.now name.now }
{
    syms.find(name).is_some() || syms.find_sort(name).is_some()
}

/// Whether the name is a name that nothing declared has.
pub(crate) fn is_new_name(theory: &Theory, name: &str) -> bool
    ensures { IsTrue result ↔ IsNewName (theory.now).decls name.now }
{
    is_name(name) && !is_taken(theory.symbols(), name) && !theory.has_other(name)
}

// Whether a symbol or a declared sort has the text as its name; what is no name is no sort's.
fn has_name(syms: &Symbols, text: &str) -> bool
    ensures { IsTrue result ↔ IsTaken syms.now text.now }
{
    if is_name(text) {
        is_taken(syms, text)
    } else {
        syms.find(text).is_some()
    }
}

/// Whether something that is declared has the text as its name.
pub(crate) fn is_declared(theory: &Theory, text: &str) -> bool
    ensures { IsTrue result ↔ IsDeclared (theory.now).decls text.now }
{
    has_name(theory.symbols(), text) || theory.has_other(text)
}
