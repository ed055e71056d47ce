// Monotonicity rows: a name, and what the row says.
ghost use Rattle.std.specs.Prelude.{◌≡◌, IfOk, MatchOption, None, Some};
ghost use Rattle.syn_files.specs.inner.SimpleLines as lines;

use crate::axiom_lines::entry_name;
use crate::cursor::Cursor;
use std::alloc::Global;
use syn_form::Mono;
use syn_model::Decl;
use syn_term::{NoMemory, SymId, Symbols, Text};

/// The relation at the end, where one is written; None where something else stands there.
fn given(syms: &Symbols, cursor: &mut Cursor<'_>) -> Option<Option<SymId>>
    ensures { result ≡ lines.given_first syms.now cursor.old.left }
{
    if cursor.is_empty() {
        return Some(None);
    }
    match cursor.symbol(syms) {
        None => None,
        Some(symbol) => {
            if cursor.is_empty() {
                Some(Some(symbol))
            } else {
                None
            }
        }
    }
}

/// `REL up SYM K`, and its kin.
fn row(syms: &Symbols, cursor: &mut Cursor<'_>) -> Option<Mono>
    ensures { result ≡ lines.row_line syms.now cursor.old.left }
{
    let rel = cursor.symbol(syms)?;
    let up = cursor.direction()?;
    let sym = cursor.symbol(syms)?;
    let place = cursor.number()?;
    let gives = given(syms, cursor)?;
    Some(Mono {
        rel,
        up,
        sym,
        place,
        gives,
    })
}

/// `NAME: REL up SYM K`, and its kin. The one error is want of memory.
pub(crate) fn mono_line(
    alloc: Global,
    syms: &Symbols,
    cursor: &mut Cursor<'_>,
) -> Result<Option<Decl>, NoMemory>
    ensures { IfOk result (λ o. o ≡ lines.mono_line syms.now cursor.old.left) }
{
    let Some(name) = entry_name(cursor) else {
        return Ok(None);
    };
    match row(syms, cursor) {
        None => Ok(None),
        Some(mono) => Ok(Some(Decl::Monotone {
            name: Text::from_str(alloc, name)?,
            mono,
        })),
    }
}
