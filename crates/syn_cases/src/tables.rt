// Symbols put into the tables of samples.
use sqlite_items::Items;
use std::alloc::Global;
use std::test::Fail;
use syn_term::{Kind, Sort, Sym, SymId, Symbols, Text};

/// The new symbol of a table; a failure where it may not be added.
pub fn added(
    alloc: Global,
    syms: &mut Symbols,
    name: &str,
    kind: Kind,
    args: &[Sort],
    value: Option<Sort>,
) -> Result<SymId, Fail> {
    let sym = Sym {
        name: Text::from_str(alloc, name)?,
        kind,
        args: Items::from_slice(alloc, args)?,
        result: value,
    };
    match syms.add(sym)? {
        None => Err(Fail::new("no symbol")),
        Some(f) => Ok(f),
    }
}
