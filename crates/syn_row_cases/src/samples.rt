// A table of symbols for rows, positions in them, and whether outputs go together.
ghost use Rattle.std.specs.Prelude.{◌↔◌, IsTrue};
ghost use Rattle.syn_row.specs.JoinLaws.{GiveOneSort};

use sqlite_items::Items;
use std::alloc::Global;
use std::test::Fail;
use syn_cases::added;
use syn_form::{Out, given_sort};
use syn_term::{Kind, Pos, Sort, Symbols, decimal_number};

const NAT: Sort = Sort::Nat;

/// A table with lists of numbers, a relation, a function and two inputs.
pub fn make_table(alloc: Global) -> Result<Symbols, Fail> {
    let mut syms = Symbols::new(alloc)?;
    if syms.add_list("list", "nil", "cons", NAT)?.is_none() {
        return Err(Fail::new("no sort"));
    }
    added(alloc, &mut syms, "le", Kind::Rel, &[NAT, NAT], None)?;
    added(alloc, &mut syms, "dbl", Kind::Fun, &[NAT], Some(NAT))?;
    added(alloc, &mut syms, "a", Kind::Input, &[], Some(NAT))?;
    added(alloc, &mut syms, "b", Kind::Input, &[], Some(NAT))?;
    Ok(syms)
}

/// The position of the text: numbers below ten with points between, `-` for the root.
pub fn pos_of(alloc: Global, text: &str) -> Result<Pos, Fail> {
    let mut pos = Pos::root(alloc);
    for step in text.split('.') {
        if step != "-" {
            pos.push(decimal_number(step).unwrap_or(0))?;
        }
    }
    Ok(pos)
}

/// The positions of the text, with commas between.
pub fn positions_of(alloc: Global, text: &str) -> Result<Items<Pos>, Fail> {
    let mut positions = Items::new(alloc);
    for part in text.split(',') {
        positions.push(pos_of(alloc, part)?)?;
    }
    Ok(positions)
}

/// Whether both outputs, where both are there, give terms of one sort.
pub fn give_one_sort(syms: &Symbols, first: &Option<Out>, second: &Option<Out>) -> bool
    ensures { IsTrue result ↔ GiveOneSort syms.now first.now second.now }
{
    match first {
        None => true,
        Some(u) => match second {
            None => true,
            Some(v) => given_sort(syms, u) == given_sort(syms, v),
        },
    }
}
