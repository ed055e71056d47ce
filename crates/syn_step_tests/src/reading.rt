// Derivations of texts.
ghost use Rattle.std.specs.Prelude.{All, IfOk};
ghost use Rattle.syn_term.specs.Bank.{Extends};
ghost use Rattle.syn_start.specs.Rows.{IsRowOf};

use std::alloc::Global;
use std::test::Fail;
use syn_deriv::read_derivation;
use syn_start::{Derivation, Start};
use syn_term::Bank;

/// The lines, between which the mark stands, behind the first line of each derivation.
pub fn text_of(alloc: Global, lines: &str, mark: &str) -> Result<String, Fail> {
    let mut text = String::from_str(alloc, "derivation 1\n")?;
    for line in lines.split(mark) {
        text.push_str(line)?;
        text.push('\n')?;
    }
    Ok(text)
}

/// The derivation of the text.
pub fn derivation_of(
    alloc: Global,
    bank: &mut Bank,
    start: &Start,
    text: &str,
) -> Result<Derivation, Fail>
    ensures rows { IfOk result (All (λ l. IsRowOf start.now bank.new l.1)) }
    ensures extends { Extends bank.old bank.new }
{
    match read_derivation(alloc, bank, start, text.as_bytes()) {
        Ok(d) => Ok(d),
        Err(_) => Err(Fail::new("no derivation")),
    }
}
