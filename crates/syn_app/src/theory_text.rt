// The text of a theory, one line. A text with no line begins with an empty one here, which extends
// nothing; so that a line is missing and that it is wrong are one refusal.
ghost use Rattle.std.specs.Prelude.{◌≡◌, List, ℕ, MatchOption, MatchResult};
ghost use Rattle.syn_term.specs.Names.{IsName};
ghost use Rattle.syn_app.specs.inner.Readers.{Refuses};
ghost use Rattle.syn_app.specs.TheoryText.{ExtendsTheory, IsTheoryText, WholeTheory, theory_line};

use crate::lines::strip;
use crate::numbers::name_in;
use std::alloc::Global;
use syn_lex::{FileError, split_lines};

fn theory_name(line: &[u8]) -> Option<&str>
    ensures { MatchOption result ((name : List ℕ) → IsName name → ¬ (line.now ≡ theory_line name)) (λ name. IsName name.now × (line.now ≡ theory_line name.now)) }
{
    match strip(line, b"theory ") {
        None => None,
        Some(name) => name_in(name),
    }
}

/// The name of the theory that the bytes are the text of, or the number of the first bad line.
pub(crate) fn read_theory(alloc: Global, bytes: &[u8]) -> Result<&str, FileError>
    ensures { MatchResult result (λ name. IsTheoryText bytes.now (record { name = name.now })) (Refuses ExtendsTheory WholeTheory bytes.now) }
{
    let Ok(cut) = split_lines(alloc, bytes) else {
        return Err(FileError::NoMemory);
    };
    let Some(name) = theory_name(cut.line_at(0)) else {
        return Err(FileError::Bad(1));
    };
    if !cut.ends_after(1) {
        return Err(FileError::Bad(2));
    }
    Ok(name)
}
