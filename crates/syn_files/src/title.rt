// The first line of a theory's text: its name.
ghost use Rattle.std.specs.Prelude.{◌≡◌, ℕ, List, IfOk, MatchOption};
ghost use Rattle.syn_term.specs.Names.{IsName};
ghost use Rattle.syn_model.specs.Theories.{bare_theory};
ghost use Rattle.syn_files.specs.inner.Telling.{title_words};

use crate::cursor::Cursor;
use std::alloc::Global;
use syn_lex::Words;
use syn_model::{DeclError, Theory};
use syn_term::NoMemory;

/// The name behind the word `theory`, where nothing else stands there.
fn title_name<'a>(words: &Words<'a>) -> Option<&'a str>
    ensures { MatchOption result ((name : List ℕ) → words.now ≡ title_words name → ⊥) (λ name. words.now ≡ title_words name.now) }
{
    let mut cursor = Cursor {
        left: words.from(0),
    };
    if !cursor.word("theory") {
        return None;
    }
    match cursor.name() {
        None => None,
        Some(name) => { if cursor.is_empty() { Some(name) } else { None } }
    }
}

/// The theory that the words name, which declares nothing; None where they name none. The one error is
/// want of memory.
pub(crate) fn titled(alloc: Global, words: &Words) -> Result<Option<Theory>, NoMemory>
    ensures { IfOk result (λ o. MatchOption o ((name : List ℕ) → words.now ≡ title_words name → IsName name → ⊥) (λ t. (words.now ≡ title_words t.name) × IsName t.name × (t ≡ bare_theory t.name))) }
{
    match title_name(words) {
        None => Ok(None),
        Some(name) => match Theory::new(alloc, name) {
            Ok(theory) => Ok(Some(theory)),
            Err(DeclError::Refused) => Ok(None),
            Err(DeclError::NoMemory) => Err(NoMemory),
        },
    }
}
