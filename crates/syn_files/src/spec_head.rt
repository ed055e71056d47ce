// The first two lines of a specification's text: its name, and the head of its program.
ghost use Rattle.std.specs.Prelude.{◌≡◌, ℕ, List, IfOk, MatchOption};
ghost use Rattle.syn_term.specs.Names.{IsName};
ghost use Rattle.syn_files.specs.inner.SpecTelling.{IsOver, ReadsHead, spec_title_words};

use crate::cursor::Cursor;
use crate::spec_lines::head_line;
use std::alloc::Global;
use syn_lex::Words;
use syn_model::{Spec, Theory};
use syn_term::{NoMemory, Text, is_name};

/// The name behind the word `spec`, where nothing else stands there.
fn spec_name<'a>(words: &Words<'a>) -> Option<&'a str>
    ensures { MatchOption result ((name : List ℕ) → words.now ≡ spec_title_words name → ⊥) (λ name. words.now ≡ spec_title_words name.now) }
{
    let mut cursor = Cursor {
        left: words.from(0),
    };
    if !cursor.word("spec") {
        return None;
    }
    match cursor.name() {
        None => None,
        Some(name) => { if cursor.is_empty() { Some(name) } else { None } }
    }
}

/// The name that the words give a specification; None where they give none. The one error is want of
/// memory.
pub(crate) fn spec_titled(alloc: Global, words: &Words) -> Result<Option<Text>, NoMemory>
    ensures { IfOk result (λ o. MatchOption o ((name : List ℕ) → words.now ≡ spec_title_words name → IsName name → ⊥) (λ name. (words.now ≡ spec_title_words name) × IsName name)) }
{
    match spec_name(words) {
        None => Ok(None),
        Some(name) => {
            if is_name(name) {
                Ok(Some(Text::from_str(alloc, name)?))
            } else {
                Ok(None)
            }
        }
    }
}

/// The specification of this name that the words begin; None where they begin none. The one error is want
/// of memory.
#[tactic(auto, using(crate::proofs::HeadLaws::no_head))]
pub(crate) fn head_of_words(
    alloc: Global,
    theory: &Theory,
    name: &str,
    words: &Words,
) -> Result<Option<Spec>, NoMemory>
    ensures told { IfOk result (ReadsHead (theory.now).decls name.now words.now) }
    ensures over { IfOk result (IsOver (theory.now).decls) }
{
    let mut cursor = Cursor {
        left: words.from(0),
    };
    if !cursor.word("program") {
        return Ok(None);
    }
    head_line(alloc, theory, name, &mut cursor)
}
