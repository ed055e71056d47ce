// Terms as words. The brackets are taken off one pair after another, and what is left is the input,
// a number or a row variable, which are told apart by their first byte; so a word has one reading at
// most, and where none is found there is none.
ghost use Rattle.std.specs.Prelude.{◌≡◌, ◌<◌, ◌≤◌, ◌^◌, List, ℕ, MatchOption};
ghost use Rattle.syn_term.specs.Names.{IsName};
ghost use Rattle.syn_term.specs.Terms.{depth_of, nodes};
ghost use Rattle.syn_app.specs.declared.flat.Base.{Base};
ghost use Rattle.syn_app.specs.declared.flat.FlatTerm.{FlatTerm};
ghost use Rattle.syn_app.specs.inner.Readers.{IsTerm};
ghost use Rattle.syn_app.specs.Terms as terms;
ghost use Rattle.syn_app.specs.Terms.{IsBase, base_text, term_text, term_tree, wrapped};

use crate::flat::{Base, FlatTerm};
use crate::lines::{same, strip};
use crate::numbers::number_between;

/// The nodes that an expression, or a row, may have.
pub(crate) const MOST_NODES: u64 = 4096;

/// How deep an expression, or a row, may be.
pub(crate) const MOST_DEPTH: u64 = 1200;

/// As many successors as an expression may have nodes; a word with more is no term of a line.
const MOST_SUCCESSORS: u32 = 4096;

/// The greatest number that is written in digits.
pub(crate) const GREATEST_NUMBER: u32 = 1000;

const LAST_ROW_VARIABLE: u32 = 9_999_999;

fn without_bracket(text: &[u8]) -> Option<&[u8]>
    ensures { MatchOption result ((inner : List ℕ) → ¬ (text.now ≡ wrapped 1 inner)) (λ inner. text.now ≡ wrapped 1 inner.now) }
{
    match strip(text, b"s(") {
        None => None,
        Some(rest) => rest.strip_suffix(b")"),
    }
}

fn unwrapped(word: &[u8]) -> (u32, &[u8])
    ensures is { word.now ≡ wrapped result.0 result.1.now }
    ensures most { result.0 ≤ 4096 }
    ensures bare { result.0 < 4096 → (inner : List ℕ) → ¬ (result.1.now ≡ wrapped 1 inner) }
{
    let mut inner = word;
    for count in 0..MOST_SUCCESSORS {
        match without_bracket(inner) {
            None => return (count, inner),
            Some(next) => inner = next,
        }
    }
    (MOST_SUCCESSORS, inner)
}

fn base_in(text: &[u8], input: &str) -> Option<Base>
    ensures { MatchOption result ((b : Base) → IsBase b → ¬ (text.now ≡ base_text input.now b)) (λ b. IsBase b × (text.now ≡ base_text input.now b)) }
{
    if same(text, input.as_bytes()) {
        return Some(Base::Input);
    }
    match strip(text, b"?") {
        Some(digits) => match number_between(digits, 1, LAST_ROW_VARIABLE) {
            None => None,
            Some(number) => Some(Base::RowVariable(number)),
        },
        None => match number_between(text, 0, GREATEST_NUMBER) {
            None => None,
            Some(number) => Some(Base::Number(number)),
        },
    }
}

/// The term that the word is, over an input of this name, or `None` where it is no term.
pub(crate) fn term_in(word: &[u8], input: &str) -> Option<FlatTerm>
    requires { IsName input.now }
    ensures { MatchOption result ((r : FlatTerm) → IsTerm r → ¬ (word.now ≡ term_text input.now r)) (λ r. IsTerm r × (word.now ≡ term_text input.now r)) }
{
    let (successors, inner) = unwrapped(word);
    match base_in(inner, input) {
        None => None,
        Some(base) => Some(FlatTerm { successors, base }),
    }
}

fn base_size(base: &Base) -> u64
    ensures is { result ≡ terms.base_size base.now }
    ensures bound { result ≤ 2 ^ 32 }
{
    match *base {
        Base::Input => 1,
        Base::Number(number) => number as u64 + 1,
        Base::RowVariable(_) => 1,
    }
}

/// The nodes of the term's tree, which is as deep as it has nodes.
pub(crate) fn size_of(term: &FlatTerm) -> u64
    ensures nodes { result ≡ nodes (term_tree term.now) }
    ensures depth { result ≡ depth_of (term_tree term.now) }
    ensures bound { result < 2 ^ 34 }
{
    term.successors as u64 + base_size(&term.base)
}
