// The words of a line, read from the left. What is read says what stood at the front, and what is left.
ghost use Rattle.std.specs.Prelude.{◌≡◌, ◌↔◌, [], All, None, Some, IsTrue, MatchOption, false, if◌then◌else◌};
ghost use Rattle.std.specs.Str.{bytes_eq};
ghost use Rattle.syn_term.specs.Tokens as words;
ghost use Rattle.syn_term.specs.Tokens.{IsToken};
ghost use Rattle.syn_lex.specs.Lexing.{IsTokenWord, word};
ghost use Rattle.syn_deriv.specs.inner.Firsts as firsts;
ghost use Rattle.syn_deriv.specs.inner.Firsts.{got};

use syn_lex::{TokenKind, Words};
use syn_term::{decimal_number, is_reserved};

/// The first number with more than seven digits.
const NUMBER_END: u32 = 10_000_000;

/// The words of a line that are not read yet.
#[derive(Drop)]
pub(crate) struct Cursor<'a> {
    pub(crate) left: Words<'a>,
}

/// The text of a word that is a name.
fn name_text<'a>(kind: TokenKind, bytes: &'a [u8]) -> Option<&'a str>
    requires { IsToken kind bytes.now }
    ensures { MatchOption result (firsts.name_of_kind kind bytes.now ≡ None) (λ x. firsts.name_of_kind kind bytes.now ≡ Some x.now) }
{
    match kind {
        TokenKind::Name => match str::from_utf8(bytes) {
            Err(_) => None,
            Ok(text) => Some(text),
        },
        _ => None,
    }
}

/// Whether the word is this sign.
pub(crate) fn is_sign(kind: TokenKind, bytes: &[u8], sign: &[u8]) -> bool
    ensures { result ≡ firsts.is_sign sign.now (word kind bytes.now) }
{
    match kind {
        TokenKind::Sign => bytes == sign,
        _ => false,
    }
}

/// The number that the digits are, where it has at most seven.
fn small_number(digits: &str) -> Option<u32>
    ensures { MatchOption result (firsts.number_in digits.now ≡ None) (λ n. firsts.number_in digits.now ≡ Some n) }
{
    match decimal_number(digits) {
        None => None,
        Some(number) => {
            if number < NUMBER_END {
                Some(number)
            } else {
                None
            }
        }
    }
}

/// The number that a word is.
fn number_of(kind: TokenKind, bytes: &[u8]) -> Option<u32>
    requires { IsToken kind bytes.now }
    ensures { MatchOption result (firsts.number_of_kind kind bytes.now ≡ None) (λ n. firsts.number_of_kind kind bytes.now ≡ Some n) }
{
    match kind {
        TokenKind::Number => match str::from_utf8(bytes) {
            Err(_) => None,
            Ok(digits) => small_number(digits),
        },
        _ => None,
    }
}

/// Whether the word is reserved.
fn is_word(name: &str) -> bool
    ensures { result ≡ words.is_reserved name.now }
{
    is_reserved(name.as_bytes())
}

/// Whether the two texts are one.
pub(crate) fn is_text(text: &str, other: &str) -> bool
    ensures { result ≡ bytes_eq text.now other.now }
{
    text == other
}

impl<'a> Cursor<'a> {
    /// Whether all words are read.
    pub(crate) fn is_empty(&self) -> bool
        ensures { IsTrue result ↔ ((self.now).left ≡ []) }
    {
        self.left.is_empty()
    }

    /// The name at the front, a reserved word or not.
    pub(crate) fn name(&mut self) -> Option<&'a str>
        ensures { MatchOption result (firsts.name_first self.old.left ≡ None) (λ x. firsts.name_first self.old.left ≡ Some (got x.now self.new.left)) }
    {
        match self.left.get(0) {
            None => None,
            Some((kind, bytes)) => {
                self.left = self.left.from(1);
                name_text(kind, bytes)
            }
        }
    }

    /// The name at the front that is no reserved word.
    pub(crate) fn free_name(&mut self) -> Option<&'a str>
        ensures { MatchOption result (firsts.free_first self.old.left ≡ None) (λ x. firsts.free_first self.old.left ≡ Some (got x.now self.new.left)) }
    {
        match self.name() {
            None => None,
            Some(name) => { if is_word(name) { None } else { Some(name) } }
        }
    }

    /// Whether this sign stands at the front; where it doesn't, nothing is read.
    pub(crate) fn sign(&mut self, sign: &[u8]) -> bool
        ensures read { firsts.sign_first sign.now self.old.left ≡ (if result then Some self.new.left else None) }
        ensures kept { result ≡ false → self.new.left ≡ self.old.left }
    {
        match self.left.get(0) {
            None => false,
            Some((kind, bytes)) => {
                let there = is_sign(kind, bytes, sign);
                if there {
                    self.left = self.left.from(1);
                }
                there
            }
        }
    }

    /// The number at the front. Each word is a token of its kind.
    pub(crate) fn number(&mut self) -> Option<u32>
        ensures read { MatchOption result (firsts.number_first self.old.left ≡ None) (λ n. firsts.number_first self.old.left ≡ Some (got n self.new.left)) }
        ensures each { All IsTokenWord self.old.left }
    {
        match self.left.get(0) {
            None => None,
            Some((kind, bytes)) => {
                self.left = self.left.from(1);
                number_of(kind, bytes)
            }
        }
    }
}
