// The words of a line, read from the left. What is read says what stood at the front, and what is left.
ghost use Rattle.std.specs.Prelude.{◌≡◌, ◌↔◌, [], None, Some, IfOk, IsTrue, MatchOption, false, if◌then◌else◌};
ghost use Rattle.std.specs.Str.{bytes_eq};
ghost use Rattle.syn_term.specs.Tokens as words;
ghost use Rattle.syn_term.specs.Tokens.{IsToken};
ghost use Rattle.syn_form.specs.Elaboration as elaboration;
ghost use Rattle.syn_lex.specs.Lexing.{word};
ghost use Rattle.syn_files.specs.inner.Firsts as firsts;
ghost use Rattle.syn_files.specs.inner.Firsts.{got};

use sqlite_items::Items;
use std::alloc::Global;
use syn_lex::{TokenKind, Words};
use syn_term::{NoMemory, Sort, SymId, Symbols, decimal_number, is_reserved};

/// The first number with more than seven digits.
const NUMBER_END: u32 = 10_000_000;

/// The words of a line that are not read yet.
#[derive(Drop)]
pub(crate) struct Cursor<'a> {
    pub(crate) left: Words<'a>,
}

/// The text of a word that is a name.
fn name_text<'a>(kind: TokenKind, bytes: &'a [u8]) -> Option<&'a str>
    requires { IsToken kind bytes.now }
    ensures { MatchOption result (firsts.name_of_kind kind bytes.now ≡ None) (λ x. firsts.name_of_kind kind bytes.now ≡ Some x.now) }
{
    match kind {
        TokenKind::Name => match str::from_utf8(bytes) {
            Err(_) => None,
            Ok(text) => Some(text),
        },
        _ => None,
    }
}

/// Whether the word is this sign.
pub(crate) fn is_sign(kind: TokenKind, bytes: &[u8], sign: &[u8]) -> bool
    ensures { result ≡ firsts.is_sign sign.now (word kind bytes.now) }
{
    match kind {
        TokenKind::Sign => bytes == sign,
        _ => false,
    }
}

/// The number that the digits are, where it has at most seven.
fn small_number(digits: &str) -> Option<u32>
    ensures { MatchOption result (firsts.number_in digits.now ≡ None) (λ n. firsts.number_in digits.now ≡ Some n) }
{
    match decimal_number(digits) {
        None => None,
        Some(number) => {
            if number < NUMBER_END {
                Some(number)
            } else {
                None
            }
        }
    }
}

/// The number that a word is.
fn number_of(kind: TokenKind, bytes: &[u8]) -> Option<u32>
    requires { IsToken kind bytes.now }
    ensures { MatchOption result (firsts.number_of_kind kind bytes.now ≡ None) (λ n. firsts.number_of_kind kind bytes.now ≡ Some n) }
{
    match kind {
        TokenKind::Number => match str::from_utf8(bytes) {
            Err(_) => None,
            Ok(digits) => small_number(digits),
        },
        _ => None,
    }
}

/// Whether the word is reserved.
fn is_word(name: &str) -> bool
    ensures { result ≡ words.is_reserved name.now }
{
    is_reserved(name.as_bytes())
}

/// The symbol with the name. Of the reserved words `s` alone names one.
pub(crate) fn symbol_named(syms: &Symbols, name: &str) -> Option<SymId>
    ensures { result ≡ elaboration.symbol_named syms.now name.now }
{
    if is_word(name) && !is_text(name, "s") {
        None
    } else {
        syms.find(name)
    }
}

/// The direction that the name is: up, or down.
fn direction_of(name: &str) -> Option<bool>
    ensures { result ≡ firsts.direction_of name.now }
{
    if is_text(name, "up") {
        Some(true)
    } else if is_text(name, "down") {
        Some(false)
    } else {
        None
    }
}

/// Whether the two texts are one.
pub(crate) fn is_text(text: &str, other: &str) -> bool
    ensures { result ≡ bytes_eq text.now other.now }
{
    text == other
}

impl<'a> Cursor<'a> {
    /// Whether all words are read.
    pub(crate) fn is_empty(&self) -> bool
        ensures { IsTrue result ↔ ((self.now).left ≡ []) }
    {
        self.left.is_empty()
    }

    /// The name at the front.
    pub(crate) fn name(&mut self) -> Option<&'a str>
        ensures { MatchOption result (firsts.name_first self.old.left ≡ None) (λ x. firsts.name_first self.old.left ≡ Some (got x.now self.new.left)) }
    {
        match self.left.get(0) {
            None => None,
            Some((kind, bytes)) => {
                self.left = self.left.from(1);
                name_text(kind, bytes)
            }
        }
    }

    /// Whether this sign stands at the front; where it doesn't, nothing is read.
    pub(crate) fn sign(&mut self, sign: &[u8]) -> bool
        ensures read { firsts.sign_first sign.now self.old.left ≡ (if result then Some self.new.left else None) }
        ensures kept { result ≡ false → self.new.left ≡ self.old.left }
    {
        match self.left.get(0) {
            None => false,
            Some((kind, bytes)) => {
                let there = is_sign(kind, bytes, sign);
                if there {
                    self.left = self.left.from(1);
                }
                there
            }
        }
    }

    /// Whether this name stands at the front.
    pub(crate) fn word(&mut self, name: &str) -> bool
        ensures { firsts.word_first name.now self.old.left ≡ (if result then Some self.new.left else None) }
    {
        match self.name() {
            None => false,
            Some(text) => is_text(text, name),
        }
    }

    /// The sort at the front.
    pub(crate) fn sort(&mut self, syms: &Symbols) -> Option<Sort>
        ensures { MatchOption result (firsts.sort_first syms.now self.old.left ≡ None) (λ s. firsts.sort_first syms.now self.old.left ≡ Some (got s self.new.left)) }
    {
        match self.name() {
            None => None,
            Some(name) => syms.find_sort(name),
        }
    }

    /// The number at the front.
    pub(crate) fn number(&mut self) -> Option<u32>
        ensures { MatchOption result (firsts.number_first self.old.left ≡ None) (λ n. firsts.number_first self.old.left ≡ Some (got n self.new.left)) }
    {
        match self.left.get(0) {
            None => None,
            Some((kind, bytes)) => {
                self.left = self.left.from(1);
                number_of(kind, bytes)
            }
        }
    }

    /// The symbol at the front.
    pub(crate) fn symbol(&mut self, syms: &Symbols) -> Option<SymId>
        ensures { MatchOption result (firsts.symbol_first syms.now self.old.left ≡ None) (λ f. firsts.symbol_first syms.now self.old.left ≡ Some (got f self.new.left)) }
    {
        match self.name() {
            None => None,
            Some(name) => symbol_named(syms, name),
        }
    }

    /// The direction at the front, `up` or `down`.
    pub(crate) fn direction(&mut self) -> Option<bool>
        ensures { MatchOption result (firsts.direction_first self.old.left ≡ None) (λ b. firsts.direction_first self.old.left ≡ Some (got b self.new.left)) }
    {
        match self.name() {
            None => None,
            Some(name) => direction_of(name),
        }
    }

    /// The sorts in brackets at the front, with commas between. The one error is want of memory.
    pub(crate) fn sorts(
        &mut self,
        alloc: Global,
        syms: &Symbols,
    ) -> Result<Option<Items<Sort>>, NoMemory>
        ensures { IfOk result (λ o. MatchOption o (firsts.sorts_first syms.now self.old.left ≡ None) (λ ss. firsts.sorts_first syms.now self.old.left ≡ Some (got ss self.new.left))) }
    {
        if self.sign(b"(") {
            self.sorts_on(alloc, syms)
        } else {
            Ok(None)
        }
    }

    /// The same behind the opening bracket.
    fn sorts_on(&mut self, alloc: Global, syms: &Symbols) -> Result<Option<Items<Sort>>, NoMemory>
        ensures { IfOk result (λ o. MatchOption o (firsts.sorts_on syms.now None self.old.left ≡ None) (λ ss. firsts.sorts_on syms.now None self.old.left ≡ Some (got ss self.new.left))) }
    {
        let mut sorts = Items::new(alloc);
        while let Some(sort) = self.sort(syms) {
            sorts.push(sort)?;
            if self.sign(b")") {
                return Ok(Some(sorts));
            }
            if !self.sign(b",") {
                return Ok(None);
            }
        }
        Ok(None)
    }
}
