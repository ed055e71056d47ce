// Some words of one line, as readers lend them on: a line is cut once, and no word of it is copied.
ghost use Rattle.std.specs.Prelude.{◌≡◌, ◌↔◌, [], All, IsTrue, List, length, drop, take, slice_get};
ghost use Rattle.std.specs.Option.{option_copied, option_map};
ghost use Rattle.syn_term.specs.Tokens.{Word};
ghost use Rattle.syn_lex.specs.Lexing.{IsLongestToken, IsTokenWord, bytes_of, word, words_of};

use crate::lengths::{after, front};
use crate::token::Token;
use std::marker::Model;
use syn_term::TokenKind;

/// Some words of one line, in order: the line and tokens of it, lent. Contracts see the list of the words.
#[derive(Drop)]
pub struct Words<'a> {
    line: &'a [u8],
    tokens: &'a [Token],
}

impl<'a> Model for Words<'a> {
    ghost Value = { List Word };

    ghost view = { λ w. words_of w.line.now w.tokens.now };

    ghost invariant = { λ w. All (IsLongestToken w.line.now) w.tokens.now };
}

/// The tokens behind the first n, none where there are fewer.
fn tokens_after(tokens: &[Token], n: usize) -> &[Token]
    ensures { result.now ≡ drop n tokens.now }
{
    if n <= tokens.len() { &tokens[n..] } else { &[] }
}

/// The first n tokens, all where there are fewer.
fn tokens_before(tokens: &[Token], n: usize) -> &[Token]
    ensures { result.now ≡ take n tokens.now }
{
    if n <= tokens.len() {
        &tokens[..n]
    } else {
        tokens
    }
}

fn token_at(tokens: &[Token], k: usize) -> Option<&Token>
    ensures { option_copied result ≡ slice_get tokens.now k }
{
    tokens.get(k)
}

/// The bytes of the token in its line.
fn bytes_in<'a>(line: &'a [u8], token: Token) -> &'a [u8]
    ensures { result.now ≡ bytes_of line.now token }
{
    front(
        after(line, token.from as usize),
        token.to.saturating_sub(token.from) as usize,
    )
}

impl<'a> Words<'a> {
    /// The words of the line that these tokens are.
    pub fn new(line: &'a [u8], tokens: &'a [Token]) -> Words<'a>
        requires { All (IsLongestToken line.now) tokens.now }
        ensures { result ≡ words_of line.now tokens.now }
    {
        Words { line, tokens }
    }

    /// How many words there are.
    pub fn len(&self) -> usize
        ensures { result ≡ length self.now }
    {
        self.tokens.len()
    }

    /// Whether there is no word.
    pub fn is_empty(&self) -> bool
        ensures { IsTrue result ↔ (self.now ≡ []) }
    {
        self.tokens.is_empty()
    }

    /// The words behind the first n, none where there are fewer.
    pub fn from(&self, n: usize) -> Words<'a>
        ensures { result ≡ drop n self.now }
    {
        Words {
            line: self.line,
            tokens: tokens_after(self.tokens, n),
        }
    }

    /// The first n words, all where there are fewer.
    pub fn until(&self, n: usize) -> Words<'a>
        ensures { result ≡ take n self.now }
    {
        Words {
            line: self.line,
            tokens: tokens_before(self.tokens, n),
        }
    }

    /// The word with k words before it, by its kind and its bytes, None where there is none. Each word is a
    /// token of its kind.
    pub fn get(&self, k: usize) -> Option<(TokenKind, &'a [u8])>
        ensures is { option_map (λ w. word w.0 w.1.now) result ≡ slice_get self.now k }
        ensures each { All IsTokenWord self.now }
    {
        match token_at(self.tokens, k) {
            None => None,
            Some(token) => Some((token.kind, bytes_in(self.line, *token))),
        }
    }
}
