// A word as a lexeme: marks are told from names, and numbers and sorts are read. A lexeme lends its name
// from the line.
ghost use Rattle.std.specs.Prelude.{◌++◌, [], MatchOption, codes};
ghost use Rattle.syn_term.specs.declared.tokens.TokenKind.TheVariants as kind;
ghost use Rattle.syn_term.specs.Tokens.{IsToken, IsRowVariable};
ghost use Rattle.syn_lex.specs.Lexing.{word};
ghost use Rattle.syn_parse.specs.inner.Spelling.{NoLexeme, NoMark, NoNumber, Spells, row_word};

use crate::marks::mark_of;
use syn_form::{Lexeme, NameText};
use syn_lex::TokenKind;
use syn_term::decimal_number;

fn number_lexeme<'a>(digits: &'a str) -> Option<Lexeme<'a>>
    ensures { MatchOption result (NoNumber digits.now) (Spells (word kind.Number digits.now)) }
{
    match decimal_number(digits) {
        None => None,
        Some(number) => Some(Lexeme::Number(number)),
    }
}

/// The row variable with these digits and no sort.
fn bare_row<'a>(digits: &'a str) -> Option<Lexeme<'a>>
    ensures { MatchOption result (NoNumber digits.now) (Spells (row_word digits.now [])) }
{
    match decimal_number(digits) {
        None => None,
        Some(number) => Some(Lexeme::RowVar(number, None)),
    }
}

/// The row variable with these digits and this sort.
fn sorted_row<'a>(digits: &'a str, sort: &'a str) -> Option<Lexeme<'a>>
    ensures { MatchOption result (NoNumber digits.now) (Spells (row_word digits.now (codes ":" ++ sort.now))) }
{
    match decimal_number(digits) {
        None => None,
        Some(number) => Some(Lexeme::RowVar(number, Some(NameText::new(sort)))),
    }
}

/// The row variable behind its question mark.
fn marked_row<'a>(text: &'a str) -> Option<Lexeme<'a>>
    requires { IsRowVariable (codes "?" ++ text.now) }
    ensures { MatchOption result ⊥ (Spells (word kind.RowVar (codes "?" ++ text.now))) }
{
    match text.split_once(':') {
        None => bare_row(text),
        Some((digits, sort)) => sorted_row(digits, sort),
    }
}

fn row_lexeme<'a>(text: &'a str) -> Option<Lexeme<'a>>
    requires { IsRowVariable text.now }
    ensures { MatchOption result ⊥ (Spells (word kind.RowVar text.now)) }
{
    match text.strip_prefix('?') {
        None => None,
        Some(rest) => marked_row(rest),
    }
}

/// The lexeme of a token that is no mark.
fn plain_lexeme<'a>(kind: TokenKind, text: &'a str) -> Option<Lexeme<'a>>
    requires token { IsToken kind text.now }
    requires no_mark { NoMark (word kind text.now) }
    ensures { MatchOption result (NoLexeme (word kind text.now)) (Spells (word kind text.now)) }
{
    match kind {
        TokenKind::Name => Some(Lexeme::Name(NameText::new(text))),
        TokenKind::Number => number_lexeme(text),
        TokenKind::RowVar => row_lexeme(text),
        TokenKind::Skolem => Some(Lexeme::Skolem(NameText::new(text))),
        TokenKind::Sign => None,
    }
}

/// The lexeme that a token is, by its kind and its bytes. None where it is a sign that expressions
/// don't have, `|` or `-`.
pub(crate) fn lexeme_of<'a>(kind: TokenKind, bytes: &'a [u8]) -> Option<Lexeme<'a>>
    requires { IsToken kind bytes.now }
    ensures { MatchOption result (NoLexeme (word kind bytes.now)) (Spells (word kind bytes.now)) }
{
    if let Some(mark) = mark_of(kind, bytes) {
        return Some(Lexeme::Fixed(mark));
    }
    match str::from_utf8(bytes) {
        Err(_) => None,
        Ok(text) => plain_lexeme(kind, text),
    }
}
