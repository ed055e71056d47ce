// What begins at a place of a line. The first byte tells the kind of a token, and one function for
// each kind tells its length; 0 says that none begins.
ghost use Rattle.std.specs.Prelude.{◌≡◌, ◌≤◌, ◌<◌, length};
ghost use Rattle.syn_term.specs.Tokens as tokens;
ghost use Rattle.syn_lex.specs.inner.Finding.{seen, Within};

use crate::lengths::{
    after, byte_at, comment_len, counted_len, name_len, number_len, sort_len, stop_len, tag_len,
};
use crate::token::What;
use syn_term::TokenKind;

#[tactic(auto, unfolding(syn_term::specs::Tokens::row_len))]
fn row_len(rest: &[u8]) -> usize
    requires { 0 < length rest.now }
    ensures value { result ≡ tokens.row_len rest.now }
    ensures within { result ≤ length rest.now }
{
    let n = counted_len(after(rest, 1));
    if n == 0 {
        0
    } else {
        1 + n + sort_len(after(rest, 1 + n))
    }
}

#[tactic(auto, unfolding(syn_term::specs::Tokens::skolem_len))]
fn skolem_len(rest: &[u8]) -> usize
    requires { 0 < length rest.now }
    ensures value { result ≡ tokens.skolem_len rest.now }
    ensures within { result ≤ length rest.now }
{
    let n = tag_len(after(rest, 1));
    if n == 0 {
        return 0;
    }
    let stop = stop_len(after(rest, 1 + n));
    if stop == 0 { 0 } else { 1 + n + stop }
}

fn is_single_sign(b: u8) -> bool
    ensures { result ≡ tokens.is_single_sign b }
{
    b"(),:.|=".contains(&b)
}

fn sign_of(b: u8, c: u8, d: u8) -> usize
    ensures { result ≡ tokens.sign_of b c d }
{
    if is_single_sign(b) {
        1
    } else if b == b'-' {
        if c == b'>' { 2 } else { 1 }
    } else if b == b'<' && c == b'-' && d == b'>' {
        3
    } else {
        0
    }
}

#[tactic(auto, unfolding(syn_term::specs::Tokens::sign_len))]
fn sign_len(rest: &[u8]) -> usize
    ensures value { result ≡ tokens.sign_len rest.now }
    ensures within { result ≤ length rest.now }
{
    sign_of(byte_at(rest, 0), byte_at(rest, 1), byte_at(rest, 2))
}

fn token(kind: TokenKind, n: usize) -> What
    ensures { seen result ≡ tokens.some_token kind n }
{
    if n == 0 {
        What::Bad(0)
    } else {
        What::Token(kind, n)
    }
}

#[tactic(auto, unfolding(syn_term::specs::Tokens::token_at))]
fn token_at(rest: &[u8], b: u8) -> What
    requires { 0 < length rest.now }
    ensures value { seen result ≡ tokens.token_at rest.now b }
    ensures within { Within rest.now (seen result) }
{
    if b.is_ascii_digit() {
        return token(TokenKind::Number, number_len(rest));
    }
    if b == b'?' {
        return token(TokenKind::RowVar, row_len(rest));
    }
    if b == b'!' {
        return token(TokenKind::Skolem, skolem_len(rest));
    }
    let sign = sign_len(rest);
    if sign == 0 {
        return token(TokenKind::Name, name_len(rest));
    }
    What::Token(TokenKind::Sign, sign)
}

fn is_blank(b: u8) -> bool
    ensures { result ≡ tokens.is_blank b }
{
    b == b' ' || b == b'\t' || b == b'\r'
}

fn comment(rest: &[u8]) -> What
    ensures value { seen result ≡ tokens.comment rest.now (tokens.comment_len rest.now) }
    ensures within { Within rest.now (seen result) }
{
    let n = comment_len(rest);
    if n == rest.len() {
        What::Over
    } else {
        What::Bad(n)
    }
}

/// What begins where the rest of the line begins.
#[tactic(auto, unfolding(syn_term::specs::Tokens::starts))]
pub(crate) fn starts(rest: &[u8]) -> What
    ensures value { seen result ≡ tokens.starts rest.now }
    ensures within { Within rest.now (seen result) }
{
    if rest.is_empty() {
        return What::Over;
    }
    let b = byte_at(rest, 0);
    if is_blank(b) {
        return What::Gap;
    }
    if b == b'#' {
        return comment(rest);
    }
    token_at(rest, b)
}
