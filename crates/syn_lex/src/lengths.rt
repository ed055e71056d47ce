// The lengths of names and numbers. Each answers 0 where none begins, and never more than there are
// bytes, so lengths can be added without a further look at the line.
ghost use Rattle.std.specs.Prelude.{◌≡◌, ◌≤◌, ◌||◌, length, take, drop, get_or, codes};
ghost use Rattle.std.specs.Char.{is_ascii_digit};
ghost use Rattle.std.specs.Str.{bytes_eq, chars, IsUtf8};
ghost use Rattle.std.specs.Str.Lossy.{utf8_valid_len};
ghost use Rattle.std.specs.List.{prefix_len};
ghost use Rattle.syn_term.specs.Names.{is_name_byte};
ghost use Rattle.syn_term.specs.Tokens as tokens;

use unicode_ident::{is_xid_continue, is_xid_start};

const MAX_NAME_BYTES: usize = 64;

/// 64 bytes and one character more tell a name that is too long.
const NAME_WINDOW: usize = 68;

const MAX_DIGITS: usize = 7;

/// The byte there, or 0 past the end.
pub fn byte_at(rest: &[u8], k: usize) -> u8
    ensures { result ≡ get_or rest.now k 0 }
{
    match rest.get(k) {
        None => 0,
        Some(byte) => *byte,
    }
}

/// What follows the first n bytes, nothing where there are fewer.
pub(crate) fn after(rest: &[u8], n: usize) -> &[u8]
    ensures { result.now ≡ drop n rest.now }
{
    if n <= rest.len() { &rest[n..] } else { &[] }
}

/// The first n bytes, or all where there are fewer.
pub(crate) fn front(rest: &[u8], n: usize) -> &[u8]
    ensures value { result.now ≡ take n rest.now }
    ensures within { length result.now ≤ length rest.now }
{
    if n <= rest.len() { &rest[..n] } else { rest }
}

fn at_most(limit: usize, n: usize) -> usize
    ensures { result ≡ tokens.at_most limit n }
{
    if limit < n { 0 } else { n }
}

/// How many bytes at the front are UTF-8.
fn text_len(bytes: &[u8]) -> usize
    ensures value { result ≡ utf8_valid_len bytes.now }
    ensures within { result ≤ length bytes.now }
    ensures text { IsUtf8 (take result bytes.now) }
{
    match str::from_utf8(bytes) {
        Ok(_) => bytes.len(),
        Err(fault) => fault.valid_up_to(),
    }
}

/// How many bytes stand before the first line feed, or up to the end.
fn line_len(rest: &[u8]) -> usize
    ensures value { result ≡ tokens.line_len rest.now }
    ensures within { result ≤ length rest.now }
{
    rest.iter().take_while(|b| **b != b'\n').count()
}

/// The length of the comment at the front.
#[tactic(auto, unfolding(syn_term::specs::Tokens::comment_len))]
pub(crate) fn comment_len(rest: &[u8]) -> usize
    ensures value { result ≡ tokens.comment_len rest.now }
    ensures within { result ≤ length rest.now }
{
    text_len(front(rest, line_len(rest)))
}

fn run_len(text: &str) -> usize
    ensures value { result ≡ tokens.run_len (chars text.now) }
    ensures within { result ≤ length text.now }
{
    let mut total = 0;
    for c in text.chars() {
        if !is_xid_continue(c) {
            return total;
        }
        total += c.len_utf8();
    }
    total
}

fn word_len(text: &str) -> usize
    ensures value { result ≡ tokens.word_len (chars text.now) }
    ensures within { result ≤ length text.now }
{
    match text.chars().next() {
        None => 0,
        Some(first) => {
            if is_xid_start(first) {
                run_len(text)
            } else {
                0
            }
        }
    }
}

fn front_word_len(bytes: &[u8]) -> usize
    ensures value { result ≡ tokens.word_len (tokens.front_chars bytes.now) }
    ensures within { result ≤ length bytes.now }
{
    match str::from_utf8(front(bytes, text_len(bytes))) {
        Ok(text) => word_len(text),
        Err(_) => 0,
    }
}

/// The length of the name or reserved word at the front.
#[tactic(auto, unfolding(syn_term::specs::Tokens::name_len))]
fn any_name_len(rest: &[u8]) -> usize
    ensures value { result ≡ tokens.name_len rest.now }
    ensures within { result ≤ length rest.now }
{
    at_most(MAX_NAME_BYTES, front_word_len(front(rest, NAME_WINDOW)))
}

fn is_name_byte(b: u8) -> bool
    ensures { result ≡ is_name_byte b }
{
    b.is_ascii_alphanumeric() || b == b'_'
}

/// How many bytes at the front are ASCII letters, digits and underscores.
fn ascii_run(rest: &[u8]) -> usize
    ensures value { result ≡ prefix_len is_name_byte rest.now }
    ensures within { result ≤ length rest.now }
{
    rest.iter().take_while(|b| is_name_byte(**b)).count()
}

/// The same, where a name of ASCII characters alone, which is all that most texts have, is told by its bytes.
pub(crate) fn name_len(rest: &[u8]) -> usize
    ensures value { result ≡ tokens.name_len rest.now }
    ensures within { result ≤ length rest.now }
{
    let n = ascii_run(rest);
    if n <= MAX_NAME_BYTES
        && byte_at(rest, 0).is_ascii_alphabetic()
        && byte_at(rest, n).is_ascii()
    {
        n
    } else {
        any_name_len(rest)
    }
}

fn is_reserved(word: &[u8]) -> bool
    ensures { result ≡ tokens.is_reserved word.now }
{
    syn_term::is_reserved(word)
}

#[tactic(auto, unfolding(syn_term::specs::Tokens::free_name_len))]
fn free_name_len(rest: &[u8]) -> usize
    ensures value { result ≡ tokens.free_name_len rest.now }
    ensures within { result ≤ length rest.now }
{
    let n = name_len(rest);
    if is_reserved(front(rest, n)) { 0 } else { n }
}

fn is_tag_word(word: &[u8]) -> bool
    ensures { result ≡ (bytes_eq word.now (codes "goal") || bytes_eq word.now (codes "induct")) }
{
    word == b"goal".as_slice() || word == b"induct".as_slice()
}

#[tactic(auto, unfolding(syn_term::specs::Tokens::tag_len))]
pub(crate) fn tag_len(rest: &[u8]) -> usize
    ensures value { result ≡ tokens.tag_len rest.now }
    ensures within { result ≤ length rest.now }
{
    let n = name_len(rest);
    if is_tag_word(front(rest, n)) {
        n
    } else {
        free_name_len(rest)
    }
}

fn digits(rest: &[u8]) -> usize
    ensures value { result ≡ tokens.digits rest.now }
    ensures within { result ≤ length rest.now }
{
    rest.iter().take_while(|b| b.is_ascii_digit()).count()
}

/// The length of the number at the front.
#[tactic(auto, unfolding(syn_term::specs::Tokens::number_len))]
pub(crate) fn number_len(rest: &[u8]) -> usize
    ensures value { result ≡ tokens.number_len rest.now }
    ensures within { result ≤ length rest.now }
{
    let n = digits(rest);
    if byte_at(rest, 0) == b'0' && n > 1 {
        0
    } else {
        at_most(MAX_DIGITS, n)
    }
}

/// The length of the number from 1 at the front.
#[tactic(auto, unfolding(syn_term::specs::Tokens::counted_len))]
pub(crate) fn counted_len(rest: &[u8]) -> usize
    ensures value { result ≡ tokens.counted_len rest.now }
    ensures within { result ≤ length rest.now }
{
    if byte_at(rest, 0) == b'0' {
        0
    } else {
        at_most(MAX_DIGITS, digits(rest))
    }
}

/// The length of a colon and a name at the front, where the name is no reserved word.
#[tactic(auto, unfolding(syn_term::specs::Tokens::sort_len))]
pub(crate) fn sort_len(rest: &[u8]) -> usize
    ensures value { result ≡ tokens.sort_len rest.now }
    ensures within { result ≤ length rest.now }
{
    if byte_at(rest, 0) != b':' {
        return 0;
    }
    let n = free_name_len(after(rest, 1));
    if n == 0 { 0 } else { 1 + n }
}

/// The length of a full stop and a number from 1 at the front.
#[tactic(auto, unfolding(syn_term::specs::Tokens::stop_len))]
pub(crate) fn stop_len(rest: &[u8]) -> usize
    ensures value { result ≡ tokens.stop_len rest.now }
    ensures within { result ≤ length rest.now }
{
    if byte_at(rest, 0) != b'.' {
        return 0;
    }
    let n = counted_len(after(rest, 1));
    if n == 0 { 0 } else { 1 + n }
}
