// Which texts are names. A name is told by its characters, one after another, so each test is exact;
// the name of a Skolem symbol begins with `!`, which no name does, so the two kinds never meet.
ghost use Rattle.std.specs.Prelude.{◌≡◌, ◌↔◌, ◌<◌, ◌^◌, ℕ, IsTrue, MatchOption, Contains, decimal};
ghost use Rattle.std.specs.Str.{bytes_eq, chars};
ghost use Rattle.std.specs.List.{list_all, list_any};
ghost use Rattle.unicode_ident.specs.Ident.{is_xid_continue};
ghost use Rattle.syn_term.specs.Names.{reserved, Starts, IsName, IsTag, IsNumber, IsSkolemName};

use itoa::Buffer;
use unicode_ident::{is_xid_continue, is_xid_start};

// The most bytes of a name.
const MAX_NAME_BYTES: usize = 64;

// The first number with more digits than the name of a Skolem symbol may have.
const NUMBER_END: u32 = 10_000_000;

const RESERVED: [&[u8]; 15] = [
    b"nat", b"s", b"true", b"false", b"not", b"and", b"or", b"if", b"then", b"else", b"all",
    b"some", b"goal", b"input", b"induct",
];

fn finds_reserved(word: &[u8]) -> bool
    ensures { result ≡ list_any (λ other. bytes_eq other word.now) reserved }
{
    RESERVED.contains(&word)
}

/// Whether the bytes are a reserved word, which no symbol may have as its name.
pub fn is_reserved(word: &[u8]) -> bool
    ensures { IsTrue result ↔ Contains reserved word.now }
{
    finds_reserved(word)
}

fn starts(text: &str) -> bool
    ensures { IsTrue result ↔ Starts (chars text.now) }
{
    match text.chars().next() {
        None => false,
        Some(first) => is_xid_start(first),
    }
}

// What may start a name may also continue one, so the test of the others may take in the first.
fn continues(text: &str) -> bool
    ensures { result ≡ list_all is_xid_continue (chars text.now) }
{
    text.chars().all(|c| is_xid_continue(c))
}

/// Whether the text is a name: a character with the property XID_Start, then characters with
/// XID_Continue, at most 64 bytes in all, and no reserved word.
pub fn is_name(text: &str) -> bool
    ensures { IsTrue result ↔ IsName text.now }
{
    text.len() <= MAX_NAME_BYTES && !is_reserved(text.as_bytes()) && starts(text) && continues(text)
}

fn is_tag(text: &str) -> bool
    ensures { IsTrue result ↔ IsTag text.now }
{
    text == "goal" || text == "induct" || is_name(text)
}

fn is_written(number: u32, text: &str) -> bool
    ensures { IsTrue result ↔ (text.now ≡ decimal number) }
{
    let mut buffer = Buffer::new();
    buffer.format(number) == text
}

/// The number that the text is in decimal, with no sign and no zero before others. None: it is no such
/// number, or one from 2^32 on.
pub fn decimal_number(text: &str) -> Option<u32>
    ensures { MatchOption result ((n : ℕ) → n < 2 ^ 32 → ¬ (text.now ≡ decimal n)) (λ n. (n < 2 ^ 32) × (text.now ≡ decimal n)) }
{
    // Parsing takes a plus sign and zeros before a number, so what is parsed is printed and compared.
    match text.parse::<u32>() {
        Err(_) => None,
        Ok(number) => {
            if is_written(number, text) {
                Some(number)
            } else {
                None
            }
        }
    }
}

fn is_number(text: &str) -> bool
    ensures { IsTrue result ↔ IsNumber text.now }
{
    match decimal_number(text) {
        None => false,
        Some(number) => 0 < number && number < NUMBER_END,
    }
}

/// Whether the text is the name of a Skolem symbol: `!`, a tag, `.` and a number from 1 of at most
/// seven digits with no zero before them. A tag is `goal`, `induct` or a name.
pub fn is_skolem_name(text: &str) -> bool
    ensures { IsTrue result ↔ IsSkolemName text.now }
{
    match text.strip_prefix('!') {
        None => false,
        Some(rest) => match rest.split_once('.') {
            None => false,
            Some((tag, number)) => is_tag(tag) && is_number(number),
        },
    }
}
