// The marks, told by their words: the first two bytes leave one that a word may be.
ghost use Rattle.std.specs.Prelude.{◌≡◌, ◌↔◌, IsTrue, MatchOption};
ghost use Rattle.syn_form.specs.Grammar.{mark_word};
ghost use Rattle.syn_lex.specs.Lexing.{word};
ghost use Rattle.syn_parse.specs.inner.Spelling.{NoMark, candidate};

use syn_form::Mark;
use syn_lex::{TokenKind, byte_at};

fn text_of(mark: Mark) -> &'static [u8]
    ensures { result.now ≡ (mark_word mark).bytes }
{
    match mark {
        Mark::Open => b"(",
        Mark::Close => b")",
        Mark::Comma => b",",
        Mark::Colon => b":",
        Mark::Dot => b".",
        Mark::Equals => b"=",
        Mark::Arrow => b"->",
        Mark::BothWays => b"<->",
        Mark::Not => b"not",
        Mark::And => b"and",
        Mark::Or => b"or",
        Mark::If => b"if",
        Mark::Then => b"then",
        Mark::Else => b"else",
        Mark::True => b"true",
        Mark::False => b"false",
        Mark::ForAll => b"all",
        Mark::ForSome => b"some",
        Mark::Nat => b"nat",
    }
}

fn kind_of(mark: Mark) -> TokenKind
    ensures { result ≡ (mark_word mark).kind }
{
    match mark {
        Mark::Open
        | Mark::Close
        | Mark::Comma
        | Mark::Colon
        | Mark::Dot
        | Mark::Equals
        | Mark::Arrow
        | Mark::BothWays => TokenKind::Sign,
        _ => TokenKind::Name,
    }
}

/// Whether the mark is the token of this kind with these bytes.
fn is_spelled(mark: Mark, kind: TokenKind, bytes: &[u8]) -> bool
    ensures { IsTrue result ↔ (mark_word mark ≡ word kind bytes.now) }
{
    if kind_of(mark) != kind {
        return false;
    }
    text_of(mark) == bytes
}

/// The one mark that a token whose bytes begin so may be; of no meaning where it is none.
fn candidate(first: u8, second: u8) -> Mark
    ensures { result ≡ candidate first second }
{
    match first {
        b'(' => Mark::Open,
        b')' => Mark::Close,
        b',' => Mark::Comma,
        b':' => Mark::Colon,
        b'.' => Mark::Dot,
        b'=' => Mark::Equals,
        b'-' => Mark::Arrow,
        b'<' => Mark::BothWays,
        b'o' => Mark::Or,
        b'i' => Mark::If,
        b'e' => Mark::Else,
        b'f' => Mark::False,
        b's' => Mark::ForSome,
        b'a' => {
            if second == b'n' {
                Mark::And
            } else {
                Mark::ForAll
            }
        }
        b't' => {
            if second == b'h' {
                Mark::Then
            } else {
                Mark::True
            }
        }
        _ => { if second == b'o' { Mark::Not } else { Mark::Nat } }
    }
}

/// The mark that is the token of this kind with these bytes, None where no mark is.
pub(crate) fn mark_of(kind: TokenKind, bytes: &[u8]) -> Option<Mark>
    ensures { MatchOption result (NoMark (word kind bytes.now)) (λ m. mark_word m ≡ word kind bytes.now) }
{
    let mark = candidate(byte_at(bytes, 0), byte_at(bytes, 1));
    if is_spelled(mark, kind, bytes) {
        Some(mark)
    } else {
        None
    }
}
