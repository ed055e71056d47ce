// Reserved words, told by their first bytes, which leave one word to compare with.
ghost use Rattle.std.specs.Prelude.{◌≡◌};
ghost use Rattle.syn_term.specs.Tokens as words;
ghost use Rattle.syn_expr.specs.inner.Reserved.{candidate};

use syn_lex::byte_at;

/// The one reserved word that a name may be whose bytes begin so.
fn candidate(a: u8, b: u8, c: u8) -> &'static [u8]
    ensures { result.now ≡ candidate a b c }
{
    match a {
        b'n' if b == b'o' => b"not",
        b'n' => b"nat",
        b's' if b == b'o' => b"some",
        b's' => b"s",
        b't' if b == b'h' => b"then",
        b't' => b"true",
        b'a' if b == b'l' => b"all",
        b'a' => b"and",
        b'i' if b == b'f' => b"if",
        b'i' if c == b'p' => b"input",
        b'i' => b"induct",
        b'f' => b"false",
        b'o' => b"or",
        b'e' => b"else",
        _ => b"goal",
    }
}

/// Whether the word is reserved.
pub(crate) fn is_word(name: &str) -> bool
    ensures { result ≡ words.is_reserved name.now }
{
    let bytes = name.as_bytes();
    candidate(byte_at(bytes, 0), byte_at(bytes, 1), byte_at(bytes, 2)) == bytes
}
