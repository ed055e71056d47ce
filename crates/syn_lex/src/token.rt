// The tokens of a line, and what may begin at a place of it. The kind of a token is told by its
// first byte, so a length is all that is left to find.

use syn_term::TokenKind;

/// A token: its kind, and the places of its bytes in the line, from the first to behind the last.
#[derive(Clone, Copy, Debug, PartialEq, Eq)]
pub struct Token {
    pub kind: TokenKind,
    pub from: u64,
    pub to: u64,
}

/// Why a line has no tokens.
#[derive(Clone, Copy, Debug, PartialEq, Eq)]
pub enum LexError {
    /// The place of the first byte that begins no token, blank or comment; behind a `#` that is the
    /// first line feed or the first byte that is no part of UTF-8.
    At(u64),
    /// Memory was refused.
    NoMemory,
}

/// What begins at a place. A token has so many bytes; where nothing begins, the first byte that
/// begins nothing stands behind so many bytes of a comment.
#[derive(Clone, Copy)]
pub(crate) enum What {
    Gap,
    Over,
    Bad(usize),
    Token(TokenKind, usize),
}
