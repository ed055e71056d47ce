// The kinds of tokens. Which bytes are a token of a kind, and what begins at a place of a line, is said
// in specs/Tokens.antt, apart from the scanner that finds them.

/// What a token is.
#[derive(Clone, Copy, Debug, PartialEq, Eq)]
pub enum TokenKind {
    /// A name of at most 64 bytes, or a reserved word.
    Name,
    /// A number of at most seven digits, without a zero before others.
    Number,
    /// `?` and a number from 1, and its sort behind a colon, where one follows: `?1:list`.
    RowVar,
    /// `!`, a tag, `.` and a number from 1: `!gap.1`.
    Skolem,
    /// One of `( ) , : . | = - -> <->`.
    Sign,
}
