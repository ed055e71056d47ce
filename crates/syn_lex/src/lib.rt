//! Lines and tokens: a file is cut into its lines, in one way alone, and a line into its tokens. The
//! answer for a line is one alone: its tokens, each the longest at its place by the grammar in `syn_term`,
//! or the place of the first byte that begins nothing.
#![tactic(auto)]

mod begins;
mod lengths;
mod lexer;
mod line_words;
mod lines;
mod token;

pub use lengths::byte_at;
pub use lexer::{line_tokens, tokens};
pub use line_words::Words;
pub use lines::{Cut, FileError, split_at, split_lines};
pub use syn_term::TokenKind;
pub use token::{LexError, Token};
