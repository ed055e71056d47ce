//! Symbols and terms: names and the kinds of tokens, the table of declared symbols, and terms as trees
//! whose nodes are made by a bank alone.
#![tactic(auto)]

mod bank;
mod copying;
mod declared_sorts;
mod memory;
mod names;
mod pointer;
mod pos;
mod sorts;
mod symbols;
mod term;
mod text;
mod tokens;

pub use bank::Bank;
pub use memory::NoMemory;
pub use names::{decimal_number, is_name, is_reserved, is_skolem_name};
pub use pointer::Shared;
pub use pos::Pos;
pub use sorts::{Head, Kind, NamedSort, Shape, Sort, Sym, SymId, Var};
pub use symbols::Symbols;
pub use term::{Node, Place, Term, have_sorts};
pub use text::Text;
pub use tokens::TokenKind;
