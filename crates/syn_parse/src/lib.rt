//! The syntax of expressions: words of a line as the syntax tree of a term, a formula or an output. What the
//! names in it stand for is not looked at.
#![tactic(auto)]

mod form_frames;
mod form_reader;
mod item_reader;
mod items;
mod lexemes;
mod limits;
mod marks;
mod out_reader;
mod parse;
mod phrase_reader;
mod sink;
mod stack;
mod stop;
mod syntaxes;
mod term_reader;
mod words_reader;

pub use parse::{parse_form_words, parse_out_words, parse_term_words};
