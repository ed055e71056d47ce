//! Tests of the crates at the bottom, each a table of cases: symbols and terms, tokens and lines, files
//! and texts. A proof says what an answer means; a table says that the answer comes.
#![tactic(auto)]

#[cfg(test)]
mod lines;
#[cfg(test)]
mod names;
#[cfg(test)]
mod outside;
#[cfg(test)]
mod positions;
#[cfg(test)]
mod sorts;
#[cfg(test)]
mod symbols;
#[cfg(test)]
mod terms;
#[cfg(test)]
mod tokens;
