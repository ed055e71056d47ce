// What a text may speak of, lent to readers and printers.
use syn_term::{Symbols, Var};

/// What a text may speak of: the symbols and sorts of a table; in files the variables by their
/// names, which are distinct and no symbol's or sort's, as the variables' numbers are; in rows
/// Skolem symbols and row variables, and then there are no names.
#[derive(Clone, Copy)]
pub struct Scope<'a> {
    pub syms: &'a Symbols,
    pub names: &'a [(String, Var)],
    pub rows: bool,
}
