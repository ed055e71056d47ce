// The words of the tables: sorts, kinds and answers.
use sqlite_items::Items;
use std::alloc::Global;
use std::test::Fail;
use syn_term::{Kind, Sort, decimal_number};

/// `nat`, or the number of a declared sort.
pub fn sort_of(word: &str) -> Sort {
    match decimal_number(word) {
        Some(number) => Sort::Named(number),
        None => Sort::Nat,
    }
}

/// One sort for each word.
pub fn sorts_of(alloc: Global, words: &str) -> Result<Items<Sort>, Fail> {
    let mut sorts = Items::new(alloc);
    for word in words.split(' ') {
        if !word.is_empty() {
            sorts.push(sort_of(word))?;
        }
    }
    Ok(sorts)
}

/// The kind of a symbol by its word; other words are functions.
pub fn kind_of(word: &str) -> Kind {
    match word {
        "succ" => Kind::Succ,
        "cons" => Kind::Cons,
        "rel" => Kind::Rel,
        "order" => Kind::Order,
        "input" => Kind::Input,
        "program" => Kind::Program,
        "skolem" => Kind::Skolem,
        _ => Kind::Fun,
    }
}

/// The words before the mark and those after it.
pub fn cut<'a>(text: &'a str, mark: &str) -> (&'a str, &'a str) {
    text.split_once(mark).unwrap_or((text, ""))
}
