// The variables that the arguments of a clause bring, gathered from their words.
ghost use Rattle.std.specs.Prelude.{◌≡◌, ◌+◌, IfOk, OnOk, length};
ghost use Rattle.syn_expr.specs.Scopes.{listed};
ghost use Rattle.syn_files.specs.inner.ClauseWords as words;
ghost use Rattle.syn_files.specs.inner.ClauseWords.{each_next};

use crate::cursor::symbol_named;
use crate::naming::push_named;
use std::alloc::Global;
use syn_form::{HeadName, TermSyntax};
use syn_term::{NoMemory, Sort, SymId, Symbols, Var};

/// The number of the next variable. The one error is that there is none, which counts as want of memory.
fn next_of(names: &[(String, Var)]) -> Result<u32, NoMemory>
    ensures { IfOk result (λ n. n ≡ length names.now + 1) }
{
    match u32::try_from(names.len()) {
        Err(_) => Err(NoMemory),
        Ok(count) => match count.checked_add(1) {
            None => Err(NoMemory),
            Some(next) => Ok(next),
        },
    }
}

/// Puts the name as that of the next variable, where it is no symbol's.
fn name_next(
    alloc: Global,
    names: &mut Vec<(String, Var)>,
    sort: Sort,
    name: &str,
    symbol: Option<SymId>,
) -> Result<(), NoMemory>
    ensures { OnOk result (listed names.new.items ≡ words.name_next (listed names.old.items) sort name.now symbol) }
{
    match symbol {
        Some(_) => Ok(()),
        None => {
            let number = next_of(names.as_slice())?;
            let text = String::from_str(alloc, name)?;
            push_named(names, text, Var { number, sort })
        }
    }
}

/// The same for what stands at the front of a term.
fn head_next(
    alloc: Global,
    syms: &Symbols,
    names: &mut Vec<(String, Var)>,
    sort: Sort,
    head: &HeadName,
) -> Result<(), NoMemory>
    ensures { OnOk result (listed names.new.items ≡ words.head_next syms.now (listed names.old.items) sort head.now) }
{
    match head {
        HeadName::Name(name) => {
            let name = name.as_str();
            name_next(alloc, names, sort, name, symbol_named(syms, name))
        }
        HeadName::Skolem(_) => Ok(()),
    }
}

/// The same for what stands in an argument, where a variable of this sort may stand.
fn part_next(
    alloc: Global,
    syms: &Symbols,
    names: &mut Vec<(String, Var)>,
    sort: Sort,
    part: &TermSyntax,
) -> Result<(), NoMemory>
    ensures { OnOk result (listed names.new.items ≡ words.part_next syms.now (listed names.old.items) sort part.now) }
{
    match part {
        TermSyntax::Alone(head) => head_next(alloc, syms, names, sort, head),
        _ => Ok(()),
    }
}

/// The same for all parts of an argument.
fn parts_next(
    alloc: Global,
    syms: &Symbols,
    names: &mut Vec<(String, Var)>,
    sorts: &[Sort],
    parts: &[TermSyntax],
) -> Result<(), NoMemory>
    ensures { OnOk result (listed names.new.items ≡ each_next (words.part_next syms.now) (listed names.old.items) sorts.now parts.now) }
{
    match sorts {
        [] => Ok(()),
        [sort, sorts @ ..] => match parts {
            [] => Ok(()),
            [part, parts @ ..] => {
                part_next(alloc, syms, names, *sort, part)?;
                parts_next(alloc, syms, names, sorts, parts)
            }
        },
    }
}

/// The sorts that the symbol at the front takes; none where there is no such symbol.
fn sorts_of<'a>(syms: &'a Symbols, head: &HeadName) -> &'a [Sort]
    ensures { result.now ≡ words.sorts_of_head syms.now head.now }
{
    match head {
        HeadName::Skolem(_) => &[],
        HeadName::Name(name) => match symbol_named(syms, name.as_str()) {
            None => &[],
            Some(symbol) => match syms.get(symbol) {
                None => &[],
                Some(symbol) => symbol.args.as_slice(),
            },
        },
    }
}

/// The same for an argument of this sort.
fn pattern_next(
    alloc: Global,
    syms: &Symbols,
    names: &mut Vec<(String, Var)>,
    sort: Sort,
    pattern: &TermSyntax,
) -> Result<(), NoMemory>
    ensures { OnOk result (listed names.new.items ≡ words.pattern_next syms.now (listed names.old.items) sort pattern.now) }
{
    match pattern {
        TermSyntax::Alone(head) => head_next(alloc, syms, names, sort, head),
        TermSyntax::Applied(head, parts) => {
            parts_next(alloc, syms, names, sorts_of(syms, head), parts.as_slice())
        }
        _ => Ok(()),
    }
}

/// The same for all arguments.
fn patterns_next(
    alloc: Global,
    syms: &Symbols,
    names: &mut Vec<(String, Var)>,
    sorts: &[Sort],
    patterns: &[TermSyntax],
) -> Result<(), NoMemory>
    ensures { OnOk result (listed names.new.items ≡ each_next (words.pattern_next syms.now) (listed names.old.items) sorts.now patterns.now) }
{
    match sorts {
        [] => Ok(()),
        [sort, sorts @ ..] => match patterns {
            [] => Ok(()),
            [pattern, patterns @ ..] => {
                pattern_next(alloc, syms, names, *sort, pattern)?;
                patterns_next(alloc, syms, names, sorts, patterns)
            }
        },
    }
}

/// The names that the arguments of a clause bring, where its heading takes these sorts, each with its
/// variable. The one error is want of memory.
pub(crate) fn clause_names(
    alloc: Global,
    syms: &Symbols,
    sorts: &[Sort],
    patterns: &[TermSyntax],
) -> Result<Vec<(String, Var)>, NoMemory>
    ensures { IfOk result (λ names. listed names.items ≡ words.clause_names syms.now sorts.now patterns.now) }
{
    let mut names = Vec::new(alloc);
    patterns_next(alloc, syms, &mut names, sorts, patterns)?;
    Ok(names)
}
