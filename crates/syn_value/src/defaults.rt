// The default value and the default term of a sort. A declared sort's default term has at most 64 nodes,
// so that no default is large.
ghost use Rattle.std.specs.Prelude.{◌≡◌, All, IfOk, Some, map};
ghost use Rattle.syn_term.specs.Bank.{Belongs, Extends};
ghost use Rattle.syn_term.specs.Symbols.{IsSort};
ghost use Rattle.syn_term.specs.Terms.{IsApplication, application, bare, sort_of};
ghost use Rattle.syn_value.specs.inner.Applying.{IsValued};
ghost use Rattle.syn_value.specs.Defaults.{DefaultsFit, default_term_tree, default_value};

use crate::value::{Value, Values};
use sqlite_items::Items;
use std::alloc::Global;
use syn_term::{Bank, NoMemory, Shape, Sort, SymId, Symbols, Term};

/// The default value of the sort: 0, the empty list, or the tuple of the parts' default values. It asks
/// that the sort is there. The one error is want of memory.
pub fn default_of(alloc: Global, syms: &Symbols, sort: Sort) -> Result<Value, NoMemory>
    requires { IsSort syms.now sort }
    ensures value { IfOk result (λ v. v ≡ default_value syms.now sort) }
    ensures law { DefaultsFit }
{
    default_at(alloc, syms, sort)
}

#[cycle(default_value)]
fn default_at(alloc: Global, syms: &Symbols, sort: Sort) -> Result<Value, NoMemory>
    requires { IsSort syms.now sort }
    ensures { IfOk result (λ v. v ≡ default_value syms.now sort) }
{
    match syms.shape(sort) {
        None => unreachable!(),
        Some(Shape::Nat) => Ok(Value::number(0)),
        Some(Shape::List { .. }) => Ok(Value::list(Values::empty())),
        Some(Shape::Tuple { parts, .. }) => {
            let parts = default_parts(alloc, syms, parts.as_slice())?;
            Ok(Value::tuple(parts))
        }
    }
}

/// The default values of the sorts, in their order, made from the last to the first.
#[cycle(default_value)]
fn default_parts(alloc: Global, syms: &Symbols, sorts: &[Sort]) -> Result<Values, NoMemory>
    requires { All (IsSort syms.now) sorts.now }
    ensures { IfOk result (λ vs. vs ≡ map (default_value syms.now) sorts.now) }
{
    let mut made = Values::empty();
    let mut i = sorts.len();
    while 0 < i {
        match default_at(alloc, syms, sorts[i - 1]) {
            Ok(first) => {
                made = Values::cons(alloc, first, made)?;
                i -= 1;
            }
            Err(error) => {
                drop(made);
                return Err(error);
            }
        }
    }
    Ok(made)
}

/// The default term of the sort, made by the bank: `0`, the empty list, or the tuple of the parts'
/// default terms. It asks that the sort is there. The one error is want of memory.
#[cycle(default_term)]
pub fn default_term(
    alloc: Global,
    bank: &mut Bank,
    syms: &Symbols,
    sort: Sort,
) -> Result<Term, NoMemory>
    requires { IsSort syms.now sort }
    ensures tree { IfOk result (λ t. bare t ≡ default_term_tree syms.now sort) }
    ensures sort { IfOk result (λ t. sort_of syms.now t ≡ Some sort) }
    ensures extends { Extends bank.old bank.new }
    ensures belongs { IfOk result (Belongs bank.new) }
{
    match syms.shape(sort) {
        None => unreachable!(),
        Some(Shape::Nat) => applied(alloc, bank, syms, SymId(0), &[], sort),
        Some(Shape::List { nil, .. }) => applied(alloc, bank, syms, *nil, &[], sort),
        Some(Shape::Tuple { make, parts }) => {
            let args = default_args(alloc, bank, syms, parts.as_slice())?;
            let made = applied(alloc, bank, syms, *make, args.as_slice(), sort);
            drop(args);
            made
        }
    }
}

/// The default terms of the sorts, in their order.
#[cycle(default_term)]
fn default_args(
    alloc: Global,
    bank: &mut Bank,
    syms: &Symbols,
    sorts: &[Sort],
) -> Result<Items<Term>, NoMemory>
    requires { All (IsSort syms.now) sorts.now }
    ensures tree { IfOk result (λ ts. map bare ts ≡ map (default_term_tree syms.now) sorts.now) }
    ensures sort { IfOk result (λ ts. map (sort_of syms.now) ts ≡ map Some sorts.now) }
    ensures extends { Extends bank.old bank.new }
    ensures belongs { IfOk result (λ ts. All (Belongs bank.new) ts) }
{
    let mut made = Items::new(alloc);
    for sort in sorts {
        match default_term(alloc, bank, syms, *sort) {
            Ok(term) => made.push(term)?,
            Err(error) => {
                drop(made);
                return Err(error);
            }
        }
    }
    Ok(made)
}

/// The symbol applied to the arguments, which may be. Its result is of the sort.
fn applied(
    alloc: Global,
    bank: &mut Bank,
    syms: &Symbols,
    f: SymId,
    args: &[Term],
    _sort: Sort,
) -> Result<Term, NoMemory>
    requires may { IsApplication syms.now f args.now }
    requires value { IsValued syms.now f _sort }
    requires args { All (Belongs bank.old) args.now }
    ensures tree { IfOk result (λ t. bare t ≡ application f (map bare args.now)) }
    ensures sort { IfOk result (λ t. sort_of syms.now t ≡ Some _sort) }
    ensures extends { Extends bank.old bank.new }
    ensures belongs { IfOk result (Belongs bank.new) }
{
    match bank.app(alloc, syms, f, args)? {
        Some(term) => Ok(term),
        None => unreachable!(),
    }
}
