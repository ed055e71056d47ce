// Formulas with a term replaced at a position. What stands beside the way is kept and not made again.
ghost use Rattle.std.specs.Prelude.{◌≡◌, ◌≤◌, ◌↔◌, ◌+◌, All, IfOk, IfNone, IfSome, IsTrue, MatchOption, length};
ghost use Rattle.syn_term.specs.Bank.{Belongs, Extends};
ghost use Rattle.syn_term.specs.Positions.{MayReplace, replaced_at};
ghost use Rattle.syn_term.specs.Terms.{bare, sort_of};
ghost use Rattle.syn_form.specs.declared.trees.Form.TheVariants as form;
ghost use Rattle.syn_form.specs.declared.trees.Form.TheViews as views;
ghost use Rattle.syn_form.specs.Positions.{formula, term};
ghost use Rattle.syn_form.specs.Replacing.{MayReplaceTerm, form_replaced_at, with_kth, with_part};
ghost use Rattle.syn_form.specs.ReplacingLaws.{ReplacesTerm};
ghost use Rattle.syn_form.specs.Trees.{bare_form, form_terms};

use crate::form::negation_of;
use crate::trees::{Form, Part};
use sqlite_items::Items;
use std::alloc::Global;
use syn_term::{Bank, NoMemory, Pos, Shared, Symbols, Term};

/// The terms with another at k, counted from 1.
fn terms_with(
    alloc: Global,
    terms: &[Term],
    k: u32,
    new: Term,
) -> Result<Shared<Items<Term>>, NoMemory>
    ensures { IfOk result (λ xs. xs ≡ with_kth terms.now k new) }
{
    let mut items = terms_again(alloc, terms)?;
    if 1 <= k && k as usize <= items.len() {
        items.set(k as usize - 1, new);
    }
    Ok(Shared::new(alloc, items)?)
}

/// `new = t`.
fn with_first(new: Term, t: &Term) -> Result<Form, NoMemory>
    ensures { IfOk result (λ g. g ≡ form.Equal new t.now) }
{
    match t.again() {
        Ok(t) => Ok(Form::Equal(new, t)),
        Err(_) => {
            drop(new);
            Err(NoMemory)
        }
    }
}

/// `s = new`.
fn with_second(s: &Term, new: Term) -> Result<Form, NoMemory>
    ensures { IfOk result (λ g. g ≡ form.Equal s.now new) }
{
    match s.again() {
        Ok(s) => Ok(Form::Equal(s, new)),
        Err(_) => {
            drop(new);
            Err(NoMemory)
        }
    }
}

/// The same terms once more.
fn terms_again(alloc: Global, terms: &[Term]) -> Result<Items<Term>, NoMemory>
    ensures { IfOk result (λ items. items ≡ terms.now) }
{
    let mut items = Items::new(alloc);
    for term in terms {
        items.push(term.again()?)?;
    }
    Ok(items)
}

/// The formulas with another at k, counted from 1.
fn forms_with(
    alloc: Global,
    forms: &[Form],
    k: u32,
    new: Form,
) -> Result<Shared<Items<Form>>, NoMemory>
    ensures { IfOk result (λ xs. xs ≡ with_kth forms.now k new) }
{
    match forms_again(alloc, forms) {
        Ok(mut items) => {
            set_kth(&mut items, k, new);
            Ok(Shared::new(alloc, items)?)
        }
        Err(error) => {
            drop(new);
            Err(error)
        }
    }
}

/// `new -> b`.
fn with_left(alloc: Global, new: Form, b: &Shared<Form>) -> Result<Form, NoMemory>
    ensures { IfOk result (λ g. g ≡ views.Implies new b.now) }
{
    match Shared::new(alloc, new) {
        Err(_) => Err(NoMemory),
        Ok(a) => match b.again() {
            Ok(b) => Ok(Form::Implies(a, b)),
            Err(_) => {
                drop(a);
                Err(NoMemory)
            }
        },
    }
}

/// `a -> new`.
fn with_right(alloc: Global, a: &Shared<Form>, new: Form) -> Result<Form, NoMemory>
    ensures { IfOk result (λ g. g ≡ views.Implies a.now new) }
{
    match Shared::new(alloc, new) {
        Err(_) => Err(NoMemory),
        Ok(b) => match a.again() {
            Ok(a) => Ok(Form::Implies(a, b)),
            Err(_) => {
                drop(b);
                Err(NoMemory)
            }
        },
    }
}

/// Puts the formula in place of the k-th, where there is one.
fn set_kth(items: &mut Items<Form>, k: u32, new: Form)
    ensures { items.new ≡ with_kth items.old k new }
{
    if k == 0 {
        drop(new);
        return;
    }
    let index = k as usize - 1;
    if index < items.len() {
        items.set(index, new);
    } else {
        drop(new);
    }
}

/// The same formulas once more.
fn forms_again(alloc: Global, forms: &[Form]) -> Result<Items<Form>, NoMemory>
    ensures { IfOk result (λ items. items ≡ forms.now) }
{
    let mut items = Items::new(alloc);
    for form in forms {
        items.push(form.again()?)?;
    }
    Ok(items)
}

/// The steps as a position.
fn way(alloc: Global, steps: &[u32]) -> Result<Pos, NoMemory>
    ensures { IfOk result (λ p. p ≡ steps.now) }
{
    let mut way = Pos::root(alloc);
    for k in steps {
        way.push(*k)?;
    }
    Ok(way)
}

/// The formula with a term as its k-th child.
fn with_term(alloc: Global, f: &Form, k: u32, new: Term) -> Result<Form, NoMemory>
    ensures { IfOk result (λ g. g ≡ with_part f.now (term new) k) }
{
    match f {
        Form::Atom(r, args) => match terms_with(alloc, args.get().as_slice(), k, new) {
            Ok(args) => Ok(Form::Atom(*r, args)),
            Err(error) => Err(error),
        },
        Form::Equal(s, t) => match k {
            1 => with_first(new, t),
            2 => with_second(s, new),
            _ => {
                drop(new);
                f.again()
            }
        },
        _ => {
            drop(new);
            f.again()
        }
    }
}

/// The formula with a formula as its k-th child.
fn with_form(alloc: Global, f: &Form, k: u32, new: Form) -> Result<Form, NoMemory>
    ensures { IfOk result (λ g. g ≡ with_part f.now (formula new) k) }
{
    match f {
        Form::Not(_) => match k {
            1 => negation_of(alloc, new),
            _ => {
                drop(new);
                f.again()
            }
        },
        Form::And(all) => match forms_with(alloc, all.get().as_slice(), k, new) {
            Ok(all) => Ok(Form::And(all)),
            Err(error) => Err(error),
        },
        Form::Or(all) => match forms_with(alloc, all.get().as_slice(), k, new) {
            Ok(all) => Ok(Form::Or(all)),
            Err(error) => Err(error),
        },
        Form::Implies(a, b) => match k {
            1 => with_left(alloc, new, b),
            2 => with_right(alloc, a, new),
            _ => {
                drop(new);
                f.again()
            }
        },
        _ => {
            drop(new);
            f.again()
        }
    }
}

/// The term with a new subterm at the end of the way, where one of its sort stands.
#[tactic(auto, using(crate::proofs::InputTerms::growth))]
fn put_in_term(
    bank: &mut Bank,
    alloc: Global,
    syms: &Symbols,
    t: &Term,
    path: &[u32],
    new: &Term,
) -> Result<Term, NoMemory>
    requires may { MayReplace syms.now t.now path.now new.now }
    requires own { Belongs bank.old t.now }
    requires new { Belongs bank.old new.now }
    ensures tree { IfOk result (λ u. bare u ≡ bare (replaced_at path.now new.now t.now)) }
    ensures made { bank.new.made ≤ bank.old.made + length path.now }
    ensures extends { Extends bank.old bank.new }
    ensures belongs { IfOk result (Belongs bank.new) }
{
    let way = way(alloc, path)?;
    match bank.replace_at(alloc, syms, t, &way, new)? {
        Some(made) => Ok(made),
        None => unreachable!(),
    }
}

/// The formula with a new term at the end of the way, where one of its sort stands.
#[tactic(auto, using(crate::proofs::InputTerms::growth))]
fn put_in_form(
    bank: &mut Bank,
    alloc: Global,
    syms: &Symbols,
    f: &Form,
    path: &[u32],
    new: &Term,
) -> Result<Form, NoMemory>
    requires may { MayReplaceTerm syms.now f.now path.now new.now }
    requires own { All (Belongs bank.old) (form_terms f.now) }
    requires new { Belongs bank.old new.now }
    ensures tree { IfOk result (λ g. bare_form g ≡ bare_form (form_replaced_at path.now new.now f.now)) }
    ensures made { bank.new.made ≤ bank.old.made + length path.now }
    ensures extends { Extends bank.old bank.new }
    ensures belongs { IfOk result (λ g. All (Belongs bank.new) (form_terms g)) }
{
    match path {
        [] => f.again(),
        [k, rest @ ..] => match f.child(*k) {
            None => f.again(),
            Some(Part::F(part)) => {
                let part = put_in_form(bank, alloc, syms, part, rest, new)?;
                with_form(alloc, f, *k, part)
            }
            Some(Part::T(t)) => {
                let t = put_in_term(bank, alloc, syms, t, rest, new)?;
                with_term(alloc, f, *k, t)
            }
        },
    }
}

/// Whether a term of this one's sort stands at the position.
fn may_replace(syms: &Symbols, f: &Form, p: &Pos, new: &Term) -> bool
    ensures { IsTrue result ↔ MayReplaceTerm syms.now f.now p.now new.now }
{
    match f.at(p) {
        Some(Part::T(old)) => old.sort_in(syms) == new.sort_in(syms),
        _ => false,
    }
}

/// The formula with a new term at the position; None exactly where no term stands there or one of
/// another sort, and then nothing is made. What stands beside the way is kept and not made again, so
/// no more nodes are made than the position has numbers. What comes of a formed formula, and which
/// variables it has, is the record `ReplacesTerm`.
#[tactic(auto, using(crate::proofs::InputTerms::growth))]
pub fn replace_term(
    alloc: Global,
    bank: &mut Bank,
    syms: &Symbols,
    f: &Form,
    p: &Pos,
    new: &Term,
) -> Result<Option<Form>, NoMemory>
    requires own { All (Belongs bank.old) (form_terms f.now) }
    requires new { Belongs bank.old new.now }
    ensures tree { IfOk result (λ o. MatchOption o (¬ (MayReplaceTerm syms.now f.now p.now new.now)) (λ g. MayReplaceTerm syms.now f.now p.now new.now × (bare_form g ≡ bare_form (form_replaced_at p.now new.now f.now)))) }
    ensures none { IfOk result (λ o. IfNone o (bank.new ≡ bank.old)) }
    ensures made { bank.new.made ≤ bank.old.made + length p.now }
    ensures extends { Extends bank.old bank.new }
    ensures belongs { IfOk result (λ o. IfSome o (λ g. All (Belongs bank.new) (form_terms g))) }
    ensures laws { ReplacesTerm p.now new.now f.now }
{
    if !may_replace(syms, f, p, new) {
        return Ok(None);
    }
    let replaced = put_in_form(bank, alloc, syms, f, p.as_slice(), new)?;
    Ok(Some(replaced))
}
