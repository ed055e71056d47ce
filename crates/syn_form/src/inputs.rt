// Formulas with terms in place of input symbols. All nodes are made anew by the bank, so no term of the
// formula has to be its own.
ghost use Rattle.std.specs.Prelude.{◌≡◌, ◌≤◌, ◌↔◌, ◌+◌, map, sum, All, IfOk, IsTrue};
ghost use Rattle.std.specs.Option.{option_copied};
ghost use Rattle.syn_term.specs.Bank.{Belongs, Extends};
ghost use Rattle.syn_term.specs.Terms.{bare, nodes};
ghost use Rattle.syn_form.specs.declared.trees.Form.TheVariants as form;
ghost use Rattle.syn_form.specs.declared.trees.Form.TheViews as views;
ghost use Rattle.syn_form.specs.Inputs.{AreInputs, InputsBelong, IsInput, form_with_inputs, listed_term, terms_size, with_inputs};
ghost use Rattle.syn_form.specs.InputLaws.{PutsInputs};
ghost use Rattle.syn_form.specs.inner.Joining.{joining, terms_of};
ghost use Rattle.syn_form.specs.Plain.{IsFormed, IsSorted};
ghost use Rattle.syn_form.specs.Simplification as rules;
ghost use Rattle.syn_form.specs.Trees.{bare_form, form_terms};

use crate::form::{implication_of, negation_of};
use crate::joins::{Junction, chained};
use crate::trees::Form;
use sqlite_items::Items;
use std::alloc::Global;
use syn_term::{Bank, Kind, NoMemory, Node, Shared, SymId, Symbols, Term};

/// Whether the symbol is an input symbol of the table, and the term of its sort.
fn is_input(syms: &Symbols, entry: &(SymId, Term)) -> bool
    ensures { IsTrue result ↔ IsInput syms.now entry.now }
{
    match syms.get(entry.0) {
        None => false,
        Some(sym) => sym.kind == Kind::Input && entry.1.sort_in(syms) == sym.result,
    }
}

/// Whether each is an input symbol of the table with a term of its sort.
pub fn are_inputs(syms: &Symbols, inputs: &[(SymId, Term)]) -> bool
    ensures { IsTrue result ↔ AreInputs syms.now inputs.now }
{
    for entry in inputs {
        if !is_input(syms, entry) {
            return false;
        }
    }
    true
}

/// The term that is listed for the symbol, the first if there are several.
fn listed(inputs: &[(SymId, Term)], f: SymId) -> Option<&Term>
    ensures { option_copied result ≡ listed_term inputs.now f }
{
    match inputs {
        [] => None,
        [first, rest @ ..] => {
            if first.0 == f {
                Some(&first.1)
            } else {
                listed(rest, f)
            }
        }
    }
}

/// The term once more.
fn term_again(t: &Term) -> Result<Term, NoMemory>
    ensures { IfOk result (λ u. u ≡ t.now) }
{
    match t.again() {
        Ok(t) => Ok(t),
        Err(_) => Err(NoMemory),
    }
}

/// The term with each listed symbol replaced.
#[cycle(terms)]
#[tactic(auto, using(crate::proofs::InputTerms::growth))]
fn put_in_term(
    bank: &mut Bank,
    alloc: Global,
    syms: &Symbols,
    t: &Term,
    inputs: &[(SymId, Term)],
) -> Result<Term, NoMemory>
    requires inputs { AreInputs syms.now inputs.now }
    requires sorted { IsSorted syms.now t.now }
    requires own { InputsBelong bank.old inputs.now }
    ensures tree { IfOk result (λ r. bare r ≡ bare (with_inputs inputs.now t.now)) }
    ensures made { bank.new.made ≤ bank.old.made + nodes t.now }
    ensures extends { Extends bank.old bank.new }
    ensures belongs { IfOk result (Belongs bank.new) }
{
    match t.get() {
        Node::Var(_, v) => bank.var(alloc, *v),
        Node::App(_, f, args) => match listed(inputs, *f) {
            Some(term) => term_again(term),
            None => {
                let parts = put_in_terms(bank, alloc, syms, args.as_slice(), inputs)?;
                let made = bank.app(alloc, syms, *f, parts.as_slice());
                drop(parts);
                match made {
                    Ok(Some(made)) => Ok(made),
                    Ok(None) => unreachable!(),
                    Err(error) => Err(error),
                }
            }
        },
    }
}

/// The same for each of the terms.
#[cycle(terms)]
#[tactic(auto, using(crate::proofs::InputTerms::growth))]
fn put_in_terms(
    bank: &mut Bank,
    alloc: Global,
    syms: &Symbols,
    ts: &[Term],
    inputs: &[(SymId, Term)],
) -> Result<Items<Term>, NoMemory>
    requires inputs { AreInputs syms.now inputs.now }
    requires sorted { All (IsSorted syms.now) ts.now }
    requires own { InputsBelong bank.old inputs.now }
    ensures tree { IfOk result (λ rs. map bare rs ≡ map bare (map (with_inputs inputs.now) ts.now)) }
    ensures made { bank.new.made ≤ bank.old.made + sum (map nodes ts.now) }
    ensures extends { Extends bank.old bank.new }
    ensures belongs { IfOk result (All (Belongs bank.new)) }
{
    let mut done = Items::new(alloc);
    for t in ts {
        done.push(put_in_term(bank, alloc, syms, t, inputs)?)?;
    }
    Ok(done)
}

/// The atom with each listed symbol replaced.
#[tactic(auto, using(crate::proofs::InputTerms::growth))]
fn put_in_atom(
    bank: &mut Bank,
    alloc: Global,
    syms: &Symbols,
    r: SymId,
    args: &[Term],
    inputs: &[(SymId, Term)],
) -> Result<Form, NoMemory>
    requires inputs { AreInputs syms.now inputs.now }
    requires sorted { All (IsSorted syms.now) args.now }
    requires own { InputsBelong bank.old inputs.now }
    ensures tree { IfOk result (λ g. bare_form g ≡ bare_form (form_with_inputs inputs.now (form.Atom r args.now))) }
    ensures made { bank.new.made ≤ bank.old.made + sum (map nodes args.now) }
    ensures extends { Extends bank.old bank.new }
    ensures belongs { IfOk result (λ g. All (Belongs bank.new) (form_terms g)) }
{
    let args = put_in_terms(bank, alloc, syms, args, inputs)?;
    Ok(Form::Atom(r, Shared::new(alloc, args)?))
}

/// The equality with each listed symbol replaced.
#[tactic(auto, using(crate::proofs::InputTerms::growth))]
fn put_in_equality(
    bank: &mut Bank,
    alloc: Global,
    syms: &Symbols,
    s: &Term,
    t: &Term,
    inputs: &[(SymId, Term)],
) -> Result<Form, NoMemory>
    requires inputs { AreInputs syms.now inputs.now }
    requires left { IsSorted syms.now s.now }
    requires right { IsSorted syms.now t.now }
    requires own { InputsBelong bank.old inputs.now }
    ensures tree { IfOk result (λ g. bare_form g ≡ bare_form (form_with_inputs inputs.now (form.Equal s.now t.now))) }
    ensures made { bank.new.made ≤ bank.old.made + (nodes s.now + nodes t.now) }
    ensures extends { Extends bank.old bank.new }
    ensures belongs { IfOk result (λ g. All (Belongs bank.new) (form_terms g)) }
{
    let s = put_in_term(bank, alloc, syms, s, inputs)?;
    let t = put_in_term(bank, alloc, syms, t, inputs)?;
    Ok(Form::Equal(s, t))
}

/// The formula with each listed symbol replaced.
#[cycle(forms)]
#[tactic(auto, using(crate::proofs::InputTerms::growth))]
fn put_in_form(
    bank: &mut Bank,
    alloc: Global,
    syms: &Symbols,
    f: &Form,
    inputs: &[(SymId, Term)],
) -> Result<Form, NoMemory>
    requires inputs { AreInputs syms.now inputs.now }
    requires formed { IsFormed syms.now f.now }
    requires own { InputsBelong bank.old inputs.now }
    ensures tree { IfOk result (λ g. bare_form g ≡ bare_form (form_with_inputs inputs.now f.now)) }
    ensures made { bank.new.made ≤ bank.old.made + terms_size f.now }
    ensures extends { Extends bank.old bank.new }
    ensures belongs { IfOk result (λ g. All (Belongs bank.new) (form_terms g)) }
{
    match f {
        Form::True => Ok(Form::True),
        Form::False => Ok(Form::False),
        Form::Atom(r, args) => put_in_atom(bank, alloc, syms, *r, args.get().as_slice(), inputs),
        Form::Equal(s, t) => put_in_equality(bank, alloc, syms, s, t, inputs),
        Form::Not(a) => match put_in_form(bank, alloc, syms, a.get(), inputs) {
            Ok(a) => negation_of(alloc, a),
            other => other,
        },
        Form::And(all) => {
            put_in_chain(
                bank,
                alloc,
                syms,
                Junction::And,
                all.get().as_slice(),
                inputs,
            )
        }
        Form::Or(all) => {
            put_in_chain(
                bank,
                alloc,
                syms,
                Junction::Or,
                all.get().as_slice(),
                inputs,
            )
        }
        Form::Implies(a, b) => put_in_sides(bank, alloc, syms, a.get(), b.get(), inputs),
    }
}

/// The implication, with each listed symbol replaced in both sides.
#[cycle(forms)]
#[tactic(auto, using(crate::proofs::InputTerms::growth))]
fn put_in_sides(
    bank: &mut Bank,
    alloc: Global,
    syms: &Symbols,
    a: &Form,
    b: &Form,
    inputs: &[(SymId, Term)],
) -> Result<Form, NoMemory>
    requires inputs { AreInputs syms.now inputs.now }
    requires left { IsFormed syms.now a.now }
    requires right { IsFormed syms.now b.now }
    requires own { InputsBelong bank.old inputs.now }
    ensures tree { IfOk result (λ g. bare_form g ≡ views.Implies (bare_form (form_with_inputs inputs.now a.now)) (bare_form (form_with_inputs inputs.now b.now))) }
    ensures made { bank.new.made ≤ bank.old.made + (terms_size a.now + terms_size b.now) }
    ensures extends { Extends bank.old bank.new }
    ensures belongs { IfOk result (λ g. All (Belongs bank.new) (form_terms g)) }
{
    let a = put_in_form(bank, alloc, syms, a, inputs)?;
    match put_in_form(bank, alloc, syms, b, inputs) {
        Ok(b) => implication_of(alloc, a, b),
        other => {
            drop(a);
            other
        }
    }
}

/// The chain of these members, with each listed symbol replaced in all of them.
#[cycle(forms)]
#[tactic(auto, using(crate::proofs::InputTerms::growth))]
fn put_in_chain(
    bank: &mut Bank,
    alloc: Global,
    syms: &Symbols,
    j: Junction,
    fs: &[Form],
    inputs: &[(SymId, Term)],
) -> Result<Form, NoMemory>
    requires inputs { AreInputs syms.now inputs.now }
    requires formed { All (IsFormed syms.now) fs.now }
    requires own { InputsBelong bank.old inputs.now }
    ensures tree { IfOk result (λ g. bare_form g ≡ bare_form (rules.chain (joining j) (map (form_with_inputs inputs.now) fs.now))) }
    ensures made { bank.new.made ≤ bank.old.made + sum (map terms_size fs.now) }
    ensures extends { Extends bank.old bank.new }
    ensures belongs { IfOk result (λ g. All (Belongs bank.new) (form_terms g)) }
{
    match put_in_forms(bank, alloc, syms, fs, inputs) {
        Ok(members) => chained(alloc, j, members),
        Err(error) => Err(error),
    }
}

/// The same for each of the formulas.
#[cycle(forms)]
#[tactic(auto, using(crate::proofs::InputTerms::growth))]
fn put_in_forms(
    bank: &mut Bank,
    alloc: Global,
    syms: &Symbols,
    fs: &[Form],
    inputs: &[(SymId, Term)],
) -> Result<Items<Form>, NoMemory>
    requires inputs { AreInputs syms.now inputs.now }
    requires formed { All (IsFormed syms.now) fs.now }
    requires own { InputsBelong bank.old inputs.now }
    ensures tree { IfOk result (λ gs. map bare_form gs ≡ map bare_form (map (form_with_inputs inputs.now) fs.now)) }
    ensures made { bank.new.made ≤ bank.old.made + sum (map terms_size fs.now) }
    ensures extends { Extends bank.old bank.new }
    ensures belongs { IfOk result (λ gs. All (Belongs bank.new) (terms_of gs)) }
{
    let mut done = Items::new(alloc);
    for f in fs {
        done.push(put_in_form(bank, alloc, syms, f, inputs)?)?;
    }
    Ok(done)
}

/// The formula with each listed input symbol replaced by its term, everywhere at once: what stands in
/// a term that was put in is not looked at again. Of two terms for one symbol the first counts.
///
/// The bank makes no more nodes than the formula's terms have; these needn't be its own. What comes of
/// a formed formula, and which variables it has, is the record `PutsInputs`. The one error is
/// `NoMemory`.
pub fn put_inputs(
    alloc: Global,
    bank: &mut Bank,
    syms: &Symbols,
    f: &Form,
    inputs: &[(SymId, Term)],
) -> Result<Form, NoMemory>
    requires inputs { AreInputs syms.now inputs.now }
    requires formed { IsFormed syms.now f.now }
    requires own { InputsBelong bank.old inputs.now }
    ensures tree { IfOk result (λ g. bare_form g ≡ bare_form (form_with_inputs inputs.now f.now)) }
    ensures made { bank.new.made ≤ bank.old.made + terms_size f.now }
    ensures extends { Extends bank.old bank.new }
    ensures belongs { IfOk result (λ g. All (Belongs bank.new) (form_terms g)) }
    ensures laws { PutsInputs inputs.now f.now }
{
    put_in_form(bank, alloc, syms, f, inputs)
}
