// Formulas whose variables become terms. Each is made anew, of terms that are handed on where nothing of theirs
// changes.
ghost use Rattle.std.specs.Prelude.{◌≡◌, ◌≤◌, ◌+◌, ◌∷◌, [], map, sum, All, IfOk};
ghost use Rattle.std.specs.List.{flat_map};
ghost use Rattle.syn_term.specs.Bank.{Belongs, Extends};
ghost use Rattle.syn_form.specs.declared.trees.Form.TheVariants as form;
ghost use Rattle.syn_form.specs.declared.trees.Form.TheViews as views;
ghost use Rattle.syn_form.specs.Plain.{IsFormed, IsSorted};
ghost use Rattle.syn_form.specs.Trees.{bare_form, form_terms};
ghost use Rattle.syn_unify.specs.Bindings.{remade_in_form, remade_nodes};
ghost use Rattle.syn_unify.specs.inner.Changes.{HoldsSorts, IsOwn, becomes, cost};
ghost use Rattle.syn_unify.specs.inner.Forms.{form_under};

use crate::changing::{Change, whole_term, whole_terms};
use crate::making::{conjunction_of, disjunction_of, implication_of, negation_of};
use sqlite_items::Items;
use std::alloc::Global;
use syn_form::Form;
use syn_term::{Bank, NoMemory, Shared, SymId, Symbols, Term};

/// The atom with its variables changed.
#[tactic(auto, using(crate::proofs::Growth::growth))]
fn changed_atom(
    alloc: Global,
    bank: &mut Bank,
    syms: &Symbols,
    change: &Change<'_>,
    r: SymId,
    args: &[Term],
) -> Result<Form, NoMemory>
    requires sorts { HoldsSorts syms.now (becomes change.now) }
    requires held { IsOwn bank.old change.now }
    requires sorted { All (IsSorted syms.now) args.now }
    requires own { All (Belongs bank.old) args.now }
    ensures tree { IfOk result (λ g. bare_form g ≡ form_under (becomes change.now) (form.Atom r args.now)) }
    ensures made { bank.new.made ≤ bank.old.made + sum (map (remade_nodes (cost change.now)) args.now) }
    ensures extends { Extends bank.old bank.new }
    ensures belongs { IfOk result (λ g. All (Belongs bank.new) (form_terms g)) }
{
    let args = whole_terms(alloc, bank, syms, change, args)?;
    Ok(Form::Atom(r, Shared::new(alloc, args)?))
}

/// The equality with its variables changed.
#[tactic(auto, using(crate::proofs::Growth::growth))]
fn changed_equality(
    alloc: Global,
    bank: &mut Bank,
    syms: &Symbols,
    change: &Change<'_>,
    s: &Term,
    t: &Term,
) -> Result<Form, NoMemory>
    requires sorts { HoldsSorts syms.now (becomes change.now) }
    requires held { IsOwn bank.old change.now }
    requires left { IsSorted syms.now s.now }
    requires right { IsSorted syms.now t.now }
    requires own { All (Belongs bank.old) (s.now ∷ t.now ∷ []) }
    ensures tree { IfOk result (λ g. bare_form g ≡ form_under (becomes change.now) (form.Equal s.now t.now)) }
    ensures made { bank.new.made ≤ bank.old.made + (remade_nodes (cost change.now) s.now + remade_nodes (cost change.now) t.now) }
    ensures extends { Extends bank.old bank.new }
    ensures belongs { IfOk result (λ g. All (Belongs bank.new) (form_terms g)) }
{
    let s = whole_term(alloc, bank, syms, change, s)?;
    let t = whole_term(alloc, bank, syms, change, t)?;
    Ok(Form::Equal(s, t))
}

/// The formula with its variables changed.
#[cycle(forms)]
#[tactic(auto, using(crate::proofs::Growth::growth))]
pub(crate) fn changed_form(
    alloc: Global,
    bank: &mut Bank,
    syms: &Symbols,
    change: &Change<'_>,
    f: &Form,
) -> Result<Form, NoMemory>
    requires sorts { HoldsSorts syms.now (becomes change.now) }
    requires held { IsOwn bank.old change.now }
    requires formed { IsFormed syms.now f.now }
    requires own { All (Belongs bank.old) (form_terms f.now) }
    ensures tree { IfOk result (λ g. bare_form g ≡ form_under (becomes change.now) f.now) }
    ensures made { bank.new.made ≤ bank.old.made + remade_in_form (cost change.now) f.now }
    ensures extends { Extends bank.old bank.new }
    ensures belongs { IfOk result (λ g. All (Belongs bank.new) (form_terms g)) }
{
    match f {
        Form::True => Ok(Form::True),
        Form::False => Ok(Form::False),
        Form::Atom(r, args) => changed_atom(alloc, bank, syms, change, *r, args.get().as_slice()),
        Form::Equal(s, t) => changed_equality(alloc, bank, syms, change, s, t),
        Form::Not(a) => changed_negation(alloc, bank, syms, change, a.get()),
        Form::And(all) => changed_conjunction(alloc, bank, syms, change, all.get().as_slice()),
        Form::Or(all) => changed_disjunction(alloc, bank, syms, change, all.get().as_slice()),
        Form::Implies(a, b) => changed_implication(alloc, bank, syms, change, a.get(), b.get()),
    }
}

/// The negation of the formula with its variables changed.
#[cycle(forms)]
#[tactic(auto, using(crate::proofs::Growth::growth))]
fn changed_negation(
    alloc: Global,
    bank: &mut Bank,
    syms: &Symbols,
    change: &Change<'_>,
    a: &Form,
) -> Result<Form, NoMemory>
    requires sorts { HoldsSorts syms.now (becomes change.now) }
    requires held { IsOwn bank.old change.now }
    requires formed { IsFormed syms.now a.now }
    requires own { All (Belongs bank.old) (form_terms a.now) }
    ensures tree { IfOk result (λ g. bare_form g ≡ views.Not (form_under (becomes change.now) a.now)) }
    ensures made { bank.new.made ≤ bank.old.made + remade_in_form (cost change.now) a.now }
    ensures extends { Extends bank.old bank.new }
    ensures belongs { IfOk result (λ g. All (Belongs bank.new) (form_terms g)) }
{
    match changed_form(alloc, bank, syms, change, a) {
        Ok(a) => negation_of(alloc, a),
        other => other,
    }
}

/// The `and` of the formulas with their variables changed.
#[cycle(forms)]
#[tactic(auto, using(crate::proofs::Growth::growth))]
fn changed_conjunction(
    alloc: Global,
    bank: &mut Bank,
    syms: &Symbols,
    change: &Change<'_>,
    all: &[Form],
) -> Result<Form, NoMemory>
    requires sorts { HoldsSorts syms.now (becomes change.now) }
    requires held { IsOwn bank.old change.now }
    requires formed { All (IsFormed syms.now) all.now }
    requires own { All (Belongs bank.old) (flat_map form_terms all.now) }
    ensures tree { IfOk result (λ g. bare_form g ≡ views.And (map (form_under (becomes change.now)) all.now)) }
    ensures made { bank.new.made ≤ bank.old.made + sum (map (remade_in_form (cost change.now)) all.now) }
    ensures extends { Extends bank.old bank.new }
    ensures belongs { IfOk result (λ g. All (Belongs bank.new) (form_terms g)) }
{
    match changed_forms(alloc, bank, syms, change, all) {
        Ok(all) => conjunction_of(alloc, all),
        Err(error) => Err(error),
    }
}

/// The `or` of the formulas with their variables changed.
#[cycle(forms)]
#[tactic(auto, using(crate::proofs::Growth::growth))]
fn changed_disjunction(
    alloc: Global,
    bank: &mut Bank,
    syms: &Symbols,
    change: &Change<'_>,
    all: &[Form],
) -> Result<Form, NoMemory>
    requires sorts { HoldsSorts syms.now (becomes change.now) }
    requires held { IsOwn bank.old change.now }
    requires formed { All (IsFormed syms.now) all.now }
    requires own { All (Belongs bank.old) (flat_map form_terms all.now) }
    ensures tree { IfOk result (λ g. bare_form g ≡ views.Or (map (form_under (becomes change.now)) all.now)) }
    ensures made { bank.new.made ≤ bank.old.made + sum (map (remade_in_form (cost change.now)) all.now) }
    ensures extends { Extends bank.old bank.new }
    ensures belongs { IfOk result (λ g. All (Belongs bank.new) (form_terms g)) }
{
    match changed_forms(alloc, bank, syms, change, all) {
        Ok(all) => disjunction_of(alloc, all),
        Err(error) => Err(error),
    }
}

/// The implication with its variables changed.
#[cycle(forms)]
#[tactic(auto, using(crate::proofs::Growth::growth))]
fn changed_implication(
    alloc: Global,
    bank: &mut Bank,
    syms: &Symbols,
    change: &Change<'_>,
    a: &Form,
    b: &Form,
) -> Result<Form, NoMemory>
    requires sorts { HoldsSorts syms.now (becomes change.now) }
    requires held { IsOwn bank.old change.now }
    requires left { IsFormed syms.now a.now }
    requires right { IsFormed syms.now b.now }
    requires own_left { All (Belongs bank.old) (form_terms a.now) }
    requires own_right { All (Belongs bank.old) (form_terms b.now) }
    ensures tree { IfOk result (λ g. bare_form g ≡ views.Implies (form_under (becomes change.now) a.now) (form_under (becomes change.now) b.now)) }
    ensures made { bank.new.made ≤ bank.old.made + (remade_in_form (cost change.now) a.now + remade_in_form (cost change.now) b.now) }
    ensures extends { Extends bank.old bank.new }
    ensures belongs { IfOk result (λ g. All (Belongs bank.new) (form_terms g)) }
{
    let a = changed_form(alloc, bank, syms, change, a)?;
    match changed_form(alloc, bank, syms, change, b) {
        Ok(b) => implication_of(alloc, a, b),
        other => {
            drop(a);
            other
        }
    }
}

/// The formulas with their variables changed.
#[cycle(forms)]
#[tactic(auto, using(crate::proofs::Growth::growth))]
fn changed_forms(
    alloc: Global,
    bank: &mut Bank,
    syms: &Symbols,
    change: &Change<'_>,
    all: &[Form],
) -> Result<Items<Form>, NoMemory>
    requires sorts { HoldsSorts syms.now (becomes change.now) }
    requires held { IsOwn bank.old change.now }
    requires formed { All (IsFormed syms.now) all.now }
    requires own { All (Belongs bank.old) (flat_map form_terms all.now) }
    ensures tree { IfOk result (λ gs. map bare_form gs ≡ map (form_under (becomes change.now)) all.now) }
    ensures made { bank.new.made ≤ bank.old.made + sum (map (remade_in_form (cost change.now)) all.now) }
    ensures extends { Extends bank.old bank.new }
    ensures belongs { IfOk result (λ gs. All (Belongs bank.new) (flat_map form_terms gs)) }
{
    let mut done = Items::new(alloc);
    for f in all {
        done.push(changed_form(alloc, bank, syms, change, f)?)?;
    }
    Ok(done)
}
