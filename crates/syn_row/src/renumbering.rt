// Rows with their variables renumbered. A term whose variables all keep their numbers is handed on, and
// so is each such part of a term; other nodes of terms are made by the bank.
ghost use Rattle.std.specs.Prelude.{◌≡◌, ◌≤◌, ◌<◌, ◌↔◌, ◌+◌, ◌^◌, ◌∷◌, [], map, sum, length, All, IfOk, IfSome, IsTrue};
ghost use Rattle.std.specs.Option.{option_map, option_map_or};
ghost use Rattle.syn_term.specs.Bank.{Belongs, Extends};
ghost use Rattle.syn_term.specs.Terms.{bare, nodes, variable_tree};
ghost use Rattle.syn_form.specs.declared.trees.Form.TheVariants as form;
ghost use Rattle.syn_form.specs.declared.trees.Form.TheViews as views;
ghost use Rattle.syn_form.specs.declared.trees.Out.TheViews as out_views;
ghost use Rattle.syn_form.specs.Inputs.{terms_size};
ghost use Rattle.syn_form.specs.inner.Joining.{terms_of};
ghost use Rattle.syn_form.specs.Plain.{IsFormed, IsFormedOut, IsSorted};
ghost use Rattle.syn_form.specs.Substitutions.{image};
ghost use Rattle.syn_form.specs.Trees.{bare_form, bare_out, form_terms, out_nodes, out_terms};
ghost use Rattle.syn_row.specs.Rows.{IsPlain, bare_row, first_occurrences, numbered_from, row_nodes, row_terms, row_vars, substituted_row};
ghost use Rattle.syn_row.specs.inner.Renumbering.{IsFormedOutput, renumbered, renumbered_form, renumbered_out};

use crate::occurrences::occurrences;
use crate::rows::Row;
use sqlite_items::Items;
use std::alloc::Global;
use syn_form::{Form, Out};
use syn_term::{Bank, NoMemory, Node, Shared, SymId, Symbols, Term, Var};

/// The variable with its number among these, which are numbered from `first` on; as it is where it isn't among them.
fn numbered(first: u32, vars: &[Var], v: Var) -> Var
    requires { first + length vars.now ≤ 2 ^ 32 }
    ensures { variable_tree result ≡ image (numbered_from first vars.now) v }
{
    for i in 0..vars.len() {
        if vars[i] == v {
            let number = first + i as u32;
            return Var {
                number,
                sort: v.sort,
            };
        }
    }
    v
}

/// Whether the variable keeps its number.
fn keeps_var(first: u32, vars: &[Var], v: Var) -> bool
    requires { first + length vars.now ≤ 2 ^ 32 }
    ensures { IsTrue result ↔ (image (numbered_from first vars.now) v ≡ variable_tree v) }
{
    numbered(first, vars, v) == v
}

/// Whether the variables of the term keep their numbers.
#[cycle(kept)]
fn keeps_term(first: u32, vars: &[Var], t: &Term) -> bool
    requires { first + length vars.now ≤ 2 ^ 32 }
    ensures { IsTrue result ↔ (bare (renumbered first vars.now t.now) ≡ bare t.now) }
{
    match t.get() {
        Node::Var(_, v) => keeps_var(first, vars, *v),
        Node::App(_, _, args) => keeps_terms(first, vars, args.as_slice()),
    }
}

/// Whether the variables of the terms keep their numbers.
#[cycle(kept)]
fn keeps_terms(first: u32, vars: &[Var], terms: &[Term]) -> bool
    requires { first + length vars.now ≤ 2 ^ 32 }
    ensures { IsTrue result ↔ (map (λ t. bare (renumbered first vars.now t)) terms.now ≡ map bare terms.now) }
{
    for t in terms {
        if !keeps_term(first, vars, t) {
            return false;
        }
    }
    true
}

/// The term once more.
fn term_again(t: &Term) -> Result<Term, NoMemory>
    ensures { IfOk result (λ u. u ≡ t.now) }
{
    match t.again() {
        Ok(t) => Ok(t),
        Err(_) => Err(NoMemory),
    }
}

/// The term renumbered.
#[cycle(terms)]
#[tactic(auto, using(crate::proofs::Growth::growth))]
fn renumber_term(
    bank: &mut Bank,
    alloc: Global,
    syms: &Symbols,
    first: u32,
    vars: &[Var],
    t: &Term,
) -> Result<Term, NoMemory>
    requires few { first + length vars.now ≤ 2 ^ 32 }
    requires sorted { IsSorted syms.now t.now }
    requires own { Belongs bank.old t.now }
    ensures tree { IfOk result (λ r. bare r ≡ bare (renumbered first vars.now t.now)) }
    ensures made { bank.new.made ≤ bank.old.made + nodes t.now }
    ensures extends { Extends bank.old bank.new }
    ensures belongs { IfOk result (Belongs bank.new) }
{
    if keeps_term(first, vars, t) {
        return term_again(t);
    }
    match t.get() {
        Node::Var(_, v) => bank.var(alloc, numbered(first, vars, *v)),
        Node::App(_, f, args) => {
            let parts = renumber_terms(bank, alloc, syms, first, vars, args.as_slice())?;
            let made = bank.app(alloc, syms, *f, parts.as_slice());
            drop(parts);
            match made {
                Ok(Some(made)) => Ok(made),
                Ok(None) => unreachable!(),
                Err(error) => Err(error),
            }
        }
    }
}

/// The terms renumbered.
#[cycle(terms)]
#[tactic(auto, using(crate::proofs::Growth::growth))]
fn renumber_terms(
    bank: &mut Bank,
    alloc: Global,
    syms: &Symbols,
    first: u32,
    vars: &[Var],
    terms: &[Term],
) -> Result<Items<Term>, NoMemory>
    requires few { first + length vars.now ≤ 2 ^ 32 }
    requires sorted { All (IsSorted syms.now) terms.now }
    requires own { All (Belongs bank.old) terms.now }
    ensures tree { IfOk result (λ rs. map bare rs ≡ map bare (map (renumbered first vars.now) terms.now)) }
    ensures made { bank.new.made ≤ bank.old.made + sum (map nodes terms.now) }
    ensures extends { Extends bank.old bank.new }
    ensures belongs { IfOk result (All (Belongs bank.new)) }
{
    let mut done = Items::new(alloc);
    for t in terms {
        done.push(renumber_term(bank, alloc, syms, first, vars, t)?)?;
    }
    Ok(done)
}

/// The atom renumbered.
#[tactic(auto, using(crate::proofs::Growth::growth))]
fn renumber_atom(
    bank: &mut Bank,
    alloc: Global,
    syms: &Symbols,
    first: u32,
    vars: &[Var],
    r: SymId,
    args: &[Term],
) -> Result<Form, NoMemory>
    requires few { first + length vars.now ≤ 2 ^ 32 }
    requires sorted { All (IsSorted syms.now) args.now }
    requires own { All (Belongs bank.old) args.now }
    ensures tree { IfOk result (λ g. bare_form g ≡ bare_form (renumbered_form first vars.now (form.Atom r args.now))) }
    ensures made { bank.new.made ≤ bank.old.made + sum (map nodes args.now) }
    ensures extends { Extends bank.old bank.new }
    ensures belongs { IfOk result (λ g. All (Belongs bank.new) (form_terms g)) }
{
    let args = renumber_terms(bank, alloc, syms, first, vars, args)?;
    Ok(Form::Atom(r, Shared::new(alloc, args)?))
}

/// The equality renumbered.
#[tactic(auto, using(crate::proofs::Growth::growth))]
fn renumber_equality(
    bank: &mut Bank,
    alloc: Global,
    syms: &Symbols,
    first: u32,
    vars: &[Var],
    s: &Term,
    t: &Term,
) -> Result<Form, NoMemory>
    requires few { first + length vars.now ≤ 2 ^ 32 }
    requires left { IsSorted syms.now s.now }
    requires right { IsSorted syms.now t.now }
    requires own { All (Belongs bank.old) (s.now ∷ t.now ∷ []) }
    ensures tree { IfOk result (λ g. bare_form g ≡ bare_form (renumbered_form first vars.now (form.Equal s.now t.now))) }
    ensures made { bank.new.made ≤ bank.old.made + (nodes s.now + nodes t.now) }
    ensures extends { Extends bank.old bank.new }
    ensures belongs { IfOk result (λ g. All (Belongs bank.new) (form_terms g)) }
{
    let s = renumber_term(bank, alloc, syms, first, vars, s)?;
    let t = renumber_term(bank, alloc, syms, first, vars, t)?;
    Ok(Form::Equal(s, t))
}

/// `not a`.
fn negation_of(alloc: Global, a: Form) -> Result<Form, NoMemory>
    ensures { IfOk result (λ g. g ≡ views.Not a) }
{
    match Shared::new(alloc, a) {
        Ok(a) => Ok(Form::Not(a)),
        Err(_) => Err(NoMemory),
    }
}

/// The `and` of the formulas.
pub(crate) fn conjunction_of(alloc: Global, all: Items<Form>) -> Result<Form, NoMemory>
    ensures { IfOk result (λ g. g ≡ views.And all) }
{
    match Shared::new(alloc, all) {
        Ok(all) => Ok(Form::And(all)),
        Err(_) => Err(NoMemory),
    }
}

/// The `or` of the formulas.
fn disjunction_of(alloc: Global, all: Items<Form>) -> Result<Form, NoMemory>
    ensures { IfOk result (λ g. g ≡ views.Or all) }
{
    match Shared::new(alloc, all) {
        Ok(all) => Ok(Form::Or(all)),
        Err(_) => Err(NoMemory),
    }
}

/// `a -> b`.
fn implication_of(alloc: Global, a: Form, b: Form) -> Result<Form, NoMemory>
    ensures { IfOk result (λ g. g ≡ views.Implies a b) }
{
    match both_shared(alloc, a, b) {
        Ok((a, b)) => Ok(Form::Implies(a, b)),
        Err(error) => Err(error),
    }
}

/// The two behind pointers.
fn both_shared<T: Drop>(alloc: Global, a: T, b: T) -> Result<(Shared<T>, Shared<T>), NoMemory>
    ensures { IfOk result (λ both. (both.0 ≡ a) × (both.1 ≡ b)) }
{
    match Shared::new(alloc, a) {
        Err(_) => {
            drop(b);
            Err(NoMemory)
        }
        Ok(a) => match Shared::new(alloc, b) {
            Ok(b) => Ok((a, b)),
            Err(_) => {
                drop(a);
                Err(NoMemory)
            }
        },
    }
}

/// The formula renumbered.
#[cycle(forms)]
#[tactic(auto, using(crate::proofs::Growth::growth))]
fn renumber_form(
    bank: &mut Bank,
    alloc: Global,
    syms: &Symbols,
    first: u32,
    vars: &[Var],
    f: &Form,
) -> Result<Form, NoMemory>
    requires few { first + length vars.now ≤ 2 ^ 32 }
    requires formed { IsFormed syms.now f.now }
    requires own { All (Belongs bank.old) (form_terms f.now) }
    ensures tree { IfOk result (λ g. bare_form g ≡ bare_form (renumbered_form first vars.now f.now)) }
    ensures made { bank.new.made ≤ bank.old.made + terms_size f.now }
    ensures extends { Extends bank.old bank.new }
    ensures belongs { IfOk result (λ g. All (Belongs bank.new) (form_terms g)) }
{
    match f {
        Form::True => Ok(Form::True),
        Form::False => Ok(Form::False),
        Form::Atom(r, args) => renumber_atom(
            bank,
            alloc,
            syms,
            first,
            vars,
            *r,
            args.get().as_slice(),
        ),
        Form::Equal(s, t) => renumber_equality(bank, alloc, syms, first, vars, s, t),
        Form::Not(a) => renumber_negation(bank, alloc, syms, first, vars, a.get()),
        Form::And(all) => match renumber_forms(
            bank,
            alloc,
            syms,
            first,
            vars,
            all.get().as_slice(),
        ) {
            Ok(all) => conjunction_of(alloc, all),
            Err(error) => Err(error),
        },
        Form::Or(all) => match renumber_forms(
            bank,
            alloc,
            syms,
            first,
            vars,
            all.get().as_slice(),
        ) {
            Ok(all) => disjunction_of(alloc, all),
            Err(error) => Err(error),
        },
        Form::Implies(a, b) => renumber_implication(
            bank,
            alloc,
            syms,
            first,
            vars,
            a.get(),
            b.get(),
        ),
    }
}

/// The negation of the formula renumbered.
#[cycle(forms)]
#[tactic(auto, using(crate::proofs::Growth::growth))]
fn renumber_negation(
    bank: &mut Bank,
    alloc: Global,
    syms: &Symbols,
    first: u32,
    vars: &[Var],
    a: &Form,
) -> Result<Form, NoMemory>
    requires few { first + length vars.now ≤ 2 ^ 32 }
    requires formed { IsFormed syms.now a.now }
    requires own { All (Belongs bank.old) (form_terms a.now) }
    ensures tree { IfOk result (λ g. bare_form g ≡ views.Not (bare_form (renumbered_form first vars.now a.now))) }
    ensures made { bank.new.made ≤ bank.old.made + terms_size a.now }
    ensures extends { Extends bank.old bank.new }
    ensures belongs { IfOk result (λ g. All (Belongs bank.new) (form_terms g)) }
{
    match renumber_form(bank, alloc, syms, first, vars, a) {
        Ok(a) => negation_of(alloc, a),
        other => other,
    }
}

/// The implication renumbered.
#[cycle(forms)]
#[tactic(auto, using(crate::proofs::Growth::growth))]
fn renumber_implication(
    bank: &mut Bank,
    alloc: Global,
    syms: &Symbols,
    first: u32,
    vars: &[Var],
    a: &Form,
    b: &Form,
) -> Result<Form, NoMemory>
    requires few { first + length vars.now ≤ 2 ^ 32 }
    requires left { IsFormed syms.now a.now }
    requires right { IsFormed syms.now b.now }
    requires own_left { All (Belongs bank.old) (form_terms a.now) }
    requires own_right { All (Belongs bank.old) (form_terms b.now) }
    ensures tree { IfOk result (λ g. bare_form g ≡ views.Implies (bare_form (renumbered_form first vars.now a.now)) (bare_form (renumbered_form first vars.now b.now))) }
    ensures made { bank.new.made ≤ bank.old.made + (terms_size a.now + terms_size b.now) }
    ensures extends { Extends bank.old bank.new }
    ensures belongs { IfOk result (λ g. All (Belongs bank.new) (form_terms g)) }
{
    let a = renumber_form(bank, alloc, syms, first, vars, a)?;
    match renumber_form(bank, alloc, syms, first, vars, b) {
        Ok(b) => implication_of(alloc, a, b),
        other => {
            drop(a);
            other
        }
    }
}

/// The formulas renumbered.
#[cycle(forms)]
#[tactic(auto, using(crate::proofs::Growth::growth))]
fn renumber_forms(
    bank: &mut Bank,
    alloc: Global,
    syms: &Symbols,
    first: u32,
    vars: &[Var],
    all: &[Form],
) -> Result<Items<Form>, NoMemory>
    requires few { first + length vars.now ≤ 2 ^ 32 }
    requires formed { All (IsFormed syms.now) all.now }
    requires own { All (Belongs bank.old) (terms_of all.now) }
    ensures tree { IfOk result (λ gs. map bare_form gs ≡ map bare_form (map (renumbered_form first vars.now) all.now)) }
    ensures made { bank.new.made ≤ bank.old.made + sum (map terms_size all.now) }
    ensures extends { Extends bank.old bank.new }
    ensures belongs { IfOk result (λ gs. All (Belongs bank.new) (terms_of gs)) }
{
    let mut done = Items::new(alloc);
    for f in all {
        done.push(renumber_form(bank, alloc, syms, first, vars, f)?)?;
    }
    Ok(done)
}

/// `if f then u else v`.
fn choice_of(alloc: Global, f: Form, u: Out, v: Out) -> Result<Out, NoMemory>
    ensures { IfOk result (λ p. p ≡ out_views.If f u v) }
{
    match both_shared(alloc, u, v) {
        Ok((u, v)) => match Shared::new(alloc, f) {
            Ok(f) => Ok(Out::If(f, u, v)),
            Err(_) => {
                drop(u);
                drop(v);
                Err(NoMemory)
            }
        },
        Err(error) => {
            drop(f);
            Err(error)
        }
    }
}

/// The output renumbered.
#[cycle(outs)]
#[tactic(auto, using(crate::proofs::Growth::growth))]
fn renumber_out(
    bank: &mut Bank,
    alloc: Global,
    syms: &Symbols,
    first: u32,
    vars: &[Var],
    o: &Out,
) -> Result<Out, NoMemory>
    requires few { first + length vars.now ≤ 2 ^ 32 }
    requires formed { IsFormedOut syms.now o.now }
    requires own { All (Belongs bank.old) (out_terms o.now) }
    ensures tree { IfOk result (λ p. bare_out p ≡ bare_out (renumbered_out first vars.now o.now)) }
    ensures made { bank.new.made ≤ bank.old.made + out_nodes o.now }
    ensures extends { Extends bank.old bank.new }
    ensures belongs { IfOk result (λ p. All (Belongs bank.new) (out_terms p)) }
{
    match o {
        Out::Give(t) => match renumber_term(bank, alloc, syms, first, vars, t) {
            Ok(t) => Ok(Out::Give(t)),
            Err(error) => Err(error),
        },
        Out::If(f, u, v) => renumber_choice(
            bank,
            alloc,
            syms,
            first,
            vars,
            f.get(),
            u.get(),
            v.get(),
        ),
    }
}

/// The choice renumbered.
#[cycle(outs)]
#[tactic(auto, using(crate::proofs::Growth::growth))]
fn renumber_choice(
    bank: &mut Bank,
    alloc: Global,
    syms: &Symbols,
    first: u32,
    vars: &[Var],
    f: &Form,
    u: &Out,
    v: &Out,
) -> Result<Out, NoMemory>
    requires few { first + length vars.now ≤ 2 ^ 32 }
    requires test { IsFormed syms.now f.now }
    requires left { IsFormedOut syms.now u.now }
    requires right { IsFormedOut syms.now v.now }
    requires own_test { All (Belongs bank.old) (form_terms f.now) }
    requires own_left { All (Belongs bank.old) (out_terms u.now) }
    requires own_right { All (Belongs bank.old) (out_terms v.now) }
    ensures tree { IfOk result (λ p. bare_out p ≡ out_views.If (bare_form (renumbered_form first vars.now f.now)) (bare_out (renumbered_out first vars.now u.now)) (bare_out (renumbered_out first vars.now v.now))) }
    ensures made { bank.new.made ≤ bank.old.made + (terms_size f.now + (out_nodes u.now + out_nodes v.now)) }
    ensures extends { Extends bank.old bank.new }
    ensures belongs { IfOk result (λ p. All (Belongs bank.new) (out_terms p)) }
{
    let f = renumber_form(bank, alloc, syms, first, vars, f)?;
    match renumber_arms(bank, alloc, syms, first, vars, u, v) {
        Ok((u, v)) => choice_of(alloc, f, u, v),
        Err(error) => {
            drop(f);
            Err(error)
        }
    }
}

/// Both outputs renumbered.
#[cycle(outs)]
#[tactic(auto, using(crate::proofs::Growth::growth))]
fn renumber_arms(
    bank: &mut Bank,
    alloc: Global,
    syms: &Symbols,
    first: u32,
    vars: &[Var],
    u: &Out,
    v: &Out,
) -> Result<(Out, Out), NoMemory>
    requires few { first + length vars.now ≤ 2 ^ 32 }
    requires left { IsFormedOut syms.now u.now }
    requires right { IsFormedOut syms.now v.now }
    requires own_left { All (Belongs bank.old) (out_terms u.now) }
    requires own_right { All (Belongs bank.old) (out_terms v.now) }
    ensures left { IfOk result (λ both. bare_out both.0 ≡ bare_out (renumbered_out first vars.now u.now)) }
    ensures right { IfOk result (λ both. bare_out both.1 ≡ bare_out (renumbered_out first vars.now v.now)) }
    ensures made { bank.new.made ≤ bank.old.made + (out_nodes u.now + out_nodes v.now) }
    ensures extends { Extends bank.old bank.new }
    ensures belongs { IfOk result (λ both. All (Belongs bank.new) (out_terms both.0) × All (Belongs bank.new) (out_terms both.1)) }
{
    let u = renumber_out(bank, alloc, syms, first, vars, u)?;
    match renumber_out(bank, alloc, syms, first, vars, v) {
        Ok(v) => Ok((u, v)),
        Err(error) => {
            drop(u);
            Err(error)
        }
    }
}

/// The output of a row renumbered, where there is one.
#[tactic(auto, using(crate::proofs::Growth::growth))]
fn renumber_output(
    bank: &mut Bank,
    alloc: Global,
    syms: &Symbols,
    first: u32,
    vars: &[Var],
    out: &Option<Out>,
) -> Result<Option<Out>, NoMemory>
    requires few { first + length vars.now ≤ 2 ^ 32 }
    requires formed { IsFormedOutput syms.now out.now }
    requires own { All (Belongs bank.old) (option_map_or out_terms out.now []) }
    ensures tree { IfOk result (λ o. option_map bare_out o ≡ option_map bare_out (option_map (renumbered_out first vars.now) out.now)) }
    ensures made { bank.new.made ≤ bank.old.made + option_map_or out_nodes out.now 0 }
    ensures extends { Extends bank.old bank.new }
    ensures belongs { IfOk result (λ o. All (Belongs bank.new) (option_map_or out_terms o [])) }
{
    match out {
        None => Ok(None),
        Some(out) => match renumber_out(bank, alloc, syms, first, vars, out) {
            Ok(out) => Ok(Some(out)),
            Err(error) => Err(error),
        },
    }
}

/// The row with these variables numbered from `first` on.
#[tactic(auto, using(crate::proofs::Growth::growth))]
fn renumber_row(
    bank: &mut Bank,
    alloc: Global,
    syms: &Symbols,
    first: u32,
    vars: &[Var],
    row: &Row,
) -> Result<Row, NoMemory>
    requires few { first + length vars.now ≤ 2 ^ 32 }
    requires form { IsFormed syms.now (row.now).form }
    requires out { IsFormedOutput syms.now (row.now).out }
    requires own { All (Belongs bank.old) (row_terms row.now) }
    ensures tree { IfOk result (λ r. bare_row r ≡ bare_row (substituted_row (numbered_from first vars.now) row.now)) }
    ensures made { bank.new.made ≤ bank.old.made + row_nodes row.now }
    ensures extends { Extends bank.old bank.new }
    ensures belongs { IfOk result (λ r. All (Belongs bank.new) (row_terms r)) }
{
    let form = renumber_form(bank, alloc, syms, first, vars, &row.form)?;
    match renumber_output(bank, alloc, syms, first, vars, &row.out) {
        Ok(out) => Ok(Row {
            side: row.side,
            form,
            out,
        }),
        Err(error) => {
            drop(form);
            Err(error)
        }
    }
}

/// The row with its variables numbered from `first` on, in the order in which they first occur.
#[tactic(auto, using(crate::proofs::Growth::growth))]
pub(crate) fn renumbered_from(
    alloc: Global,
    bank: &mut Bank,
    syms: &Symbols,
    first: u32,
    row: &Row,
) -> Result<Row, NoMemory>
    requires plain { IsPlain syms.now row.now }
    requires few { first + row_nodes row.now ≤ 2 ^ 32 }
    requires own { All (Belongs bank.old) (row_terms row.now) }
    ensures tree { IfOk result (λ r. bare_row r ≡ bare_row (substituted_row (numbered_from first (first_occurrences (row_vars row.now))) row.now)) }
    ensures made { bank.new.made ≤ bank.old.made + row_nodes row.now }
    ensures extends { Extends bank.old bank.new }
    ensures belongs { IfOk result (λ r. All (Belongs bank.new) (row_terms r)) }
{
    let vars = occurrences(alloc, row)?;
    let made = renumber_row(bank, alloc, syms, first, vars.as_slice(), row);
    drop(vars);
    made
}
