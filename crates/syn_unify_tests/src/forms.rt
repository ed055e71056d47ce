// Unifiers of formulas, and what becomes of terms by them.
ghost use Rattle.std.specs.Prelude.{◌≡◌, ◌∷◌, [], All, IfOk};
ghost use Rattle.std.specs.List.{flat_map};
ghost use Rattle.syn_term.specs.Bank.{Belongs, Extends};
ghost use Rattle.syn_form.specs.Plain.{IsFormed, IsSorted};
ghost use Rattle.syn_form.specs.Substitutions.{KeepsSorts};
ghost use Rattle.syn_unify.specs.Bindings.{BindsOwn};
ghost use Rattle.syn_form.specs.Trees.{form_terms};

use crate::samples::{LESS, make_table, term_of};
use crate::unifying::becomes;
use sqlite_items::Items;
use std::alloc::Global;
use std::process::Abort;
use std::test::Fail;
use syn_cases::cut;
use syn_form::{Form, is_formed_form};
use syn_term::{Bank, NoMemory, Shared, Symbols, Term};
use syn_unify::{Subst, unify_forms};

/// Formulas `le(s, t)`, each as its two terms and how it is made: `r` an atom, `e` an equality, `n` a negated
/// atom, `a` `P and P`, `o` `P or P`, `i` `P -> P`, `t` true, `f` false; a term; and how many variables are
/// bound by a unifier of all and what the term becomes.
const ROWS: &str = "\
r:x:ys r:zs:x | xysf => 2 asasf
r:x:ys r:zs:x | zsxf => 2 asasf
r:x:ys | x => 0 a
r:x:ys e:x:ys | x => no
e:x:ys e:zs:x | xxf => 2 asasf
n:x:ys n:zs:x | xxf => 2 asasf
n:x:ys r:zs:x | x => no
a:x:ys a:zs:x | xxf => 2 asasf
a:x:ys o:zs:x | x => no
o:x:y o:z:w | xyf => 2 abf
i:x:ys i:zs:x | xxf => 2 asasf
i:x:ys i:xs:y | x => no
t:x:x t:y:y | xyf => 0 abf
t:x:x f:x:x | x => no
f:x:x f:x:x | x => 0 a
r:x:y r:y:z r:z:w | xwf => 3 aaf
r:x:0 r:y:ys | x => no";

/// The formula twice.
fn twice(alloc: Global, p: Form) -> Result<Items<Form>, NoMemory>
    ensures { IfOk result (λ all. all ≡ p ∷ p ∷ []) }
{
    let mut all = Items::new(alloc);
    all.push(p.again()?)?;
    all.push(p)?;
    Ok(all)
}

/// `not p`.
fn negated(alloc: Global, bank: &Bank, p: Form) -> Result<Form, NoMemory>
    requires { All (Belongs bank.now) (form_terms p) }
    ensures { IfOk result (λ f. All (Belongs bank.now) (form_terms f)) }
{
    Ok(Form::Not(Shared::new(alloc, p)?))
}

/// `p and p`.
fn conjoined(alloc: Global, bank: &Bank, p: Form) -> Result<Form, NoMemory>
    requires { All (Belongs bank.now) (form_terms p) }
    ensures { IfOk result (λ f. All (Belongs bank.now) (form_terms f)) }
{
    let all = twice(alloc, p)?;
    Ok(Form::And(Shared::new(alloc, all)?))
}

/// `p or p`.
fn disjoined(alloc: Global, bank: &Bank, p: Form) -> Result<Form, NoMemory>
    requires { All (Belongs bank.now) (form_terms p) }
    ensures { IfOk result (λ f. All (Belongs bank.now) (form_terms f)) }
{
    let all = twice(alloc, p)?;
    Ok(Form::Or(Shared::new(alloc, all)?))
}

/// `p -> p`.
fn implied(alloc: Global, bank: &Bank, p: Form) -> Result<Form, NoMemory>
    requires { All (Belongs bank.now) (form_terms p) }
    ensures { IfOk result (λ f. All (Belongs bank.now) (form_terms f)) }
{
    let p = Shared::new(alloc, p)?;
    let q = p.again()?;
    Ok(Form::Implies(p, q))
}

/// The connective of the letter over the formula.
fn with_connective(alloc: Global, bank: &Bank, kind: &str, p: Form) -> Result<Form, NoMemory>
    requires { All (Belongs bank.now) (form_terms p) }
    ensures { IfOk result (λ f. All (Belongs bank.now) (form_terms f)) }
{
    match kind {
        "n" => negated(alloc, bank, p),
        "a" => conjoined(alloc, bank, p),
        "o" => disjoined(alloc, bank, p),
        "i" => implied(alloc, bank, p),
        _ => Ok(p),
    }
}

/// The terms of two codes.
#[tactic(auto, using(crate::proofs::Growth::growth))]
fn sides_of(
    alloc: Global,
    bank: &mut Bank,
    syms: &Symbols,
    codes: &str,
) -> Result<(Term, Term), Fail>
    ensures extends { Extends bank.old bank.new }
    ensures belongs { IfOk result (λ both. Belongs bank.new both.0 × Belongs bank.new both.1) }
{
    let (left, right) = cut(codes, ":");
    let s = term_of(alloc, bank, syms, left)?;
    match term_of(alloc, bank, syms, right) {
        Ok(t) => Ok((s, t)),
        Err(fail) => {
            drop(s);
            Err(fail)
        }
    }
}

/// The equality of the terms of two codes.
fn equality_of(alloc: Global, bank: &mut Bank, syms: &Symbols, codes: &str) -> Result<Form, Fail>
    ensures extends { Extends bank.old bank.new }
    ensures belongs { IfOk result (λ f. All (Belongs bank.new) (form_terms f)) }
{
    let (s, t) = sides_of(alloc, bank, syms, codes)?;
    Ok(Form::Equal(s, t))
}

/// The atom of the terms of two codes.
fn atom_of(alloc: Global, bank: &mut Bank, syms: &Symbols, codes: &str) -> Result<Form, Fail>
    ensures extends { Extends bank.old bank.new }
    ensures belongs { IfOk result (λ f. All (Belongs bank.new) (form_terms f)) }
{
    let (s, t) = sides_of(alloc, bank, syms, codes)?;
    let mut args = Items::new(alloc);
    args.push(s)?;
    args.push(t)?;
    Ok(Form::Atom(LESS, Shared::new(alloc, args)?))
}

/// The formula of a code.
#[tactic(auto, using(crate::proofs::Growth::growth))]
fn form_of(alloc: Global, bank: &mut Bank, syms: &Symbols, code: &str) -> Result<Form, Fail>
    ensures extends { Extends bank.old bank.new }
    ensures belongs { IfOk result (λ f. All (Belongs bank.new) (form_terms f)) }
{
    let (kind, codes) = cut(code, ":");
    match kind {
        "t" => Ok(Form::True),
        "f" => Ok(Form::False),
        "e" => equality_of(alloc, bank, syms, codes),
        _ => {
            let p = atom_of(alloc, bank, syms, codes)?;
            Ok(with_connective(alloc, bank, kind, p)?)
        }
    }
}

/// The formula, where it is formed.
pub(crate) fn formed(syms: &Symbols, f: Form) -> Result<Form, Fail>
    ensures same { IfOk result (λ g. g ≡ f) }
    ensures formed { IfOk result (IsFormed syms.now) }
{
    if is_formed_form(syms, &f) {
        Ok(f)
    } else {
        drop(f);
        Err(Fail::new("not formed"))
    }
}

/// The formulas of codes.
#[tactic(auto, using(crate::proofs::Growth::growth))]
fn forms_of(
    alloc: Global,
    bank: &mut Bank,
    syms: &Symbols,
    codes: &str,
) -> Result<Items<Form>, Fail>
    ensures extends { Extends bank.old bank.new }
    ensures formed { IfOk result (All (IsFormed syms.now)) }
    ensures belongs { IfOk result (λ fs. All (Belongs bank.new) (flat_map form_terms fs)) }
{
    let mut forms = Items::new(alloc);
    for code in codes.split(' ') {
        let f = form_of(alloc, bank, syms, code)?;
        forms.push(formed(syms, f)?)?;
    }
    Ok(forms)
}

/// How many variables are bound, and what the term becomes.
fn told(alloc: Global, bank: &mut Bank, syms: &Symbols, s: &Subst, t: &Term) -> Result<String, Fail>
    requires keeps { KeepsSorts syms.now s.now }
    requires sorted { IsSorted syms.now t.now }
    requires own { BindsOwn bank.old s.now }
    requires belongs { Belongs bank.old t.now }
{
    let text = becomes(alloc, bank, syms, s, t)?;
    Ok(format!(in alloc; "{} {text}", s.len())?)
}

/// How many variables of the formulas are bound, and what the term becomes; `no` where nothing makes the formulas one.
#[tactic(auto, using(crate::proofs::Growth::growth))]
fn answer(
    alloc: Global,
    bank: &mut Bank,
    syms: &Symbols,
    forms: &[Form],
    t: &Term,
) -> Result<String, Fail>
    requires formed { All (IsFormed syms.now) forms.now }
    requires sorted { IsSorted syms.now t.now }
    requires own { All (Belongs bank.old) (flat_map form_terms forms.now) }
    requires belongs { Belongs bank.old t.now }
{
    match unify_forms(alloc, bank, syms, forms)? {
        None => Ok(String::from_str(alloc, "no")?),
        Some(s) => told(alloc, bank, syms, &s, t),
    }
}

/// The same of the formulas of these codes.
#[tactic(auto, using(crate::proofs::Growth::growth))]
fn answer_of(
    alloc: Global,
    bank: &mut Bank,
    syms: &Symbols,
    codes: &str,
    t: &Term,
) -> Result<String, Fail>
    requires sorted { IsSorted syms.now t.now }
    requires belongs { Belongs bank.old t.now }
{
    let forms = forms_of(alloc, bank, syms, codes)?;
    answer(alloc, bank, syms, forms.as_slice(), t)
}

/// The same with the term of this code.
#[tactic(auto, using(crate::proofs::Growth::growth))]
fn answer_of_codes(
    alloc: Global,
    bank: &mut Bank,
    syms: &Symbols,
    codes: &str,
    term: &str,
) -> Result<String, Fail> {
    let t = term_of(alloc, bank, syms, term)?;
    answer_of(alloc, bank, syms, codes, &t)
}

fn unify_rows(rt: &impl Abort, alloc: Global, syms: &Symbols) -> Result<(), Fail> {
    for line in ROWS.lines() {
        let (row, wanted) = cut(line, " => ");
        let (codes, term) = cut(row, " | ");
        let found = answer_of_codes(alloc, &mut Bank::new(alloc), syms, codes, term)?;
        assert_eq!(rt; found.as_str(), wanted);
    }
    Ok(())
}

#[test]
fn unifies_forms(rt: HostRuntime) -> Result<(), Fail> {
    let syms = make_table(rt.alloc())?;
    unify_rows(&rt, rt.alloc(), &syms)
}
