// The calls on formulas. A part of a formula is answered as a reference, and takes no memory.
ghost use Rattle.std.specs.Prelude.{◌≡◌, ◌↔◌, ◌+◌, ◌++◌, max, min, map, sum, slice_get, IfOk, IsTrue};
ghost use Rattle.std.specs.Option.{option_map};
ghost use Rattle.syn_term.specs.Terms.{bare, depth_of, greatest, nodes};
ghost use Rattle.syn_form.specs.declared.trees.Form.TheVariants as form;
ghost use Rattle.syn_form.specs.declared.trees.Form.TheViews as views;
ghost use Rattle.syn_form.specs.Positions.{formula, part_at, parts_of, at_position, seen, term};
ghost use Rattle.syn_form.specs.Same.{OfOneBank, SameFormMeansEqual};
ghost use Rattle.syn_form.specs.Trees.{all_of, bare_form, form_depth, form_nodes, form_terms};

use crate::trees::{Form, Part};
use sqlite_items::{Items, at};
use std::alloc::Global;
use syn_term::{NoMemory, Pos, Shared, SymId, Term};

impl Form {
    /// The same formula once more. It takes no memory; the one error, NoMemory, is that a pointer's
    /// count of owners is at its end.
    pub fn again(&self) -> Result<Form, NoMemory>
        ensures { IfOk result (λ g. g ≡ self.now) }
    {
        match self {
            Form::True => Ok(Form::True),
            Form::False => Ok(Form::False),
            Form::Atom(r, args) => match args.again() {
                Ok(args) => Ok(Form::Atom(*r, args)),
                Err(_) => Err(NoMemory),
            },
            Form::Equal(s, t) => match both_again(s, t) {
                Ok((s, t)) => Ok(Form::Equal(s, t)),
                Err(error) => Err(error),
            },
            Form::Not(a) => match a.again() {
                Ok(a) => Ok(Form::Not(a)),
                Err(_) => Err(NoMemory),
            },
            Form::And(all) => match all.again() {
                Ok(all) => Ok(Form::And(all)),
                Err(_) => Err(NoMemory),
            },
            Form::Or(all) => match all.again() {
                Ok(all) => Ok(Form::Or(all)),
                Err(_) => Err(NoMemory),
            },
            Form::Implies(a, b) => match both_again(a, b) {
                Ok((a, b)) => Ok(Form::Implies(a, b)),
                Err(error) => Err(error),
            },
        }
    }

    /// What stands at the position, None exactly where the formula has no such position.
    pub fn at(&self, p: &Pos) -> Option<Part<'_>>
        ensures { option_map seen result ≡ at_position p.now (formula self.now) }
    {
        self.find(p.as_slice())
    }

    /// What stands at the end of the path.
    fn find(&self, path: &[u32]) -> Option<Part<'_>>
        ensures { option_map seen result ≡ at_position path.now (formula self.now) }
    {
        match path {
            [] => Some(Part::F(self)),
            [k, rest @ ..] => match self.child(*k) {
                None => None,
                Some(Part::F(f)) => f.find(rest),
                Some(Part::T(t)) => find_in_term(t, rest),
            },
        }
    }

    /// The k-th child, counted from 1; None exactly where there is none.
    pub(crate) fn child(&self, k: u32) -> Option<Part<'_>>
        ensures { option_map seen result ≡ part_at (formula self.now) k }
    {
        if k == 0 {
            None
        } else {
            self.nth_part(k as usize - 1)
        }
    }

    /// The child with `index` children before it.
    fn nth_part(&self, index: usize) -> Option<Part<'_>>
        ensures { option_map seen result ≡ slice_get (parts_of (formula self.now)) index }
    {
        match self {
            Form::True | Form::False => None,
            Form::Atom(_, args) => nth_term(args.get().as_slice(), index),
            Form::Equal(s, t) => match index {
                0 => Some(Part::T(s)),
                1 => Some(Part::T(t)),
                _ => None,
            },
            Form::Not(a) => match index {
                0 => Some(Part::F(a.get())),
                _ => None,
            },
            Form::And(all) | Form::Or(all) => nth_form(all.get().as_slice(), index),
            Form::Implies(a, b) => match index {
                0 => Some(Part::F(a.get())),
                1 => Some(Part::F(b.get())),
                _ => None,
            },
        }
    }

    /// The number of nodes, or `cap + 1` where there are more than `cap`. A part that is shared
    /// counts as often as it stands in the formula.
    pub fn size(&self, cap: u32) -> u64
        ensures { result ≡ min (form_nodes self.now) (cap + 1) }
    {
        match self {
            Form::True | Form::False => 1,
            Form::Atom(_, args) => with_terms(args.get().as_slice(), cap),
            Form::Equal(s, t) => with_two_terms(s, t, cap),
            Form::Not(a) => {
                if cap == 0 {
                    return 1;
                }
                1 + a.get().size(cap - 1)
            }
            Form::And(all) | Form::Or(all) => {
                let mut total: u64 = 1;
                for part in all.get().as_slice() {
                    if total > u64::from(cap) {
                        return total;
                    }
                    total += part.size(cap - total as u32);
                }
                total
            }
            Form::Implies(a, b) => {
                if cap == 0 {
                    return 1;
                }
                let total = 1 + a.get().size(cap - 1);
                if total > u64::from(cap) {
                    return total;
                }
                total + b.get().size(cap - total as u32)
            }
        }
    }

    /// The depth, or `cap + 1` where it is more than `cap`; a formula without parts has depth 1.
    pub fn depth(&self, cap: u32) -> u64
        ensures { result ≡ min (form_depth self.now) (cap + 1) }
    {
        match self {
            Form::True | Form::False => 1,
            Form::Atom(_, args) => over_terms(args.get().as_slice(), cap),
            Form::Equal(s, t) => {
                if cap == 0 {
                    return 1;
                }
                1 + greater(s.depth(cap - 1), t.depth(cap - 1))
            }
            Form::Not(a) => {
                if cap == 0 {
                    return 1;
                }
                1 + a.get().depth(cap - 1)
            }
            Form::And(all) | Form::Or(all) => {
                if cap == 0 {
                    return 1;
                }
                let mut deepest = 0;
                for part in all.get().as_slice() {
                    deepest = greater(deepest, part.depth(cap - 1));
                }
                1 + deepest
            }
            Form::Implies(a, b) => {
                if cap == 0 {
                    return 1;
                }
                1 + greater(a.get().depth(cap - 1), b.get().depth(cap - 1))
            }
        }
    }

    /// Whether the two are one tree. It asks that their terms are of one bank. The law says what the
    /// truth value by which definitions decide means.
    #[tactic(auto, using(crate::proofs::Same::same_form_means_equal))]
    pub fn same(&self, other: &Form) -> bool
        requires { OfOneBank (form_terms self.now ++ form_terms other.now) }
        ensures same { IsTrue result ↔ (bare_form self.now ≡ bare_form other.now) }
        ensures law { SameFormMeansEqual }
    {
        self.is_one(other)
    }

    /// Whether the two are one tree.
    #[cycle(same)]
    fn is_one(&self, other: &Form) -> bool
        requires { OfOneBank (form_terms self.now ++ form_terms other.now) }
        ensures { IsTrue result ↔ (bare_form self.now ≡ bare_form other.now) }
    {
        match self {
            Form::True => other.is_true(),
            Form::False => other.is_false(),
            Form::Atom(r, args) => other.is_atom_of(*r, args),
            Form::Equal(s, t) => other.is_equality_of(s, t),
            Form::Not(a) => other.is_negation_of(a),
            Form::And(all) => other.is_and_of(all),
            Form::Or(all) => other.is_or_of(all),
            Form::Implies(a, b) => other.is_implication_of(a, b),
        }
    }

    /// Whether this is `true`.
    fn is_true(&self) -> bool
        ensures { IsTrue result ↔ (bare_form form.True ≡ bare_form self.now) }
    {
        match self {
            Form::True => true,
            _ => false,
        }
    }

    /// Whether this is `false`.
    fn is_false(&self) -> bool
        ensures { IsTrue result ↔ (bare_form form.False ≡ bare_form self.now) }
    {
        match self {
            Form::False => true,
            _ => false,
        }
    }

    /// Whether this is the atom of the symbol and the terms.
    fn is_atom_of(&self, r: SymId, args: &Shared<Items<Term>>) -> bool
        requires { OfOneBank (form_terms (form.Atom r args.now) ++ form_terms self.now) }
        ensures { IsTrue result ↔ (bare_form (form.Atom r args.now) ≡ bare_form self.now) }
    {
        match self {
            Form::Atom(q, terms) => {
                r == *q && same_terms(args.get().as_slice(), terms.get().as_slice())
            }
            _ => false,
        }
    }

    /// Whether this is the equality of the terms, left and right.
    fn is_equality_of(&self, s: &Term, t: &Term) -> bool
        requires { OfOneBank (form_terms (form.Equal s.now t.now) ++ form_terms self.now) }
        ensures { IsTrue result ↔ (bare_form (form.Equal s.now t.now) ≡ bare_form self.now) }
    {
        match self {
            Form::Equal(u, v) => s.same(u) && t.same(v),
            _ => false,
        }
    }

    /// Whether this is the negation of the formula.
    #[cycle(same)]
    fn is_negation_of(&self, a: &Shared<Form>) -> bool
        requires { OfOneBank (form_terms (views.Not a.now) ++ form_terms self.now) }
        ensures { IsTrue result ↔ (bare_form (views.Not a.now) ≡ bare_form self.now) }
    {
        match self {
            Form::Not(b) => a.get().is_one(b.get()),
            _ => false,
        }
    }

    /// Whether this is the `and` of the formulas.
    #[cycle(same)]
    fn is_and_of(&self, all: &Shared<Items<Form>>) -> bool
        requires { OfOneBank (form_terms (views.And all.now) ++ form_terms self.now) }
        ensures { IsTrue result ↔ (bare_form (views.And all.now) ≡ bare_form self.now) }
    {
        match self {
            Form::And(these) => same_forms(all.get().as_slice(), these.get().as_slice()),
            _ => false,
        }
    }

    /// Whether this is the `or` of the formulas.
    #[cycle(same)]
    fn is_or_of(&self, all: &Shared<Items<Form>>) -> bool
        requires { OfOneBank (form_terms (views.Or all.now) ++ form_terms self.now) }
        ensures { IsTrue result ↔ (bare_form (views.Or all.now) ≡ bare_form self.now) }
    {
        match self {
            Form::Or(these) => same_forms(all.get().as_slice(), these.get().as_slice()),
            _ => false,
        }
    }

    /// Whether this is the implication from the first to the second.
    #[cycle(same)]
    fn is_implication_of(&self, a: &Shared<Form>, b: &Shared<Form>) -> bool
        requires { OfOneBank (form_terms (views.Implies a.now b.now) ++ form_terms self.now) }
        ensures { IsTrue result ↔ (bare_form (views.Implies a.now b.now) ≡ bare_form self.now) }
    {
        match self {
            Form::Implies(x, y) => a.get().is_one(x.get()) && b.get().is_one(y.get()),
            _ => false,
        }
    }
}

/// `not a`.
pub(crate) fn negation_of(alloc: Global, a: Form) -> Result<Form, NoMemory>
    ensures { IfOk result (λ g. g ≡ views.Not a) }
{
    match Shared::new(alloc, a) {
        Ok(a) => Ok(Form::Not(a)),
        Err(_) => Err(NoMemory),
    }
}

/// `a -> b`.
pub(crate) fn implication_of(alloc: Global, a: Form, b: Form) -> Result<Form, NoMemory>
    ensures { IfOk result (λ g. g ≡ views.Implies a b) }
{
    match both_shared(alloc, a, b) {
        Ok((a, b)) => Ok(Form::Implies(a, b)),
        Err(error) => Err(error),
    }
}

fn both_shared(alloc: Global, a: Form, b: Form) -> Result<(Shared<Form>, Shared<Form>), NoMemory>
    ensures { IfOk result (λ both. (both.0 ≡ a) × (both.1 ≡ b)) }
{
    match Shared::new(alloc, a) {
        Err(_) => {
            drop(b);
            Err(NoMemory)
        }
        Ok(a) => match Shared::new(alloc, b) {
            Ok(b) => Ok((a, b)),
            Err(_) => {
                drop(a);
                Err(NoMemory)
            }
        },
    }
}

/// Two parts of a formula once more.
pub(crate) fn both_again<T: Drop>(
    a: &Shared<T>,
    b: &Shared<T>,
) -> Result<(Shared<T>, Shared<T>), NoMemory>
    ensures { IfOk result (λ both. (both.0 ≡ a.now) × (both.1 ≡ b.now)) }
{
    let a = a.again()?;
    match b.again() {
        Ok(b) => Ok((a, b)),
        Err(_) => {
            drop(a);
            Err(NoMemory)
        }
    }
}

/// Whether the two lists have the same formulas, one by one.
#[cycle(same)]
fn same_forms(fs: &[Form], gs: &[Form]) -> bool
    requires { OfOneBank (all_of (map form_terms fs.now) ++ all_of (map form_terms gs.now)) }
    ensures { IsTrue result ↔ (map bare_form fs.now ≡ map bare_form gs.now) }
{
    if fs.len() != gs.len() {
        return false;
    }
    for i in 0..fs.len() {
        if !fs[i].is_one(&gs[i]) {
            return false;
        }
    }
    true
}

/// Whether the two lists have the same terms, one by one.
fn same_terms(xs: &[Term], ys: &[Term]) -> bool
    requires { OfOneBank (xs.now ++ ys.now) }
    ensures { IsTrue result ↔ (map bare xs.now ≡ map bare ys.now) }
{
    if xs.len() != ys.len() {
        return false;
    }
    for i in 0..xs.len() {
        if !xs[i].same(&ys[i]) {
            return false;
        }
    }
    true
}

/// The term with `index` terms before it.
fn nth_term(terms: &[Term], index: usize) -> Option<Part<'_>>
    ensures { option_map seen result ≡ slice_get (map term terms.now) index }
{
    match at(terms, index) {
        None => None,
        Some(t) => Some(Part::T(t)),
    }
}

/// The formula with `index` formulas before it.
fn nth_form(forms: &[Form], index: usize) -> Option<Part<'_>>
    ensures { option_map seen result ≡ slice_get (map formula forms.now) index }
{
    match at(forms, index) {
        None => None,
        Some(f) => Some(Part::F(f)),
    }
}

/// What stands at the end of the path in the term.
fn find_in_term<'a>(t: &'a Term, path: &[u32]) -> Option<Part<'a>>
    ensures { option_map seen result ≡ at_position path.now (term t.now) }
{
    match path {
        [] => Some(Part::T(t)),
        [k, rest @ ..] => match t.arg(*k) {
            None => None,
            Some(arg) => find_in_term(arg, rest),
        },
    }
}

/// One node and those of the terms, or `cap + 1` where these are more than `cap`.
fn with_terms(terms: &[Term], cap: u32) -> u64
    ensures { result ≡ min (1 + sum (map nodes terms.now)) (cap + 1) }
{
    let mut total: u64 = 1;
    for t in terms {
        if total > u64::from(cap) {
            return total;
        }
        total += t.size(cap - total as u32);
    }
    total
}

/// One node and those of both terms, or `cap + 1` where these are more than `cap`.
fn with_two_terms(s: &Term, t: &Term, cap: u32) -> u64
    ensures { result ≡ min (1 + (nodes s.now + nodes t.now)) (cap + 1) }
{
    if cap == 0 {
        return 1;
    }
    let total = 1 + s.size(cap - 1);
    if total > u64::from(cap) {
        return total;
    }
    total + t.size(cap - total as u32)
}

/// One more than the depth of the deepest term, or `cap + 1` where this is more than `cap`.
fn over_terms(terms: &[Term], cap: u32) -> u64
    ensures { result ≡ min (1 + greatest (map depth_of terms.now)) (cap + 1) }
{
    if cap == 0 {
        return 1;
    }
    let mut deepest = 0;
    for t in terms {
        deepest = greater(deepest, t.depth(cap - 1));
    }
    1 + deepest
}

/// The greater of two numbers.
pub(crate) fn greater(a: u64, b: u64) -> u64
    ensures { result ≡ max a b }
{
    if a < b { b } else { a }
}
