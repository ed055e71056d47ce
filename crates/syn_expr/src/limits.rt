// How many nodes what a syntax tree stands for will have, and how deep it will be: counted before
// anything is made, and no further than a limit asks.
ghost use Rattle.std.specs.Prelude.{◌≡◌, ◌+◌, ◌<◌, ◌^◌, length, map, max, min, sum};
ghost use Rattle.syn_term.specs.Terms.{greatest};
ghost use Rattle.syn_expr.specs.Limits as limits;

use syn_form::{BinderSyntax, FormSyntax, OutSyntax, TermSyntax};

/// The most nodes that an expression has.
pub(crate) const MOST_NODES: u32 = 4_096;

/// The most levels that an expression has.
pub(crate) const MOST_LEVELS: u32 = 1_200;

/// The most nodes that the body of a program has.
pub(crate) const MOST_BODY_NODES: u32 = 262_144;

/// The most levels that the body of a program has.
pub(crate) const MOST_BODY_LEVELS: u32 = 1_264;

/// The largest number that is read and printed as one.
pub(crate) const LARGEST_NUMBER: u32 = 1_000;

/// The number, or `cap + 1` where it is more than `cap`.
fn capped(number: u64, cap: u32) -> u64
    ensures { result ≡ min number (cap + 1) }
{
    let most = u64::from(cap) + 1;
    if most < number { most } else { number }
}

/// The greater of two numbers.
fn greater(a: u64, b: u64) -> u64
    ensures { result ≡ max a b }
{
    if a < b { b } else { a }
}

/// The nodes of the term, or `cap + 1` where there are more than `cap`.
pub(crate) fn term_cost(t: &TermSyntax, cap: u32) -> u64
    ensures { result ≡ min (limits.term_cost t.now) (cap + 1) }
{
    match t {
        TermSyntax::Number(number) => capped(u64::from(*number) + 1, cap),
        TermSyntax::RowVar(_, _) | TermSyntax::Alone(_) => 1,
        TermSyntax::Applied(_, args) => {
            let mut total: u64 = 1;
            for arg in args.as_slice() {
                total = capped(total + term_cost(arg, cap), cap);
            }
            total
        }
    }
}

/// The depth of the term, or `cap + 1` where it is more than `cap`.
pub(crate) fn term_levels(t: &TermSyntax, cap: u32) -> u64
    ensures { result ≡ min (limits.term_levels t.now) (cap + 1) }
{
    match t {
        TermSyntax::Number(number) => capped(u64::from(*number) + 1, cap),
        TermSyntax::RowVar(_, _) | TermSyntax::Alone(_) => 1,
        TermSyntax::Applied(_, args) => {
            let mut deepest: u64 = 0;
            for arg in args.as_slice() {
                deepest = greater(deepest, term_levels(arg, cap));
            }
            capped(1 + deepest, cap)
        }
    }
}

/// One node and those of the terms, or `cap + 1` where these are more than `cap`.
fn atom_cost(args: &[TermSyntax], cap: u32) -> u64
    ensures { result ≡ min (1 + sum (map limits.term_cost args.now)) (cap + 1) }
{
    let mut total: u64 = 1;
    for arg in args {
        total = capped(total + term_cost(arg, cap), cap);
    }
    total
}

/// One more than the depth of the deepest term, or `cap + 1` where this is more than `cap`.
fn atom_levels(args: &[TermSyntax], cap: u32) -> u64
    ensures { result ≡ min (1 + greatest (map limits.term_levels args.now)) (cap + 1) }
{
    let mut deepest: u64 = 0;
    for arg in args {
        deepest = greater(deepest, term_levels(arg, cap));
    }
    capped(1 + deepest, cap)
}

/// One node and those of both terms, or `cap + 1` where these are more than `cap`.
fn equality_cost(s: &TermSyntax, t: &TermSyntax, cap: u32) -> u64
    ensures { result ≡ min (1 + (limits.term_cost s.now + limits.term_cost t.now)) (cap + 1) }
{
    capped(1 + (term_cost(s, cap) + term_cost(t, cap)), cap)
}

/// One more than the depth of the deeper term, or `cap + 1` where this is more than `cap`.
fn equality_levels(s: &TermSyntax, t: &TermSyntax, cap: u32) -> u64
    ensures { result ≡ min (1 + max (limits.term_levels s.now) (limits.term_levels t.now)) (cap + 1) }
{
    capped(1 + greater(term_levels(s, cap), term_levels(t, cap)), cap)
}

/// The number of binders and what is counted under them, or `cap + 1` where these are more than
/// `cap`.
fn with_binders(binders: &[BinderSyntax], inside: u64, cap: u32) -> u64
    requires { inside < 2 ^ 33 }
    ensures { result ≡ min (length binders.now + inside) (cap + 1) }
{
    capped(capped(binders.len() as u64, cap) + inside, cap)
}

/// One node and those of the formulas, or `cap + 1` where these are more than `cap`.
#[cycle(costs)]
fn forms_cost(all: &[FormSyntax], cap: u32) -> u64
    ensures { result ≡ min (1 + sum (map limits.form_cost all.now)) (cap + 1) }
{
    let mut total: u64 = 1;
    for part in all {
        total = capped(total + form_cost(part, cap), cap);
    }
    total
}

/// One more than the depth of the deepest formula, or `cap + 1` where this is more than `cap`.
#[cycle(levels)]
fn forms_levels(all: &[FormSyntax], cap: u32) -> u64
    ensures { result ≡ min (1 + greatest (map limits.form_levels all.now)) (cap + 1) }
{
    let mut deepest: u64 = 0;
    for part in all {
        deepest = greater(deepest, form_levels(part, cap));
    }
    capped(1 + deepest, cap)
}

/// The nodes of the formula, or `cap + 1` where there are more than `cap`.
#[cycle(costs)]
pub(crate) fn form_cost(f: &FormSyntax, cap: u32) -> u64
    ensures { result ≡ min (limits.form_cost f.now) (cap + 1) }
{
    match f {
        FormSyntax::True | FormSyntax::False => 1,
        FormSyntax::Atom(_, args) => atom_cost(args.as_slice(), cap),
        FormSyntax::Equal(s, t) => equality_cost(s.get(), t.get(), cap),
        FormSyntax::Not(a) => capped(1 + form_cost(a.get(), cap), cap),
        FormSyntax::And(all) | FormSyntax::Or(all) => forms_cost(all.as_slice(), cap),
        FormSyntax::Implies(a, b) => {
            capped(1 + (form_cost(a.get(), cap) + form_cost(b.get(), cap)), cap)
        }
        FormSyntax::BothWays(a, b) => {
            capped(
                3 + 2 * (form_cost(a.get(), cap) + form_cost(b.get(), cap)),
                cap,
            )
        }
        FormSyntax::Quantified(_, binders, a) => {
            with_binders(binders.as_slice(), form_cost(a.get(), cap), cap)
        }
    }
}

/// The depth of the formula, or `cap + 1` where it is more than `cap`.
#[cycle(levels)]
pub(crate) fn form_levels(f: &FormSyntax, cap: u32) -> u64
    ensures { result ≡ min (limits.form_levels f.now) (cap + 1) }
{
    match f {
        FormSyntax::True | FormSyntax::False => 1,
        FormSyntax::Atom(_, args) => atom_levels(args.as_slice(), cap),
        FormSyntax::Equal(s, t) => equality_levels(s.get(), t.get(), cap),
        FormSyntax::Not(a) => capped(1 + form_levels(a.get(), cap), cap),
        FormSyntax::And(all) | FormSyntax::Or(all) => forms_levels(all.as_slice(), cap),
        FormSyntax::Implies(a, b) => {
            capped(
                1 + greater(form_levels(a.get(), cap), form_levels(b.get(), cap)),
                cap,
            )
        }
        FormSyntax::BothWays(a, b) => {
            capped(
                2 + greater(form_levels(a.get(), cap), form_levels(b.get(), cap)),
                cap,
            )
        }
        FormSyntax::Quantified(_, binders, a) => {
            with_binders(binders.as_slice(), form_levels(a.get(), cap), cap)
        }
    }
}

/// The nodes of the output, or `cap + 1` where there are more than `cap`.
pub(crate) fn out_cost(o: &OutSyntax, cap: u32) -> u64
    ensures { result ≡ min (limits.out_cost o.now) (cap + 1) }
{
    match o {
        OutSyntax::Give(t) => term_cost(t, cap),
        OutSyntax::If(f, u, v) => {
            let arms = out_cost(u.get(), cap) + out_cost(v.get(), cap);
            capped(1 + (form_cost(f, cap) + arms), cap)
        }
    }
}

/// The depth of the output, or `cap + 1` where it is more than `cap`.
pub(crate) fn out_levels(o: &OutSyntax, cap: u32) -> u64
    ensures { result ≡ min (limits.out_levels o.now) (cap + 1) }
{
    match o {
        OutSyntax::Give(t) => term_levels(t, cap),
        OutSyntax::If(f, u, v) => {
            let arms = greater(out_levels(u.get(), cap), out_levels(v.get(), cap));
            capped(1 + greater(form_levels(f, cap), arms), cap)
        }
    }
}
