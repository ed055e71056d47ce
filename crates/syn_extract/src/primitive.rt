// Which symbols a program for a specification may have: constructors and inputs, those of its `primitive` line, and the
// program itself where an order is named.
ghost use Rattle.std.specs.Prelude.{◌↔◌, ◌≡◌, All, Any, Contains, IsTrue};
ghost use Rattle.syn_model.specs.Programs.{HasPrimitive, IsPrimitive, IsPrimitiveForm, IsPrimitiveProgram, IsPrimitiveTerm, NamesOrder, listed_primitives, primitive_names};
ghost use Rattle.syn_model.specs.Programs as programs;
ghost use Rattle.syn_model.specs.Specifications.{line_place};
ghost use Rattle.syn_extract.specs.inner.Kinds.{IsFreeKind};

use syn_form::{Form, Out};
use syn_model::{Spec, SpecPart};
use syn_term::{Kind, Node, Sym, SymId, Term, Text};

/// Whether the symbol makes values.
fn is_constructor(kind: Kind) -> bool
    ensures { result ≡ programs.is_constructor kind }
{
    matches!(
        kind,
        Kind::Zero | Kind::Succ | Kind::Nil | Kind::Cons | Kind::Tuple
    )
}

/// Whether the two texts are one.
fn is_name(text: &Text, name: &str) -> bool
    ensures { IsTrue result ↔ (text.now ≡ name.now) }
{
    text.as_str() == name
}

/// Whether the name is one of these.
fn is_among(names: &[Text], name: &str) -> bool
    ensures { IsTrue result ↔ Any (λ text. text ≡ name.now) names.now }
{
    names.iter().any(|text| is_name(text, name))
}

/// Whether the part is a `primitive` line with the name.
fn lists(part: &SpecPart, name: &str) -> bool
    ensures { IsTrue result ↔ Any (λ text. text ≡ name.now) (listed_primitives part.now) }
{
    match part {
        SpecPart::Primitive(names) => is_among(names.as_slice(), name),
        _ => false,
    }
}

/// Whether one of the parts is a `primitive` line with the name.
fn are_listing(parts: &[SpecPart], name: &str) -> bool
    ensures { IsTrue result ↔ Any (λ p. Any (λ text. text ≡ name.now) (listed_primitives p)) parts.now }
{
    parts.iter().any(|part| lists(part, name))
}

/// Whether the specification's `primitive` line has the name.
fn is_listed(spec: &Spec, name: &str) -> bool
    ensures { IsTrue result ↔ Contains (primitive_names spec.now) name.now }
{
    are_listing(spec.parts(), name)
}

/// Whether the part names an order.
fn is_order(part: &SpecPart) -> bool
    ensures { IsTrue result ↔ (line_place part.now ≡ 3) }
{
    matches!(part, SpecPart::Order(_))
}

/// Whether one of the parts names an order.
fn have_order(parts: &[SpecPart]) -> bool
    ensures { IsTrue result ↔ Any (λ p. line_place p ≡ 3) parts.now }
{
    parts.iter().any(|part| is_order(part))
}

/// Whether the specification names an order.
fn names_order(spec: &Spec) -> bool
    ensures { IsTrue result ↔ NamesOrder spec.now }
{
    have_order(spec.parts())
}

/// Whether a program for the specification may have the symbol, which isn't on the `primitive` line.
fn is_free(spec: &Spec, kind: Kind) -> bool
    ensures { IsTrue result ↔ IsFreeKind spec.now kind }
{
    match kind {
        Kind::Input => true,
        Kind::Program => names_order(spec),
        _ => is_constructor(kind),
    }
}

/// Whether a program for the specification may have the symbol.
fn is_primitive_symbol(spec: &Spec, sym: &Sym) -> bool
    ensures { IsTrue result ↔ IsPrimitive spec.now sym.now }
{
    if is_free(spec, sym.kind) {
        return true;
    }
    is_listed(spec, sym.name.as_str())
}

/// The same for the symbol with this number.
fn has_primitive(spec: &Spec, f: SymId) -> bool
    ensures { IsTrue result ↔ HasPrimitive spec.now f }
{
    match spec.symbols().get(f) {
        None => false,
        Some(sym) => is_primitive_symbol(spec, sym),
    }
}

/// Whether a program may have each symbol of the term.
#[cycle(terms)]
fn is_primitive_term(spec: &Spec, t: &Term) -> bool
    ensures { IsTrue result ↔ IsPrimitiveTerm spec.now t.now }
{
    match t.get() {
        Node::Var(_, _) => true,
        Node::App(_, f, args) => {
            has_primitive(spec, *f) && are_primitive_terms(spec, args.as_slice())
        }
    }
}

/// The same for each of the terms.
#[cycle(terms)]
fn are_primitive_terms(spec: &Spec, terms: &[Term]) -> bool
    ensures { IsTrue result ↔ All (IsPrimitiveTerm spec.now) terms.now }
{
    for t in terms {
        if !is_primitive_term(spec, t) {
            return false;
        }
    }
    true
}

/// The same for an atom of this symbol and these terms.
fn is_primitive_atom(spec: &Spec, r: SymId, args: &[Term]) -> bool
    ensures { IsTrue result ↔ HasPrimitive spec.now r × All (IsPrimitiveTerm spec.now) args.now }
{
    has_primitive(spec, r) && are_primitive_terms(spec, args)
}

/// The same for two terms.
fn is_primitive_equality(spec: &Spec, s: &Term, t: &Term) -> bool
    ensures { IsTrue result ↔ IsPrimitiveTerm spec.now s.now × IsPrimitiveTerm spec.now t.now }
{
    is_primitive_term(spec, s) && is_primitive_term(spec, t)
}

/// Whether a program may have each symbol of the formula.
#[cycle(forms)]
fn is_primitive_form(spec: &Spec, f: &Form) -> bool
    ensures { IsTrue result ↔ IsPrimitiveForm spec.now f.now }
{
    match f {
        Form::True | Form::False => true,
        Form::Atom(r, args) => is_primitive_atom(spec, *r, args.get().as_slice()),
        Form::Equal(s, t) => is_primitive_equality(spec, s, t),
        Form::Not(a) => is_primitive_form(spec, a.get()),
        Form::And(all) | Form::Or(all) => are_primitive_forms(spec, all.get().as_slice()),
        Form::Implies(a, b) => is_primitive_form(spec, a.get()) && is_primitive_form(spec, b.get()),
    }
}

/// The same for each of the formulas.
#[cycle(forms)]
fn are_primitive_forms(spec: &Spec, all: &[Form]) -> bool
    ensures { IsTrue result ↔ All (IsPrimitiveForm spec.now) all.now }
{
    for f in all {
        if !is_primitive_form(spec, f) {
            return false;
        }
    }
    true
}

/// Whether the output may be the body of a program for the specification: each of its symbols is a constructor, an input,
/// one of the `primitive` line, or the program itself where an order is named. Variables, equality and connectives may
/// always occur; a symbol that the specification doesn't have may not.
pub fn is_primitive(spec: &Spec, out: &Out) -> bool
    ensures { IsTrue result ↔ IsPrimitiveProgram spec.now out.now }
{
    match out {
        Out::Give(t) => is_primitive_term(spec, t),
        Out::If(f, u, v) => {
            if !is_primitive_form(spec, f.get()) {
                return false;
            }
            is_primitive(spec, u.get()) && is_primitive(spec, v.get())
        }
    }
}
