// Which part may follow those of a specification.
ghost use Rattle.std.specs.Prelude.{◌≡◌, ◌≢◌, ◌↔◌, ◌<◌, [], All, IfOk, IsTrue, None};
ghost use Rattle.syn_form.specs.Trees.{form_vars};
ghost use Rattle.syn_form.specs.Quantified.{free_vars};
ghost use Rattle.syn_form.specs.PlainQuantified.{binders_of};
ghost use Rattle.syn_model.specs.Clauses.{UsesForm};
ghost use Rattle.syn_model.specs.Declaring.{IsOtherwiseFree};
ghost use Rattle.syn_model.specs.Specifications as specs;
ghost use Rattle.syn_model.specs.Specifications.{AsksPart, ComesNext, HasEnsures, IsSpec, MayEnsure, MayExtend, MayRequire, UsesQForm};

use crate::among::form_is_over;
use crate::axioms::binds_new_names;
use crate::closed::has_free_only;
use crate::listing::{lists_primitives, lists_taken, names_order};
use crate::spec::Spec;
use crate::spec_part::SpecPart;
use crate::theory::Theory;
use crate::uses::{uses_form, uses_qform};
use std::alloc::Global;
use syn_form::{Form, QForm, is_plain_form, is_plain_qform};
use syn_term::{NoMemory, SymId, Var};

/// The place of the part's line.
fn line_place(part: &SpecPart) -> u32
    ensures { result ≡ specs.line_place part.now }
{
    match part {
        SpecPart::Requires(_) => 1,
        SpecPart::Ensures(_) => 2,
        SpecPart::Order(_) => 3,
        SpecPart::Primitive(_) => 4,
        SpecPart::Taken(_) => 5,
    }
}

fn is_before(part: &SpecPart, place: u32) -> bool
    ensures { IsTrue result ↔ (specs.line_place part.now < place) }
{
    line_place(part) < place
}

fn are_before(parts: &[SpecPart], place: u32) -> bool
    ensures { IsTrue result ↔ All (λ q. specs.line_place q < place) parts.now }
{
    parts.iter().all(|part| is_before(part, place))
}

fn is_ensures(part: &SpecPart) -> bool
    ensures { IsTrue result ↔ (specs.line_place part.now ≡ 2) }
{
    line_place(part) == 2
}

/// Whether the output condition is there.
pub(crate) fn has_ensures(parts: &[SpecPart]) -> bool
    ensures { IsTrue result ↔ HasEnsures parts.now }
{
    parts.iter().any(|part| is_ensures(part))
}

/// Whether what comes at this place has the output condition before it, where it needs that.
fn is_behind(parts: &[SpecPart], place: u32) -> bool
    ensures { IsTrue result ↔ (2 < place → HasEnsures parts.now) }
{
    if 2 < place { has_ensures(parts) } else { true }
}

/// Whether the part's line comes behind those of the parts.
fn comes_next(parts: &[SpecPart], part: &SpecPart) -> bool
    ensures { IsTrue result ↔ ComesNext parts.now part.now }
{
    let place = line_place(part);
    are_before(parts, place) && is_behind(parts, place)
}

/// Whether the formula has no variables.
fn has_no_vars(f: &Form) -> bool
    ensures { IsTrue result ↔ (form_vars f.now ≡ []) }
{
    form_is_over(f, &[])
}

/// Whether the formula has no variables, and doesn't have the symbol.
fn speaks_of_inputs(own: SymId, f: &Form) -> bool
    ensures { IsTrue result ↔ (form_vars f.now ≡ []) × UsesForm own None f.now }
{
    has_no_vars(f) && uses_form(own, None, f)
}

/// Whether the formula may be the input condition. The one error is want of memory.
fn may_require(alloc: Global, theory: &Theory, spec: &Spec, f: &Form) -> Result<bool, NoMemory>
    requires { IsSpec (theory.now).decls spec.now }
    ensures { IfOk result (λ b. IsTrue b ↔ MayRequire (theory.now).decls spec.now f.now) }
{
    if !speaks_of_inputs(spec.program_in(theory), f) {
        return Ok(false);
    }
    is_plain_form(alloc, spec.symbols(), f)
}

/// Whether no variable but this one is free in the formula, and it doesn't have the symbol.
fn speaks_of(own: SymId, v: Var, f: &QForm) -> bool
    ensures { IsTrue result ↔ All (λ w. w ≡ v) (free_vars f.now) × UsesQForm own None f.now }
{
    has_free_only(f, v) && uses_qform(own, None, f)
}

fn output_var(spec: &Spec) -> Var
    ensures { result ≡ specs.output_var spec.now }
{
    let (_, sort) = spec.output();
    Var { number: 0, sort }
}

/// Whether no quantifier of the formula binds a name that is declared or the output's.
fn binds_beside(theory: &Theory, spec: &Spec, f: &QForm) -> bool
    ensures { IsTrue result ↔ All (λ b. IsOtherwiseFree (theory.now).decls b.name × (b.name ≢ (spec.now).output)) (binders_of f.now) }
{
    let (output, _) = spec.output();
    binds_new_names(theory, output, f)
}

/// Whether the formula may be the output condition. The one error is want of memory.
fn may_ensure(alloc: Global, theory: &Theory, spec: &Spec, f: &QForm) -> Result<bool, NoMemory>
    requires { IsSpec (theory.now).decls spec.now }
    ensures { IfOk result (λ b. IsTrue b ↔ MayEnsure (theory.now).decls spec.now f.now) }
{
    if !speaks_of(spec.program_in(theory), output_var(spec), f) {
        return Ok(false);
    }
    if !binds_beside(theory, spec, f) {
        return Ok(false);
    }
    is_plain_qform(alloc, spec.symbols(), f)
}

/// Whether what the part asks besides its place is there. The one error is want of memory.
fn asks_part(alloc: Global, theory: &Theory, spec: &Spec, part: &SpecPart) -> Result<bool, NoMemory>
    requires { IsSpec (theory.now).decls spec.now }
    ensures { IfOk result (λ b. IsTrue b ↔ AsksPart (theory.now).decls spec.now part.now) }
{
    match part {
        SpecPart::Requires(f) => may_require(alloc, theory, spec, f),
        SpecPart::Ensures(f) => may_ensure(alloc, theory, spec, f),
        SpecPart::Order(name) => Ok(names_order(theory.symbols(), spec.sorts(), name.as_str())),
        SpecPart::Primitive(names) => lists_primitives(alloc, theory.symbols(), names.as_slice()),
        SpecPart::Taken(names) => lists_taken(alloc, theory, names.as_slice()),
    }
}

/// Whether the part may follow those of the specification. The one error is want of memory.
pub(crate) fn may_extend(
    alloc: Global,
    theory: &Theory,
    spec: &Spec,
    part: &SpecPart,
) -> Result<bool, NoMemory>
    requires { IsSpec (theory.now).decls spec.now }
    ensures { IfOk result (λ b. IsTrue b ↔ MayExtend (theory.now).decls spec.now part.now) }
{
    if !comes_next(spec.parts(), part) {
        return Ok(false);
    }
    asks_part(alloc, theory, spec, part)
}
