// The clauses and measures of symbols, where it is tried first whether a symbol's heading is the next: so
// that the symbols of a theory take one walk over its declarations.
ghost use Rattle.std.specs.Prelude.{◌≡◌, ◌+◌, IfOk, IfSome, IsTrue, drop, map};
ghost use Rattle.std.specs.Option.{option_copied};
ghost use Rattle.syn_model.specs.Calls.{first_of};
ghost use Rattle.syn_model.specs.Clausal.{function_clauses, measures_of, relation_clauses};
ghost use Rattle.syn_model.specs.Declaring.{IsTheory};
ghost use Rattle.syn_eval.specs.inner.Rules.{IsFunctionAt, IsOrderAt, IsRelationAt, rule_seen};

use crate::rules::{
    Rule, function_rules, leading_functions, leading_relations, measure_of, relation_rules,
    same_text,
};
use sqlite_items::{Items, at};
use std::alloc::Global;
use syn_form::{Form, Out};
use syn_model::Decl;
use syn_term::{NoMemory, Term};

/// Whether the declaration is a heading: of a function, of a relation or of an order.
fn is_heading(decl: &Decl) -> bool {
    matches!(
        decl,
        Decl::Fun { .. } | Decl::Rel { .. } | Decl::Order { .. }
    )
}

/// The place of the first heading from this place on, and the end where there is none.
pub(crate) fn next_heading(decls: &[Decl], place: usize) -> usize {
    let mut place = place;
    while place < decls.len() {
        if is_heading(&decls[place]) {
            return place;
        }
        place += 1;
    }
    place
}

/// Whether the function of this name is declared at the place.
fn is_function_at(decls: &[Decl], place: usize, name: &str) -> bool
    ensures { IsTrue result → IsFunctionAt decls.now place name.now }
{
    match at(decls, place) {
        Some(Decl::Fun { name: own, .. }) => same_text(own.as_str(), name),
        _ => false,
    }
}

/// Whether the relation of this name is declared at the place.
fn is_relation_at(decls: &[Decl], place: usize, name: &str) -> bool
    ensures { IsTrue result → IsRelationAt decls.now place name.now }
{
    match at(decls, place) {
        Some(Decl::Rel { name: own, .. }) => same_text(own.as_str(), name),
        _ => false,
    }
}

/// The declarations behind the place.
fn behind<'a>(decls: &'a [Decl], place: usize) -> &'a [Decl]
    ensures { result.now ≡ drop (place + 1) decls.now }
{
    if place < decls.len() {
        &decls[place + 1..]
    } else {
        &decls[decls.len()..]
    }
}

/// The clauses of the function of this name.
pub(crate) fn functions_of<'a>(
    alloc: Global,
    decls: &'a [Decl],
    place: usize,
    name: &str,
) -> Result<Items<Rule<'a, Out>>, NoMemory>
    requires { IsTheory decls.now }
    ensures { IfOk result (λ rules. map rule_seen rules ≡ function_clauses decls.entry.now name.now) }
{
    if is_function_at(decls, place, name) {
        leading_functions(alloc, behind(decls, place))
    } else {
        function_rules(alloc, decls, name)
    }
}

/// The clauses of the relation of this name.
pub(crate) fn relations_of<'a>(
    alloc: Global,
    decls: &'a [Decl],
    place: usize,
    name: &str,
) -> Result<Items<Rule<'a, Form>>, NoMemory>
    requires { IsTheory decls.now }
    ensures { IfOk result (λ rules. map rule_seen rules ≡ relation_clauses decls.entry.now name.now) }
{
    if is_relation_at(decls, place, name) {
        leading_relations(alloc, behind(decls, place))
    } else {
        relation_rules(alloc, decls, name)
    }
}

/// The measure of the order of this name, where it is declared at the place.
fn measure_at<'a>(decls: &'a [Decl], place: usize, name: &str) -> Option<&'a Term>
    ensures { IfSome result (λ m. IsOrderAt decls.now place name.now m.now) }
{
    match at(decls, place) {
        Some(
            Decl::Order {
                name: own,
                measure,
                ..
            },
        ) => {
            if same_text(own.as_str(), name) {
                Some(measure)
            } else {
                None
            }
        }
        _ => None,
    }
}

/// The measure of the order of this name; None where there is no such order.
pub(crate) fn order_measure<'a>(decls: &'a [Decl], place: usize, name: &str) -> Option<&'a Term>
    requires { IsTheory decls.now }
    ensures { option_copied result ≡ first_of (measures_of decls.entry.now name.now) }
{
    match measure_at(decls, place, name) {
        Some(measure) => Some(measure),
        None => measure_of(decls, name),
    }
}
