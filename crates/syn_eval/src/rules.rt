// The clauses of a function or a relation, lent from the declarations of a theory.
ghost use Rattle.std.specs.Prelude.{◌≡◌, ◌++◌, [], IfOk, OnOk, if◌then◌else◌, map};
ghost use Rattle.std.specs.Option.{option_copied};
ghost use Rattle.std.specs.Str.{bytes_eq};
ghost use Rattle.syn_model.specs.Calls.{first_of};
ghost use Rattle.syn_model.specs.Clausal.{function_clause, function_clauses, measure_in, measures_of, relation_clause, relation_clauses};
ghost use Rattle.syn_model.specs.Declaring.{is_clause};
ghost use Rattle.syn_eval.specs.inner.Rules.{leading, rule_seen, under_after};

use sqlite_items::Items;
use std::alloc::Global;
use syn_form::{Form, Out};
use syn_model::Decl;
use syn_term::{NoMemory, Term};

/// A clause: its arguments and its body.
#[derive(Drop)]
pub struct Rule<'a, B> {
    pub args: &'a [Term],
    pub body: &'a B,
}

/// Whether the two texts are the same.
pub(crate) fn same_text(text: &str, other: &str) -> bool
    ensures { result ≡ bytes_eq text.now other.now }
{
    text == other
}

/// Whether a clause behind the declaration would belong to the heading of this name, where it is known
/// whether one before the declaration would.
fn is_under(under: bool, decl: &Decl, name: &str) -> bool
    ensures { result ≡ under_after name.now under decl.now }
{
    match decl {
        Decl::FunClause { .. } | Decl::RelClause { .. } => under,
        Decl::Fun { name: own, .. } | Decl::Rel { name: own, .. } => same_text(own.as_str(), name),
        _ => same_text("", name),
    }
}

/// Puts down the clause of a function where it stands under the heading; nothing where the declaration is
/// another.
fn put_function_rule<'a>(
    under: bool,
    decl: &'a Decl,
    rules: &mut Items<Rule<'a, Out>>,
) -> Result<(), NoMemory>
    ensures { OnOk result (map rule_seen rules.new ≡ map rule_seen rules.old ++ (if under then function_clause decl.entry.now else [])) }
{
    if !under {
        return Ok(());
    }
    match decl {
        Decl::FunClause { args, body } => Ok(rules.push(Rule {
            args: args.as_slice(),
            body,
        })?),
        _ => Ok(()),
    }
}

/// Puts down the clause of a relation where it stands under the heading; nothing where the declaration is
/// another.
fn put_relation_rule<'a>(
    under: bool,
    decl: &'a Decl,
    rules: &mut Items<Rule<'a, Form>>,
) -> Result<(), NoMemory>
    ensures { OnOk result (map rule_seen rules.new ≡ map rule_seen rules.old ++ (if under then relation_clause decl.entry.now else [])) }
{
    if !under {
        return Ok(());
    }
    match decl {
        Decl::RelClause { args, body } => Ok(rules.push(Rule {
            args: args.as_slice(),
            body,
        })?),
        _ => Ok(()),
    }
}

/// The clauses of the function of this name, in their order.
pub(crate) fn function_rules<'a>(
    alloc: Global,
    decls: &'a [Decl],
    name: &str,
) -> Result<Items<Rule<'a, Out>>, NoMemory>
    ensures { IfOk result (λ rules. map rule_seen rules ≡ function_clauses decls.entry.now name.now) }
{
    let mut rules = Items::new(alloc);
    let mut under = same_text("", name);
    for decl in decls {
        put_function_rule(under, decl, &mut rules)?;
        under = is_under(under, decl, name);
    }
    Ok(rules)
}

/// The clauses of the relation of this name, in their order.
pub(crate) fn relation_rules<'a>(
    alloc: Global,
    decls: &'a [Decl],
    name: &str,
) -> Result<Items<Rule<'a, Form>>, NoMemory>
    ensures { IfOk result (λ rules. map rule_seen rules ≡ relation_clauses decls.entry.now name.now) }
{
    let mut rules = Items::new(alloc);
    let mut under = same_text("", name);
    for decl in decls {
        put_relation_rule(under, decl, &mut rules)?;
        under = is_under(under, decl, name);
    }
    Ok(rules)
}

/// Whether the declaration is a clause.
fn is_clause(decl: &Decl) -> bool
    ensures { result ≡ is_clause decl.now }
{
    matches!(decl, Decl::FunClause { .. } | Decl::RelClause { .. })
}

/// The clauses of a function that stand in front of these declarations.
pub(crate) fn leading_functions<'a>(
    alloc: Global,
    decls: &'a [Decl],
) -> Result<Items<Rule<'a, Out>>, NoMemory>
    ensures { IfOk result (λ rules. map rule_seen rules ≡ leading function_clause decls.entry.now) }
{
    let mut rules = Items::new(alloc);
    for decl in decls {
        if !is_clause(decl) {
            return Ok(rules);
        }
        put_function_rule(true, decl, &mut rules)?;
    }
    Ok(rules)
}

/// The clauses of a relation that stand in front of these declarations.
pub(crate) fn leading_relations<'a>(
    alloc: Global,
    decls: &'a [Decl],
) -> Result<Items<Rule<'a, Form>>, NoMemory>
    ensures { IfOk result (λ rules. map rule_seen rules ≡ leading relation_clause decls.entry.now) }
{
    let mut rules = Items::new(alloc);
    for decl in decls {
        if !is_clause(decl) {
            return Ok(rules);
        }
        put_relation_rule(true, decl, &mut rules)?;
    }
    Ok(rules)
}

/// The measure, where the declaration is the order of this name.
fn measure_in<'a>(decl: &'a Decl, name: &str) -> Option<&'a Term>
    ensures { option_copied result ≡ first_of (measure_in name.now decl.entry.now) }
{
    match decl {
        Decl::Order {
            name: own,
            measure,
            ..
        } => {
            if same_text(own.as_str(), name) {
                Some(measure)
            } else {
                None
            }
        }
        _ => None,
    }
}

/// The measure of the order of this name; None where there is no such order.
pub(crate) fn measure_of<'a>(decls: &'a [Decl], name: &str) -> Option<&'a Term>
    ensures { option_copied result ≡ first_of (measures_of decls.entry.now name.now) }
{
    for decl in decls {
        if let Some(measure) = measure_in(decl, name) {
            return Some(measure);
        }
    }
    None
}
