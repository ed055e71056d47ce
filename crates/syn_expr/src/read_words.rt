// Words are read: a tree stands for them, or they are refused. Past the limit nothing is made.
ghost use Rattle.std.specs.Prelude.{◌≡◌, ◌≤◌, ◌+◌, IfOk, IfSome};
ghost use Rattle.std.specs.Option.{option_map};
ghost use Rattle.syn_term.specs.Bank.{Belongs, Extends};
ghost use Rattle.syn_term.specs.Terms.{bare};
ghost use Rattle.syn_form.specs.Elaboration as elaboration;
ghost use Rattle.syn_form.specs.Quantified.{bare_qform};
ghost use Rattle.syn_form.specs.Texts.{IsFormOf, IsOutOf, IsQFormOf, IsTermOf, body_limit, expression_limit};
ghost use Rattle.syn_form.specs.Trees.{bare_form, bare_out};
ghost use Rattle.syn_parse.specs.Parsing.{IsFormSyntaxOfWords, IsOutSyntaxOfWords, IsTermSyntaxOfWords, OneSyntax};
ghost use Rattle.syn_expr.specs.inner.Accepting.{answer_of, limit_of};
ghost use Rattle.syn_expr.specs.Belonging.{FormBelongs, OutBelongs, QFormBelongs};
ghost use Rattle.syn_expr.specs.Limits as limits;
ghost use Rattle.syn_expr.specs.TextAnswers.{AnswersReading, ArePast, OneAtMost};
ghost use Rattle.syn_expr.specs.Scopes.{LeavesNumbersToBinders, spoken};

use crate::accepting::{taken_form, taken_out, taken_qform, taken_term};
use crate::elaborate_term::elaborate_term;
use crate::error::ExprError;
use crate::limits::{MOST_BODY_LEVELS, MOST_BODY_NODES, MOST_LEVELS, MOST_NODES};
use crate::names::outside;
use crate::scope::Scope;
use std::alloc::Global;
use syn_form::{Form, Out, QForm, TermSyntax};
use syn_lex::Words;
use syn_parse::{parse_form_words, parse_out_words, parse_term_words};
use syn_term::{Bank, NoMemory, Term};

/// The tree that was taken, as a reader answers it.
fn answer<T: Drop>(taken: Result<Option<T>, NoMemory>) -> Result<T, ExprError>
    ensures { result ≡ answer_of taken }
{
    match taken {
        Ok(Some(tree)) => Ok(tree),
        Ok(None) => Err(ExprError::Refused),
        Err(_) => Err(ExprError::NoMemory),
    }
}

/// The term that the words are.
#[tactic(auto, using(crate::proofs::Growth::growth))]
fn term_in(alloc: Global, bank: &mut Bank, scope: &Scope, words: &Words) -> Result<Term, ExprError>
    ensures answer { AnswersReading bare (IsTermOf expression_limit (spoken scope.now) words.now) result }
    ensures past { ArePast (IsTermSyntaxOfWords words.now) limits.term_cost limits.term_levels expression_limit → bank.new ≡ bank.old }
    ensures made { bank.new.made ≤ bank.old.made + expression_limit.nodes }
    ensures extends { Extends bank.old bank.new }
    ensures belongs { IfOk result (Belongs bank.new) }
    ensures syntax { OneSyntax (IsTermSyntaxOfWords words.now) }
{
    match parse_term_words(alloc, words)? {
        None => Err(ExprError::Refused),
        Some(syntax) => {
            let taken = taken_term(alloc, bank, scope, &syntax, MOST_NODES, MOST_LEVELS);
            drop(syntax);
            answer(taken)
        }
    }
}

/// The formula without quantifiers that the words are.
#[tactic(auto, using(crate::proofs::Growth::growth))]
fn form_in(alloc: Global, bank: &mut Bank, scope: &Scope, words: &Words) -> Result<Form, ExprError>
    ensures answer { AnswersReading bare_form (IsFormOf expression_limit (spoken scope.now) words.now) result }
    ensures past { ArePast (IsFormSyntaxOfWords words.now) limits.form_cost limits.form_levels expression_limit → bank.new ≡ bank.old }
    ensures made { bank.new.made ≤ bank.old.made + expression_limit.nodes }
    ensures extends { Extends bank.old bank.new }
    ensures belongs { IfOk result (FormBelongs bank.new) }
    ensures syntax { OneSyntax (IsFormSyntaxOfWords words.now) }
{
    match parse_form_words(alloc, words)? {
        None => Err(ExprError::Refused),
        Some(syntax) => {
            let taken = taken_form(alloc, bank, scope, &syntax, MOST_NODES, MOST_LEVELS);
            drop(syntax);
            answer(taken)
        }
    }
}

/// The formula that the words are.
#[tactic(auto, using(crate::proofs::Growth::growth))]
fn qform_in(
    alloc: Global,
    bank: &mut Bank,
    scope: &Scope,
    words: &Words,
) -> Result<QForm, ExprError>
    ensures answer { AnswersReading bare_qform (IsQFormOf expression_limit (spoken scope.now) words.now) result }
    ensures past { ArePast (IsFormSyntaxOfWords words.now) limits.form_cost limits.form_levels expression_limit → bank.new ≡ bank.old }
    ensures made { bank.new.made ≤ bank.old.made + expression_limit.nodes }
    ensures extends { Extends bank.old bank.new }
    ensures belongs { IfOk result (QFormBelongs bank.new) }
    ensures syntax { OneSyntax (IsFormSyntaxOfWords words.now) }
{
    match parse_form_words(alloc, words)? {
        None => Err(ExprError::Refused),
        Some(syntax) => {
            let taken = taken_qform(alloc, bank, scope, &syntax, MOST_NODES, MOST_LEVELS);
            drop(syntax);
            answer(taken)
        }
    }
}

/// The output that the words are, with at most so many nodes and at most so deep.
#[tactic(auto, using(crate::proofs::Growth::growth))]
fn out_in(
    alloc: Global,
    bank: &mut Bank,
    scope: &Scope,
    words: &Words,
    nodes: u32,
    depth: u32,
) -> Result<Out, ExprError>
    requires { depth ≤ body_limit.depth }
    ensures answer { AnswersReading bare_out (IsOutOf (limit_of nodes depth) (spoken scope.now) words.now) result }
    ensures past { ArePast (IsOutSyntaxOfWords words.now) limits.out_cost limits.out_levels (limit_of nodes depth) → bank.new ≡ bank.old }
    ensures made { bank.new.made ≤ bank.old.made + (limit_of nodes depth).nodes }
    ensures extends { Extends bank.old bank.new }
    ensures belongs { IfOk result (OutBelongs bank.new) }
    ensures syntax { OneSyntax (IsOutSyntaxOfWords words.now) }
{
    match parse_out_words(alloc, words)? {
        None => Err(ExprError::Refused),
        Some(syntax) => {
            let taken = taken_out(alloc, bank, scope, &syntax, nodes, depth);
            drop(syntax);
            answer(taken)
        }
    }
}

/// The term that the words stand for in the scope, made by the bank, of at most 4,096 nodes and at most
/// 1,200 deep. `Refused`: there is none. Where the words are past the limit nothing is made.
pub fn term_of_words(
    alloc: Global,
    bank: &mut Bank,
    scope: &Scope,
    words: &Words,
) -> Result<Term, ExprError>
    ensures answer { AnswersReading bare (IsTermOf expression_limit (spoken scope.now) words.now) result }
    ensures one { OneAtMost (IsTermOf expression_limit (spoken scope.now) words.now) }
    ensures past { ArePast (IsTermSyntaxOfWords words.now) limits.term_cost limits.term_levels expression_limit → bank.new ≡ bank.old }
    ensures made { bank.new.made ≤ bank.old.made + expression_limit.nodes }
    ensures extends { Extends bank.old bank.new }
    ensures belongs { IfOk result (Belongs bank.new) }
{
    term_in(alloc, bank, scope, words)
}

/// The formula without quantifiers that the words stand for in the scope, with the same limit.
/// `Refused`: there is none.
pub fn form_of_words(
    alloc: Global,
    bank: &mut Bank,
    scope: &Scope,
    words: &Words,
) -> Result<Form, ExprError>
    ensures answer { AnswersReading bare_form (IsFormOf expression_limit (spoken scope.now) words.now) result }
    ensures one { OneAtMost (IsFormOf expression_limit (spoken scope.now) words.now) }
    ensures past { ArePast (IsFormSyntaxOfWords words.now) limits.form_cost limits.form_levels expression_limit → bank.new ≡ bank.old }
    ensures made { bank.new.made ≤ bank.old.made + expression_limit.nodes }
    ensures extends { Extends bank.old bank.new }
    ensures belongs { IfOk result (FormBelongs bank.new) }
{
    form_in(alloc, bank, scope, words)
}

/// The formula that the words stand for in the scope, with the same limit. Its binders are numbered
/// from 1, so no variable of the scope may have one of these numbers. `Refused`: there is none.
pub fn qform_of_words(
    alloc: Global,
    bank: &mut Bank,
    scope: &Scope,
    words: &Words,
) -> Result<QForm, ExprError>
    requires { LeavesNumbersToBinders (spoken scope.now) }
    ensures answer { AnswersReading bare_qform (IsQFormOf expression_limit (spoken scope.now) words.now) result }
    ensures one { OneAtMost (IsQFormOf expression_limit (spoken scope.now) words.now) }
    ensures past { ArePast (IsFormSyntaxOfWords words.now) limits.form_cost limits.form_levels expression_limit → bank.new ≡ bank.old }
    ensures made { bank.new.made ≤ bank.old.made + expression_limit.nodes }
    ensures extends { Extends bank.old bank.new }
    ensures belongs { IfOk result (QFormBelongs bank.new) }
{
    qform_in(alloc, bank, scope, words)
}

/// The output that the words stand for in the scope, with the same limit. `Refused`: there is none.
pub fn out_of_words(
    alloc: Global,
    bank: &mut Bank,
    scope: &Scope,
    words: &Words,
) -> Result<Out, ExprError>
    ensures answer { AnswersReading bare_out (IsOutOf expression_limit (spoken scope.now) words.now) result }
    ensures one { OneAtMost (IsOutOf expression_limit (spoken scope.now) words.now) }
    ensures past { ArePast (IsOutSyntaxOfWords words.now) limits.out_cost limits.out_levels expression_limit → bank.new ≡ bank.old }
    ensures made { bank.new.made ≤ bank.old.made + expression_limit.nodes }
    ensures extends { Extends bank.old bank.new }
    ensures belongs { IfOk result (OutBelongs bank.new) }
{
    out_in(alloc, bank, scope, words, MOST_NODES, MOST_LEVELS)
}

/// The same for the body of a program, of at most 262,144 nodes and at most 1,264 deep.
pub fn body_of_words(
    alloc: Global,
    bank: &mut Bank,
    scope: &Scope,
    words: &Words,
) -> Result<Out, ExprError>
    ensures answer { AnswersReading bare_out (IsOutOf body_limit (spoken scope.now) words.now) result }
    ensures one { OneAtMost (IsOutOf body_limit (spoken scope.now) words.now) }
    ensures past { ArePast (IsOutSyntaxOfWords words.now) limits.out_cost limits.out_levels body_limit → bank.new ≡ bank.old }
    ensures made { bank.new.made ≤ bank.old.made + body_limit.nodes }
    ensures extends { Extends bank.old bank.new }
    ensures belongs { IfOk result (OutBelongs bank.new) }
{
    out_in(alloc, bank, scope, words, MOST_BODY_NODES, MOST_BODY_LEVELS)
}

/// The term that the syntax tree stands for in the scope, whatever its size; None where a name isn't there
/// or a symbol doesn't take its arguments. The one error is want of memory.
pub fn term_of_syntax(
    alloc: Global,
    bank: &mut Bank,
    scope: &Scope,
    syntax: &TermSyntax,
) -> Result<Option<Term>, NoMemory>
    ensures tree { IfOk result (λ o. option_map bare o ≡ elaboration.elaborate_term (spoken scope.now) syntax.now) }
    ensures made { bank.new.made ≤ bank.old.made + limits.term_cost syntax.now }
    ensures extends { Extends bank.old bank.new }
    ensures belongs { IfOk result (λ o. IfSome o (Belongs bank.new)) }
{
    elaborate_term(alloc, bank, &outside(scope), syntax)
}
