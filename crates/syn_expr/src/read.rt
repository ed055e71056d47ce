// Texts are read, each one line: cut into words once, and these are read.
ghost use Rattle.std.specs.Prelude.{◌≡◌, ◌≤◌, ◌+◌, IfOk};
ghost use Rattle.syn_term.specs.Bank.{Belongs, Extends};
ghost use Rattle.syn_term.specs.Terms.{bare};
ghost use Rattle.syn_form.specs.Quantified.{bare_qform};
ghost use Rattle.syn_form.specs.Texts.{IsFormOf, IsOutOf, IsQFormOf, IsTermOf, IsTextOf, body_limit, expression_limit};
ghost use Rattle.syn_form.specs.Trees.{bare_form, bare_out};
ghost use Rattle.syn_parse.specs.Parsing.{IsFormSyntaxOf, IsOutSyntaxOf, IsTermSyntaxOf};
ghost use Rattle.syn_expr.specs.Belonging.{FormBelongs, OutBelongs, QFormBelongs};
ghost use Rattle.syn_expr.specs.Limits as limits;
ghost use Rattle.syn_expr.specs.TextAnswers.{AnswersReading, ArePast, OneAtMost};
ghost use Rattle.syn_expr.specs.Scopes.{LeavesNumbersToBinders, spoken};

use crate::error::ExprError;
use crate::read_words::{
    body_of_words, form_of_words, out_of_words, qform_of_words, term_of_words,
};
use crate::scope::Scope;
use std::alloc::Global;
use syn_form::{Form, Out, QForm};
use syn_lex::{Words, line_tokens};
use syn_term::{Bank, Term};

/// The term that the text stands for in the scope, made by the bank, of at most 4,096 nodes and at
/// most 1,200 deep. `Refused`: there is none. Where the text is past the limit nothing is made.
#[tactic(auto, using(crate::proofs::Growth::growth))]
pub fn read_term(
    alloc: Global,
    bank: &mut Bank,
    scope: &Scope,
    text: &str,
) -> Result<Term, ExprError>
    ensures answer { AnswersReading bare (IsTextOf (IsTermOf expression_limit (spoken scope.now)) text.now) result }
    ensures one { OneAtMost (IsTextOf (IsTermOf expression_limit (spoken scope.now)) text.now) }
    ensures past { ArePast (IsTermSyntaxOf text.now) limits.term_cost limits.term_levels expression_limit → bank.new ≡ bank.old }
    ensures made { bank.new.made ≤ bank.old.made + expression_limit.nodes }
    ensures extends { Extends bank.old bank.new }
    ensures belongs { IfOk result (Belongs bank.new) }
{
    let line = text.as_bytes();
    match line_tokens(alloc, line)? {
        None => Err(ExprError::Refused),
        Some(found) => term_of_words(alloc, bank, scope, &Words::new(line, found.as_slice())),
    }
}

/// The formula without quantifiers that the text stands for in the scope, with the same limit.
/// `Refused`: there is none.
#[tactic(auto, using(crate::proofs::Growth::growth))]
pub fn read_form(
    alloc: Global,
    bank: &mut Bank,
    scope: &Scope,
    text: &str,
) -> Result<Form, ExprError>
    ensures answer { AnswersReading bare_form (IsTextOf (IsFormOf expression_limit (spoken scope.now)) text.now) result }
    ensures one { OneAtMost (IsTextOf (IsFormOf expression_limit (spoken scope.now)) text.now) }
    ensures past { ArePast (IsFormSyntaxOf text.now) limits.form_cost limits.form_levels expression_limit → bank.new ≡ bank.old }
    ensures made { bank.new.made ≤ bank.old.made + expression_limit.nodes }
    ensures extends { Extends bank.old bank.new }
    ensures belongs { IfOk result (FormBelongs bank.new) }
{
    let line = text.as_bytes();
    match line_tokens(alloc, line)? {
        None => Err(ExprError::Refused),
        Some(found) => form_of_words(alloc, bank, scope, &Words::new(line, found.as_slice())),
    }
}

/// The formula that the text stands for in the scope, with the same limit. Its binders are numbered
/// from 1, so no variable of the scope may have one of these numbers. `Refused`: there is none.
#[tactic(auto, using(crate::proofs::Growth::growth))]
pub fn read_qform(
    alloc: Global,
    bank: &mut Bank,
    scope: &Scope,
    text: &str,
) -> Result<QForm, ExprError>
    requires { LeavesNumbersToBinders (spoken scope.now) }
    ensures answer { AnswersReading bare_qform (IsTextOf (IsQFormOf expression_limit (spoken scope.now)) text.now) result }
    ensures one { OneAtMost (IsTextOf (IsQFormOf expression_limit (spoken scope.now)) text.now) }
    ensures past { ArePast (IsFormSyntaxOf text.now) limits.form_cost limits.form_levels expression_limit → bank.new ≡ bank.old }
    ensures made { bank.new.made ≤ bank.old.made + expression_limit.nodes }
    ensures extends { Extends bank.old bank.new }
    ensures belongs { IfOk result (QFormBelongs bank.new) }
{
    let line = text.as_bytes();
    match line_tokens(alloc, line)? {
        None => Err(ExprError::Refused),
        Some(found) => qform_of_words(alloc, bank, scope, &Words::new(line, found.as_slice())),
    }
}

/// The output that the text stands for in the scope, with the same limit. `Refused`: there is none.
#[tactic(auto, using(crate::proofs::Growth::growth))]
pub fn read_out(alloc: Global, bank: &mut Bank, scope: &Scope, text: &str) -> Result<Out, ExprError>
    ensures answer { AnswersReading bare_out (IsTextOf (IsOutOf expression_limit (spoken scope.now)) text.now) result }
    ensures one { OneAtMost (IsTextOf (IsOutOf expression_limit (spoken scope.now)) text.now) }
    ensures past { ArePast (IsOutSyntaxOf text.now) limits.out_cost limits.out_levels expression_limit → bank.new ≡ bank.old }
    ensures made { bank.new.made ≤ bank.old.made + expression_limit.nodes }
    ensures extends { Extends bank.old bank.new }
    ensures belongs { IfOk result (OutBelongs bank.new) }
{
    let line = text.as_bytes();
    match line_tokens(alloc, line)? {
        None => Err(ExprError::Refused),
        Some(found) => out_of_words(alloc, bank, scope, &Words::new(line, found.as_slice())),
    }
}

/// The same for the body of a program, of at most 262,144 nodes and at most 1,264 deep.
#[tactic(auto, using(crate::proofs::Growth::growth))]
pub fn read_body(
    alloc: Global,
    bank: &mut Bank,
    scope: &Scope,
    text: &str,
) -> Result<Out, ExprError>
    ensures answer { AnswersReading bare_out (IsTextOf (IsOutOf body_limit (spoken scope.now)) text.now) result }
    ensures one { OneAtMost (IsTextOf (IsOutOf body_limit (spoken scope.now)) text.now) }
    ensures past { ArePast (IsOutSyntaxOf text.now) limits.out_cost limits.out_levels body_limit → bank.new ≡ bank.old }
    ensures made { bank.new.made ≤ bank.old.made + body_limit.nodes }
    ensures extends { Extends bank.old bank.new }
    ensures belongs { IfOk result (OutBelongs bank.new) }
{
    let line = text.as_bytes();
    match line_tokens(alloc, line)? {
        None => Err(ExprError::Refused),
        Some(found) => body_of_words(alloc, bank, scope, &Words::new(line, found.as_slice())),
    }
}
