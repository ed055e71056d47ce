// The conditions of a specification: its input condition, and its output condition, which speaks of the
// output by its name.
ghost use Rattle.std.specs.Prelude.{◌≡◌, ◌∷◌, [], IfOk, codes};
ghost use Rattle.syn_term.specs.Bank.{Extends};
ghost use Rattle.syn_form.specs.Grammar.{name_word};
ghost use Rattle.syn_model.specs.BareParts.{bare_spec_tree};
ghost use Rattle.syn_expr.specs.Scopes.{listed};
ghost use Rattle.syn_files.specs.SpecLines.{output_names};
ghost use Rattle.syn_files.specs.inner.SpecTelling.{ReadsPart};

use crate::cursor::{Cursor, is_text};
use crate::spec_lines::named_part;
use std::alloc::Global;
use syn_expr::{ExprError, Scope, form_of_words, qform_of_words};
use syn_lex::Words;
use syn_model::{Spec, SpecPart};
use syn_term::{Bank, NoMemory, Var};

/// `FORM`, behind the word `requires`. The one error is want of memory.
#[tactic(auto, using(syn_expr::proofs::Growth::growth))]
fn requires_line(
    alloc: Global,
    bank: &mut Bank,
    spec: &Spec,
    back: &Words,
) -> Result<Option<SpecPart>, NoMemory>
    ensures told { IfOk result (ReadsPart (bare_spec_tree spec.now) (name_word (codes "requires") ∷ back.now)) }
    ensures extends { Extends bank.old bank.new }
{
    let scope = Scope {
        syms: spec.symbols(),
        names: &[],
        rows: false,
    };
    match form_of_words(alloc, bank, &scope, back) {
        Ok(form) => Ok(Some(SpecPart::Requires(form))),
        Err(ExprError::Refused) => Ok(None),
        Err(ExprError::NoMemory) => Err(NoMemory),
    }
}

/// The output by its name, as the variable with number 0.
pub(crate) fn output_of(alloc: Global, spec: &Spec) -> Result<(String, Var), NoMemory>
    ensures { IfOk result (λ output. listed (output ∷ []) ≡ output_names spec.now) }
{
    let (name, sort) = spec.output();
    Ok((String::from_str(alloc, name)?, Var { number: 0, sort }))
}

/// The output condition that the words are, where the output is known by these names.
#[tactic(auto, using(syn_expr::proofs::Growth::growth))]
fn ensures_with(
    alloc: Global,
    bank: &mut Bank,
    spec: &Spec,
    names: &[(String, Var)],
    back: &Words,
) -> Result<Option<SpecPart>, NoMemory>
    requires { listed names.now ≡ output_names spec.now }
    ensures told { IfOk result (ReadsPart (bare_spec_tree spec.now) (name_word (codes "ensures") ∷ back.now)) }
    ensures extends { Extends bank.old bank.new }
{
    let scope = Scope {
        syms: spec.symbols(),
        names,
        rows: false,
    };
    match qform_of_words(alloc, bank, &scope, back) {
        Ok(form) => Ok(Some(SpecPart::Ensures(form))),
        Err(ExprError::Refused) => Ok(None),
        Err(ExprError::NoMemory) => Err(NoMemory),
    }
}

/// `FORM`, behind the word `ensures`.
#[tactic(auto, using(syn_expr::proofs::Growth::growth))]
fn ensures_line(
    alloc: Global,
    bank: &mut Bank,
    spec: &Spec,
    back: &Words,
) -> Result<Option<SpecPart>, NoMemory>
    ensures told { IfOk result (ReadsPart (bare_spec_tree spec.now) (name_word (codes "ensures") ∷ back.now)) }
    ensures extends { Extends bank.old bank.new }
{
    let names = [output_of(alloc, spec)?];
    ensures_with(alloc, bank, spec, &names, back)
}

/// The part that a line says which begins with this word and goes on so.
#[tactic(auto, using(syn_expr::proofs::Growth::growth))]
fn part_behind(
    alloc: Global,
    bank: &mut Bank,
    spec: &Spec,
    keyword: &str,
    cursor: &mut Cursor<'_>,
) -> Result<Option<SpecPart>, NoMemory>
    ensures told { IfOk result (ReadsPart (bare_spec_tree spec.now) (name_word keyword.now ∷ cursor.old.left)) }
    ensures extends { Extends bank.old bank.new }
{
    if is_text(keyword, "requires") {
        return requires_line(alloc, bank, spec, &cursor.left);
    }
    if is_text(keyword, "ensures") {
        return ensures_line(alloc, bank, spec, &cursor.left);
    }
    named_part(alloc, keyword, cursor)
}

/// The part that the words of a line say in the specification; None where they say none. The one error is
/// want of memory.
#[tactic(auto, using(syn_expr::proofs::Growth::growth, crate::proofs::PartLaws::nameless_part, crate::proofs::PartLaws::part_behind))]
pub(crate) fn part_of_words(
    alloc: Global,
    bank: &mut Bank,
    spec: &Spec,
    words: &Words,
) -> Result<Option<SpecPart>, NoMemory>
    ensures told { IfOk result (ReadsPart (bare_spec_tree spec.now) words.now) }
    ensures extends { Extends bank.old bank.new }
{
    let mut cursor = Cursor {
        left: words.from(0),
    };
    match cursor.name() {
        None => Ok(None),
        Some(keyword) => part_behind(alloc, bank, spec, keyword, &mut cursor),
    }
}
