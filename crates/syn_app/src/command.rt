// The command lines: which words are which command. The form is tested once, by a call that takes no
// memory; a command keeps copies of the names.
ghost use Rattle.std.specs.Prelude.{◌≡◌, ◌∷◌, [], map, string_bytes, IfOk, MatchOption, OnOk};
ghost use Rattle.syn_app.specs.Words.{Fits, FitsNone, IsCheck, IsEval};
ghost use Rattle.syn_app.specs.inner.Requests.{IsNoCheck, IsNoEval, command_asked};

use sqlite_items::Items;
use std::alloc::Global;
use syn_term::{NoMemory, Text};

/// What the program is asked to do, with the names of the files.
#[derive(Debug, Drop)]
pub enum Command {
    /// Check that the derivation is one of the specification over the theory.
    Check {
        theory: Text,
        spec: Text,
        deriv: Text,
    },
    /// Evaluate the program over the theory on these values.
    Eval {
        theory: Text,
        program: Text,
        values: Items<Text>,
    },
}

/// The names of the files of a check, each not empty.
#[derive(Clone, Copy, Debug)]
pub(crate) struct Names<'a> {
    pub(crate) theory: &'a str,
    pub(crate) spec: &'a str,
    pub(crate) deriv: &'a str,
}

/// The names of the files of an evaluation, each not empty, and the words of its values.
#[derive(Clone, Copy, Debug)]
pub(crate) struct EvalNames<'a> {
    pub(crate) theory: &'a str,
    pub(crate) program: &'a str,
    pub(crate) values: &'a [String],
}

/// A command whose names are lent by the words.
#[derive(Clone, Copy, Debug)]
pub(crate) enum Request<'a> {
    Check(Names<'a>),
    Eval(EvalNames<'a>),
}

/// The command that the words are, None exactly where they are of no form. The one error is want of
/// memory.
pub fn command_of(alloc: Global, words: &[String]) -> Result<Option<Command>, NoMemory>
    ensures { IfOk result (λ o. MatchOption o (FitsNone (map string_bytes words.now)) (Fits (map string_bytes words.now))) }
{
    match request_of(words) {
        None => Ok(None),
        Some(request) => Ok(Some(kept(alloc, request)?)),
    }
}

/// The command with copies of its names.
fn kept(alloc: Global, request: Request<'_>) -> Result<Command, NoMemory>
    ensures { IfOk result (λ c. c ≡ command_asked request.entry) }
{
    match request {
        Request::Check(names) => kept_check(alloc, names),
        Request::Eval(names) => kept_eval(alloc, names),
    }
}

/// The check with copies of its names.
fn kept_check(alloc: Global, names: Names<'_>) -> Result<Command, NoMemory>
    ensures { IfOk result (λ c. c ≡ Command.Check names.entry.theory.now names.entry.spec.now names.entry.deriv.now) }
{
    let theory = Text::from_str(alloc, names.theory)?;
    let spec = Text::from_str(alloc, names.spec)?;
    let deriv = Text::from_str(alloc, names.deriv)?;
    Ok(Command::Check {
        theory,
        spec,
        deriv,
    })
}

/// The evaluation with copies of its names and of the words of its values.
fn kept_eval(alloc: Global, names: EvalNames<'_>) -> Result<Command, NoMemory>
    ensures { IfOk result (λ c. c ≡ Command.Eval names.entry.theory.now names.entry.program.now (map string_bytes names.entry.values.now)) }
{
    let theory = Text::from_str(alloc, names.theory)?;
    let program = Text::from_str(alloc, names.program)?;
    let values = texts_of(alloc, names.values)?;
    Ok(Command::Eval {
        theory,
        program,
        values,
    })
}

/// Copies of the words.
fn texts_of(alloc: Global, words: &[String]) -> Result<Items<Text>, NoMemory>
    ensures { IfOk result (λ texts. texts ≡ map string_bytes words.now) }
{
    let mut texts = Items::new(alloc);
    match push_words(alloc, words, &mut texts) {
        Ok(()) => Ok(texts),
        Err(error) => {
            drop(texts);
            Err(error)
        }
    }
}

/// Adds copies of the words.
fn push_words(alloc: Global, words: &[String], texts: &mut Items<Text>) -> Result<(), NoMemory>
    requires { texts.old ≡ [] }
    ensures { OnOk result (texts.new ≡ map string_bytes words.now) }
{
    for word in words {
        texts.push(Text::from_str(alloc, word.as_str())?)?;
    }
    Ok(())
}

/// The command that the words are, without copies: None exactly where they are of no form.
pub(crate) fn request_of(words: &[String]) -> Option<Request<'_>>
    ensures { MatchOption result (FitsNone (map string_bytes words.now)) (λ q. Fits (map string_bytes words.now) (command_asked q)) }
{
    match check_names(words) {
        Some(names) => Some(Request::Check(names)),
        None => match eval_names(words) {
            Some(names) => Some(Request::Eval(names)),
            None => None,
        },
    }
}

/// The names and values of `eval THEORY PROGRAM VALUE..`, None exactly where the words are not of this
/// form.
fn eval_names(words: &[String]) -> Option<EvalNames<'_>>
    ensures { MatchOption result (IsNoEval (map string_bytes words.now)) (λ n. IsEval (map string_bytes words.now) n.theory.now n.program.now (map string_bytes n.values.now)) }
{
    match words {
        [word, theory, program, values @ ..] => {
            eval_form(word.as_str(), theory.as_str(), program.as_str(), values)
        }
        _ => None,
    }
}

/// The names and values, where the first word is `eval` and neither name is empty.
fn eval_form<'a>(
    word: &str,
    theory: &'a str,
    program: &'a str,
    values: &'a [String],
) -> Option<EvalNames<'a>>
    ensures { MatchOption result (IsNoEval (word.now ∷ theory.now ∷ program.now ∷ map string_bytes values.now)) (λ n. IsEval (word.now ∷ theory.now ∷ program.now ∷ map string_bytes values.now) n.theory.now n.program.now (map string_bytes n.values.now)) }
{
    if word == "eval" && !theory.is_empty() && !program.is_empty() {
        Some(EvalNames {
            theory,
            program,
            values,
        })
    } else {
        None
    }
}

/// The names of `check THEORY SPEC DERIV`, None exactly where the words are not of this form.
fn check_names(words: &[String]) -> Option<Names<'_>>
    ensures { MatchOption result (IsNoCheck (map string_bytes words.now)) (λ n. IsCheck (map string_bytes words.now) n.theory.now n.spec.now n.deriv.now) }
{
    match words {
        [word, theory, spec, deriv] => check_form(
            word.as_str(),
            theory.as_str(),
            spec.as_str(),
            deriv.as_str(),
        ),
        _ => None,
    }
}

/// The names, where the first of the four words is `check` and none of the others is empty.
fn check_form<'a>(word: &str, theory: &'a str, spec: &'a str, deriv: &'a str) -> Option<Names<'a>>
    ensures { MatchOption result (IsNoCheck (word.now ∷ theory.now ∷ spec.now ∷ deriv.now ∷ [])) (λ n. IsCheck (word.now ∷ theory.now ∷ spec.now ∷ deriv.now ∷ []) n.theory.now n.spec.now n.deriv.now) }
{
    if word == "check" && !theory.is_empty() && !spec.is_empty() && !deriv.is_empty() {
        Some(Names {
            theory,
            spec,
            deriv,
        })
    } else {
        None
    }
}
