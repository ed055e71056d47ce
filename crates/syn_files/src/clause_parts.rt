// The parts of a clause line: what stands before its sign and behind it, and its arguments as they are written.
ghost use Rattle.std.specs.Prelude.{◌≡◌, ◌↔◌, ◌+◌, All, IfOk, IsTrue, MatchOption, Some, drop, false, slice_get, take, true};
ghost use Rattle.syn_form.specs.Grammar.{sign_word};
ghost use Rattle.syn_form.specs.declared.syntax.HeadName.TheVariants as heads;
ghost use Rattle.syn_lex.specs.Lexing.{word};
ghost use Rattle.syn_parse.specs.Parsing.{IsTermSyntaxOfWords, OneSyntax, Parses};
ghost use Rattle.syn_expr.specs.Scopes.{listed};
ghost use Rattle.syn_files.specs.inner.ClauseReading.{IsCut, IsOther, applied, vars_of};

use crate::cursor::{is_sign, is_text};
use sqlite_items::Items;
use std::alloc::Global;
use syn_form::{HeadName, TermSyntax};
use syn_lex::Words;
use syn_parse::parse_term_words;
use syn_term::{NoMemory, Var};

/// Whether the word with k words before it is this sign.
fn is_sign_at(words: &Words, k: usize, sign: &[u8]) -> bool
    ensures other { result ≡ false → (w : _) → slice_get words.now k ≡ Some w → IsOther sign.now w }
    ensures same { result ≡ true → slice_get words.now k ≡ Some (sign_word sign.now) }
{
    match words.get(k) {
        None => false,
        Some((kind, bytes)) => is_sign(kind, bytes, sign),
    }
}

/// How many words stand before the first that is this sign.
pub(crate) fn sign_place(words: &Words, sign: &[u8]) -> Option<usize>
    ensures { MatchOption result (All (IsOther sign.now) words.now) (λ n. IsCut sign.now words.now (take n words.now) (drop (n + 1) words.now)) }
{
    for k in 0..words.len() {
        if is_sign_at(words, k, sign) {
            return Some(k);
        }
    }
    None
}

/// Whether this name stands there.
fn is_this_name(head: &HeadName, own: &str) -> bool
    ensures { IsTrue result ↔ (head.now ≡ heads.Name own.now) }
{
    match head {
        HeadName::Name(name) => is_text(name.as_str(), own),
        HeadName::Skolem(_) => false,
    }
}

/// The arguments behind this name, where the term is it before arguments.
fn arguments_behind<'a>(own: &str, syntax: TermSyntax<'a>) -> Option<Items<TermSyntax<'a>>>
    ensures { MatchOption result ((ps : _) → (syntax.entry ≡ applied own.now ps) → ⊥) (λ ps. syntax.entry ≡ applied own.now ps) }
{
    match syntax {
        TermSyntax::Applied(head, args) => {
            if is_this_name(&head, own) {
                Some(args)
            } else {
                drop(args);
                None
            }
        }
        _ => None,
    }
}

/// The arguments behind this name, where the words are it before arguments. The one error is want of memory.
pub(crate) fn patterns_of<'a>(
    alloc: Global,
    own: &str,
    words: &Words<'a>,
) -> Result<Option<Items<TermSyntax<'a>>>, NoMemory>
    ensures answer { IfOk result (Parses (λ ps. IsTermSyntaxOfWords words.now (applied own.now ps))) }
    ensures one { OneSyntax (IsTermSyntaxOfWords words.now) }
{
    match parse_term_words(alloc, words)? {
        None => Ok(None),
        Some(syntax) => Ok(arguments_behind(own, syntax)),
    }
}

/// Whether the variables of these names are these.
pub(crate) fn are_vars(names: &[(String, Var)], vars: &[Var]) -> bool
    ensures { IsTrue result ↔ (vars_of (listed names.now) ≡ vars.now) }
{
    match names {
        [] => vars.is_empty(),
        [name, names @ ..] => match vars {
            [] => false,
            [var, vars @ ..] => name.1 == *var && are_vars(names, vars),
        },
    }
}
