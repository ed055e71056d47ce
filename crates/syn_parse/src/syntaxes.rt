// The syntax tree of words: their items go one by one to the reader of the tree.
ghost use Rattle.std.specs.Prelude.{All, IfOk};
ghost use Rattle.syn_lex.specs.Lexing.{IsTokenWord};
ghost use Rattle.syn_parse.specs.inner.Leads.{Gets, IsAnswer};
ghost use Rattle.syn_parse.specs.inner.Passes.{Gives, form_from, out_from, term_from};

use crate::form_reader::FormReader;
use crate::out_reader::OutReader;
use crate::stop::Stop;
use crate::term_reader::TermReader;
use crate::words_reader::feed_words;
use std::alloc::Global;
use syn_form::{FormSyntax, OutSyntax, TermSyntax};
use syn_lex::Words;
use syn_term::NoMemory;

/// What a reader answers: None where it stopped at a word.
fn answer<T: Drop>(read: Result<T, Stop>) -> Result<Option<T>, NoMemory>
    ensures { IsAnswer read result }
{
    match read {
        Ok(value) => Ok(Some(value)),
        Err(Stop::Misplaced) => Ok(None),
        Err(Stop::NoMemory) => Err(NoMemory),
    }
}

/// The term that the words are.
fn term_in<'a>(alloc: Global, words: &Words<'a>) -> Result<TermSyntax<'a>, Stop>
    ensures answer { Gets result (Gives term_from words.now) }
    ensures each { All IsTokenWord words.now }
{
    let mut reader = TermReader::new();
    match feed_words(alloc, words, &mut reader) {
        Ok(()) => {
            let term = reader.end();
            drop(reader);
            term
        }
        Err(stop) => {
            drop(reader);
            Err(stop)
        }
    }
}

/// The formula that the words are.
fn form_in<'a>(alloc: Global, words: &Words<'a>) -> Result<FormSyntax<'a>, Stop>
    ensures answer { Gets result (Gives form_from words.now) }
    ensures each { All IsTokenWord words.now }
{
    let mut reader = FormReader::new(alloc);
    match feed_words(alloc, words, &mut reader) {
        Ok(()) => {
            let form = reader.end(alloc);
            drop(reader);
            form
        }
        Err(stop) => {
            drop(reader);
            Err(stop)
        }
    }
}

/// The output that the words are.
fn out_in<'a>(alloc: Global, words: &Words<'a>) -> Result<OutSyntax<'a>, Stop>
    ensures answer { Gets result (Gives out_from words.now) }
    ensures each { All IsTokenWord words.now }
{
    let mut reader = OutReader::new(alloc);
    match feed_words(alloc, words, &mut reader) {
        Ok(()) => {
            let out = reader.end();
            drop(reader);
            out
        }
        Err(stop) => {
            drop(reader);
            Err(stop)
        }
    }
}

/// The syntax tree of words that are one term; None where they are none, or one that is too high.
pub(crate) fn term_syntax<'a>(
    alloc: Global,
    words: &Words<'a>,
) -> Result<Option<TermSyntax<'a>>, NoMemory>
    ensures gives { IfOk result (Gives term_from words.now) }
    ensures each { All IsTokenWord words.now }
{
    answer(term_in(alloc, words))
}

/// The same for a formula.
pub(crate) fn form_syntax<'a>(
    alloc: Global,
    words: &Words<'a>,
) -> Result<Option<FormSyntax<'a>>, NoMemory>
    ensures gives { IfOk result (Gives form_from words.now) }
    ensures each { All IsTokenWord words.now }
{
    answer(form_in(alloc, words))
}

/// The same for an output.
pub(crate) fn out_syntax<'a>(
    alloc: Global,
    words: &Words<'a>,
) -> Result<Option<OutSyntax<'a>>, NoMemory>
    ensures gives { IfOk result (Gives out_from words.now) }
    ensures each { All IsTokenWord words.now }
{
    answer(out_in(alloc, words))
}
