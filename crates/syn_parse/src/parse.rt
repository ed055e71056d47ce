// The syntax tree of words. It lends its names from their line.
ghost use Rattle.std.specs.Prelude.{IfOk};
ghost use Rattle.syn_parse.specs.Parsing.{IsFormSyntaxOfWords, IsOutSyntaxOfWords, IsTermSyntaxOfWords, OneSyntax, Parses};

use crate::syntaxes::{form_syntax, out_syntax, term_syntax};
use std::alloc::Global;
use syn_form::{FormSyntax, OutSyntax, TermSyntax};
use syn_lex::Words;
use syn_term::NoMemory;

/// The syntax tree of words that are a term, at most 1,264 high; None where they are
/// none. The one error is want of memory.
pub fn parse_term_words<'a>(
    alloc: Global,
    words: &Words<'a>,
) -> Result<Option<TermSyntax<'a>>, NoMemory>
    ensures answer { IfOk result (Parses (IsTermSyntaxOfWords words.now)) }
    ensures one { OneSyntax (IsTermSyntaxOfWords words.now) }
{
    term_syntax(alloc, words)
}

/// The syntax tree of words that are a formula, at most 1,264 high, as its terms are; None where they are
/// none. The one error is want of memory.
pub fn parse_form_words<'a>(
    alloc: Global,
    words: &Words<'a>,
) -> Result<Option<FormSyntax<'a>>, NoMemory>
    ensures answer { IfOk result (Parses (IsFormSyntaxOfWords words.now)) }
    ensures one { OneSyntax (IsFormSyntaxOfWords words.now) }
{
    form_syntax(alloc, words)
}

/// The syntax tree of words that are an output, at most 1,264 high, as its terms are; None where they are
/// none. The one error is want of memory.
pub fn parse_out_words<'a>(
    alloc: Global,
    words: &Words<'a>,
) -> Result<Option<OutSyntax<'a>>, NoMemory>
    ensures answer { IfOk result (Parses (IsOutSyntaxOfWords words.now)) }
    ensures one { OneSyntax (IsOutSyntaxOfWords words.now) }
{
    out_syntax(alloc, words)
}
