// The words of a line go, one by one, as lexemes to the reader of phrases, as phrases to the reader of items,
// and as items to what takes them. No list of lexemes, phrases or items is kept.
ghost use Rattle.std.specs.Prelude.{◌≡◌, List, [], ◌∷◌, ◌++◌, All, MatchOption, OnOk, Some, slice_get};
ghost use Rattle.syn_term.specs.Tokens.{Word};
ghost use Rattle.syn_lex.specs.Lexing.{IsTokenWord};
ghost use Rattle.syn_form.specs.declared.syntax.Lexeme.{Lexeme};
ghost use Rattle.syn_parse.specs.declared.phrase_reader.Phrase.{Phrase};
ghost use Rattle.syn_parse.specs.inner.Feeding.{Keeps, fed, told};
ghost use Rattle.syn_parse.specs.inner.ItemMachine as items;
ghost use Rattle.syn_parse.specs.inner.Leads.{Leads, Tells};
ghost use Rattle.syn_parse.specs.inner.Passes.{Gives};
ghost use Rattle.syn_parse.specs.inner.PhraseMachine as phrases;
ghost use Rattle.syn_parse.specs.inner.Spelling.{NoLexeme, Spells};

use crate::item_reader::ItemReader;
use crate::items::Item;
use crate::lexemes::lexeme_of;
use crate::phrase_reader::{Phrase, PhraseReader};
use crate::sink::Sink;
use crate::stack::first;
use crate::stop::Stop;
use sqlite_items::Items;
use std::alloc::Global;
use syn_form::Lexeme;
use syn_lex::Words;

/// The lexeme that the word with k words before it is; None where it is none, or there is no such word.
fn lexeme_at<'a>(words: &Words<'a>, k: usize) -> Option<Lexeme<'a>>
    ensures { MatchOption result ((w : Word) → slice_get words.now k ≡ Some w → NoLexeme w) (λ l. (w : Word) × (slice_get words.now k ≡ Some w) × Spells w l) }
{
    match words.get(k) {
        None => None,
        Some((kind, bytes)) => lexeme_of(kind, bytes),
    }
}

/// Nothing: what is told is that each word is a token, as each look at one tells.
fn look(words: &Words)
    ensures { All IsTokenWord words.now }
{
    let _ = words.get(0);
}

/// The phrases go to the reader of items.
fn pass_phrases<'a, S: Sink<Item<'a>>>(
    alloc: Global,
    phrases: &mut Items<Phrase<'a>>,
    items: &mut ItemReader<'a>,
    sink: &mut S,
) -> Result<(), Stop>
    ensures fed { (more : List Phrase) → Keeps result (fed S.takes sink.old items.old (phrases.old ++ more)) (fed S.takes sink.new items.new more) }
    ensures rest { OnOk result (phrases.new ≡ []) }
{
    while let Some(phrase) = first(phrases) {
        items.pass(alloc, phrase, sink)?;
    }
    Ok(())
}

/// One lexeme, and the phrases and items that are whole then go on.
fn pass_lexeme<'a, S: Sink<Item<'a>>>(
    alloc: Global,
    lexeme: Lexeme<'a>,
    phrases: &mut PhraseReader<'a>,
    items: &mut ItemReader<'a>,
    sink: &mut S,
) -> Result<(), Stop>
    ensures { (more : List Lexeme) → Keeps result (told S.takes sink.old items.old phrases.old (lexeme.entry ∷ more)) (told S.takes sink.new items.new phrases.new more) }
{
    if phrases.is_plain(&lexeme) {
        return items.pass(alloc, Phrase::Word(lexeme), sink);
    }
    phrases.step(alloc, lexeme)?;
    pass_phrases(alloc, &mut phrases.done, items, sink)
}

/// The end: what is left in the readers goes on.
fn pass_end<'a, S: Sink<Item<'a>>>(
    alloc: Global,
    phrases: &mut PhraseReader<'a>,
    items: &mut ItemReader<'a>,
    sink: &mut S,
) -> Result<(), Stop>
    ensures { Leads result sink.new (told S.takes sink.old items.old phrases.old []) }
{
    phrases.finish()?;
    pass_phrases(alloc, &mut phrases.done, items, sink)?;
    items.pass_last(alloc, sink)
}

/// All words and the end.
fn pass_words<'a, S: Sink<Item<'a>>>(
    alloc: Global,
    words: &Words<'a>,
    phrases: &mut PhraseReader<'a>,
    items: &mut ItemReader<'a>,
    sink: &mut S,
) -> Result<(), Stop>
    requires { All IsTokenWord words.now }
    ensures { Tells result sink.new (Gives (told S.takes sink.old items.old phrases.old) words.now) }
{
    let count = words.len();
    let mut k = 0;
    while k < count {
        match lexeme_at(words, k) {
            None => return Err(Stop::Misplaced),
            Some(lexeme) => pass_lexeme(alloc, lexeme, phrases, items, sink)?,
        }
        k += 1;
    }
    pass_end(alloc, phrases, items, sink)
}

/// The items that the words make up go to the sink.
pub(crate) fn feed_words<'a, S: Sink<Item<'a>>>(
    alloc: Global,
    words: &Words<'a>,
    sink: &mut S,
) -> Result<(), Stop>
    ensures answer { Tells result sink.new (Gives (told S.takes sink.old items.start (phrases.closed [])) words.now) }
    ensures each { All IsTokenWord words.now }
{
    look(words);
    let mut phrases = PhraseReader::new(alloc);
    let mut items = ItemReader::new(alloc);
    let read = pass_words(alloc, words, &mut phrases, &mut items, sink);
    drop(phrases);
    drop(items);
    read
}
