// The first pass over words puts each quantifier with its binders together into one
// phrase; all other words stay as they are.
ghost use Rattle.std.specs.Prelude.{◌≡◌, ◌++◌, [], ◌∷◌, Some, IsTrue, IfOk, OnOk};
ghost use Rattle.syn_parse.specs.inner.Leads.{Leads, Makes};
ghost use Rattle.syn_parse.specs.inner.PhraseMachine as machine;

use crate::stop::Stop;
use sqlite_items::Items;
use std::alloc::{AllocError, Global};
use syn_form::{BinderSyntax, Lexeme, Mark, NameText, Quantifier};

/// A word, or a quantifier with its binders, from its word to its stop.
#[derive(Drop)]
pub(crate) enum Phrase<'a> {
    Word(Lexeme<'a>),
    Quantifier(Quantifier, Items<BinderSyntax<'a>>),
}

/// What comes next of a quantifier: a name, the colon behind it, a sort, or a comma or the stop.
#[derive(Drop)]
pub(crate) enum BinderStage<'a> {
    Name,
    Colon(NameText<'a>),
    Sort(NameText<'a>),
    Next,
}

/// A quantifier that isn't at its stop yet.
#[derive(Drop)]
pub(crate) struct Binding<'a> {
    pub(crate) quantifier: Quantifier,
    pub(crate) binders: Items<BinderSyntax<'a>>,
    pub(crate) stage: BinderStage<'a>,
}

/// The phrases that are ready to go on, and the quantifier that is open.
#[derive(Drop)]
pub(crate) struct PhraseReader<'a> {
    pub(crate) done: Items<Phrase<'a>>,
    pub(crate) pending: Option<Binding<'a>>,
}

/// The sort that a word is: `nat`, or a name.
fn sort_of<'a>(lexeme: Lexeme<'a>) -> Result<NameText<'a>, Stop>
    ensures { Makes result (machine.sort_of lexeme.entry) }
{
    match lexeme {
        Lexeme::Fixed(Mark::Nat) => Ok(NameText::new("nat")),
        Lexeme::Name(sort) => Ok(sort),
        other => {
            drop(other);
            Err(Stop::Misplaced)
        }
    }
}

fn with_binder<'a>(
    binders: Items<BinderSyntax<'a>>,
    name: NameText<'a>,
    sort: NameText<'a>,
) -> Result<Items<BinderSyntax<'a>>, AllocError>
    ensures { IfOk result (λ more. more ≡ machine.with_binder binders.entry name.entry sort.entry) }
{
    let mut binders = binders;
    match binders.push(BinderSyntax { name, sort }) {
        Ok(()) => Ok(binders),
        Err(error) => {
            drop(binders);
            Err(error)
        }
    }
}

impl<'a> PhraseReader<'a> {
    pub(crate) fn new(alloc: Global) -> PhraseReader<'a>
        ensures { result ≡ machine.closed [] }
    {
        PhraseReader {
            done: Items::new(alloc),
            pending: None,
        }
    }

    /// A phrase is whole, and no quantifier is open.
    fn put(&mut self, phrase: Phrase<'a>) -> Result<(), AllocError>
        ensures { OnOk result (self.new ≡ machine.closed (self.old.done ++ phrase.entry ∷ [])) }
    {
        self.done.push(phrase)?;
        drop(self.pending.take());
        Ok(())
    }

    /// The quantifier is open at this stage.
    fn wait(
        &mut self,
        quantifier: Quantifier,
        binders: Items<BinderSyntax<'a>>,
        stage: BinderStage<'a>,
    )
        ensures { self.new ≡ machine.holds self.old.done quantifier binders.entry stage.entry }
    {
        let binding = Binding {
            quantifier,
            binders,
            stage,
        };
        drop(self.pending.replace(binding));
    }

    /// The next word outside of quantifiers.
    fn outside(&mut self, alloc: Global, lexeme: Lexeme<'a>) -> Result<(), AllocError>
        ensures { OnOk result (self.new ≡ machine.outside self.old.done lexeme.entry) }
    {
        match lexeme {
            Lexeme::Fixed(Mark::ForAll) => {
                self.wait(Quantifier::All, Items::new(alloc), BinderStage::Name);
                Ok(())
            }
            Lexeme::Fixed(Mark::ForSome) => {
                self.wait(Quantifier::Exists, Items::new(alloc), BinderStage::Name);
                Ok(())
            }
            other => self.put(Phrase::Word(other)),
        }
    }

    fn name_next(
        &mut self,
        quantifier: Quantifier,
        binders: Items<BinderSyntax<'a>>,
        lexeme: Lexeme<'a>,
    ) -> Result<(), Stop>
        ensures { Leads result self.new (machine.name_next self.old.done quantifier binders.entry lexeme.entry) }
    {
        match lexeme {
            Lexeme::Name(x) => {
                self.wait(quantifier, binders, BinderStage::Colon(x));
                Ok(())
            }
            other => {
                drop(other);
                drop(binders);
                Err(Stop::Misplaced)
            }
        }
    }

    fn colon_next(
        &mut self,
        quantifier: Quantifier,
        binders: Items<BinderSyntax<'a>>,
        name: NameText<'a>,
        lexeme: Lexeme<'a>,
    ) -> Result<(), Stop>
        ensures { Leads result self.new (machine.colon_next self.old.done quantifier binders.entry name.entry lexeme.entry) }
    {
        match lexeme {
            Lexeme::Fixed(Mark::Colon) => {
                self.wait(quantifier, binders, BinderStage::Sort(name));
                Ok(())
            }
            other => {
                drop(other);
                drop(name);
                drop(binders);
                Err(Stop::Misplaced)
            }
        }
    }

    fn sort_next(
        &mut self,
        quantifier: Quantifier,
        binders: Items<BinderSyntax<'a>>,
        name: NameText<'a>,
        lexeme: Lexeme<'a>,
    ) -> Result<(), Stop>
        ensures { Leads result self.new (machine.sort_next self.old.done quantifier binders.entry name.entry lexeme.entry) }
    {
        match sort_of(lexeme) {
            Ok(sort) => {
                let more = with_binder(binders, name, sort)?;
                self.wait(quantifier, more, BinderStage::Next);
                Ok(())
            }
            Err(stop) => {
                drop(name);
                drop(binders);
                Err(stop)
            }
        }
    }

    fn stop_next(
        &mut self,
        quantifier: Quantifier,
        binders: Items<BinderSyntax<'a>>,
        lexeme: Lexeme<'a>,
    ) -> Result<(), Stop>
        ensures { Leads result self.new (machine.stop_next self.old.done quantifier binders.entry lexeme.entry) }
    {
        match lexeme {
            Lexeme::Fixed(Mark::Comma) => {
                self.wait(quantifier, binders, BinderStage::Name);
                Ok(())
            }
            Lexeme::Fixed(Mark::Dot) => {
                self.put(Phrase::Quantifier(quantifier, binders))?;
                Ok(())
            }
            other => {
                drop(other);
                drop(binders);
                Err(Stop::Misplaced)
            }
        }
    }

    /// The next word inside a quantifier.
    fn inside(&mut self, binding: Binding<'a>, lexeme: Lexeme<'a>) -> Result<(), Stop>
        ensures { Leads result self.new (machine.inside self.old.done binding.entry lexeme.entry) }
    {
        let Binding {
            quantifier,
            binders,
            stage,
        } = binding;
        match stage {
            BinderStage::Name => self.name_next(quantifier, binders, lexeme),
            BinderStage::Colon(name) => self.colon_next(quantifier, binders, name, lexeme),
            BinderStage::Sort(name) => self.sort_next(quantifier, binders, name, lexeme),
            BinderStage::Next => self.stop_next(quantifier, binders, lexeme),
        }
    }

    /// The reader one word further.
    pub(crate) fn step(&mut self, alloc: Global, lexeme: Lexeme<'a>) -> Result<(), Stop>
        ensures { Leads result self.new (machine.step self.old lexeme.entry) }
    {
        match self.pending.take() {
            Some(binding) => self.inside(binding, lexeme),
            None => {
                self.outside(alloc, lexeme)?;
                Ok(())
            }
        }
    }

    /// Whether the word is a phrase by itself, and the only one that is then ready.
    pub(crate) fn is_plain(&self, lexeme: &Lexeme<'a>) -> bool
        ensures { IsTrue result → (self.now ≡ machine.closed []) × (machine.step self.now lexeme.now ≡ Some (machine.word [] lexeme.now)) }
    {
        if self.pending.is_some() || !self.done.is_empty() {
            return false;
        }
        !matches!(lexeme, Lexeme::Fixed(Mark::ForAll | Mark::ForSome))
    }

    /// The end, where no quantifier is open.
    pub(crate) fn finish(&self) -> Result<(), Stop>
        ensures { Leads result self.now.done (machine.ended self.now) }
    {
        match &self.pending {
            None => Ok(()),
            Some(_) => Err(Stop::Misplaced),
        }
    }
}
