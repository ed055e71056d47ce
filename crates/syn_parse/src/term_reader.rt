// A term by itself is the one item of its text.
ghost use Rattle.std.specs.Prelude.{◌≡◌};
ghost use Rattle.syn_parse.specs.inner.Leads.{Makes};
ghost use Rattle.syn_parse.specs.inner.Passes.{term_ended, term_start, term_step};

use crate::items::Item;
use crate::sink::Sink;
use crate::stop::Stop;
use std::alloc::Global;
use syn_form::TermSyntax;

/// The term, where it was read.
#[derive(Drop)]
pub(crate) struct TermReader<'a> {
    pub(crate) term: Option<TermSyntax<'a>>,
}

impl<'a> TermReader<'a> {
    pub(crate) fn new() -> TermReader<'a>
        ensures { result ≡ term_start }
    {
        TermReader { term: None }
    }

    /// The term that was read.
    pub(crate) fn end(&mut self) -> Result<TermSyntax<'a>, Stop>
        ensures { Makes result (term_ended self.old) }
    {
        match self.term.take() {
            None => Err(Stop::Misplaced),
            Some(term) => Ok(term),
        }
    }
}

impl<'a> Sink<Item<'a>> for TermReader<'a> {
    ghost takes = { term_step };

    fn take(&mut self, _alloc: Global, item: Item<'a>) -> Result<(), Stop> {
        match item {
            Item::Term(term) => match self.term.replace(term) {
                None => Ok(()),
                Some(before) => {
                    drop(before);
                    Err(Stop::Misplaced)
                }
            },
            other => {
                drop(other);
                Err(Stop::Misplaced)
            }
        }
    }
}
