// The second pass puts terms and equalities together. A name is a term by itself until a bracket
// opens behind it; so the reader never looks ahead.
ghost use Rattle.std.specs.Prelude.{◌≡◌, List, [], ◌∷◌, IsTrue, IfOk, OnOk};
ghost use Rattle.syn_form.specs.declared.syntax.Lexeme.TheVariants as lexeme;
ghost use Rattle.syn_form.specs.declared.syntax.Mark.TheVariants as mark;
ghost use Rattle.syn_parse.specs.declared.phrase_reader.Phrase.{Phrase};
ghost use Rattle.syn_parse.specs.declared.phrase_reader.Phrase.TheVariants as phrase;
ghost use Rattle.syn_parse.specs.inner.Feeding.{Keeps, fed, feed};
ghost use Rattle.syn_parse.specs.inner.ItemMachine as machine;
ghost use Rattle.syn_parse.specs.inner.Leads.{Leads, Makes};

use crate::items::Item;
use crate::limits::MAX_OPEN;
use crate::phrase_reader::Phrase;
use crate::sink::Sink;
use crate::stack::{Stack, boxes, first};
use crate::stop::Stop;
use sqlite_items::Items;
use std::alloc::{AllocError, Global};
use syn_form::{BinderSyntax, HeadName, Lexeme, Mark, Quantifier, TermSyntax};

/// A head whose bracket is open, and its arguments before the last.
#[derive(Drop)]
pub(crate) struct Call<'a> {
    pub(crate) head: HeadName<'a>,
    pub(crate) args: Items<TermSyntax<'a>>,
}

/// What was read so far: the items before the last, the left side of an equality whose sign was
/// read, the open calls with their number, and the last term where it may still become a head.
#[derive(Drop)]
pub(crate) struct ItemReader<'a> {
    pub(crate) items: Items<Item<'a>>,
    pub(crate) left: Option<TermSyntax<'a>>,
    pub(crate) calls: Stack<Call<'a>>,
    pub(crate) count: u32,
    pub(crate) last: Option<TermSyntax<'a>>,
}

/// The head that a term by itself is.
fn head_of<'a>(term: TermSyntax<'a>) -> Result<HeadName<'a>, Stop>
    ensures { Makes result (machine.head_of term.entry) }
{
    match term {
        TermSyntax::Alone(head) => Ok(head),
        other => {
            drop(other);
            Err(Stop::Misplaced)
        }
    }
}

/// The item that a term ends: itself, or an equality.
fn item_of<'a>(
    alloc: Global,
    left: Option<TermSyntax<'a>>,
    term: TermSyntax<'a>,
) -> Result<Item<'a>, AllocError>
    ensures { IfOk result (λ item. item ≡ machine.item_of left.entry term.entry) }
{
    match left {
        None => Ok(Item::Term(term)),
        Some(left) => {
            let (left, right) = boxes(alloc, left, term)?;
            Ok(Item::Equal(left, right))
        }
    }
}

fn with_arg<'a>(call: Call<'a>, term: TermSyntax<'a>) -> Result<Call<'a>, AllocError>
    ensures { IfOk result (λ c. c ≡ machine.with_arg call.entry term.entry) }
{
    let Call { head, mut args } = call;
    args.push(term)?;
    Ok(Call { head, args })
}

impl<'a> ItemReader<'a> {
    pub(crate) fn new(alloc: Global) -> ItemReader<'a>
        ensures { result ≡ machine.start }
    {
        ItemReader {
            items: Items::new(alloc),
            left: None,
            calls: Stack::new(alloc),
            count: 0,
            last: None,
        }
    }

    /// A term comes, where none is there yet.
    fn place(&mut self, term: TermSyntax<'a>) -> Result<(), Stop>
        ensures { Leads result self.new (machine.placed self.old term.entry) }
    {
        match self.last.replace(term) {
            None => Ok(()),
            Some(before) => {
                drop(before);
                Err(Stop::Misplaced)
            }
        }
    }

    /// The last term, or the equality that it ends, becomes an item.
    fn flush(&mut self, alloc: Global) -> Result<(), Stop>
        ensures { Leads result self.new (machine.flush self.old) }
    {
        match self.last.take() {
            Some(term) => {
                let item = item_of(alloc, self.left.take(), term)?;
                self.items.push(item)?;
                Ok(())
            }
            None => match &self.left {
                None => Ok(()),
                Some(_) => Err(Stop::Misplaced),
            },
        }
    }

    /// An item that ends the term before it.
    fn put(&mut self, alloc: Global, item: Item<'a>) -> Result<(), Stop>
        ensures { Leads result self.new (machine.with_item self.old item.entry) }
    {
        match self.flush(alloc) {
            Ok(()) => {
                self.items.push(item)?;
                Ok(())
            }
            other => {
                drop(item);
                other
            }
        }
    }

    /// A bracket opens behind the term, which is a head then.
    fn open_call(&mut self, alloc: Global, term: TermSyntax<'a>) -> Result<(), Stop>
        ensures { Leads result self.new (machine.opened self.old term.entry) }
    {
        if self.count >= MAX_OPEN {
            drop(term);
            return Err(Stop::Misplaced);
        }
        let head = head_of(term)?;
        let args = Items::new(alloc);
        self.calls.push(Call { head, args })?;
        self.count += 1;
        Ok(())
    }

    /// A bracket opens where no call is open: behind a head, or before a formula.
    fn open_outside(&mut self, alloc: Global) -> Result<(), Stop>
        ensures { Leads result self.new (machine.open_outside self.old) }
    {
        match self.last.take() {
            None => self.put(alloc, Item::Fixed(Mark::Open)),
            Some(term) => self.open_call(alloc, term),
        }
    }

    /// The sign of an equality comes: what was read last is its left side.
    fn equals(&mut self) -> Result<(), Stop>
        ensures { Leads result self.new (machine.equals_outside self.old) }
    {
        let Some(term) = self.last.take() else {
            return Err(Stop::Misplaced);
        };
        match self.left.replace(term) {
            None => Ok(()),
            Some(before) => {
                drop(before);
                Err(Stop::Misplaced)
            }
        }
    }

    /// A mark where no call is open.
    fn mark_outside(&mut self, alloc: Global, mark: Mark) -> Result<(), Stop>
        ensures { Leads result self.new (machine.outside self.old mark) }
    {
        match mark {
            Mark::Open => self.open_outside(alloc),
            Mark::Equals => self.equals(),
            _ => self.put(alloc, Item::Fixed(mark)),
        }
    }

    /// A bracket opens behind the argument of a call, which is a head then.
    fn open_within(
        &mut self,
        alloc: Global,
        call: Call<'a>,
        term: TermSyntax<'a>,
    ) -> Result<(), Stop>
        ensures { Leads result self.new (machine.inside self.old call.entry term.entry mark.Open) }
    {
        match self.calls.push(call) {
            Ok(()) => self.open_call(alloc, term),
            Err(_) => {
                drop(term);
                Err(Stop::NoMemory)
            }
        }
    }

    /// The bracket of the call closes behind its last argument.
    fn close_call(&mut self, call: Call<'a>, term: TermSyntax<'a>) -> Result<(), Stop>
        ensures { Leads result self.new (machine.inside self.old call.entry term.entry mark.Close) }
    {
        let Call { head, args } = with_arg(call, term)?;
        self.count = self.count.saturating_sub(1);
        drop(self.last.replace(TermSyntax::Applied(head, args)));
        Ok(())
    }

    /// A mark behind the argument of the innermost open call.
    fn mark_inside(
        &mut self,
        alloc: Global,
        call: Call<'a>,
        term: TermSyntax<'a>,
        mark: Mark,
    ) -> Result<(), Stop>
        ensures { Leads result self.new (machine.inside self.old call.entry term.entry mark) }
    {
        match mark {
            Mark::Open => self.open_within(alloc, call, term),
            Mark::Comma => {
                let call = with_arg(call, term)?;
                self.calls.push(call)?;
                Ok(())
            }
            Mark::Close => self.close_call(call, term),
            _ => {
                drop(call);
                drop(term);
                Err(Stop::Misplaced)
            }
        }
    }

    fn mark_next(&mut self, alloc: Global, mark: Mark) -> Result<(), Stop>
        ensures { Leads result self.new (machine.mark_next self.old mark) }
    {
        if self.calls.is_empty() {
            return self.mark_outside(alloc, mark);
        }
        let Some(call) = self.calls.pop() else {
            return self.mark_outside(alloc, mark);
        };
        match self.last.take() {
            None => {
                drop(call);
                Err(Stop::Misplaced)
            }
            Some(term) => self.mark_inside(alloc, call, term, mark),
        }
    }

    fn word_next(&mut self, alloc: Global, lexeme: Lexeme<'a>) -> Result<(), Stop>
        ensures { Leads result self.new (machine.word_next self.old lexeme.entry) }
    {
        match lexeme {
            Lexeme::Number(k) => self.place(TermSyntax::Number(k)),
            Lexeme::RowVar(k, sort) => self.place(TermSyntax::RowVar(k, sort)),
            Lexeme::Name(x) => self.place(TermSyntax::Alone(HeadName::Name(x))),
            Lexeme::Skolem(x) => self.place(TermSyntax::Alone(HeadName::Skolem(x))),
            Lexeme::Fixed(mark) => self.mark_next(alloc, mark),
        }
    }

    /// A quantifier comes; inside a call there is none.
    fn quantifier_next(
        &mut self,
        alloc: Global,
        quantifier: Quantifier,
        binders: Items<BinderSyntax<'a>>,
    ) -> Result<(), Stop>
        ensures { Leads result self.new (machine.quantifier_next self.old quantifier binders.entry) }
    {
        match self.calls.pop() {
            None => self.put(alloc, Item::Quantifier(quantifier, binders)),
            Some(call) => {
                drop(call);
                drop(binders);
                Err(Stop::Misplaced)
            }
        }
    }

    /// The reader one phrase further.
    fn step(&mut self, alloc: Global, phrase: Phrase<'a>) -> Result<(), Stop>
        ensures { Leads result self.new (machine.step self.old phrase.entry) }
    {
        match phrase {
            Phrase::Word(lexeme) => self.word_next(alloc, lexeme),
            Phrase::Quantifier(quantifier, binders) => {
                self.quantifier_next(alloc, quantifier, binders)
            }
        }
    }

    /// The end, where no call is open: the last term becomes an item.
    fn finish(&mut self, alloc: Global) -> Result<(), Stop>
        ensures { Leads result self.new (machine.finished self.old) }
    {
        match self.calls.pop() {
            None => self.flush(alloc),
            Some(call) => {
                drop(call);
                Err(Stop::Misplaced)
            }
        }
    }

    /// Whether nothing waits in the reader and the mark is an item by itself.
    #[tactic(auto, using(crate::proofs::LoneMarks::lone_mark))]
    fn is_lone(&self, mark: Mark) -> bool
        ensures { IsTrue result → machine.IsLone self.now mark }
    {
        if !self.items.is_empty() || !self.calls.is_empty() {
            return false;
        }
        if self.last.is_some() || self.left.is_some() {
            return false;
        }
        mark != Mark::Equals
    }

    /// A mark, and the items that are whole then go to the sink.
    fn pass_mark<S: Sink<Item<'a>>>(
        &mut self,
        alloc: Global,
        mark: Mark,
        sink: &mut S,
    ) -> Result<(), Stop>
        ensures { (more : List Phrase) → Keeps result (fed S.takes sink.old self.old (phrase.Word (lexeme.Fixed mark) ∷ more)) (fed S.takes sink.new self.new more) }
    {
        if self.is_lone(mark) {
            let item: Item<'a> = Item::Fixed(mark);
            return sink.take(alloc, item);
        }
        self.mark_next(alloc, mark)?;
        pass_on(alloc, &mut self.items, sink)
    }

    /// One phrase, and the items that are whole then go to the sink.
    pub(crate) fn pass<S: Sink<Item<'a>>>(
        &mut self,
        alloc: Global,
        phrase: Phrase<'a>,
        sink: &mut S,
    ) -> Result<(), Stop>
        ensures { (more : List Phrase) → Keeps result (fed S.takes sink.old self.old (phrase.entry ∷ more)) (fed S.takes sink.new self.new more) }
    {
        match phrase {
            Phrase::Word(Lexeme::Fixed(mark)) => self.pass_mark(alloc, mark, sink),
            other => {
                self.step(alloc, other)?;
                pass_on(alloc, &mut self.items, sink)
            }
        }
    }

    /// The end, and the items that are left go to the sink.
    pub(crate) fn pass_last<S: Sink<Item<'a>>>(
        &mut self,
        alloc: Global,
        sink: &mut S,
    ) -> Result<(), Stop>
        ensures { Leads result sink.new (fed S.takes sink.old self.old []) }
    {
        self.finish(alloc)?;
        pass_on(alloc, &mut self.items, sink)
    }
}

/// The items go to the sink.
fn pass_on<'a, S: Sink<Item<'a>>>(
    alloc: Global,
    items: &mut Items<Item<'a>>,
    sink: &mut S,
) -> Result<(), Stop>
    ensures fed { Leads result sink.new (feed S.takes items.old sink.old) }
    ensures rest { OnOk result (items.new ≡ []) }
{
    while let Some(item) = first(items) {
        sink.take(alloc, item)?;
    }
    Ok(())
}
