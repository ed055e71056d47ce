// A formula is read from its items by a machine over frames, one for each open bracket.
ghost use Rattle.std.specs.Prelude.{◌≡◌};
ghost use Rattle.syn_parse.specs.inner.FormMachine as machine;
ghost use Rattle.syn_parse.specs.inner.Leads.{Leads, Makes};

use crate::form_frames::{
    Frame, Members, Prefix, Tall, chain_and, form_done, imp_done, is_bare, negated, or_done,
};
use crate::items::Item;
use crate::sink::Sink;
use crate::stack::Stack;
use crate::stop::Stop;
use sqlite_items::{Boxed, Items};
use std::alloc::Global;
use std::mem;
use syn_form::{BinderSyntax, FormSyntax, HeadName, Mark, Quantifier, TermSyntax};

/// What was read so far: the frame of the innermost open bracket, those around it, and the last
/// operand where one is there. `first` says that no operand nor `not` of the innermost form was
/// read, so that a quantifier may come.
#[derive(Drop)]
pub(crate) struct FormReader<'a> {
    frame: Frame<'a>,
    outer: Stack<Frame<'a>>,
    first: bool,
    last: Option<Tall<'a>>,
}

fn leaf<'a>(form: FormSyntax<'a>) -> Tall<'a>
    ensures { result ≡ machine.leaf form.entry }
{
    Tall { form, height: 1 }
}

/// The atom that a term is where a formula is wanted.
fn atom_of<'a>(t: TermSyntax<'a>) -> Result<FormSyntax<'a>, Stop>
    ensures { Makes result (machine.atom_of t.entry) }
{
    match t {
        TermSyntax::Applied(head, args) => match head {
            HeadName::Name(r) => Ok(FormSyntax::Atom(r, args)),
            HeadName::Skolem(x) => {
                drop(x);
                drop(args);
                Err(Stop::Misplaced)
            }
        },
        other => {
            drop(other);
            Err(Stop::Misplaced)
        }
    }
}

impl<'a> FormReader<'a> {
    /// A reader that has read nothing.
    pub(crate) fn new(alloc: Global) -> FormReader<'a>
        ensures { result ≡ machine.start }
    {
        FormReader {
            frame: Frame::new(alloc),
            outer: Stack::new(alloc),
            first: true,
            last: None,
        }
    }

    /// An operand is wanted, or, at the start of a form, also a quantifier.
    fn want(&mut self, first: bool)
        ensures { self.new ≡ machine.wants first self.old.frame self.old.outer }
    {
        self.first = first;
        drop(self.last.take());
    }

    /// The operand is there.
    fn stand(&mut self, u: Tall<'a>)
        ensures { self.new ≡ machine.has self.old.frame self.old.outer u.entry }
    {
        self.first = false;
        drop(self.last.replace(u));
    }

    /// An operand comes: the pending `not`s are put round it.
    fn got(&mut self, alloc: Global, u: Tall<'a>) -> Result<(), Stop>
        ensures { Leads result self.new (machine.got self.old.frame self.old.outer u.entry) }
    {
        if self.frame.nots == 0 {
            self.stand(u);
            return Ok(());
        }
        let nots = mem::replace(&mut self.frame.nots, 0);
        let v = negated(alloc, nots, u)?;
        self.stand(v);
        Ok(())
    }

    fn term_first(&mut self, alloc: Global, t: TermSyntax<'a>) -> Result<(), Stop>
        ensures { Leads result self.new (machine.term_next self.old.frame self.old.outer t.entry) }
    {
        let atom = atom_of(t)?;
        self.got(alloc, leaf(atom))
    }

    fn quantifier_first(
        &mut self,
        quantifier: Quantifier,
        binders: Items<BinderSyntax<'a>>,
    ) -> Result<(), Stop>
        ensures { Leads result self.new (machine.quantifier_next self.old.first self.old.frame self.old.outer quantifier binders.entry) }
    {
        if !self.first {
            drop(binders);
            return Err(Stop::Misplaced);
        }
        let prefix = Prefix {
            quantifier,
            binders,
        };
        self.frame.prefixes.push(prefix)?;
        self.want(true);
        Ok(())
    }

    /// One `not` more. A number of them that no counter holds is told as want of memory.
    fn not_first(&mut self) -> Result<(), Stop>
        ensures { Leads result self.new (Some (machine.not_next self.old.frame self.old.outer)) }
    {
        let Some(nots) = self.frame.nots.checked_add(1) else {
            return Err(Stop::NoMemory);
        };
        self.frame.nots = nots;
        self.want(false);
        Ok(())
    }

    /// A bracket opens: what was read of the form around it is kept for when it closes.
    fn open(&mut self, alloc: Global) -> Result<(), Stop>
        ensures { Leads result self.new (Some (machine.open_next self.old.frame self.old.outer)) }
    {
        let frame = mem::replace(&mut self.frame, Frame::new(alloc));
        self.outer.push(frame)?;
        self.want(true);
        Ok(())
    }

    /// A mark where an operand is wanted.
    fn mark_first(&mut self, alloc: Global, mark: Mark) -> Result<(), Stop>
        ensures { Leads result self.new (machine.mark_first self.old.frame self.old.outer mark) }
    {
        match mark {
            Mark::True => self.got(alloc, leaf(FormSyntax::True)),
            Mark::False => self.got(alloc, leaf(FormSyntax::False)),
            Mark::Not => self.not_first(),
            Mark::Open => self.open(alloc),
            _ => Err(Stop::Misplaced),
        }
    }

    /// The next item where an operand is wanted.
    fn begun(&mut self, alloc: Global, item: Item<'a>) -> Result<(), Stop>
        ensures { Leads result self.new (machine.begun self.old.first self.old.frame self.old.outer item.entry) }
    {
        match item {
            Item::Term(t) => self.term_first(alloc, t),
            Item::Equal(s, t) => self.got(alloc, leaf(FormSyntax::Equal(s, t))),
            Item::Quantifier(q, binders) => self.quantifier_first(q, binders),
            Item::Fixed(mark) => self.mark_first(alloc, mark),
        }
    }

    fn and_next(&mut self, u: Tall<'a>) -> Result<(), Stop>
        ensures { Leads result self.new (Some (machine.and_next self.old.frame self.old.outer u.entry)) }
    {
        self.frame.ands.add(u)?;
        self.frame.nots = 0;
        self.want(false);
        Ok(())
    }

    fn or_next(&mut self, alloc: Global, u: Tall<'a>) -> Result<(), Stop>
        ensures { Leads result self.new (machine.or_next self.old.frame self.old.outer u.entry) }
    {
        let ands = mem::replace(&mut self.frame.ands, Members::new(alloc));
        let v = chain_and(ands, u)?;
        self.frame.ors.add(v)?;
        self.frame.nots = 0;
        self.want(false);
        Ok(())
    }

    fn arrow_next(&mut self, alloc: Global, u: Tall<'a>) -> Result<(), Stop>
        ensures { Leads result self.new (machine.arrow_next self.old.frame self.old.outer u.entry) }
    {
        let ands = mem::replace(&mut self.frame.ands, Members::new(alloc));
        let ors = mem::replace(&mut self.frame.ors, Members::new(alloc));
        let v = or_done(ands, ors, u)?;
        self.frame.lefts.push(v)?;
        self.frame.nots = 0;
        self.want(false);
        Ok(())
    }

    /// `<->` stands at most once in a form.
    fn both_next(&mut self, alloc: Global, u: Tall<'a>) -> Result<(), Stop>
        ensures { Leads result self.new (machine.both_next self.old.frame self.old.outer u.entry) }
    {
        if self.frame.side.is_some() {
            drop(u);
            return Err(Stop::Misplaced);
        }
        let ands = mem::replace(&mut self.frame.ands, Members::new(alloc));
        let ors = mem::replace(&mut self.frame.ors, Members::new(alloc));
        let lefts = mem::replace(&mut self.frame.lefts, Items::new(alloc));
        let v = imp_done(alloc, ands, ors, lefts, u)?;
        let side = Boxed::new(alloc, v)?;
        drop(self.frame.side.replace(side));
        self.frame.nots = 0;
        self.want(false);
        Ok(())
    }

    /// A bracket closes the form of its frame, which is an operand of the frame around it.
    fn close(&mut self, alloc: Global, u: Tall<'a>) -> Result<(), Stop>
        ensures { Leads result self.new (machine.close_next self.old.frame self.old.outer u.entry) }
    {
        match self.outer.pop() {
            Some(around) => {
                let frame = mem::replace(&mut self.frame, around);
                if is_bare(&frame) {
                    drop(frame);
                    return self.got(alloc, u);
                }
                let v = form_done(alloc, frame, u)?;
                self.got(alloc, v)
            }
            None => {
                drop(u);
                Err(Stop::Misplaced)
            }
        }
    }

    /// A mark after the operand `u`.
    fn mark_after(&mut self, alloc: Global, u: Tall<'a>, mark: Mark) -> Result<(), Stop>
        ensures { Leads result self.new (machine.mark_after self.old.frame self.old.outer u.entry mark) }
    {
        match mark {
            Mark::And => self.and_next(u),
            Mark::Or => self.or_next(alloc, u),
            Mark::Arrow => self.arrow_next(alloc, u),
            Mark::BothWays => self.both_next(alloc, u),
            Mark::Close => self.close(alloc, u),
            _ => {
                drop(u);
                Err(Stop::Misplaced)
            }
        }
    }

    /// The next item after the operand `u`.
    fn went_on(&mut self, alloc: Global, u: Tall<'a>, item: Item<'a>) -> Result<(), Stop>
        ensures { Leads result self.new (machine.went_on self.old.frame self.old.outer u.entry item.entry) }
    {
        match item {
            Item::Fixed(mark) => self.mark_after(alloc, u, mark),
            other => {
                drop(u);
                drop(other);
                Err(Stop::Misplaced)
            }
        }
    }

    /// The formula that was read, with its height, where all brackets are closed and no operand is
    /// missing.
    pub(crate) fn finish(&mut self, alloc: Global) -> Result<Tall<'a>, Stop>
        ensures { Makes result (machine.finished self.old) }
    {
        let Some(u) = self.last.take() else {
            return Err(Stop::Misplaced);
        };
        match self.outer.pop() {
            None => {
                let frame = mem::replace(&mut self.frame, Frame::new(alloc));
                form_done(alloc, frame, u)
            }
            Some(around) => {
                drop(around);
                drop(u);
                Err(Stop::Misplaced)
            }
        }
    }

    /// The same without its height.
    pub(crate) fn end(&mut self, alloc: Global) -> Result<FormSyntax<'a>, Stop>
        ensures { Makes result (machine.ended self.old) }
    {
        let whole = self.finish(alloc)?;
        Ok(whole.form)
    }
}

impl<'a> Sink<Item<'a>> for FormReader<'a> {
    ghost takes = { machine.step };

    fn take(&mut self, alloc: Global, item: Item<'a>) -> Result<(), Stop> {
        match self.last.take() {
            None => self.begun(alloc, item),
            Some(u) => self.went_on(alloc, u, item),
        }
    }
}
