// An output is read from its items by a machine over a stack of the choices that are open. The items
// of a test go to the reader of formulas, which stays in its place.
ghost use Rattle.std.specs.Prelude.{◌≡◌};
ghost use Rattle.syn_parse.specs.inner.Leads.{Leads, Makes};
ghost use Rattle.syn_parse.specs.inner.OutMachine as machine;

use crate::form_frames::Tall;
use crate::form_reader::FormReader;
use crate::items::Item;
use crate::limits::MAX_HEIGHT;
use crate::sink::Sink;
use crate::stack::{Stack, boxes};
use crate::stop::Stop;
use std::alloc::Global;
use std::mem;
use syn_form::{Mark, OutSyntax, TermSyntax};

/// An output with its height.
#[derive(Drop)]
struct TallOut<'a> {
    out: OutSyntax<'a>,
    height: u32,
}

/// A choice with an arm that is being read: the first, after the test, or the second, after the test
/// and the first.
#[derive(Drop)]
enum Arm<'a> {
    Then(Tall<'a>),
    Else(Tall<'a>, TallOut<'a>),
}

/// Where the reader stands: an output is wanted, a test is being read, or an output is there.
#[derive(Drop)]
enum OutStage<'a> {
    Wanted,
    Test(FormReader<'a>),
    Here(TallOut<'a>),
}

/// What was read so far: the choices that are open, the innermost on top.
#[derive(Drop)]
pub(crate) struct OutReader<'a> {
    arms: Stack<Arm<'a>>,
    stage: OutStage<'a>,
}

/// An output whose highest part has the height `below`, where it is not too high.
fn built<'a>(out: OutSyntax<'a>, below: u32) -> Result<TallOut<'a>, Stop>
    ensures { Makes result (machine.built out.entry below) }
{
    if below < MAX_HEIGHT {
        let height = below + 1;
        return Ok(TallOut { out, height });
    }
    drop(out);
    Err(Stop::Misplaced)
}

fn choice_of<'a>(
    alloc: Global,
    test: Tall<'a>,
    a: TallOut<'a>,
    b: TallOut<'a>,
) -> Result<TallOut<'a>, Stop>
    ensures { Makes result (machine.choice_of test.entry a.entry b.entry) }
{
    let below = test.height.max(a.height.max(b.height));
    match boxes(alloc, a.out, b.out) {
        Ok((first, second)) => built(OutSyntax::If(test.form, first, second), below),
        Err(_) => {
            drop(test);
            Err(Stop::NoMemory)
        }
    }
}

fn given<'a>(t: TermSyntax<'a>) -> TallOut<'a>
    ensures { result ≡ machine.given t.entry }
{
    TallOut {
        out: OutSyntax::Give(t),
        height: 1,
    }
}

impl<'a> OutReader<'a> {
    pub(crate) fn new(alloc: Global) -> OutReader<'a>
        ensures { result ≡ machine.start }
    {
        OutReader {
            arms: Stack::new(alloc),
            stage: OutStage::Wanted,
        }
    }

    fn stand(&mut self, stage: OutStage<'a>)
        ensures { self.new ≡ machine.stands self.old.arms stage.entry }
    {
        drop(mem::replace(&mut self.stage, stage));
    }

    /// An output comes: it ends each choice on top that waits for its second arm.
    fn came(&mut self, alloc: Global, u: TallOut<'a>) -> Result<(), Stop>
        ensures { Leads result self.new (machine.came self.old.arms u.entry) }
    {
        let mut last = u;
        while let Some(arm) = self.arms.pop() {
            match arm {
                Arm::Else(test, first) => last = choice_of(alloc, test, first, last)?,
                Arm::Then(test) => return self.came_first(test, last),
            }
        }
        self.stand(OutStage::Here(last));
        Ok(())
    }

    /// An output comes as the first arm of a choice with this test.
    fn came_first(&mut self, test: Tall<'a>, u: TallOut<'a>) -> Result<(), Stop>
        ensures { Leads result self.new (Some (machine.came_first self.old.arms test.entry u.entry)) }
    {
        match self.arms.push(Arm::Then(test)) {
            Ok(()) => {
                self.stand(OutStage::Here(u));
                Ok(())
            }
            Err(_) => {
                drop(u);
                Err(Stop::NoMemory)
            }
        }
    }

    /// A mark where an output is wanted.
    fn mark_first(&mut self, alloc: Global, mark: Mark) -> Result<(), Stop>
        ensures { Leads result self.new (machine.mark_first self.old.arms mark) }
    {
        match mark {
            Mark::If => {
                self.stand(OutStage::Test(FormReader::new(alloc)));
                Ok(())
            }
            _ => Err(Stop::Misplaced),
        }
    }

    /// The next item where an output is wanted.
    fn begun(&mut self, alloc: Global, item: Item<'a>) -> Result<(), Stop>
        ensures { Leads result self.new (machine.begun self.old.arms item.entry) }
    {
        match item {
            Item::Term(t) => self.came(alloc, given(t)),
            Item::Fixed(mark) => self.mark_first(alloc, mark),
            other => {
                drop(other);
                Err(Stop::Misplaced)
            }
        }
    }

    /// `then` ends the test.
    fn then_next(&mut self, test: Tall<'a>) -> Result<(), Stop>
        ensures { Leads result self.new (Some (machine.with_test self.old.arms test.entry)) }
    {
        self.arms.push(Arm::Then(test))?;
        self.stand(OutStage::Wanted);
        Ok(())
    }

    /// `else` after the first arm of a choice.
    fn else_next(&mut self, u: TallOut<'a>) -> Result<(), Stop>
        ensures { Leads result self.new (machine.else_next self.old.arms u.entry) }
    {
        match self.arms.pop() {
            Some(Arm::Then(test)) => {
                self.arms.push(Arm::Else(test, u))?;
                self.stand(OutStage::Wanted);
                Ok(())
            }
            other => {
                drop(other);
                drop(u);
                Err(Stop::Misplaced)
            }
        }
    }

    /// The next item after the output `u`.
    fn went_on(&mut self, u: TallOut<'a>, item: Item<'a>) -> Result<(), Stop>
        ensures { Leads result self.new (machine.went_on self.old.arms u.entry item.entry) }
    {
        match item {
            Item::Fixed(Mark::Else) => self.else_next(u),
            other => {
                drop(other);
                drop(u);
                Err(Stop::Misplaced)
            }
        }
    }

    /// The output `u`, where no choice is open.
    fn whole(&mut self, u: TallOut<'a>) -> Result<OutSyntax<'a>, Stop>
        ensures { Makes result (machine.whole_with self.old.arms u.entry) }
    {
        match self.arms.pop() {
            None => Ok(u.out),
            Some(arm) => {
                drop(arm);
                drop(u);
                Err(Stop::Misplaced)
            }
        }
    }

    /// The output that was read, where no choice is open.
    pub(crate) fn end(&mut self) -> Result<OutSyntax<'a>, Stop>
        ensures { Makes result (machine.ended self.old) }
    {
        match mem::replace(&mut self.stage, OutStage::Wanted) {
            OutStage::Here(u) => self.whole(u),
            other => {
                drop(other);
                Err(Stop::Misplaced)
            }
        }
    }
}

impl<'a> Sink<Item<'a>> for OutReader<'a> {
    ghost takes = { machine.step };

    fn take(&mut self, alloc: Global, item: Item<'a>) -> Result<(), Stop> {
        if let OutStage::Test(test) = &mut self.stage {
            return match item {
                Item::Fixed(Mark::Then) => {
                    let whole = test.finish(alloc)?;
                    self.then_next(whole)
                }
                other => test.take(alloc, other),
            };
        }
        match mem::replace(&mut self.stage, OutStage::Wanted) {
            OutStage::Wanted => self.begun(alloc, item),
            OutStage::Here(u) => self.went_on(u, item),
            other => {
                drop(other);
                drop(item);
                Err(Stop::Misplaced)
            }
        }
    }
}
