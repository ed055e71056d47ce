// A value is read from the end of its text to its start: so each item is put in front of those behind
// it, and no list is turned round. What is open stands on a stack, and nothing calls itself.
ghost use Rattle.std.specs.Prelude.{◌≡◌, ◌≤◌, Some, IsTrue, IfOk, OnOk, false};
ghost use Rattle.syn_value.specs.declared.reader.Kind.TheVariants as kinds;
ghost use Rattle.syn_value.specs.inner.Machine as machine;
ghost use Rattle.syn_value.specs.inner.Machine.{Leads, Makes};

use crate::digits::number_in;
use crate::errors::ValueError;
use crate::stack::Stack;
use crate::value::{Value, Values};
use std::alloc::Global;
use std::mem;

/// What is read: the whole text, or what stands in a pair of brackets.
#[derive(Clone, Copy, Debug, PartialEq, Eq)]
pub(crate) enum Kind {
    Whole,
    List,
    Tuple,
}

/// What was read of it, from its end on: the items, and whether a comma stands before them.
#[derive(Drop)]
pub(crate) struct Frame {
    pub(crate) kind: Kind,
    pub(crate) items: Values,
    pub(crate) comma: bool,
}

/// What was read: the innermost pair of brackets of which the closing one was read, those round it,
/// and the number of values, a pair of brackets counted from its closing one on.
#[derive(Drop)]
pub(crate) struct Reader {
    pub(crate) top: Frame,
    pub(crate) outer: Stack<Frame>,
    pub(crate) count: u32,
}

/// The most values in one text: the outermost, and as many items and parts as it may have.
const MOST_VALUES: u32 = 10_001;

impl Frame {
    fn new(kind: Kind) -> Frame
        ensures { result ≡ machine.fresh kind }
    {
        Frame {
            kind,
            items: Values::empty(),
            comma: false,
        }
    }

    /// Puts the value before the items, where one may stand there: a comma stands before the items, or
    /// there are none and no comma.
    fn put(&mut self, alloc: Global, v: Value) -> Result<(), ValueError>
        ensures { Leads result self.new (machine.put v self.old) }
    {
        if self.items.is_empty() == self.comma {
            drop(v);
            return Err(ValueError::BadValue);
        }
        let behind = mem::replace(&mut self.items, Values::empty());
        self.items = Values::cons(alloc, v, behind)?;
        self.comma = false;
        Ok(())
    }

    /// The list or tuple that the brackets of this kind are round.
    fn into_value(self) -> Value
        ensures { result ≡ machine.value_of self }
    {
        let Frame { kind, items, .. } = self;
        match kind {
            Kind::Tuple => Value::tuple(items),
            _ => Value::list(items),
        }
    }
}

impl Reader {
    pub(crate) fn new(alloc: Global) -> Reader
        ensures { result ≡ machine.start }
    {
        Reader {
            top: Frame::new(Kind::Whole),
            outer: Stack::new(alloc),
            count: 0,
        }
    }

    /// One value more.
    fn begin(&mut self) -> Result<(), ValueError>
        ensures { Leads result self.new (machine.begin self.old) }
    {
        if self.count >= MOST_VALUES {
            return Err(ValueError::BadValue);
        }
        self.count += 1;
        Ok(())
    }

    /// The digits before what was read, where there are any.
    pub(crate) fn number(&mut self, alloc: Global, digits: &[u8]) -> Result<(), ValueError>
        ensures { Leads result self.new (machine.flush digits.now self.old) }
    {
        if digits.is_empty() {
            return Ok(());
        }
        match number_in(digits) {
            None => Err(ValueError::BadValue),
            Some(n) => {
                self.begin()?;
                self.top.put(alloc, Value::number(n))
            }
        }
    }

    /// A bracket that closes.
    fn enter(&mut self, kind: Kind) -> Result<(), ValueError>
        ensures { Leads result self.new (machine.enter kind self.old) }
    {
        self.begin()?;
        let round = mem::replace(&mut self.top, Frame::new(kind));
        self.outer.push(round)?;
        Ok(())
    }

    /// The bracket that opens the innermost pair.
    fn leave(&mut self, alloc: Global, kind: Kind) -> Result<(), ValueError>
        ensures { Leads result self.new (machine.leave kind self.old) }
    {
        if self.top.comma {
            return Err(ValueError::BadValue);
        }
        if self.top.kind != kind {
            return Err(ValueError::BadValue);
        }
        match self.outer.pop() {
            None => Err(ValueError::BadValue),
            Some(round) => {
                let inner = mem::replace(&mut self.top, round);
                self.top.put(alloc, inner.into_value())
            }
        }
    }

    fn comma(&mut self) -> Result<(), ValueError>
        ensures { Leads result self.new (machine.comma self.old) }
    {
        if self.top.comma {
            return Err(ValueError::BadValue);
        }
        if self.top.items.is_empty() {
            return Err(ValueError::BadValue);
        }
        if self.top.kind == Kind::Whole {
            return Err(ValueError::BadValue);
        }
        self.top.comma = true;
        Ok(())
    }

    /// A blank, which stands in brackets alone.
    fn blank(&mut self) -> Result<(), ValueError>
        ensures { Leads result self.new (machine.blank self.old) }
    {
        if self.top.kind == Kind::Whole {
            return Err(ValueError::BadValue);
        }
        Ok(())
    }

    /// A byte that is no digit.
    pub(crate) fn sign(&mut self, alloc: Global, byte: u8) -> Result<(), ValueError>
        ensures { Leads result self.new (machine.sign byte self.old) }
    {
        match byte {
            b']' => self.enter(Kind::List),
            b')' => self.enter(Kind::Tuple),
            b'[' => self.leave(alloc, Kind::List),
            b'(' => self.leave(alloc, Kind::Tuple),
            b',' => self.comma(),
            b' ' | b'\t' | b'\r' => self.blank(),
            _ => Err(ValueError::BadValue),
        }
    }

    /// The value that the whole text is.
    pub(crate) fn into_value(self) -> Result<Value, ValueError>
        ensures { Makes result (machine.whole self) }
    {
        let Reader { top, outer, .. } = self;
        let inside = !outer.is_empty();
        drop(outer);
        if inside {
            drop(top);
            return Err(ValueError::BadValue);
        }
        top.only()
    }
}

impl Frame {
    /// The one item of the whole text.
    fn only(self) -> Result<Value, ValueError>
        ensures { Makes result (machine.only self) }
    {
        let Frame { kind, items, comma } = self;
        if comma || kind != Kind::Whole {
            drop(items);
            return Err(ValueError::BadValue);
        }
        single(items)
    }
}

/// The one value of these.
fn single(items: Values) -> Result<Value, ValueError>
    ensures { Makes result (machine.only_in kinds.Whole false items) }
{
    let split = items.parts();
    drop(items);
    match split? {
        None => Err(ValueError::BadValue),
        Some((first, rest)) => {
            let alone = rest.is_empty();
            drop(rest);
            if alone {
                return Ok(first);
            }
            drop(first);
            Err(ValueError::BadValue)
        }
    }
}
