// What the items of words go to, as soon as each of them is whole.
use crate::stop::Stop;
use std::alloc::Global;

/// What takes items of one kind, one after the other.
pub(crate) trait Sink<I> {
    ghost use Rattle.std.specs.Prelude.{Option};
    ghost use Rattle.syn_parse.specs.inner.Leads.{Leads};

    /// What it is after one item more; none where the item may not stand there.
    ghost takes: { Self → I → Option Self };

    fn take(&mut self, alloc: Global, item: I) -> Result<(), Stop>
        ensures { Leads result self.new (takes self.old item) };
}
