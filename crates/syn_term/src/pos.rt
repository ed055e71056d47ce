// Positions in trees. Most are short, so up to eight numbers take no memory of their own.
ghost use Rattle.std.specs.Prelude.{◌≡◌, ◌<◌, ◌∷◌, ◌++◌, [], IsOk, OnOk, OnErr, length};

use crate::memory::NoMemory;
use smallvec::SmallVec;
use std::alloc::Global;
use std::marker::Model;

/// A position in a tree: the numbers of the children on the way from the root to it. Contracts see
/// it as the list of these numbers.
#[derive(Debug, Drop)]
pub struct Pos {
    steps: SmallVec<u32, 8>,
}

impl Model for Pos {
    ghost use Rattle.std.specs.Prelude.{List, ℕ, ◌≤◌};

    ghost Value = { List ℕ };

    ghost view = { λ pos. pos.steps.items };

    ghost invariant = { λ pos. 8 ≤ pos.steps.capacity };
}

impl Pos {
    /// The position of the root, which is the empty list.
    pub fn root(alloc: Global) -> Pos
        ensures { result ≡ [] }
    {
        Pos {
            steps: SmallVec::new(alloc),
        }
    }

    /// Goes on to the child with this number. NoMemory: memory was refused, which doesn't happen
    /// while there are fewer than eight numbers; the position is then as it was.
    pub fn push(&mut self, k: u32) -> Result<(), NoMemory>
        ensures ok { OnOk result (self.new ≡ self.old ++ k ∷ []) }
        ensures err { OnErr result (self.new ≡ self.old) }
        ensures short { length self.old < 8 → IsOk result }
    {
        match self.steps.push(k) {
            Ok(()) => Ok(()),
            Err(_) => Err(NoMemory),
        }
    }

    /// The numbers, the one of the root's child first.
    pub fn as_slice(&self) -> &[u32]
        ensures { result.now ≡ self.now }
    {
        self.steps.as_slice()
    }
}
