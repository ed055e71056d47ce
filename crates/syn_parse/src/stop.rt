// Why a reader stops before the end.
ghost use Rattle.std.specs.Prelude.{◌≡◌};
ghost use Rattle.syn_parse.specs.declared.stop.Stop.TheVariants as stop;

use std::alloc::AllocError;
use syn_term::NoMemory;

/// A word stands where it may not, or there is no memory.
#[derive(Clone, Copy, Debug, PartialEq, Eq)]
pub(crate) enum Stop {
    Misplaced,
    NoMemory,
}

impl From<AllocError> for Stop {
    ghost from_gives = { λ _ e. e ≡ stop.NoMemory };

    fn from(_error: AllocError) -> Stop {
        Stop::NoMemory
    }
}

impl From<NoMemory> for Stop {
    ghost from_gives = { λ _ e. e ≡ stop.NoMemory };

    fn from(_error: NoMemory) -> Stop {
        Stop::NoMemory
    }
}
