// Why no value was read.
ghost use Rattle.std.specs.Prelude.{◌≡◌};
ghost use Rattle.syn_value.specs.declared.errors.ValueError.TheVariants as errors;

use std::alloc::AllocError;
use syn_term::NoMemory;

/// Why a text gives no value.
#[derive(Clone, Copy, Debug, PartialEq, Eq)]
pub enum ValueError {
    /// The text is no value of the sort, or passes a limit of values that are read.
    BadValue,
    /// Memory was refused.
    NoMemory,
}

impl From<AllocError> for ValueError {
    ghost from_gives = { λ _ e. e ≡ errors.NoMemory };

    fn from(_error: AllocError) -> ValueError {
        ValueError::NoMemory
    }
}

impl From<NoMemory> for ValueError {
    ghost from_gives = { λ _ e. e ≡ errors.NoMemory };

    fn from(_error: NoMemory) -> ValueError {
        ValueError::NoMemory
    }
}
