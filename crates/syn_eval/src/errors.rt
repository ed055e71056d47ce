// Why evaluation gives no result.
use std::alloc::AllocError;
use syn_term::NoMemory;

/// Why there is no result.
#[derive(Clone, Copy, Debug, PartialEq, Eq)]
pub enum EvalError {
    /// However deep calls may nest, no result comes in so few turns.
    TurnsSpent,
    /// Memory was refused, or a count of owners is at its end.
    NoMemory,
}

impl From<NoMemory> for EvalError {
    ghost use Rattle.std.specs.Prelude.{◌≡◌};
    ghost use Rattle.syn_eval.specs.declared.errors.EvalError.{EvalError};
    ghost use Rattle.syn_eval.specs.declared.errors.EvalError.TheVariants as error;

    ghost from_gives = { λ _ e. e ≡ error.NoMemory };

    fn from(_error: NoMemory) -> EvalError {
        EvalError::NoMemory
    }
}

impl From<AllocError> for EvalError {
    ghost use Rattle.std.specs.Prelude.{◌≡◌};
    ghost use Rattle.syn_eval.specs.declared.errors.EvalError.{EvalError};
    ghost use Rattle.syn_eval.specs.declared.errors.EvalError.TheVariants as error;

    ghost from_gives = { λ _ e. e ≡ error.NoMemory };

    fn from(_error: AllocError) -> EvalError {
        EvalError::NoMemory
    }
}
