// What readers of expressions refuse with.
ghost use Rattle.std.specs.Prelude.{◌≡◌};

use syn_term::NoMemory;

/// Why a text was not read.
#[derive(Clone, Copy, Debug, PartialEq, Eq)]
pub enum ExprError {
    /// No tree stands for the text within the limits.
    Refused,
    /// Memory was refused. Numbers of binders don't run out: a text within the limits has fewer than
    /// 4,096, and past the limits nothing is made.
    NoMemory,
}

impl From<NoMemory> for ExprError {
    ghost use Rattle.syn_expr.specs.declared.error.ExprError.{ExprError};
    ghost use Rattle.syn_expr.specs.declared.error.ExprError.TheVariants as error;

    ghost from_gives = { λ _ e. e ≡ error.NoMemory };

    fn from(_error: NoMemory) -> ExprError {
        ExprError::NoMemory
    }
}
