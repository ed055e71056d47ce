// Two values at once, so that what was made of the first is let go in one place where the second fails.
ghost use Rattle.std.specs.Prelude.{◌≡◌, IfOk};

use std::alloc::Global;
use syn_term::{NoMemory, Shared};

/// The two values, each behind a pointer of its own. The one error is want of memory.
pub(crate) fn both_shared<T: Drop>(
    alloc: Global,
    a: T,
    b: T,
) -> Result<(Shared<T>, Shared<T>), NoMemory>
    ensures { IfOk result (λ both. (both.0 ≡ a) × (both.1 ≡ b)) }
{
    match Shared::new(alloc, a) {
        Ok(a) => match Shared::new(alloc, b) {
            Ok(b) => Ok((a, b)),
            Err(_) => {
                drop(a);
                Err(NoMemory)
            }
        },
        Err(_) => {
            drop(b);
            Err(NoMemory)
        }
    }
}
