//! What a call answers that has faults of its own and also takes memory.

ghost use Rattle.std.specs.Prelude.{◌≡◌};
ghost use Rattle.hy_text.specs.declared.refusal.Or.TheVariants.{NoMemory};

use std::alloc::{AllocError, AllocFailed};

/// A fault of the call, or want of memory.
#[derive(Debug, PartialEq, Eq, Drop)]
pub enum Or<F> {
    /// The call's own fault.
    Fault(F),
    /// A request for memory was refused.
    NoMemory,
}

impl<F> From<AllocError> for Or<F> {
    ghost from_gives = { λ _ e. e ≡ NoMemory };

    fn from(_error: AllocError) -> Or<F> {
        Or::NoMemory
    }
}

impl<F, T: Drop> From<AllocFailed<T>> for Or<F> {
    ghost from_gives = { λ _ e. e ≡ NoMemory };

    fn from(_error: AllocFailed<T>) -> Or<F> {
        Or::NoMemory
    }
}
