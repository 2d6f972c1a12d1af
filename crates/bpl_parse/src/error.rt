//! Why reading stopped.

ghost use Rattle.std.specs.Prelude.{◌≡◌};
ghost use Rattle.bpl_parse.specs.declared.error.ReadError.TheVariants.{Memory};

use crate::place::StopKind;
use bpl_tok::Token;
use std::alloc::{AllocError, AllocFailed};

/// Why reading stopped.
#[derive(Debug, Drop)]
pub enum ReadError<'a> {
    /// Out of memory.
    Memory,
    /// A fault, and the tokens from there on.
    Stop(StopKind, &'a [Token]),
}

impl<'a> From<AllocError> for ReadError<'a> {
    ghost from_gives = { λ _ e. e ≡ Memory };

    fn from(_e: AllocError) -> ReadError<'a> {
        ReadError::Memory
    }
}

impl<'a, T: Drop> From<AllocFailed<T>> for ReadError<'a> {
    ghost from_gives = { λ _ e. e ≡ Memory };

    fn from(_e: AllocFailed<T>) -> ReadError<'a> {
        ReadError::Memory
    }
}
