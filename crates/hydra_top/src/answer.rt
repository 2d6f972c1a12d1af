//! An outcome with the text that is printed for it.

ghost use Rattle.std.specs.Prelude.{◌≡◌, IfOk, codes};
ghost use Rattle.trace_text.specs.Traces.{line};
ghost use Rattle.hydra_top.specs.Top.{IsRefused};

use crate::outcome::{Outcome, Refusal};
use crate::refusal::refusal_line;
use hy_text::Bytes;
use std::alloc::{AllocError, Global};

/// An outcome and its text.
#[derive(Drop)]
pub struct Answer {
    pub outcome: Outcome,
    pub text: Bytes,
}

/// The answer that refuses the input.
pub fn refused(alloc: Global, refusal: Refusal) -> Result<Answer, AllocError>
    ensures { IfOk result (λ a. IsRefused refusal a.outcome a.text) }
{
    let text = refusal_line(alloc, &refusal)?;
    Ok(Answer {
        outcome: Outcome::Refused(refusal),
        text,
    })
}

/// The answer that a file could not be read.
pub fn unread(alloc: Global) -> Result<Answer, AllocError>
    ensures { IfOk result (λ a. (a.outcome ≡ Outcome.ReadFault) × (a.text ≡ line (codes "fault: read"))) }
{
    let text = Bytes::from_slice(alloc, b"fault: read\n")?;
    Ok(Answer {
        outcome: Outcome::ReadFault,
        text,
    })
}
