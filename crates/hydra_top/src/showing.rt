//! The tree of a file in its canonical form.

ghost use Rattle.std.specs.Prelude.{IfOk, List, ℕ, Option};
ghost use Rattle.bpl_show.specs.Shown.{shown_text};
ghost use Rattle.hydra_top.specs.Opened.{LooksAtOne, extent};
ghost use Rattle.hydra_top.specs.Reading.{IsSource};
ghost use Rattle.hydra_top.specs.Top.{IsDone};
ghost use Rattle.hydra_top.specs.Words as words;

use crate::answer::{Answer, refused};
use crate::outcome::Outcome;
use crate::reading::Source;
use crate::trees::read_tree;
use bpl_show::show;
use hy_text::Or;
use std::alloc::{AllocError, Global};

/// The answer that shows what was read of a file, which is refused where it is too long or has no tree.
pub fn shown(alloc: Global, source: &Source) -> Result<Answer, AllocError>
    ensures answer { (bytes : List ℕ) → IsSource bytes source.now → (files : Option (List (List ℕ × List ℕ))) → IfOk result (λ a. IsDone files words.show bytes a.outcome a.text) }
    ensures looks { IfOk result (λ a. LooksAtOne (extent a.outcome)) }
{
    match read_tree(alloc, source) {
        Ok(tree) => {
            let text = show(alloc, &tree)?;
            Ok(Answer {
                outcome: Outcome::Done,
                text,
            })
        }
        Err(Or::Fault(refusal)) => refused(alloc, refusal),
        Err(Or::NoMemory) => Err(AllocError),
    }
}
