//! The loops of a procedure, from the flags of its reached blocks.

ghost use Rattle.std.specs.Prelude.{◌≡◌, ◌+◌, ◌≤◌, ◌<◌, ◌++◌, ◌∷◌, [], ℕ, nat_lt, length, take, if◌then◌else◌, Some, AllPairs, All, slice_range, IfOk, OnOk};
ghost use Rattle.loop_nest.specs.Listed.{inner, numbers, loops_of, reached_of, IsMade};

use crate::numbering::Numbering;
use crate::types::Loop;
use sqlite_items::Items;
use src_prog::SrcLoop;
use std::alloc::{AllocError, Global};

/// A loop that may hold later heads.
#[derive(Clone, Copy)]
pub struct Open {
    /// The block to which it leads, above all of its blocks.
    pub exit: u32,
    /// Its place.
    pub place: usize,
}

// The loops so far, and those of them that may hold later heads, outermost first.
#[derive(Drop)]
struct Making {
    loops: Items<Loop>,
    opened: Vec<Open>,
}

// Closes the loops that end before a head, or at it. The place of the innermost one that is left.
fn close(opened: &mut Vec<Open>, head: u32) -> Option<usize>
    ensures innermost { result ≡ inner opened.old.items head }
    ensures kept { (b : ℕ) → head ≤ b → inner opened.new.items b ≡ inner opened.old.items b }
{
    while let Some(last) = opened.last().copied() {
        if head < last.exit {
            return Some(last.place);
        }
        opened.pop();
    }
    None
}

// The loop of a `while` whose head is reached.
fn push_loop(
    alloc: Global,
    numbering: &Numbering,
    making: &mut Making,
    span: SrcLoop,
) -> Result<(), AllocError>
    requires order { span.head ≤ span.exit }
    requires within { span.exit < length numbering.now.flags.items }
    ensures loops { OnOk result (making.new.loops ≡ making.old.loops ++ record { head = span.head; blocks = numbers span.head (slice_range numbering.now.flags.items span.head span.exit); outer = inner making.old.opened.items span.head } ∷ []) }
    ensures around { OnOk result ((b : ℕ) → span.head ≤ b → inner making.new.opened.items b ≡ (if nat_lt b span.exit then Some (length making.old.loops) else inner making.old.opened.items b)) }
{
    let blocks = numbering.between(alloc, span.head, span.exit)?;
    let outer = close(&mut making.opened, span.head);
    let place = making.loops.len();
    making.opened.push(Open {
        exit: span.exit,
        place,
    })?;
    making.loops.push(Loop {
        head: span.head,
        blocks,
        outer,
    })
}

// The loop of a `while`, if its head is reached.
fn make_loop(
    alloc: Global,
    numbering: &Numbering,
    making: &mut Making,
    spans: &[SrcLoop],
    at: usize,
) -> Result<(), AllocError>
    requires within { All (λ l. (l.head ≤ l.exit) × (l.exit < length numbering.now.flags.items)) spans.now }
    requires ascend { AllPairs (λ l m. l.head ≤ m.head) spans.now }
    requires at { at < length spans.now }
    requires made { IsMade numbering.now.flags.items (take at spans.now) making.old.loops making.old.opened.items }
    ensures { OnOk result (IsMade numbering.now.flags.items (take (at + 1) spans.now) making.new.loops making.new.opened.items) }
{
    let span = spans[at];
    if !numbering.is_up(span.head) {
        return Ok(());
    }
    push_loop(alloc, numbering, making, span)
}

/// The loops of those of the `while`s whose heads are reached, in order.
pub fn loops(
    alloc: Global,
    numbering: &Numbering,
    spans: &[SrcLoop],
) -> Result<Items<Loop>, AllocError>
    requires within { All (λ l. (l.head ≤ l.exit) × (l.exit < length numbering.now.flags.items)) spans.now }
    requires ascend { AllPairs (λ l m. l.head ≤ m.head) spans.now }
    ensures { IfOk result (λ made. made ≡ loops_of numbering.now.flags.items [] (reached_of numbering.now.flags.items spans.now)) }
{
    let mut making = Making {
        loops: Items::new(alloc),
        opened: Vec::new(alloc),
    };
    for at in 0..spans.len() {
        make_loop(alloc, numbering, &mut making, spans, at)?;
    }
    let Making { loops, opened: _ } = making;
    Ok(loops)
}
