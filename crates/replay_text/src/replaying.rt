//! A text against the runs of a program.

ghost use Rattle.std.specs.Prelude.{◌≡◌, ◌<◌, IfOk, MatchOption, length, map, reverse};
ghost use Rattle.src_run.specs.Machine.{Fails};
ghost use Rattle.trace_text.specs.Printing.{IsPrinted};
ghost use Rattle.replay_text.specs.Replayed.{DiffersAt, IsJudged, IsReplayed, choices_of};

use crate::lines::first_difference;
use hy_text::Or;
use sqlite_items::Items;
use src_prog::Prog;
use src_run::{Choice, Status, replay};
use std::alloc::{AllocError, Global};
use trace_text::{Trace, TraceFault, TraceItem, print, read};

/// What the replay of a text says.
#[derive(Clone, Copy, Debug, PartialEq, Eq)]
pub enum Replayed {
    /// The text is no trace: its first fault, with the number of its line, from 1.
    Unread(TraceFault),
    /// The run on the trace's choices doesn't fail. The index is that of the first bad choice, from 0, where there is one, and else
    /// the number of choices.
    NotFailed { status: Status, index: usize },
    /// The run fails, but the text isn't the one that is printed of it: the first line whose bytes are others, from 1.
    Differs { line: usize },
    /// The text is the printed trace of the run, which fails in the procedure of that number at the assert of that number, which
    /// counts from 1.
    Done { proc: u32, assert: u32 },
}

/// Replays a text as the trace of a run of the entry, the procedure of this number, within the bound: the text is read, then the
/// machine is run on its choices, and then the text is compared with the one that is printed of that run. The first of these that
/// fails is told.
///
/// It takes the time of three replays, and memory for the trace, its names and its printed text. `AllocError` comes where memory
/// runs out.
pub fn replay_trace(
    alloc: Global,
    prog: &Prog,
    entry: u32,
    bound: u32,
    text: &[u8],
) -> Result<Replayed, AllocError>
    requires { entry < length prog.now.procs }
    ensures { IfOk result (λ replayed. IsReplayed prog.now entry bound text.now replayed) }
{
    match read(alloc, text) {
        Ok(trace) => {
            let choices = choices_of(alloc, trace)?;
            judged(alloc, prog, entry, bound, text, choices.as_slice())
        }
        Err(Or::Fault(fault)) => Ok(Replayed::Unread(fault)),
        Err(Or::NoMemory) => Err(AllocError),
    }
}

// The choices of a trace, in order.
fn choices_of(alloc: Global, trace: Trace) -> Result<Items<Choice>, AllocError>
    ensures { IfOk result (λ choices. choices ≡ choices_of trace) }
{
    let Trace {
        items,
        proc: _,
        assert: _,
    } = trace;
    let mut choices = last_first(alloc, items)?;
    choices.reverse();
    Ok(Items::from_vec(choices))
}

// The choices of items, the last one first.
fn last_first(alloc: Global, mut items: Items<TraceItem>) -> Result<Vec<Choice>, AllocError>
    ensures { IfOk result (λ choices. reverse choices.items ≡ map (λ item. item.choice) items) }
{
    let mut choices = Vec::new(alloc);
    while let Some(item) = items.pop() {
        let TraceItem { name: _, choice } = item;
        choices.push(choice)?;
    }
    Ok(choices)
}

// What the run on the choices of a text says.
fn judged(
    alloc: Global,
    prog: &Prog,
    entry: u32,
    bound: u32,
    text: &[u8],
    choices: &[Choice],
) -> Result<Replayed, AllocError>
    requires { entry < length prog.now.procs }
    ensures { IfOk result (λ replayed. IsJudged prog.now entry bound text.now choices.now replayed) }
{
    let status = replay(alloc, prog, entry, bound, choices)?;
    match status {
        Status::Failed { proc, assert } => {
            match difference(alloc, prog, entry, bound, text, choices)? {
                Some(line) => Ok(Replayed::Differs { line }),
                None => Ok(Replayed::Done { proc, assert }),
            }
        }
        Status::BadChoice { index } => Ok(Replayed::NotFailed { status, index }),
        Status::Going | Status::Ended | Status::Blocked | Status::Cut => Ok(Replayed::NotFailed {
            status,
            index: choices.len(),
        }),
    }
}

// The first line that is another one in the printed trace of these choices, if there is one.
fn difference(
    alloc: Global,
    prog: &Prog,
    entry: u32,
    bound: u32,
    text: &[u8],
    choices: &[Choice],
) -> Result<Option<usize>, AllocError>
    requires there { entry < length prog.now.procs }
    requires fails { Fails prog.now entry bound choices.now }
    ensures { IfOk result (λ line. MatchOption line (IsPrinted prog.now entry bound choices.now text.now) (λ l. DiffersAt prog.now entry bound text.now choices.now l)) }
{
    let printed = print(alloc, prog, entry, bound, choices)?;
    Ok(first_difference(text, printed.as_slice()))
}
