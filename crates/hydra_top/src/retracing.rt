//! The replay of a trace that stands in a file of its own, which is opened behind the entry.

ghost use Rattle.std.specs.Prelude.{◌≡◌, ◌<◌, ◌≤◌, ◌++◌, ◌∷◌, [], IfOk, List, ℕ, Some, Option, length, nat_le};
ghost use Rattle.std.specs.Result.{MatchResult};
ghost use Rattle.hy_outside.specs.Outside.{OpensTo};
ghost use Rattle.replay_text.specs.Replayed.{IsReplayed};
ghost use Rattle.trace_text.specs.Printing.{proc_name};
ghost use Rattle.hydra_top.specs.Opened as extents;
ghost use Rattle.hydra_top.specs.Opened.{OpensAs, extent};
ghost use Rattle.hydra_top.specs.Reading.{IsSource, limit};
ghost use Rattle.hydra_top.specs.Texts.{replayed_text};
ghost use Rattle.hydra_top.specs.Top.{IsDone, IsReplayOf, IsTraced, Tells, TellsReplay};
ghost use Rattle.hydra_top.specs.Words.{replay};

use crate::answer::{Answer, refused, unread};
use crate::entry::entered_in;
use crate::outcome::{Outcome, Refusal};
use crate::reading::{ReadEnd, Source, read_file};
use hy_outside::Shelf;
use hy_text::{Bytes, Or, Text, put_u64};
use replay_text::{Replayed, replay_trace};
use src_prog::Prog;
use std::alloc::{AllocError, Global};

/// The answer for a trace, which is the file of that name, on the runs of the procedure `name` of the program of what was read of
/// the first file. That is refused as `entered_in` says, before the trace is opened; then the trace, where it is too long, is no
/// trace, doesn't fail, or isn't the printed one.
pub fn retraced<S: Shelf>(
    alloc: Global,
    name: &Text,
    bound: u32,
    trace: &Text,
    source: &Source,
    shelf: &mut S,
) -> Result<Answer, AllocError>
    ensures answer { (bytes : List ℕ) → IsSource bytes source.now → IfOk result (λ a. Tells (S.faults shelf.old) (S.faults shelf.new) (IsDone (S.files shelf.old) (replay name.now bound trace.now) bytes a.outcome a.text) a.outcome a.text) }
    ensures opened { (before : List (List ℕ)) (file : List ℕ) → S.opened shelf.old ≡ before ++ file ∷ [] → MatchResult result
        (λ a. OpensAs (extent a.outcome) (record { file = file; job = replay name.now bound trace.now }) before (S.opened shelf.new))
        (λ _. OpensAs extents.front (record { file = file; job = replay name.now bound trace.now }) before (S.opened shelf.new)) }
{
    match entered_in(alloc, name, source) {
        Ok(found) => traced(alloc, &found.prog, found.entry, bound, trace, shelf),
        Err(Or::Fault(refusal)) => refused(alloc, refusal),
        Err(Or::NoMemory) => Err(AllocError),
    }
}

// The answer for the trace of that name on the runs of an entry.
fn traced<S: Shelf>(
    alloc: Global,
    prog: &Prog,
    entry: u32,
    bound: u32,
    trace: &Text,
    shelf: &mut S,
) -> Result<Answer, AllocError>
    requires there { entry < length prog.now.procs }
    ensures answer { IfOk result (λ a. Tells (S.faults shelf.old) (S.faults shelf.new) (IsTraced (S.files shelf.old) trace.now prog.now entry bound a.outcome a.text) a.outcome a.text) }
    ensures opened { MatchResult result (λ a. extents.OpensOneMore (extent a.outcome) trace.now (S.opened shelf.old) (S.opened shelf.new)) (λ _. extents.OpensOneMore extents.front trace.now (S.opened shelf.old) (S.opened shelf.new)) }
{
    match read_file(alloc, shelf, trace) {
        Ok(source) => replayed(alloc, prog, entry, bound, &source),
        Err(ReadEnd::Failed) => unread(alloc),
        Err(ReadEnd::NoMemory) => Err(AllocError),
    }
}

// The answer for what was read of a trace.
fn replayed(
    alloc: Global,
    prog: &Prog,
    entry: u32,
    bound: u32,
    source: &Source,
) -> Result<Answer, AllocError>
    requires there { entry < length prog.now.procs }
    ensures answer { (bytes : List ℕ) → IsSource bytes source.now → IfOk result (λ a. IsReplayOf prog.now entry bound bytes (nat_le (length bytes) limit) a.outcome a.text) }
    ensures all { IfOk result (λ a. extent a.outcome ≡ extents.all) }
{
    match source {
        Source::Whole(bytes) => {
            let replayed = replay_trace(alloc, prog, entry, bound, bytes.as_slice())?;
            told(alloc, prog, replayed)
        }
        Source::TooLong => refused(alloc, Refusal::TooLong { second: true }),
    }
}

// The answer that tells what a replay says.
fn told(alloc: Global, prog: &Prog, replayed: Replayed) -> Result<Answer, AllocError>
    ensures answer { IfOk result (λ a. TellsReplay prog.now replayed a.outcome a.text) }
    ensures all { IfOk result (λ a. extent a.outcome ≡ extents.all) }
{
    match replayed {
        Replayed::Unread(fault) => refused(alloc, Refusal::TraceText(fault)),
        Replayed::NotFailed { status, index } => {
            refused(alloc, Refusal::NotFailed { status, index })
        }
        Replayed::Differs { line } => refused(alloc, Refusal::Differs { line }),
        Replayed::Done { proc, assert } => {
            let text = replayed_line(alloc, proc_name(prog, proc), assert)?;
            Ok(Answer {
                outcome: Outcome::Done,
                text,
            })
        }
    }
}

// The line that tells where the run fails.
fn replayed_line(alloc: Global, proc: &[u8], assert: u32) -> Result<Bytes, AllocError>
    ensures { IfOk result (λ t. t ≡ replayed_text proc.now assert) }
{
    let mut text = Bytes::from_slice(alloc, b"replayed ")?;
    text.append(proc)?;
    text.append(b" ")?;
    put_u64(&mut text, u64::from(assert))?;
    text.push(b'\n')?;
    Ok(text)
}

// The name of the procedure of this number.
fn proc_name(prog: &Prog, number: u32) -> &[u8]
    ensures { result.now ≡ proc_name prog.now number }
{
    match prog.procs().get(number as usize) {
        Some(proc) => proc.name.as_slice(),
        None => &[],
    }
}
