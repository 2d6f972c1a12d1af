//! The top call.

ghost use Rattle.std.specs.Prelude.{◌≡◌, ◌≢◌, ◌<◌, ◌++◌, ◌∷◌, ◌⊎◌, [], IfOk, List, ℕ, Ok};
ghost use Rattle.std.specs.Io.KnownBytes.{Appends};
ghost use Rattle.std.specs.Result.{MatchResult};
ghost use Rattle.hy_outside.specs.Outside.{Rose};
ghost use Rattle.hydra_words.specs.Forms.{IsInRange};
ghost use Rattle.hydra_top.specs.Asked.{HasBound, asked, asked_job};
ghost use Rattle.hydra_top.specs.Opened as extents;
ghost use Rattle.hydra_top.specs.Opened.{Opens, OpensAs, OpensSome, extent};
ghost use Rattle.hydra_top.specs.Reading.{IsSource};
ghost use Rattle.hydra_top.specs.Texts.{status_number};
ghost use Rattle.hydra_top.specs.Top.{IsDone, IsTold, MayMask, Prints, PrintsFront, RightFor, Tells};
ghost use Rattle.hydra_top.specs.Words.{task_in, task_of};
ghost use Rattle.hydra_top.specs.Writing.{AppendsFront};

use crate::answer::{Answer, refused, unread};
use crate::outcome::{NotBuilt, Outcome, Refusal, Report};
use crate::reading::{ReadEnd, Source, read_file};
use crate::retracing::retraced;
use crate::showing::shown;
use crate::solving::solved;
use crate::words::{Job, Task, task_in};
use crate::writing::write_all;
use hy_outside::{Shelf, Sink};
use hy_text::{Or, Text};
use hydra_words::{Command, read_words};
use std::alloc::{AllocError, Global};

/// Does what the words ask: reads them, reads the file, searches the runs of its entry, replays a trace on them or shows the tree,
/// and prints the outcome. It always returns.
///
/// All text is made before the first byte is written, and the loop that writes takes no memory.
pub fn run_solo<S: Shelf, K: Sink>(
    alloc: Global,
    words: &[Text],
    shelf: &mut S,
    out: &mut K,
) -> Report
    // The outcome is the one for the words and the files, exactly.
    ensures right { RightFor (S.files shelf.old) words.now result.outcome }

    // Faults come only where they were counted, and where a read failed nothing else is told.
    ensures read_fault { result.outcome ≡ Outcome.ReadFault → Rose (S.faults shelf.old) (S.faults shelf.new) }
    ensures masked { S.faults shelf.old < S.faults shelf.new → MayMask result.outcome }
    ensures write_fault { result.outcome ≡ Outcome.WriteFault → Rose (K.faults out.old) (K.faults out.new) }

    // The files of the task are opened in order, and no more of them than the outcome needs.
    ensures opened { Opens (task_of words.now) result.outcome (S.opened shelf.old) (S.opened shelf.new) }

    // The sink has grown by exactly the text, or, after a failed write, by a front of one that may be told.
    ensures text { result.outcome ≢ Outcome.WriteFault → Prints (S.faults shelf.old) (S.faults shelf.new) (S.files shelf.old) words.now (K.held out.old) (K.held out.new) result.outcome }
    ensures begun { result.outcome ≡ Outcome.WriteFault → PrintsFront (S.faults shelf.old) (S.faults shelf.new) (S.files shelf.old) words.now (K.held out.old) (K.held out.new) }
    ensures status { result.status ≡ status_number result.outcome }
{
    match decided(alloc, words, shelf) {
        Ok(answer) => {
            let Answer { outcome, text } = answer;
            finished(outcome, text.as_slice(), out)
        }
        Err(_) => finished(Outcome::NoMemory, b"no memory\n", out),
    }
}

// The answer before anything is written.
fn decided<S: Shelf>(alloc: Global, words: &[Text], shelf: &mut S) -> Result<Answer, AllocError>
    ensures answer { IfOk result (λ a. IsTold (S.faults shelf.old) (S.faults shelf.new) (S.files shelf.old) (task_of words.now) a.outcome a.text) }
    ensures opened { MatchResult result (λ a. Opens (task_of words.now) a.outcome (S.opened shelf.old) (S.opened shelf.new)) (λ _. OpensSome (task_of words.now) (S.opened shelf.old) (S.opened shelf.new)) }
{
    match read_words(alloc, words) {
        Ok(command) => obeyed(alloc, words.len(), &command, shelf),
        Err(Or::Fault(fault)) => refused(alloc, Refusal::Words(fault)),
        Err(Or::NoMemory) => Err(AllocError),
    }
}

// The answer for a command of so many words.
fn obeyed<S: Shelf>(
    alloc: Global,
    count: usize,
    command: &Command,
    shelf: &mut S,
) -> Result<Answer, AllocError>
    requires { IsInRange command.now }
    ensures answer { IfOk result (λ a. IsTold (S.faults shelf.old) (S.faults shelf.new) (S.files shelf.old) (task_in count command.now) a.outcome a.text) }
    ensures opened { MatchResult result (λ a. Opens (task_in count command.now) a.outcome (S.opened shelf.old) (S.opened shelf.new)) (λ _. OpensSome (task_in count command.now) (S.opened shelf.old) (S.opened shelf.new)) }
{
    match task_in(count, command) {
        Some(task) => answered(alloc, &task, shelf),
        None => {
            let part = NotBuilt::Words;
            refused(alloc, Refusal::NotBuilt { part })
        }
    }
}

// The answer for a task.
fn answered<S: Shelf>(alloc: Global, task: &Task, shelf: &mut S) -> Result<Answer, AllocError>
    requires { HasBound task.now.job }
    ensures answer { IfOk result (λ a. IsTold (S.faults shelf.old) (S.faults shelf.new) (S.files shelf.old) (Ok (asked task.now)) a.outcome a.text) }
    ensures opened { MatchResult result (λ a. OpensAs (extent a.outcome) (asked task.now) (S.opened shelf.old) (S.opened shelf.new)) (λ _. OpensAs extents.front (asked task.now) (S.opened shelf.old) (S.opened shelf.new)) }
{
    match read_file(alloc, shelf, task.file) {
        Ok(source) => done(alloc, &task.job, &source, shelf),
        Err(ReadEnd::Failed) => unread(alloc),
        Err(ReadEnd::NoMemory) => Err(AllocError),
    }
}

// The answer for what was read of the first file.
fn done<S: Shelf>(
    alloc: Global,
    job: &Job,
    source: &Source,
    shelf: &mut S,
) -> Result<Answer, AllocError>
    requires { HasBound job.now }
    ensures answer { (bytes : List ℕ) → IsSource bytes source.now → IfOk result (λ a. Tells (S.faults shelf.old) (S.faults shelf.new) (IsDone (S.files shelf.old) (asked_job job.now) bytes a.outcome a.text) a.outcome a.text) }
    ensures opened { (before : List (List ℕ)) (file : List ℕ) → S.opened shelf.old ≡ before ++ file ∷ [] → MatchResult result
        (λ a. OpensAs (extent a.outcome) (record { file = file; job = asked_job job.now }) before (S.opened shelf.new))
        (λ _. OpensAs extents.front (record { file = file; job = asked_job job.now }) before (S.opened shelf.new)) }
{
    match job {
        Job::Solo { entry, bound } => solved(alloc, *entry, *bound, source),
        Job::Replay {
            entry,
            bound,
            trace,
        } => retraced(alloc, *entry, *bound, *trace, source, shelf),
        Job::Show => shown(alloc, source),
    }
}

// Writes the text of an outcome and reports it, or the fault of writing.
fn finished<K: Sink>(outcome: Outcome, text: &[u8], out: &mut K) -> Report
    requires other { outcome ≢ Outcome.WriteFault }
    ensures told { result.outcome ≢ Outcome.WriteFault → (result.outcome ≡ outcome) × Appends (K.held out.old) (K.held out.new) text.now }
    ensures begun { result.outcome ≡ Outcome.WriteFault → AppendsFront (K.held out.old) (K.held out.new) text.now }
    ensures either { (result.outcome ≡ outcome) ⊎ (result.outcome ≡ Outcome.WriteFault) }
    ensures cause { result.outcome ≡ Outcome.WriteFault → Rose (K.faults out.old) (K.faults out.new) }
    ensures status { result.status ≡ status_number result.outcome }
{
    match write_all(out, text) {
        Ok(()) => Report::of(outcome),
        Err(_) => Report::of(Outcome::WriteFault),
    }
}
