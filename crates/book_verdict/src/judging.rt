//! The verdict of a book, in the words of the program.
ghost use Rattle.std.specs.Prelude.{◌≡◌, ◌<◌, IfOk, length};
ghost use Rattle.extract_def.specs.Extraction.{flat_of};
ghost use Rattle.piece_core.specs.Book.{verdict_of};
ghost use Rattle.piece_core.specs.Evidence.{shapes_of};
ghost use Rattle.piece_core.specs.declared.verdicts.Verdict2.TheVariants as verdicts;
ghost use Rattle.book_verdict.specs.Verdicts.{HasFound, IsFailed, IsFoundStatus, Judges};

use crate::laws::{bug_books_have_runs, found_runs_fail, safe_books_are_safe};
use flat_prog::RunTree;
use piece_core::{Book, Status2, Verdict2};
use sqlite_items::Items;
use src_prog::Prog;
use src_run::{Choice, Status, whole_run};
use std::alloc::{AllocError, Global};
use trace_build::choices;

/// What a book says of the runs of its entry within its bound.
#[derive(Drop)]
pub enum Judgement {
    /// The run on these choices fails, in the procedure of that number at the assert of that number, which counts from 1.
    Bug {
        choices: Items<Choice>,
        proc: u32,
        assert: u32,
    },
    /// No run fails.
    Safe,
    /// The search is not at its end.
    Unfinished,
}

// The procedure and the assert of a run that fails.
fn failed(status: Status) -> (u32, u32)
    requires { IsFailed status }
    ensures { status ≡ Status.Failed result.0 result.1 }
{
    match status {
        Status::Failed { proc, assert } => (proc, assert),
        Status::Going => unreachable!(),
        Status::Ended => unreachable!(),
        Status::Blocked => unreachable!(),
        Status::Cut => unreachable!(),
        Status::BadChoice { index: _ } => unreachable!(),
    }
}

// The run of a node that was found.
fn run_in(status: &Status2) -> &RunTree
    requires { IsFoundStatus status.now }
    ensures { status.now ≡ Status2.Found result.now }
{
    match status {
        Status2::Found(run) => run,
        Status2::Live => unreachable!(),
        Status2::Closed(_) => unreachable!(),
        Status2::Split { site: _ } => unreachable!(),
    }
}

// The run of the node that the verdict names.
fn found_run(book: &Book, node: usize) -> &RunTree
    requires { verdict_of (shapes_of book.now.nodes) book.now.entries ≡ verdicts.Bug node }
    ensures { HasFound book.now.nodes node result.now }
{
    bug_books_have_runs();
    book.is_sound();
    match book.leaf(node) {
        Some(leaf) => run_in(&leaf.status),
        None => unreachable!(),
    }
}

// The choices of the run of the node that the verdict names, and where the machine fails on them.
fn failing(alloc: Global, prog: &Prog, book: &Book, node: usize) -> Result<Judgement, AllocError>
    requires flat { book.now.task.flat ≡ flat_of prog.now }
    requires entry { book.now.task.entry < length prog.now.procs }
    requires bug { verdict_of (shapes_of book.now.nodes) book.now.entries ≡ verdicts.Bug node }
    ensures { IfOk result (Judges prog.now book.now) }
{
    found_runs_fail();
    book.is_sound();
    let run = found_run(book, node);
    let task = book.task();
    let _named = prog.consts();
    let _sorts = task.flat.consts();
    let listed = choices(alloc, prog, &task.flat, task.entry, run)?;
    let whole = whole_run(alloc, prog, task.entry, task.bound, listed.as_slice())?;
    let (proc, assert) = failed(whole.status);
    Ok(Judgement::Bug {
        choices: listed,
        proc,
        assert,
    })
}

/// What a book says of the runs of its entry within its bound, where its flat program is that of the program, and its entry a procedure
/// of it, from 0. Bug comes with the choices for which the run tree of the node that the verdict names stands. The only error is want
/// of memory. It takes the time of one run on these choices; Safe and Unfinished take none.
pub fn judge(alloc: Global, prog: &Prog, book: &Book) -> Result<Judgement, AllocError>
    requires flat { book.now.task.flat ≡ flat_of prog.now }
    requires entry { book.now.task.entry < length prog.now.procs }
    ensures { IfOk result (Judges prog.now book.now) }
{
    safe_books_are_safe();
    book.is_sound();
    let _named = prog.consts();
    let _sorts = book.task().flat.consts();
    match book.verdict() {
        Verdict2::Bug { node } => failing(alloc, prog, book, node),
        Verdict2::Safe => Ok(Judgement::Safe),
        Verdict2::Unfinished => Ok(Judgement::Unfinished),
    }
}
