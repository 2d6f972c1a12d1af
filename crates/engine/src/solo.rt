//! The search with one worker alone.
ghost use Rattle.std.specs.Prelude.{◌≡◌, ◌≢◌, ◌<◌, ℕ, Some, OnOk, IfOk};
ghost use Rattle.std.specs.Bool.{OnTrue};
ghost use Rattle.piece_core.specs.declared.verdicts.Verdict2.TheVariants.{Unfinished};
ghost use Rattle.piece_core.specs.Evidence.{shapes_of};
ghost use Rattle.piece_core.specs.Book.{first_found, to_come, verdict_of};
ghost use Rattle.tree_query.specs.Asking.{IsOf};
ghost use Rattle.engine.specs.Engine.{GoesOn, IsEnded, IsHeldBy, IsLive, next_of};

use crate::turns::{EventKind, Turned, turn};
use crate::workers::Worker;
use piece_core::{Book, Verdict2};
use std::alloc::{AllocError, Global};
use tree_query::Formulas;

// Whether a leaf is Found.
fn has_found(book: &Book) -> bool
    ensures { OnTrue result ((node : ℕ) × (first_found book.now.entries ≡ Some node)) }
{
    match book.verdict() {
        Verdict2::Bug { .. } => true,
        Verdict2::Safe => false,
        Verdict2::Unfinished => false,
    }
}

// Holds the leaf, whoever held it.
fn hold(book: &mut Book, worker: &Worker, node: usize) -> Result<(), AllocError>
    requires { IsLive book.old node }
    ensures task { book.new.task ≡ book.old.task }
    ensures stays { to_come book.new ≡ to_come book.old }
    ensures held { OnOk result (IsHeldBy book.new node worker.now.number) }
{
    let _ = book.back(worker.number, node);
    book.make_room(2)?;
    match book.take(worker.number, node) {
        Ok(()) => Ok(()),
        Err(_) => unreachable!(),
    }
}

// The leaf on which the turns go on, if they do.
fn next_leaf(node: usize, kind: EventKind, ticket: Option<usize>) -> Option<usize>
    ensures { result ≡ next_of node kind ticket }
{
    match kind {
        EventKind::Inline => Some(node),
        EventKind::Split => match ticket {
            Some(free) => Some(free.saturating_sub(1)),
            None => None,
        },
        EventKind::Close => None,
        EventKind::Found => None,
    }
}

// One turn; the leaf on which the turns go on, if they do.
fn step(
    alloc: Global,
    worker: &Worker,
    book: &mut Book,
    formulas: &mut Formulas,
    node: usize,
) -> Result<Option<usize>, AllocError>
    requires formulas { IsOf book.old.task.flat formulas.old }
    requires held { IsHeldBy book.old node worker.now.number }
    ensures formulas { IsOf book.old.task.flat formulas.new }
    ensures next { IfOk result (GoesOn book.new worker.now.number) }
    ensures task { book.new.task ≡ book.old.task }
    ensures falls { OnOk result (to_come book.new < to_come book.old) }
{
    match turn(alloc, worker, book, formulas, node) {
        Turned::Booked { kind, ticket } => Ok(next_leaf(node, kind, ticket)),
        Turned::Refused(_) => unreachable!(),
        Turned::NoMemory => Err(AllocError),
    }
}

// Turns on a leaf and below it while what is worked on is live.
fn work_on(
    alloc: Global,
    worker: &Worker,
    book: &mut Book,
    formulas: &mut Formulas,
    node: usize,
) -> Result<(), AllocError>
    requires formulas { IsOf book.old.task.flat formulas.old }
    requires held { IsHeldBy book.old node worker.now.number }
    ensures formulas { IsOf book.old.task.flat formulas.new }
    ensures task { book.new.task ≡ book.old.task }
    ensures falls { OnOk result (to_come book.new < to_come book.old) }
{
    let mut at = step(alloc, worker, book, formulas, node)?;
    while let Some(leaf) = at {
        at = step(alloc, worker, book, formulas, leaf)?;
    }
    Ok(())
}

// Goes on with the formulas of the program until no leaf is live or one is Found.
fn search(
    alloc: Global,
    worker: &Worker,
    book: &mut Book,
    formulas: &mut Formulas,
) -> Result<(), AllocError>
    requires { IsOf book.old.task.flat formulas.old }
    ensures task { book.new.task ≡ book.old.task }
    ensures ended { OnOk result (IsEnded book.new) }
{
    while let Some(node) = book.live() {
        if has_found(book) {
            return Ok(());
        }
        hold(book, worker, node)?;
        work_on(alloc, worker, book, formulas, node)?;
    }
    Ok(())
}

/// Goes on with a book until its verdict stands, which is Bug or Safe then, and returns. In rounds: the worker takes the least live
/// leaf, given back before where somebody holds it, and takes turns on it while it is live; after a split the turns go on with the half
/// in which the site is reached. It ends where no leaf is live or one is Found. The error is want of memory; the book is sound and its
/// task the same all the while, so the search can be taken up again.
#[tactic(auto, using(crate::proofs::Ending::decided))]
pub fn solve_solo(alloc: Global, worker: &Worker, book: &mut Book) -> Result<(), AllocError>
    ensures task { book.new.task ≡ book.old.task }
    ensures ended { OnOk result (IsEnded book.new) }
    ensures decided { OnOk result (verdict_of (shapes_of book.new.nodes) book.new.entries ≢ Unfinished) }
{
    let mut formulas = Formulas::of(alloc, &book.task().flat)?;
    search(alloc, worker, book, &mut formulas)?;
    book.is_sound();
    Ok(())
}
