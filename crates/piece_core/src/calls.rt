//! A book taken through any list of calls, by any workers.
ghost use Rattle.std.specs.Prelude.{◌≡◌, ◌↔◌, ◌∷◌, [], IfOk, OnOk, IsTrue, All, reverse, Option, Some};
ghost use Rattle.piece_core.specs.declared.refusals.EventRefusal.TheVariants.{NoMemory};
ghost use Rattle.std.specs.Arc.{arc_value};
ghost use Rattle.piece_core.specs.Calls.{MayCall, stand_of, Called, RunsCalls, first_stand};
ghost use Rattle.piece_core.specs.Book.{IsSound, Opens};
ghost use Rattle.piece_core.specs.declared.calls.BookCall.{BookCall};
ghost use Rattle.piece_core.specs.declared.calls.BookCall.TheVariants.{Take as TakeCall, Back as BackCall, Inline as InlineCall, Split as SplitCall, Close as CloseCall, Found as FoundCall};

use crate::books::Book;
use crate::refusals::EventRefusal;
use crate::sights::Sight;
use crate::tasks::Task;
use call_tree::SitePath;
use cnf_form::Refuted;
use flat_prog::{PartRun, RunTree};
use sqlite_items::Items;
use std::alloc::{AllocError, Global};
use std::sync::Arc;

/// A call of a book. Its own condition is one of `any_run`.
#[derive(Drop)]
pub enum BookCall {
    /// `take`, with room made for it.
    Take {
        /// The number of the worker.
        worker: u32,
        /// The number of the leaf.
        node: usize,
    },
    /// `back`.
    Back {
        /// The number of the worker.
        worker: u32,
        /// The number of the leaf.
        node: usize,
    },
    /// `inline`.
    Inline {
        /// The number of the worker.
        worker: u32,
        /// What it saw of the leaf.
        sight: Sight,
        /// The sites by which the tree grows.
        sites: Items<SitePath>,
        /// A run that passes them.
        run: PartRun,
    },
    /// `split`.
    Split {
        /// The number of the worker.
        worker: u32,
        /// What it saw of the leaf.
        sight: Sight,
        /// The site on which it is split.
        site: SitePath,
    },
    /// `close`.
    Close {
        /// The number of the worker.
        worker: u32,
        /// What it saw of the leaf.
        sight: Sight,
        /// Why no run in it fails.
        proof: Refuted,
    },
    /// `found`.
    Found {
        /// The number of the worker.
        worker: u32,
        /// What it saw of the leaf.
        sight: Sight,
        /// The run that fails.
        run: RunTree,
    },
}

fn call_take(book: &mut Book, worker: u32, node: usize) -> Result<(), AllocError>
    ensures task { book.new.task ≡ book.old.task }
    ensures stands { OnOk result (Called book.old.task (stand_of book.old) (TakeCall worker node) (stand_of book.new)) }
{
    book.make_room(2)?;
    match book.take(worker, node) {
        Ok(()) => Ok(()),
        Err(_) => Ok(()),
    }
}

fn call_back(book: &mut Book, worker: u32, node: usize) -> Result<(), AllocError>
    ensures task { book.new.task ≡ book.old.task }
    ensures stands { OnOk result (Called book.old.task (stand_of book.old) (BackCall worker node) (stand_of book.new)) }
{
    match book.back(worker, node) {
        Ok(()) => Ok(()),
        Err(_) => Ok(()),
    }
}

fn call_close(book: &mut Book, worker: u32, sight: Sight, proof: Refuted) -> Result<(), AllocError>
    requires { MayCall (CloseCall worker sight proof) }
    ensures task { book.new.task ≡ book.old.task }
    ensures stands { OnOk result (Called book.old.task (stand_of book.old) (CloseCall worker sight proof) (stand_of book.new)) }
{
    match book.close(worker, &sight, proof) {
        Ok(()) => Ok(()),
        Err(_) => Ok(()),
    }
}

fn call_found(book: &mut Book, worker: u32, sight: Sight, run: RunTree) -> Result<(), AllocError>
    requires { MayCall (FoundCall worker sight run) }
    ensures task { book.new.task ≡ book.old.task }
    ensures stands { OnOk result (Called book.old.task (stand_of book.old) (FoundCall worker sight run) (stand_of book.new)) }
{
    match book.found(worker, &sight, run) {
        Ok(()) => Ok(()),
        Err(_) => Ok(()),
    }
}

// Whether it is want of memory.
fn is_memory(refusal: EventRefusal) -> bool
    ensures { IsTrue result ↔ (refusal ≡ NoMemory) }
{
    match refusal {
        EventRefusal::NoNode { .. } => false,
        EventRefusal::Stale { .. } => false,
        EventRefusal::Held { .. } => false,
        EventRefusal::NotHeld => false,
        EventRefusal::Moved => false,
        EventRefusal::NoMemory => true,
    }
}

fn call_inline(
    book: &mut Book,
    worker: u32,
    sight: Sight,
    sites: Items<SitePath>,
    run: PartRun,
) -> Result<(), AllocError>
    requires { MayCall (InlineCall worker sight sites run) }
    ensures task { book.new.task ≡ book.old.task }
    ensures stands { OnOk result (Called book.old.task (stand_of book.old) (InlineCall worker sight sites run) (stand_of book.new)) }
{
    match book.inline(worker, &sight, sites.as_slice(), &run) {
        Ok(()) => Ok(()),
        Err(refusal) => {
            if is_memory(refusal) {
                Err(AllocError)
            } else {
                Ok(())
            }
        }
    }
}

fn call_split(book: &mut Book, worker: u32, sight: Sight, site: SitePath) -> Result<(), AllocError>
    requires { MayCall (SplitCall worker sight site) }
    ensures task { book.new.task ≡ book.old.task }
    ensures stands { OnOk result (Called book.old.task (stand_of book.old) (SplitCall worker sight site) (stand_of book.new)) }
{
    match book.split(worker, &sight, &site) {
        Ok(_) => Ok(()),
        Err(refusal) => {
            if is_memory(refusal) {
                Err(AllocError)
            } else {
                Ok(())
            }
        }
    }
}

// Books it, or leaves the book where it is refused. Want of memory ends it.
fn call(book: &mut Book, call: BookCall) -> Result<(), AllocError>
    requires { MayCall call }
    ensures task { book.new.task ≡ book.old.task }
    ensures stands { OnOk result (Called book.old.task (stand_of book.old) call (stand_of book.new)) }
{
    match call {
        BookCall::Take { worker, node } => call_take(book, worker, node),
        BookCall::Back { worker, node } => call_back(book, worker, node),
        BookCall::Inline {
            worker,
            sight,
            sites,
            run,
        } => call_inline(book, worker, sight, sites, run),
        BookCall::Split {
            worker,
            sight,
            site,
        } => call_split(book, worker, sight, site),
        BookCall::Close {
            worker,
            sight,
            proof,
        } => call_close(book, worker, sight, proof),
        BookCall::Found { worker, sight, run } => call_found(book, worker, sight, run),
    }
}

/// The opening book of a task, taken through these calls in order. The task is as `Book::open` asks, and each call meets its own
/// condition. A call that is refused for another cause than memory leaves the book as it was; each other call books its event. The
/// error is want of memory, in whatever call.
pub fn any_run(
    alloc: Global,
    task: Arc<Task, Global>,
    calls: Vec<BookCall>,
) -> Result<Book, AllocError>
    requires opens { Opens (arc_value task) }
    requires may { All MayCall calls.items }
    ensures { IfOk result (λ b. (b.task ≡ arc_value task) × RunsCalls (arc_value task) first_stand calls.items (stand_of b) × IsSound b.task b.nodes b.entries) }
{
    let mut calls = calls;
    calls.reverse();
    let mut book = Book::open(alloc, task)?;
    while let Some(next) = calls.pop() {
        call(&mut book, next)?;
    }
    book.is_sound();
    Ok(book)
}
