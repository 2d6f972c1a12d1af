//! A turn of a worker: it sees a leaf, thinks, and books what it thought.
ghost use Rattle.std.specs.Prelude.{◌≡◌};
ghost use Rattle.std.specs.Arc.{arc_value};
ghost use Rattle.flat_prog.specs.Nodes.{run_of};
ghost use Rattle.piece_core.specs.Evidence.{Closes, MayInline, MaySplit, Under};
ghost use Rattle.tree_query.specs.Asking.{IsOf};
ghost use Rattle.engine.specs.declared.thoughts.Thought.TheVariants.{Inline as InlineThought, Split as SplitThought, Close as CloseThought, Found as FoundThought};
ghost use Rattle.engine.specs.Engine.{MayBook, Settled, Turns, turned_of};

use crate::thoughts::{Thought, think};
use crate::workers::Worker;
use call_tree::SitePath;
use cnf_form::Refuted;
use flat_prog::{PartRun, RunTree};
use piece_core::{Book, EventRefusal, Sight};
use std::alloc::Global;
use tree_query::Formulas;

/// The kind of the event of a thought.
#[derive(Clone, Copy, PartialEq, Eq, Debug)]
pub enum EventKind {
    /// The tree grew.
    Inline,
    /// The leaf was split.
    Split,
    /// Nothing in it fails.
    Close,
    /// Something in it fails.
    Found,
}

/// What became of a thought.
#[derive(Clone, Copy, Debug)]
pub enum Turned {
    /// It is booked.
    Booked {
        /// The kind of the event.
        kind: EventKind,
        /// After a split the half that nobody holds.
        ticket: Option<usize>,
    },
    /// The book refused it.
    Refused(EventRefusal),
    /// There is no memory.
    NoMemory,
}

// A refusal, or want of memory.
fn refused(refusal: EventRefusal) -> Turned
    ensures { result ≡ turned_of refusal }
{
    match refusal {
        EventRefusal::NoNode { nodes } => Turned::Refused(EventRefusal::NoNode { nodes }),
        EventRefusal::Stale { status } => Turned::Refused(EventRefusal::Stale { status }),
        EventRefusal::Held { by } => Turned::Refused(EventRefusal::Held { by }),
        EventRefusal::NotHeld => Turned::Refused(EventRefusal::NotHeld),
        EventRefusal::Moved => Turned::Refused(EventRefusal::Moved),
        EventRefusal::NoMemory => Turned::NoMemory,
    }
}

fn settle_inline(
    book: &mut Book,
    worker: u32,
    sight: &Sight,
    sites: &[SitePath],
    run: &PartRun,
) -> Turned
    requires own { book.old.task ≡ arc_value sight.now.task }
    requires may { MayInline (arc_value sight.now.task) sight.now.tree sight.now.piece sight.now.inlined sites.now (run_of run.now) }
    ensures { Settled book.old book.new worker sight.now (InlineThought sites.now run.now) result }
{
    match book.inline_own(worker, sight, sites, run) {
        Ok(()) => Turned::Booked {
            kind: EventKind::Inline,
            ticket: None,
        },
        Err(refusal) => refused(refusal),
    }
}

fn settle_split(book: &mut Book, worker: u32, sight: &Sight, site: &SitePath) -> Turned
    requires own { book.old.task ≡ arc_value sight.now.task }
    requires may { MaySplit (arc_value sight.now.task) sight.now.tree sight.now.piece sight.now.inlined site.now }
    ensures { Settled book.old book.new worker sight.now (SplitThought site.now) result }
{
    match book.split_own(worker, sight, site) {
        Ok(halves) => Turned::Booked {
            kind: EventKind::Split,
            ticket: Some(halves.1),
        },
        Err(refusal) => refused(refusal),
    }
}

fn settle_close(book: &mut Book, worker: u32, sight: &Sight, proof: Refuted) -> Turned
    requires own { book.old.task ≡ arc_value sight.now.task }
    requires closes { Closes (arc_value sight.now.task) sight.now.tree sight.now.piece proof }
    ensures { Settled book.old book.new worker sight.now (CloseThought proof) result }
{
    match book.close_own(worker, sight, proof) {
        Ok(()) => Turned::Booked {
            kind: EventKind::Close,
            ticket: None,
        },
        Err(refusal) => refused(refusal),
    }
}

fn settle_found(book: &mut Book, worker: u32, sight: &Sight, run: RunTree) -> Turned
    requires own { book.old.task ≡ arc_value sight.now.task }
    requires fails { Under (arc_value sight.now.task) sight.now.tree sight.now.piece (run_of run) }
    ensures { Settled book.old book.new worker sight.now (FoundThought run) result }
{
    match book.found_own(worker, sight, run) {
        Ok(()) => Turned::Booked {
            kind: EventKind::Found,
            ticket: None,
        },
        Err(refusal) => refused(refusal),
    }
}

/// Books the event of a thought, with the worker's number. The sight is one of this book's task, and the thought is one that may be
/// booked of it. Booked where the leaf is as it was seen and the worker holds it. Refused as the book refuses it, and NoMemory where
/// the book has no memory; then nothing but `spare` is changed.
pub fn settle(worker: &Worker, book: &mut Book, sight: &Sight, thought: Thought) -> Turned
    requires own { book.old.task ≡ arc_value sight.now.task }
    requires may { MayBook sight.now thought }
    ensures { Settled book.old book.new worker.now.number sight.now thought result }
{
    match thought {
        Thought::Inline { sites, run } => {
            settle_inline(book, worker.number, sight, sites.as_slice(), &run)
        }
        Thought::Split { site } => settle_split(book, worker.number, sight, &site),
        Thought::Close(proof) => settle_close(book, worker.number, sight, proof),
        Thought::Found(run) => settle_found(book, worker.number, sight, run),
    }
}

/// A sight of a leaf, a thought and its event. On a live leaf that the worker holds it is not refused. The formulas are those of the
/// book's program, also afterwards. NoMemory comes for want of memory, be it to see, to think or to book; then nothing but `spare` is
/// changed.
pub fn turn(
    alloc: Global,
    worker: &Worker,
    book: &mut Book,
    formulas: &mut Formulas,
    node: usize,
) -> Turned
    requires { IsOf book.old.task.flat formulas.old }
    ensures formulas { IsOf book.old.task.flat formulas.new }
    ensures turns { Turns book.old book.new worker.now.number node result }
{
    book.is_sound();
    let sight = match book.sight(alloc, node) {
        Ok(sight) => sight,
        Err(refusal) => return refused(refusal),
    };
    let Ok(thought) = think(alloc, &sight, formulas) else {
        return Turned::NoMemory;
    };
    settle(worker, book, &sight, thought)
}
