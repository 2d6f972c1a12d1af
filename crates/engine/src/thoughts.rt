//! What a worker thinks of a leaf: by the first case that applies, something in it fails, nothing does, it is split, or it grows.
ghost use Rattle.std.specs.Prelude.{◌≡◌, IfOk};
ghost use Rattle.std.specs.Arc.{arc_value};
ghost use Rattle.flat_prog.specs.Nodes.{run_of};
ghost use Rattle.piece_core.specs.Evidence.{Over};
ghost use Rattle.tree_query.specs.Asking.{IsOf};
ghost use Rattle.engine.specs.Engine.{DueIs, MayThink, NoUnder, Thinks};

use call_tree::laws::partial_runs_pass_open_sites;
use call_tree::{SitePath, undecided};
use cnf_form::Refuted;
use flat_prog::{PartRun, RunTree};
use frontier::passed_opens;
use piece_core::{Sight, Task};
use sqlite_items::Items;
use std::alloc::{AllocError, Global};
use tree_query::{Formulas, QueryAnswer};

/// What is to be booked of a leaf.
#[derive(Drop)]
pub enum Thought {
    /// Its tree grows.
    Inline {
        /// The sites by which it grows: all open ones that the run passes, in the tree's order.
        sites: Items<SitePath>,
        /// A member of its over question.
        run: PartRun,
    },
    /// It is split.
    Split {
        /// The site, an undecided one.
        site: SitePath,
    },
    /// No run in it fails: a refuted formula that stands for its over question.
    Close(Refuted),
    /// This run in it fails.
    Found(RunTree),
}

// The site on which a due leaf is split, the first undecided one; None where it is not due.
fn due_site(alloc: Global, sight: &Sight) -> Result<Option<SitePath>, AllocError>
    ensures { IfOk result (DueIs (arc_value sight.now.task) sight.now.tree sight.now.piece sight.now.inlined) }
{
    let task: &Task = &sight.task;
    if sight.inlined < task.grain {
        return Ok(None);
    }
    let sites = undecided(alloc, &sight.tree, &sight.piece)?;
    match sites.as_slice() {
        [] => Ok(None),
        [first, ..] => Ok(Some(first.copy(alloc)?)),
    }
}

// What is thought where a member of the over question is there and none of the under question.
fn go_on(alloc: Global, sight: &Sight, run: PartRun) -> Result<Thought, AllocError>
    requires may { MayThink (arc_value sight.now.task) sight.now.tree sight.now.piece }
    requires no_under { NoUnder (arc_value sight.now.task) sight.now.tree sight.now.piece }
    requires over { Over (arc_value sight.now.task) sight.now.tree sight.now.piece (run_of run) }
    ensures { IfOk result (Thinks (arc_value sight.now.task) sight.now.tree sight.now.piece sight.now.inlined) }
{
    partial_runs_pass_open_sites();
    let task: &Task = &sight.task;
    if let Some(site) = due_site(alloc, sight)? {
        return Ok(Thought::Split { site });
    }
    let sites = passed_opens(alloc, &task.flat, task.entry, task.bound, &sight.tree, &run)?;
    Ok(Thought::Inline { sites, run })
}

/// What is to be booked of a leaf that was seen, by the first case that applies: Found where its under question has a member, Close
/// where its over question has none, Split on the first undecided site where the leaf is due, and else Inline of all open sites that a
/// member of the over question passes. The sight's task is as `Book::open` asks, its tree and piece are as a book keeps them, and the
/// formulas are those of its program, also afterwards. The error is want of memory.
pub fn think(alloc: Global, sight: &Sight, formulas: &mut Formulas) -> Result<Thought, AllocError>
    requires formulas { IsOf (arc_value sight.now.task).flat formulas.old }
    requires may { MayThink (arc_value sight.now.task) sight.now.tree sight.now.piece }
    ensures formulas { IsOf (arc_value sight.now.task).flat formulas.new }
    ensures thinks { IfOk result (Thinks (arc_value sight.now.task) sight.now.tree sight.now.piece sight.now.inlined) }
{
    let task: &Task = &sight.task;
    match formulas.under(
        alloc,
        &task.flat,
        task.entry,
        task.bound,
        &sight.tree,
        &sight.piece,
    ) {
        QueryAnswer::Run(run) => return Ok(Thought::Found(run.into_whole())),
        QueryAnswer::Refuted(_) => {}
        QueryAnswer::NoMemory => return Err(AllocError),
    }
    match formulas.over(
        alloc,
        &task.flat,
        task.entry,
        task.bound,
        &sight.tree,
        &sight.piece,
    ) {
        QueryAnswer::Run(run) => go_on(alloc, sight, run),
        QueryAnswer::Refuted(proof) => Ok(Thought::Close(proof)),
        QueryAnswer::NoMemory => Err(AllocError),
    }
}
