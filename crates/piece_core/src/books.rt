//! The book itself: its nodes, its journal, the events that want no evidence, and what is read off it.
ghost use Rattle.std.specs.Prelude.{◌≡◌, ◌+◌, ◌-◌, ◌<◌, ◌≤◌, IfOk, IfErr, OnOk, IfSome, IsTrue, length, [], MatchResult, Some, None, slice_get, vec_capacity};
ghost use Rattle.std.specs.Arc.{arc_value};
ghost use Rattle.flat_prog.specs.Trees.{Run};
ghost use Rattle.flat_prog.specs.Nodes.{run_of};
ghost use Rattle.piece_core.specs.declared.leaves.Leaf.{Leaf};
ghost use Rattle.piece_core.specs.declared.leaves.Status2.TheVariants.{Live, Closed, Found, Split};
ghost use Rattle.piece_core.specs.declared.events.Event.TheVariants.{Take as TakeEvent, Inline as InlineEvent, Split as SplitEvent, Close as CloseEvent, Found as FoundEvent, Back as BackEvent};
ghost use Rattle.piece_core.specs.Evidence.{Closes, IsFine, MayInline, MaySplit, Under, shapes_of};
ghost use Rattle.piece_core.specs.Halves.{AreHalves};
ghost use Rattle.piece_core.specs.Refusals.{EventRefused, OrNoMemory, RefusedAs, back_refusal, sight_refusal, take_refusal};
ghost use Rattle.piece_core.specs.Book.{Booked, IsSound, Opens, Same, Says, entry, least_live, opening_leaves, to_come, verdict_of};

use crate::events::{Entry, Event, noted};
use crate::growths::{divide, grow};
use crate::leaves::{Leaf, Status2, is_alive, kind};
use crate::refusals::{EventRefusal, refuse_back, refuse_event, refuse_take};
use crate::sights::{Sight, see};
use crate::tasks::Task;
use crate::verdicts::Verdict2;
use crate::writes::{keep_first, next_live, put_halves, set_holder, set_status, set_tree};
use call_tree::laws::{full_trees_have_partial_runs, whole_partial_runs_are_full_trees};
use call_tree::{PartTree, Piece, SitePath};
use cnf_form::Refuted;
use flat_prog::RunTree;
use proof_check::refutation_is_sound;
use std::alloc::{AllocError, Global};
use std::marker::Model;
use std::sync::Arc;

/// A book: a binary tree of nodes, numbered from 0 in the order in which they are made, and a journal. An inner node was split into two
/// halves; a leaf is live, closed or found.
///
/// The type keeps that the journal is a legal list of events which gives these nodes, that each run within the caps meets exactly one
/// leaf's piece, and that the evidence of each closed or found leaf is true. For each live leaf that is held it keeps memory for one
/// event more. Contracts see the task, the nodes, the journal, and `spare`: how many events can be booked without memory.
#[derive(Drop)]
pub struct Book {
    alloc: Global,
    task: Arc<Task, Global>,
    nodes: Vec<Leaf>,
    journal: Vec<Entry>,
    // How many live leaves are held.
    held: usize,
    // By node, the number of the first half of a node that was split.
    firsts: Vec<usize>,
    // How many nodes stand before the least live leaf.
    settled: usize,
    // The first leaf that was found.
    found: Option<usize>,
}

impl Model for Book {
    ghost use Rattle.std.specs.Prelude.{◌+◌, ◌-◌, length, vec_capacity};
    ghost use Rattle.std.specs.Arc.{arc_value};
    ghost use Rattle.piece_core.specs.Book.{Ledger, IsKept, IsIndexed};

    ghost Value = { Ledger };

    ghost view = { λ b. record { task = arc_value b.task; nodes = b.nodes.items; entries = b.journal.items; spare = vec_capacity b.journal - (length b.journal.items + b.held) } };

    ghost invariant = { λ b. IsKept (arc_value b.task) b.nodes.items b.journal.items b.held (vec_capacity b.journal) × IsIndexed b.nodes.items b.journal.items b.firsts.items b.settled b.found };
}

// Memory for one event more than those that the held leaves keep.
fn room_for_one(journal: &mut Vec<Entry>, held: usize) -> Result<(), AllocError>
    ensures same { journal.new.items ≡ journal.old.items }
    ensures grows { vec_capacity journal.old ≤ vec_capacity journal.new }
    ensures room { OnOk result (length journal.old.items + 1 + held ≤ vec_capacity journal.new) }
{
    let Some(more) = held.checked_add(1) else {
        return Err(AllocError);
    };
    journal.reserve(more)
}

impl Book {
    /// The book of a task: one live leaf that nobody holds, with the empty piece and the root alone. The entry is a procedure's number,
    /// the bound is 1 to 1000, and the grain is at least 1. The error is want of memory.
    pub fn open(alloc: Global, task: Arc<Task, Global>) -> Result<Book, AllocError>
        requires { Opens (arc_value task) }
        ensures { IfOk result (λ b. (b.task ≡ arc_value task) × (b.nodes ≡ opening_leaves) × (b.entries ≡ [])) }
    {
        // That the program is one rests on its type.
        let _ = task.flat.consts();
        let mut firsts = Vec::new(alloc);
        firsts.push(0)?;
        let mut nodes = Vec::new(alloc);
        nodes.push(Leaf {
            piece: Piece::whole(alloc),
            tree: PartTree::root(alloc)?,
            inlined: 0,
            holder: None,
            status: Status2::Live,
        })?;
        Ok(Book {
            alloc,
            task,
            nodes,
            journal: Vec::new(alloc),
            held: 0,
            firsts,
            settled: 0,
            found: None,
        })
    }

    /// Makes `spare` at least so many events, and changes nothing else, also where the error, want of memory, comes.
    pub fn make_room(&mut self, events: usize) -> Result<(), AllocError>
        ensures same { Same self.old self.new }
        ensures room { OnOk result (events ≤ self.new.spare) }
    {
        self.journal.reserve(events.saturating_add(self.held))
    }

    /// The worker holds the leaf from now on. Takes no memory: `spare` is at least 2, one for the event and one that the held leaf
    /// keeps. Refused, with nothing changed, by NoNode where there is no such node, Stale where it is not live, and Held where a worker
    /// holds it, be it the same or another.
    pub fn take(&mut self, worker: u32, node: usize) -> Result<(), EventRefusal>
        requires { 2 ≤ self.old.spare }
        ensures { MatchResult result (λ _. (take_refusal self.old.nodes node ≡ None) × Booked self.old self.new (entry worker node TakeEvent) Live × (self.new.spare + 2 ≡ self.old.spare) × (to_come self.new ≡ to_come self.old)) (λ e. (take_refusal self.old.nodes node ≡ Some e) × (self.new ≡ self.old)) }
    {
        if let Some(refusal) = refuse_take(self.nodes.as_slice(), node) {
            return Err(refusal);
        }
        set_holder(&mut self.nodes, node, Some(worker));
        self.held += 1;
        self.journal.push_reserved(noted(worker, node, Event::Take));
        Ok(())
    }

    /// The leaf is free again, whoever held it. Takes no memory. Refused, with nothing changed, by NoNode where there is no such node,
    /// Stale where it is not live, and NotHeld where nobody holds it.
    pub fn back(&mut self, worker: u32, node: usize) -> Result<(), EventRefusal>
        ensures { MatchResult result (λ _. (back_refusal self.old.nodes node ≡ None) × Booked self.old self.new (entry worker node BackEvent) Live × (self.new.spare ≡ self.old.spare) × (to_come self.new ≡ to_come self.old)) (λ e. (back_refusal self.old.nodes node ≡ Some e) × (self.new ≡ self.old)) }
    {
        if let Some(refusal) = refuse_back(self.nodes.as_slice(), node) {
            return Err(refusal);
        }
        set_holder(&mut self.nodes, node, None);
        self.held -= 1;
        self.journal.push_reserved(noted(worker, node, Event::Back));
        Ok(())
    }

    // `close`, where `is_own` says that the sight's task is known to be the book's.
    pub(crate) fn close_as(
        &mut self,
        worker: u32,
        sight: &Sight,
        proof: Refuted,
        is_own: bool,
    ) -> Result<(), EventRefusal>
        requires own { IsTrue is_own → self.old.task ≡ arc_value sight.now.task }
        requires closes { Closes (arc_value sight.now.task) sight.now.tree sight.now.piece proof }
        ensures { MatchResult result (λ _. EventRefused self.old.task self.old.nodes worker sight.now None × Booked self.old self.new (entry worker sight.now.node CloseEvent) (Closed proof) × (self.new.spare ≡ self.old.spare) × (to_come self.new < to_come self.old)) (λ e. EventRefused self.old.task self.old.nodes worker sight.now (Some e) × (self.new ≡ self.old)) }
    {
        if let Some(refusal) = refuse_event(
            &self.task,
            self.nodes.as_slice(),
            worker,
            sight,
            is_own,
        ) {
            return Err(refusal);
        }
        set_status(&mut self.nodes, sight.node, Status2::Closed(proof));
        self.settled = next_live(self.nodes.as_slice(), self.settled);
        self.held -= 1;
        self.journal
            .push_reserved(noted(worker, sight.node, Event::Close));
        Ok(())
    }

    // `found`, where `is_own` says that the sight's task is known to be the book's.
    pub(crate) fn found_as(
        &mut self,
        worker: u32,
        sight: &Sight,
        run: RunTree,
        is_own: bool,
    ) -> Result<(), EventRefusal>
        requires own { IsTrue is_own → self.old.task ≡ arc_value sight.now.task }
        requires fails { Under (arc_value sight.now.task) sight.now.tree sight.now.piece (run_of run) }
        ensures { MatchResult result (λ _. EventRefused self.old.task self.old.nodes worker sight.now None × Booked self.old self.new (entry worker sight.now.node FoundEvent) (Found run) × (self.new.spare ≡ self.old.spare) × (to_come self.new < to_come self.old)) (λ e. EventRefused self.old.task self.old.nodes worker sight.now (Some e) × (self.new ≡ self.old)) }
    {
        if let Some(refusal) = refuse_event(
            &self.task,
            self.nodes.as_slice(),
            worker,
            sight,
            is_own,
        ) {
            return Err(refusal);
        }
        set_status(&mut self.nodes, sight.node, Status2::Found(run));
        self.settled = next_live(self.nodes.as_slice(), self.settled);
        self.found = keep_first(self.found, sight.node);
        self.held -= 1;
        self.journal
            .push_reserved(noted(worker, sight.node, Event::Found));
        Ok(())
    }

    // `inline`, where `is_own` says that the sight's task is known to be the book's. The run is not looked at: some run passes the sites.
    pub(crate) fn inline_as(
        &mut self,
        worker: u32,
        sight: &Sight,
        sites: &[SitePath],
        is_own: bool,
    ) -> Result<(), EventRefusal>
        requires own { IsTrue is_own → self.old.task ≡ arc_value sight.now.task }
        requires may { (run : Run) × MayInline (arc_value sight.now.task) sight.now.tree sight.now.piece sight.now.inlined sites.now run }
        ensures { MatchResult result (λ _. EventRefused self.old.task self.old.nodes worker sight.now None × Booked self.old self.new (entry worker sight.now.node (InlineEvent sites.now)) Live × (to_come self.new < to_come self.old)) (λ e. OrNoMemory (EventRefused self.old.task self.old.nodes worker sight.now) e × Same self.old self.new) }
    {
        if let Some(refusal) = refuse_event(
            &self.task,
            self.nodes.as_slice(),
            worker,
            sight,
            is_own,
        ) {
            return Err(refusal);
        }
        let Ok(grown) = grow(self.alloc, sight, sites) else {
            return Err(EventRefusal::NoMemory);
        };
        let Ok(()) = room_for_one(&mut self.journal, self.held) else {
            return Err(EventRefusal::NoMemory);
        };
        set_tree(&mut self.nodes, sight.node, grown.tree, grown.inlined);
        self.journal.push_reserved(noted(worker, sight.node, Event::Inline { sites: grown.sites }));
        Ok(())
    }

    // `split`, where `is_own` says that the sight's task is known to be the book's.
    pub(crate) fn split_as(
        &mut self,
        worker: u32,
        sight: &Sight,
        site: &SitePath,
        is_own: bool,
    ) -> Result<(usize, usize), EventRefusal>
        requires own { IsTrue is_own → self.old.task ≡ arc_value sight.now.task }
        requires may { MaySplit (arc_value sight.now.task) sight.now.tree sight.now.piece sight.now.inlined site.now }
        ensures { MatchResult result (λ r. EventRefused self.old.task self.old.nodes worker sight.now None × Booked self.old self.new (entry worker sight.now.node (SplitEvent site.now)) (Split site.now) × (r.0 ≡ length self.old.nodes) × (r.1 ≡ length self.old.nodes + 1) × (to_come self.new < to_come self.old)) (λ e. OrNoMemory (EventRefused self.old.task self.old.nodes worker sight.now) e × Same self.old self.new) }
    {
        if let Some(refusal) = refuse_event(
            &self.task,
            self.nodes.as_slice(),
            worker,
            sight,
            is_own,
        ) {
            return Err(refusal);
        }
        let Ok(halves) = divide(self.alloc, worker, sight, site) else {
            return Err(EventRefusal::NoMemory);
        };
        let Ok(()) = room_for_one(&mut self.journal, self.held) else {
            return Err(EventRefusal::NoMemory);
        };
        let first = self.nodes.len();
        let Ok(()) = put_halves(
            &mut self.nodes,
            &mut self.firsts,
            sight.node,
            halves.site,
            halves.must,
            halves.avoid,
        ) else {
            return Err(EventRefusal::NoMemory);
        };
        self.settled = next_live(self.nodes.as_slice(), self.settled);
        self.journal.push_reserved(noted(
            worker,
            sight.node,
            Event::Split {
                site: halves.event_site,
            },
        ));
        Ok((first, first + 1))
    }
}

impl Book {
    /// The verdict: Bug with the first leaf that was found, in the order of the journal; else Safe where all leaves are closed; else
    /// Unfinished. Where it is Bug, some tree of the full inlining fails; where it is Safe, none does. No search, and no memory.
    pub fn verdict(&self) -> Verdict2
        ensures is { result ≡ verdict_of (shapes_of self.now.nodes) self.now.entries }
        ensures right { Says self.now.task result }
    {
        full_trees_have_partial_runs();
        whole_partial_runs_are_full_trees();
        refutation_is_sound();
        if let Some(node) = self.found {
            return Verdict2::Bug { node };
        }
        if self.settled < self.nodes.len() {
            Verdict2::Unfinished
        } else {
            Verdict2::Safe
        }
    }

    /// Does nothing; says what the type keeps.
    pub fn is_sound(&self)
        ensures { IsSound self.now.task self.now.nodes self.now.entries }
    {
        let _ = &self.nodes;
    }

    /// A copy of a live leaf. The error is NoNode where there is no such node, Stale where it is not live, and else NoMemory.
    pub fn sight(&self, alloc: Global, node: usize) -> Result<Sight, EventRefusal>
        ensures ok { IfOk result (λ s. (leaf : Leaf) × (slice_get self.now.nodes node ≡ Some leaf) × (leaf.status ≡ Live) × (arc_value s.task ≡ self.now.task) × (s.node ≡ node) × (s.piece ≡ leaf.piece) × (s.tree ≡ leaf.tree) × (s.inlined ≡ leaf.inlined)) }
        ensures err { IfErr result (λ e. RefusedAs (sight_refusal self.now.nodes node) e) }
    {
        let Some(leaf) = self.nodes.as_slice().get(node) else {
            return Err(EventRefusal::NoNode {
                nodes: self.nodes.len(),
            });
        };
        if !is_alive(&leaf.status) {
            return Err(EventRefusal::Stale {
                status: kind(&leaf.status),
            });
        }
        match see(alloc, &self.task, node, leaf) {
            Ok(sight) => Ok(sight),
            Err(_) => Err(EventRefusal::NoMemory),
        }
    }

    /// The number of the least live leaf; None where no leaf is live. No search.
    pub fn live(&self) -> Option<usize>
        ensures { result ≡ least_live 0 self.now.nodes }
    {
        if self.settled < self.nodes.len() {
            Some(self.settled)
        } else {
            None
        }
    }

    /// A node; one that was split has the status Split. None where there is no such node.
    pub fn leaf(&self, node: usize) -> Option<&Leaf>
        ensures is { IfSome result (λ l. slice_get self.now.nodes node ≡ Some l.now) }
        ensures fine { IfSome result (λ l. IsFine self.now.task l.now) }
        ensures none { result ≡ None → slice_get self.now.nodes node ≡ None }
    {
        self.nodes.as_slice().get(node)
    }

    /// By node, the number of the first half of a node that was split, in which the site is reached; the second half has the next number.
    /// Of other nodes the numbers say nothing.
    pub fn first_halves(&self) -> &[usize]
        ensures { AreHalves self.now.nodes result.now }
    {
        self.firsts.as_slice()
    }

    /// The events that were booked, in order.
    pub fn journal(&self) -> &[Entry]
        ensures { result.now ≡ self.now.entries }
    {
        self.journal.as_slice()
    }

    /// The task.
    pub fn task(&self) -> &Task
        ensures { result.now ≡ self.now.task }
    {
        &self.task
    }
}
