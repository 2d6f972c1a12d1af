//! The events with evidence. Each stands twice: the first form compares the task of the sight with the book's, and the second is for
//! callers that know them to be one, as a worker does that saw the leaf in this very book.
ghost use Rattle.std.specs.Prelude.{◌≡◌, ◌+◌, ◌<◌, MatchResult, Some, None, length};
ghost use Rattle.std.specs.Arc.{arc_value};
ghost use Rattle.flat_prog.specs.Nodes.{run_of};
ghost use Rattle.piece_core.specs.declared.leaves.Status2.TheVariants.{Live, Closed, Found, Split};
ghost use Rattle.piece_core.specs.declared.events.Event.TheVariants.{Inline as InlineEvent, Split as SplitEvent, Close as CloseEvent, Found as FoundEvent};
ghost use Rattle.piece_core.specs.Evidence.{Closes, MayInline, MaySplit, Under};
ghost use Rattle.piece_core.specs.Refusals.{EventRefused, OrNoMemory};
ghost use Rattle.piece_core.specs.Book.{Booked, Same, entry, to_come};

use crate::books::Book;
use crate::refusals::EventRefusal;
use crate::sights::Sight;
use call_tree::SitePath;
use cnf_form::Refuted;
use flat_prog::{PartRun, RunTree};

// The refusals of all these calls, in their order: NoNode where there is no such node; Stale where it is not live; NotHeld where the
// worker is not its holder; Moved where the leaf is not as it was seen, or the book's task is not the sight's.
impl Book {
    /// The leaf's tree grows by these sites: they are some, open and different, the run is in the sight's over question and passes all of
    /// them, the under question has no member, and the sight is not due. Refused by NoNode, Stale, NotHeld, Moved and NoMemory, in this
    /// order; then nothing but `spare` is changed.
    pub fn inline(
        &mut self,
        worker: u32,
        sight: &Sight,
        sites: &[SitePath],
        run: &PartRun,
    ) -> Result<(), EventRefusal>
        requires { MayInline (arc_value sight.now.task) sight.now.tree sight.now.piece sight.now.inlined sites.now (run_of run.now) }
        ensures { MatchResult result (λ _. EventRefused self.old.task self.old.nodes worker sight.now None × Booked self.old self.new (entry worker sight.now.node (InlineEvent sites.now)) Live × (to_come self.new < to_come self.old)) (λ e. OrNoMemory (EventRefused self.old.task self.old.nodes worker sight.now) e × Same self.old self.new) }
    {
        let _ = run;
        self.inline_as(worker, sight, sites, false)
    }

    /// `inline` for a sight of this book's task, which is not compared.
    pub fn inline_own(
        &mut self,
        worker: u32,
        sight: &Sight,
        sites: &[SitePath],
        run: &PartRun,
    ) -> Result<(), EventRefusal>
        requires own { self.old.task ≡ arc_value sight.now.task }
        requires may { MayInline (arc_value sight.now.task) sight.now.tree sight.now.piece sight.now.inlined sites.now (run_of run.now) }
        ensures { MatchResult result (λ _. EventRefused self.old.task self.old.nodes worker sight.now None × Booked self.old self.new (entry worker sight.now.node (InlineEvent sites.now)) Live × (to_come self.new < to_come self.old)) (λ e. OrNoMemory (EventRefused self.old.task self.old.nodes worker sight.now) e × Same self.old self.new) }
    {
        let _ = run;
        self.inline_as(worker, sight, sites, true)
    }

    /// The leaf, which is due, is split on an undecided site. The answer is the numbers of its halves: the first one, in which the site is
    /// reached and which the worker holds, and the next, in which it is not and which is free. Both have the leaf's tree, and have
    /// inlined nothing. Refused by NoNode, Stale, NotHeld, Moved and NoMemory, in this order; then nothing but `spare` is changed.
    pub fn split(
        &mut self,
        worker: u32,
        sight: &Sight,
        site: &SitePath,
    ) -> Result<(usize, usize), EventRefusal>
        requires { MaySplit (arc_value sight.now.task) sight.now.tree sight.now.piece sight.now.inlined site.now }
        ensures { MatchResult result (λ r. EventRefused self.old.task self.old.nodes worker sight.now None × Booked self.old self.new (entry worker sight.now.node (SplitEvent site.now)) (Split site.now) × (r.0 ≡ length self.old.nodes) × (r.1 ≡ length self.old.nodes + 1) × (to_come self.new < to_come self.old)) (λ e. OrNoMemory (EventRefused self.old.task self.old.nodes worker sight.now) e × Same self.old self.new) }
    {
        self.split_as(worker, sight, site, false)
    }

    /// `split` for a sight of this book's task, which is not compared.
    pub fn split_own(
        &mut self,
        worker: u32,
        sight: &Sight,
        site: &SitePath,
    ) -> Result<(usize, usize), EventRefusal>
        requires own { self.old.task ≡ arc_value sight.now.task }
        requires may { MaySplit (arc_value sight.now.task) sight.now.tree sight.now.piece sight.now.inlined site.now }
        ensures { MatchResult result (λ r. EventRefused self.old.task self.old.nodes worker sight.now None × Booked self.old self.new (entry worker sight.now.node (SplitEvent site.now)) (Split site.now) × (r.0 ≡ length self.old.nodes) × (r.1 ≡ length self.old.nodes + 1) × (to_come self.new < to_come self.old)) (λ e. OrNoMemory (EventRefused self.old.task self.old.nodes worker sight.now) e × Same self.old self.new) }
    {
        self.split_as(worker, sight, site, true)
    }

    /// The leaf is closed: the refuted clauses stand for the sight's over question, so no run in it fails. Takes no memory. Refused by
    /// NoNode, Stale, NotHeld and Moved, in this order; then nothing is changed, and the proof is dropped.
    pub fn close(&mut self, worker: u32, sight: &Sight, proof: Refuted) -> Result<(), EventRefusal>
        requires { Closes (arc_value sight.now.task) sight.now.tree sight.now.piece proof }
        ensures { MatchResult result (λ _. EventRefused self.old.task self.old.nodes worker sight.now None × Booked self.old self.new (entry worker sight.now.node CloseEvent) (Closed proof) × (self.new.spare ≡ self.old.spare) × (to_come self.new < to_come self.old)) (λ e. EventRefused self.old.task self.old.nodes worker sight.now (Some e) × (self.new ≡ self.old)) }
    {
        self.close_as(worker, sight, proof, false)
    }

    /// `close` for a sight of this book's task, which is not compared.
    pub fn close_own(
        &mut self,
        worker: u32,
        sight: &Sight,
        proof: Refuted,
    ) -> Result<(), EventRefusal>
        requires own { self.old.task ≡ arc_value sight.now.task }
        requires closes { Closes (arc_value sight.now.task) sight.now.tree sight.now.piece proof }
        ensures { MatchResult result (λ _. EventRefused self.old.task self.old.nodes worker sight.now None × Booked self.old self.new (entry worker sight.now.node CloseEvent) (Closed proof) × (self.new.spare ≡ self.old.spare) × (to_come self.new < to_come self.old)) (λ e. EventRefused self.old.task self.old.nodes worker sight.now (Some e) × (self.new ≡ self.old)) }
    {
        self.close_as(worker, sight, proof, true)
    }

    /// The leaf is found: the run, which is in the sight's under question, fails. Takes no memory. Refused by NoNode, Stale, NotHeld and
    /// Moved, in this order; then nothing is changed, and the run is dropped.
    pub fn found(&mut self, worker: u32, sight: &Sight, run: RunTree) -> Result<(), EventRefusal>
        requires { Under (arc_value sight.now.task) sight.now.tree sight.now.piece (run_of run) }
        ensures { MatchResult result (λ _. EventRefused self.old.task self.old.nodes worker sight.now None × Booked self.old self.new (entry worker sight.now.node FoundEvent) (Found run) × (self.new.spare ≡ self.old.spare) × (to_come self.new < to_come self.old)) (λ e. EventRefused self.old.task self.old.nodes worker sight.now (Some e) × (self.new ≡ self.old)) }
    {
        self.found_as(worker, sight, run, false)
    }

    /// `found` for a sight of this book's task, which is not compared.
    pub fn found_own(
        &mut self,
        worker: u32,
        sight: &Sight,
        run: RunTree,
    ) -> Result<(), EventRefusal>
        requires own { self.old.task ≡ arc_value sight.now.task }
        requires fails { Under (arc_value sight.now.task) sight.now.tree sight.now.piece (run_of run) }
        ensures { MatchResult result (λ _. EventRefused self.old.task self.old.nodes worker sight.now None × Booked self.old self.new (entry worker sight.now.node FoundEvent) (Found run) × (self.new.spare ≡ self.old.spare) × (to_come self.new < to_come self.old)) (λ e. EventRefused self.old.task self.old.nodes worker sight.now (Some e) × (self.new ≡ self.old)) }
    {
        self.found_as(worker, sight, run, true)
    }
}
