//! What a store keeps beside its clauses and literals: who watches what, and which clauses are to be looked at.
//!
//! Where a solver assigns, asks until Nothing or a false clause, cuts back by whole levels and adds what it learnt, a
//! clause stands once at each of its two watches and at most once in the queue: a watch moves only in the walk of its
//! list, which drops the entry; a clause comes into the queue by that walk where its other watch is free or of the same
//! level, so the cut that takes back what made it true takes back both, and it leaves the queue with the same watches.
ghost use Rattle.std.specs.Prelude.{◌≡◌, ℕ, List, ◌+◌, ◌-◌, ◌<◌, ◌≤◌, [], ◌∷◌, ◌++◌, length, take, IfOk, IfSome, IfNone, OnOk, OnErr, true, false, slice_index, slice_set, slice_get, Some};
ghost use Rattle.cnf_form.specs.Literal.{negation, is_among};
ghost use Rattle.cnf_form.specs.Store.{IsSeen};
ghost use Rattle.sat_watch.specs.Lists.{list_at};
ghost use Rattle.sat_watch.specs.Watches.{watch_at};
ghost use Rattle.sat_watch.specs.Watching.{is_false, IsAscending, IsGuarded, IsHandled, IsStale, IsWatching};

use crate::lists::Lists;
use crate::scan::{first_open, other_open};
use crate::watch::{Watch, other_of, unwatched, watch_of};
use cnf_form::{Clauses, Lit, Seen, Trail};
use std::alloc::{AllocError, Global};

/// How many of ascending numbers are at most this one. Takes time linear in those that are greater.
fn count_low(numbers: &[usize], most: usize) -> usize
    requires { IsAscending numbers.now }
    ensures within { result ≤ length numbers.now }
    ensures low { (i : ℕ) → i < result → slice_index numbers.now i ≤ most }
{
    let mut count = numbers.len();
    while count > 0 && numbers[count - 1] > most {
        count -= 1;
    }
    count
}

/// Who watches what, and which clauses are to be looked at.
///
/// A clause that isn't in the queue guards itself: in each front of the walked literals where one of its watches is
/// false the other is true. So it may watch a literal that becomes false only where the other one became true before.
#[derive(Drop)]
pub(crate) struct Watcher {
    /// By clause, the two literals that it watches.
    watches: Vec<Watch>,
    /// By literal, the clauses that watch it, and maybe others.
    lists: Lists,
    /// The front of the assigned literals whose negations' lists have been walked.
    walked: Trail,
    /// The clauses that don't guard themselves. The first ones, as many as `since` has, have a true literal.
    queue: Vec<usize>,
    /// By place in the queue, a number of assigned literals that make a literal of the clause true; ascending.
    since: Vec<usize>,
    /// How many clauses were looked at.
    visits: u64,
}

impl Watcher {
    /// Nothing is watched.
    pub(crate) fn new(alloc: Global) -> Self
        ensures { IsWatching [] [] result }
    {
        Watcher {
            watches: Vec::new(alloc),
            lists: Lists::new(alloc),
            walked: Trail::new(alloc),
            queue: Vec::new(alloc),
            since: Vec::new(alloc),
            visits: 0,
        }
    }

    /// How many clauses were looked at.
    pub(crate) fn visits(&self) -> u64 {
        self.visits
    }

    /// Makes room for the watches of a clause, which watches no literal yet.
    fn make_room(&mut self, id: usize) -> Result<(), AllocError>
        requires { id ≤ length self.old.watches.items }
        ensures watching { (clauses : List (List ℕ)) (trail : List ℕ) → IsWatching clauses trail self.old → IsWatching clauses trail self.new }
        ensures room { OnOk result (id < length self.new.watches.items) }
    {
        if id < self.watches.len() {
            return Ok(());
        }
        self.watches.push(unwatched())?;
        Ok(())
    }

    /// Makes ready for a clause behind the others.
    pub(crate) fn begin(&mut self, id: usize) -> Result<(), AllocError>
        requires { id ≤ length self.old.watches.items }
        ensures watching { (clauses : List (List ℕ)) (trail : List ℕ) → IsWatching clauses trail self.old → IsWatching clauses trail self.new }
        ensures room { OnOk result (id < length self.new.watches.items) }
        ensures queued { OnOk result (is_among self.new.queue.items id ≡ true) }
    {
        self.make_room(id)?;
        self.queue.push(id)?;
        Ok(())
    }

    /// Forgets what the literals behind the first ones made true or false.
    pub(crate) fn cut_to(&mut self, count: usize)
        requires { IsAscending self.old.since.items }
        ensures { (clauses : List (List ℕ)) (trail : List ℕ) → IsWatching clauses trail self.old → IsWatching clauses (take count trail) self.new }
    {
        self.walked.cut_to(count);
        let kept = count_low(&self.since, count);
        self.since.truncate(kept);
    }

    /// Lets a clause in the queue watch two of its literals.
    fn watch(&mut self, id: usize, first: Lit, second: Lit) -> Result<(), AllocError>
        requires room { id < length self.old.watches.items }
        requires queued { is_among self.old.queue.items id ≡ true }
        ensures watching { (clauses : List (List ℕ)) (trail c : List ℕ) → slice_get clauses id ≡ Some c → is_among c first ≡ true → is_among c second ≡ true → IsWatching clauses trail self.old → IsWatching clauses trail self.new }
        ensures watch { OnOk result (watch_at self.new.watches.items id ≡ record { first = first; second = second }) }
        ensures walked { self.new.walked ≡ self.old.walked }
        ensures queue { self.new.queue ≡ self.old.queue }
        ensures since { self.new.since ≡ self.old.since }
    {
        self.lists.enter(first, id)?;
        self.lists.enter(second, id)?;
        self.watches[id] = Watch { first, second };
        Ok(())
    }

    /// Lets a clause watch another literal beside one that it watches, from the one that it watched.
    fn replace(&mut self, id: usize, kept: Lit, added: Lit) -> Result<(), AllocError>
        requires room { id < length self.old.watches.items }
        ensures watches { OnOk result (self.new.watches.items ≡ slice_set self.old.watches.items id (record { first = kept; second = added })) }
        ensures err { OnErr result (self.new.watches ≡ self.old.watches) }
        ensures there { OnOk result (is_among (list_at self.new.lists added) id ≡ true) }
        ensures lists { (k i : ℕ) → is_among (list_at self.old.lists k) i ≡ true → is_among (list_at self.new.lists k) i ≡ true }
        ensures others { (k : ℕ) → (k ≡ added → ⊥) → list_at self.new.lists k ≡ list_at self.old.lists k }
        ensures walked { self.new.walked ≡ self.old.walked }
        ensures queue { self.new.queue ≡ self.old.queue }
        ensures since { self.new.since ≡ self.old.since }
    {
        self.lists.enter(added, id)?;
        self.watches[id] = Watch {
            first: kept,
            second: added,
        };
        Ok(())
    }

    /// Looks at a clause that is entered at a literal that has become false. Answers whether the entry stays.
    fn visit(
        &mut self,
        clauses: &Clauses,
        trail: &Trail,
        lit: Lit,
        id: usize,
    ) -> Result<bool, AllocError>
        requires watching { IsWatching clauses.now trail.now self.old }
        requires now_false { is_false trail.now lit ≡ true }
        ensures watching { IsWatching clauses.now trail.now self.new }
        ensures walked { self.new.walked ≡ self.old.walked }
        ensures list { list_at self.new.lists lit ≡ list_at self.old.lists lit }
        ensures handled { (i : ℕ) → IsHandled self.old.queue.items self.old.walked self.old.watches.items lit i → IsHandled self.new.queue.items self.new.walked self.new.watches.items lit i }
        ensures stays { IfOk result (λ stays. stays ≡ true → IsHandled self.new.queue.items self.new.walked self.new.watches.items lit id) }
        ensures goes { IfOk result (λ stays. stays ≡ false → IsStale self.new.watches.items lit id) }
    {
        self.visits = self.visits.saturating_add(1);
        let Some(other) = other_of(&self.watches, id, lit) else {
            return Ok(false);
        };
        if self.walked.is_true(other) {
            return Ok(true);
        }
        match other_open(trail, clauses.get(id), other) {
            Some(open) => {
                self.replace(id, other, open)?;
                Ok(false)
            }
            None => {
                self.queue.push(id)?;
                Ok(true)
            }
        }
    }

    /// Looks at the clauses that are entered at a literal that has become false.
    fn walk(&mut self, clauses: &Clauses, trail: &Trail, lit: Lit) -> Result<(), AllocError>
        requires watching { IsWatching clauses.now trail.now self.old }
        requires now_false { is_false trail.now lit ≡ true }
        ensures watching { IsWatching clauses.now trail.now self.new }
        ensures walked { self.new.walked ≡ self.old.walked }
        ensures handled { OnOk result ((i : ℕ) → IsHandled self.new.queue.items self.new.walked self.new.watches.items lit i) }
    {
        let mut at = 0;
        while at < self.lists.count(lit) {
            let id = self.lists.entry(lit, at);
            if self.visit(clauses, trail, lit, id)? {
                at += 1;
            } else {
                self.lists.take_out(lit, at);
            }
        }
        Ok(())
    }

    /// Walks the list of the next literal's negation. Answers whether there was a next literal.
    fn walk_next(&mut self, clauses: &Clauses, trail: &Trail) -> Result<bool, AllocError>
        requires { IsWatching clauses.now trail.now self.old }
        ensures watching { IsWatching clauses.now trail.now self.new }
        ensures more { IfOk result (λ more. more ≡ true → length self.new.walked ≡ length self.old.walked + 1) }
        ensures all { IfOk result (λ more. more ≡ false → length self.old.walked ≡ length trail.now) }
        ensures same { IfOk result (λ more. more ≡ false → self.new ≡ self.old) }
    {
        if self.walked.len() == trail.len() {
            return Ok(false);
        }
        let lit = trail.as_slice()[self.walked.len()];
        self.walk(clauses, trail, lit.negated())?;
        self.walked.push(lit)?;
        Ok(true)
    }

    /// Whether the clause watches two literals that aren't false among the walked ones.
    fn is_guarded(&self, id: usize) -> bool
        ensures { result ≡ true → IsGuarded self.now.walked (watch_at self.now.watches.items id) }
    {
        let watch = watch_of(&self.watches, id);
        if watch.first == watch.second || self.walked.is_true(watch.first.negated()) {
            return false;
        }
        !self.walked.is_true(watch.second.negated())
    }

    /// Takes the clause behind those that are known to be true out of the queue.
    fn unqueue(&mut self)
        requires { length self.old.since.items < length self.old.queue.items }
        ensures watching { (clauses : List (List ℕ)) (trail : List ℕ) → (slice_index self.old.queue.items (length self.old.since.items) < length clauses → IsGuarded self.old.walked (watch_at self.old.watches.items (slice_index self.old.queue.items (length self.old.since.items)))) → IsWatching clauses trail self.old → IsWatching clauses trail self.new }
        ensures walked { self.new.walked ≡ self.old.walked }
        ensures since { self.new.since ≡ self.old.since }
        ensures queue { length self.new.queue.items + 1 ≡ length self.old.queue.items }
    {
        self.queue.swap_remove(self.since.len());
    }

    /// Looks at the clause in the queue behind those that are known to be true.
    fn settle(&mut self, clauses: &Clauses, trail: &Trail) -> Result<Option<Seen>, AllocError>
        requires watching { IsWatching clauses.now trail.now self.old }
        requires some { length self.old.since.items < length self.old.queue.items }
        ensures watching { IsWatching clauses.now trail.now self.new }
        ensures walked { self.new.walked ≡ self.old.walked }
        ensures seen { IfOk result (λ seen. IfSome seen (IsSeen clauses.now trail.now)) }
        ensures fewer { IfOk result (λ seen. IfNone seen (length self.new.queue.items + length self.old.since.items < length self.old.queue.items + length self.new.since.items)) }
    {
        self.visits = self.visits.saturating_add(1);
        let id = self.queue[self.since.len()];
        if id >= clauses.len() || self.is_guarded(id) {
            self.unqueue();
            return Ok(None);
        }
        let clause = clauses.get(id);
        let Some(lit) = first_open(trail, clause) else {
            return Ok(Some(Seen::Falsified { clause: id }));
        };
        if trail.is_true(lit) {
            self.since.push(trail.len())?;
            return Ok(None);
        }
        let Some(other) = other_open(trail, clause, lit) else {
            return Ok(Some(Seen::Unit { lit, clause: id }));
        };
        self.watch(id, lit, other)?;
        self.unqueue();
        Ok(None)
    }

    /// Looks at the clauses in the queue up to one that is unit or false.
    fn settle_all(&mut self, clauses: &Clauses, trail: &Trail) -> Result<Option<Seen>, AllocError>
        requires { IsWatching clauses.now trail.now self.old }
        ensures watching { IsWatching clauses.now trail.now self.new }
        ensures walked { self.new.walked ≡ self.old.walked }
        ensures seen { IfOk result (λ seen. IfSome seen (IsSeen clauses.now trail.now)) }
        ensures done { IfOk result (λ seen. IfNone seen (length self.new.since.items ≡ length self.new.queue.items)) }
    {
        while self.since.len() < self.queue.len() {
            if let Some(seen) = self.settle(clauses, trail)? {
                return Ok(Some(seen));
            }
        }
        Ok(None)
    }

    /// A clause that is unit or false, or Nothing where there is none.
    pub(crate) fn next(&mut self, clauses: &Clauses, trail: &Trail) -> Result<Seen, AllocError>
        requires { IsWatching clauses.now trail.now self.old }
        ensures watching { IsWatching clauses.now trail.now self.new }
        ensures seen { IfOk result (IsSeen clauses.now trail.now) }
    {
        'literals: loop {
            if let Some(seen) = self.settle_all(clauses, trail)? {
                return Ok(seen);
            }
            if !self.walk_next(clauses, trail)? {
                return Ok(Seen::Nothing);
            }
        }
    }
}
