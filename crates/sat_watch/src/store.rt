//! The store whose clauses watch two of their literals.
ghost use Rattle.std.specs.Prelude.{◌≡◌, ℕ, List, [], ◌∷◌, ◌++◌, length, take, IfOk, OnOk, OnErr};
ghost use Rattle.cnf_form.specs.Store.{IsSeen};
ghost use Rattle.cnf_form.specs.declared.store.Seen.{Seen};
ghost use Rattle.sat_watch.specs.Naming.{names_clause};

use crate::watcher::Watcher;
use cnf_form::{Clause, ClauseStore, Clauses, Cnf, Lit, Seen, Trail};
use std::alloc::{AllocError, Global};
use std::marker::Model;

/// The store whose clauses watch two of their literals.
#[derive(Drop)]
pub struct WatchStore {
    clauses: Clauses,
    trail: Trail,
    watcher: Watcher,
}

impl Model for WatchStore {
    ghost use Rattle.std.specs.Prelude.{ℕ, List};
    ghost use Rattle.sat_watch.specs.Stored.{Stored};

    ghost Value = { Stored };

    ghost use Rattle.sat_watch.specs.Watching.{IsWatching};

    ghost view = { λ s. record { clauses = s.clauses; trail = s.trail } };

    ghost invariant = { λ s. IsWatching s.clauses s.trail s.watcher };
}

impl WatchStore {
    /// A store with no clause and no literal.
    pub fn new(alloc: Global) -> Result<Self, AllocError>
        ensures clauses { IfOk result (λ s. s.clauses ≡ []) }
        ensures assigned { IfOk result (λ s. s.trail ≡ []) }
    {
        Ok(WatchStore {
            clauses: Clauses::new(alloc),
            trail: Trail::new(alloc),
            watcher: Watcher::new(alloc),
        })
    }

    /// A store of exactly the clauses of the formula, by their numbers, with no literal. `AllocError` comes where memory
    /// runs out.
    pub fn of_cnf(alloc: Global, cnf: &Cnf) -> Result<Self, AllocError>
        ensures clauses { IfOk result (λ s. s.clauses ≡ cnf.now.clauses) }
        ensures assigned { IfOk result (λ s. s.trail ≡ []) }
    {
        let mut store = WatchStore::new(alloc)?;
        for clause in cnf.clauses.as_slice() {
            let same = clause.copy(alloc)?;
            store.add(same)?;
        }
        Ok(store)
    }

    /// How many clauses the calls have looked at, up to the greatest `u64`. A clause counts each time.
    pub fn visits(&self) -> u64 {
        self.watcher.visits()
    }
}

impl ClauseStore for WatchStore {
    ghost clauses = { λ s. s.clauses };

    ghost assigned = { λ s. s.trail };

    fn add(&mut self, clause: Clause) -> Result<usize, AllocError> {
        let id = self.clauses.len();
        self.watcher.begin(id)?;
        self.clauses.push(clause)?;
        Ok(id)
    }

    fn assign(&mut self, lit: Lit) -> Result<(), AllocError> {
        self.trail.push(lit)?;
        Ok(())
    }

    fn cut_to(&mut self, count: usize) {
        self.watcher.cut_to(count);
        self.trail.cut_to(count);
    }

    fn next(&mut self) -> Result<Seen, AllocError> {
        let seen = self.watcher.next(&self.clauses, &self.trail)?;
        Ok(seen)
    }

    fn clause(&self, id: usize) -> &Clause {
        self.clauses.get(id)
    }
}

/// Of the same clauses and literals no two answers differ in whether they name a clause: where one call of `next` says
/// Nothing, so does a later one without an `add`, an `assign` or a `cut_to` between them.
pub fn nothing_is_said_twice()
    ensures { (clauses : List (List ℕ)) (assigned : List ℕ) (one two : Seen) → IsSeen clauses assigned one → IsSeen clauses assigned two → names_clause one ≡ names_clause two }
{}
