//! The store on chains of implications, on clauses that are added late, and on odd clauses.
ghost use Rattle.std.specs.Prelude.{◌≡◌, ◌^◌, ◌<◌, [], IfOk, OnOk};

use cnf_form::{Clause, ClauseStore, Lit, Seen, Trail};
use sat_watch::WatchStore;
use std::alloc::{AllocError, Global};
use std::process::Abort;
use std::test::Fail;

/// How many implications a chain has.
const LINKS: usize = 9999;

/// Adds the clause `not x(k) or x(k+1)`.
fn link(alloc: Global, store: &mut WatchStore, k: usize) -> Result<(), AllocError>
    requires { k < 2 ^ 62 }
    ensures { store.new.trail ≡ store.old.trail }
{
    let clause = Clause::from_slice(alloc, &[Lit::negative(k), Lit::positive(k + 1)])?;
    store.add(clause)?;
    Ok(())
}

/// The chain, from its first link on.
fn rising_chain(alloc: Global) -> Result<WatchStore, AllocError>
    ensures { IfOk result (λ s. s.trail ≡ []) }
{
    let mut store = WatchStore::new(alloc)?;
    for k in 0..LINKS {
        link(alloc, &mut store, k)?;
    }
    Ok(store)
}

/// The chain, from its last link on.
fn falling_chain(alloc: Global) -> Result<WatchStore, AllocError>
    ensures { IfOk result (λ s. s.trail ≡ []) }
{
    let mut store = WatchStore::new(alloc)?;
    for k in (0..LINKS).rev() {
        link(alloc, &mut store, k)?;
    }
    Ok(store)
}

/// Assigns what clauses force, at most so many times. Answers how many literals that made true that aren't negated.
fn propagate(store: &mut WatchStore, most: usize) -> Result<usize, AllocError> {
    let mut count = 0;
    for _ in 0..most {
        match store.next()? {
            Seen::Unit { lit, clause: _ } => {
                store.assign(lit)?;
                if !lit.is_negated() {
                    count += 1;
                }
            }
            Seen::Falsified { clause: _ } => return Ok(count),
            Seen::Nothing => return Ok(count),
        }
    }
    Ok(count)
}

/// Makes the first variable true: then all are.
fn walk_chain(rt: &impl Abort, mut store: WatchStore) -> Result<(), Fail>
    requires { store.trail ≡ [] }
{
    store.assign(Lit::positive(0))?;
    assert_eq!(rt; propagate(&mut store, LINKS)?, LINKS);
    assert_eq!(rt; store.next()?, Seen::Nothing);
    assert!(rt; store.visits() <= 100000, "{}", store.visits());
    Ok(())
}

#[test]
fn a_chain_is_walked_in_the_time_of_its_length(rt: HostRuntime) -> Result<(), Fail> {
    walk_chain(&rt, rising_chain(rt.alloc())?)?;
    walk_chain(&rt, falling_chain(rt.alloc())?)?;
    Ok(())
}

/// A call of the store, and what it is to answer.
#[derive(Clone, Copy)]
enum Step {
    /// Adds the clause of this number of a table.
    Add(usize),
    /// Assigns the literal of this code.
    Assign(usize),
    /// Keeps so many literals.
    Cut(usize),
    /// The next answer is that the literal of this code is forced by the clause of this number.
    Unit(usize, usize),
    /// The next answer is that the clause of this number is false.
    Falsified(usize),
    /// The next answer is Nothing.
    Nothing,
}

/// The clause of the literals of these codes.
fn clause_of(alloc: Global, codes: &[usize]) -> Result<Clause, AllocError> {
    let mut clause = Clause::new(alloc);
    for code in codes {
        clause.push(Lit::new(*code))?;
    }
    Ok(clause)
}

/// Assigns the literal, unless its variable isn't free.
fn assign(store: &mut WatchStore, trail: &mut Trail, lit: Lit) -> Result<(), AllocError>
    requires { store.old.trail ≡ trail.old }
    ensures { OnOk result (store.new.trail ≡ trail.new) }
{
    if trail.is_true(lit) || trail.is_true(lit.negated()) {
        return Ok(());
    }
    store.assign(lit)?;
    trail.push(lit)?;
    Ok(())
}

/// Takes one step. The trail has the literals that are assigned.
fn take_step(
    rt: &impl Abort,
    alloc: Global,
    store: &mut WatchStore,
    trail: &mut Trail,
    clauses: &[&[usize]],
    step: Step,
) -> Result<(), Fail>
    requires { store.old.trail ≡ trail.old }
    ensures { OnOk result (store.new.trail ≡ trail.new) }
{
    match step {
        Step::Add(number) => {
            assert!(rt; number < clauses.len());
            let clause = clause_of(alloc, clauses[number])?;
            store.add(clause)?;
        }
        Step::Assign(code) => assign(store, trail, Lit::new(code))?,
        Step::Cut(count) => {
            store.cut_to(count);
            trail.cut_to(count);
        }
        Step::Unit(code, clause) => {
            let lit = Lit::new(code);
            assert_eq!(rt; store.next()?, Seen::Unit { lit, clause });
        }
        Step::Falsified(clause) => {
            assert_eq!(rt; store.next()?, Seen::Falsified { clause });
        }
        Step::Nothing => {
            assert_eq!(rt; store.next()?, Seen::Nothing);
        }
    }
    Ok(())
}

/// Takes the steps, from a store with no clause and no literal.
fn take_steps(
    rt: &impl Abort,
    alloc: Global,
    clauses: &[&[usize]],
    steps: &[Step],
) -> Result<(), Fail> {
    let mut store = WatchStore::new(alloc)?;
    let mut trail = Trail::new(alloc);
    for step in steps {
        take_step(rt, alloc, &mut store, &mut trail, clauses, *step)?;
    }
    Ok(())
}

/// `not x or y`, added where x is true; the codes of x and y are 0 and 2.
const LATE: &[Step] = &[
    Step::Assign(0),
    Step::Nothing,
    Step::Add(0),
    Step::Unit(2, 0),
    Step::Unit(2, 0),
    Step::Assign(3),
    Step::Falsified(0),
    Step::Cut(1),
    Step::Unit(2, 0),
    Step::Assign(2),
    Step::Nothing,
    Step::Cut(0),
    Step::Nothing,
    Step::Assign(3),
    Step::Unit(1, 0),
];

#[test]
fn a_late_clause_is_unit_and_then_false(rt: HostRuntime) -> Result<(), Fail> {
    take_steps(&rt, rt.alloc(), &[&[1, 2]], LATE)
}

/// `x or y or z` watches two literals that aren't false.
const MOVES: &[Step] = &[
    Step::Add(0),
    Step::Nothing,
    Step::Assign(1),
    Step::Nothing,
    Step::Assign(5),
    Step::Unit(2, 0),
    Step::Cut(1),
    Step::Nothing,
    Step::Assign(3),
    Step::Unit(4, 0),
    Step::Cut(0),
    Step::Assign(5),
    Step::Assign(3),
    Step::Unit(0, 0),
];

#[test]
fn a_watch_moves_to_a_free_literal(rt: HostRuntime) -> Result<(), Fail> {
    take_steps(&rt, rt.alloc(), &[&[0, 2, 4]], MOVES)
}

/// The empty clause is false whatever is assigned.
const EMPTY: &[Step] = &[
    Step::Add(0),
    Step::Falsified(0),
    Step::Assign(0),
    Step::Falsified(0),
    Step::Cut(0),
    Step::Falsified(0),
];

#[test]
fn an_empty_clause_is_false(rt: HostRuntime) -> Result<(), Fail> {
    take_steps(&rt, rt.alloc(), &[&[]], EMPTY)
}

/// `y or not y`, `x or x`, and then `not x or y or not x or y`.
const TWICE: &[Step] = &[
    Step::Add(0),
    Step::Add(1),
    Step::Unit(0, 1),
    Step::Assign(0),
    Step::Nothing,
    Step::Add(2),
    Step::Unit(2, 2),
    Step::Cut(0),
    Step::Assign(1),
    Step::Falsified(1),
];

#[test]
fn literals_that_stand_twice_count_once(rt: HostRuntime) -> Result<(), Fail> {
    take_steps(&rt, rt.alloc(), &[&[2, 3], &[0, 0], &[1, 2, 1, 2]], TWICE)
}
