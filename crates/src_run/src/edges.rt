//! Edges: which loops they close, enter and go round again.
ghost use Rattle.std.specs.Prelude.{◌≡◌, ◌<◌, ◌≤◌, ◌+◌, ◌-◌, ◌/◌, ℕ, List, [], ◌∷◌, IfOk, IsTrue, length, slice_get};
ghost use Rattle.src_prog.specs.Loops.{are_nested};
ghost use Rattle.src_run.specs.Edges as spec;
ghost use Rattle.src_run.specs.Machine as machine;
ghost use Rattle.src_run.specs.Machine.{Config, Frame};
ghost use Rattle.src_run.specs.State.{StepsTo, callers_of, config_of, laps_of, top_of};

use crate::machine::Status;
use crate::state::{OpenLoop, State, Step};
use sqlite_items::{Items, at};
use src_prog::{Prog, SrcLoop};
use std::alloc::{AllocError, Global};

/// Where an edge leads, seen from the innermost loop that stays open.
#[derive(Clone, Copy)]
pub enum Landing {
    /// No loop stays open.
    Outside,
    /// To the head of this loop again.
    Again(OpenLoop),
    /// Into a loop inside this one, with this exit.
    Entering(OpenLoop, u32),
    /// To a block of this loop, in no loop inside it.
    Within(OpenLoop),
}

// Whether there is a loop at a place, with its head below a block.
fn is_below(loops: &[SrcLoop], place: usize, to: u32) -> bool
    ensures { result ≡ spec.is_below to (slice_get loops.now place) }
{
    match at(loops, place) {
        Some(found) => found.head < to,
        None => false,
    }
}

// The place of the first loop whose head is not below a block. The loops ascend by head.
fn place_of(loops: &[SrcLoop], to: u32) -> usize
    requires { IsTrue (are_nested loops.now) }
    ensures { machine.entry_of loops.now to ≡ spec.entry_at to (slice_get loops.now result) }
{
    let mut low = 0;
    let mut high = loops.len();
    while low < high {
        let middle = low + (high - low) / 2;
        if is_below(loops, middle, to) {
            low = middle + 1;
        } else {
            high = middle;
        }
    }
    low
}

// The exit of the loop that an edge to a block enters, if it is the head of one.
fn entered(loops: &[SrcLoop], to: u32) -> Option<u32>
    requires { IsTrue (are_nested loops.now) }
    ensures { spec.entry_is loops.now to result }
{
    match at(loops, place_of(loops, to)) {
        Some(found) => {
            if found.head == to {
                return Some(found.exit);
            }
            None
        }
        None => None,
    }
}

// Where an edge to a block leads from this loop, or None where it leads out of it.
fn seen_from(loops: &[SrcLoop], lap: OpenLoop, to: u32) -> Option<Landing>
    requires { IsTrue (are_nested loops.now) }
    ensures { spec.LandsBy loops.now lap to result }
{
    if lap.head == to {
        return Some(Landing::Again(lap));
    }
    if lap.head < to && to < lap.exit {
        return match entered(loops, to) {
            Some(exit) => Some(Landing::Entering(lap, exit)),
            None => Some(Landing::Within(lap)),
        };
    }
    None
}

#[tactic(auto, using(crate::proofs::Stacked::laps_push))]
// Closes the loops that an edge to a block leaves, and takes out the innermost one that stays open.
fn close_left(loops: &[SrcLoop], to: u32, laps: &mut Items<OpenLoop>) -> Landing
    requires { IsTrue (are_nested loops.now) }
    ensures { spec.ClosesTo loops.now to laps.old laps.new result }
{
    while let Some(lap) = laps.pop() {
        if let Some(found) = seen_from(loops, lap, to) {
            return found;
        }
    }
    Landing::Outside
}

// Opens a loop anew.
#[tactic(auto, using(crate::proofs::Stacked::laps_push))]
fn enter(laps: &mut Items<OpenLoop>, head: u32, exit: u32) -> Result<(), AllocError>
    ensures { IfOk result (λ _. laps_of laps.new ≡ record { head = head; exit = exit; count = 0 } ∷ laps_of laps.old) }
{
    laps.push(OpenLoop {
        head,
        exit,
        count: 0,
    })
}

#[tactic(auto, using(crate::proofs::Stacked::laps_push))]
// The loops that are open behind an edge; false where it is a back edge above the bound.
fn reopen(
    loops: &[SrcLoop],
    bound: u32,
    to: u32,
    landing: Landing,
    laps: &mut Items<OpenLoop>,
) -> Result<bool, AllocError>
    requires { IsTrue (are_nested loops.now) }
    ensures { IfOk result (λ within. spec.Reopens loops.now bound to landing laps.old laps.new within) }
{
    match landing {
        Landing::Outside => {
            if let Some(exit) = entered(loops, to) {
                enter(laps, to, exit)?;
            }
        }
        Landing::Again(lap) => {
            if lap.count >= bound {
                return Ok(false);
            }
            laps.push(OpenLoop {
                head: lap.head,
                exit: lap.exit,
                count: lap.count + 1,
            })?;
        }
        Landing::Entering(lap, exit) => {
            laps.push(lap)?;
            enter(laps, to, exit)?;
        }
        Landing::Within(lap) => laps.push(lap)?,
    }
    Ok(true)
}

// Takes an edge of a procedure with these loops.
fn arrive(
    alloc: Global,
    loops: &[SrcLoop],
    bound: u32,
    to: u32,
    state: &mut State,
) -> Result<Step, AllocError>
    requires { IsTrue (are_nested loops.now) }
    ensures { IfOk result (λ step. StepsTo step state.new (machine.arrive loops.now bound (config_of state.old) (top_of state.old) (callers_of state.old) to (laps_of state.old.place.laps))) }
{
    let landing = close_left(loops, to, &mut state.place.laps);
    if !reopen(loops, bound, to, landing, &mut state.place.laps)? {
        return Ok(Step::Over(Status::Cut));
    }
    state.place.block = to;
    state.place.at = 0;
    state.wants = Items::new(alloc);
    state.given = 0;
    Ok(Step::On)
}

/// Takes an edge to a block of the innermost frame's procedure: it closes the loops that do not hold the block, and a back edge
/// above the bound cuts the run.
pub fn jump(
    alloc: Global,
    prog: &Prog,
    bound: u32,
    to: u32,
    state: &mut State,
) -> Result<Step, AllocError>
    ensures { IfOk result (λ step. StepsTo step state.new (machine.jump prog.now bound (config_of state.old) (top_of state.old) (callers_of state.old) to)) }
{
    let _consts = prog.consts();
    match at(prog.procs(), state.place.proc as usize) {
        Some(proc) => arrive(alloc, proc.loops.as_slice(), bound, to, state),
        None => arrive(alloc, &[], bound, to, state),
    }
}
