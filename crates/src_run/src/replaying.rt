//! Replay: the machine on a list of choices.
ghost use Rattle.std.specs.Prelude.{◌≡◌, ◌<◌, ◌≤◌, ◌+◌, ◌++◌, ℕ, drop, length, map, IfOk, IsTrue, OnOk};
ghost use Rattle.src_prog.specs.Scope.{sorts_of};
ghost use Rattle.src_prog.specs.Shape.{is_program};
ghost use Rattle.src_run.specs.Machine as machine;
ghost use Rattle.src_run.specs.Machine.{AConst, AGlobal, Comes, HasStatus};
ghost use Rattle.src_run.specs.Replaying as spec;
ghost use Rattle.src_run.specs.Sorted.{AreSorted};
ghost use Rattle.src_run.specs.State.{IsOver, config_of, want_of};

use crate::choosing::{take_choice, tested};
use crate::machine::{Choice, Status};
use crate::state::{Asked, Place, State, Step};
use crate::stepping::{ask_locals, tick};
use hy_val::Env;
use sqlite_items::Items;
use src_prog::{Named, Prog, SrcProc};
use std::alloc::{AllocError, Global};

// What is asked for first: a value of each constant, of each global, and of each local of the entry.
fn first_wants(alloc: Global, prog: &Prog, proc: &SrcProc) -> Result<Items<Asked>, AllocError>
    ensures { IfOk result (λ ws. map want_of ws ≡ machine.wants_of prog.now proc.now) }
{
    let mut wants = Items::new(alloc);
    ask_consts(&mut wants, prog.consts())?;
    ask_globals(&mut wants, prog.globals())?;
    ask_locals(&mut wants, proc.ins.as_slice())?;
    ask_locals(&mut wants, proc.outs.as_slice())?;
    ask_locals(&mut wants, proc.locals.as_slice())?;
    Ok(wants)
}

// Asks for a value of each of these constants too.
fn ask_consts(wants: &mut Items<Asked>, names: &[Named]) -> Result<(), AllocError>
    ensures { OnOk result (map want_of wants.new ≡ map want_of wants.old ++ map AConst (sorts_of names.now)) }
{
    for name in names {
        wants.push(Asked::Const(name.sort))?;
    }
    Ok(())
}

// Asks for a value of each of these globals too.
fn ask_globals(wants: &mut Items<Asked>, names: &[Named]) -> Result<(), AllocError>
    ensures { OnOk result (map want_of wants.new ≡ map want_of wants.old ++ map AGlobal (sorts_of names.now)) }
{
    for name in names {
        wants.push(Asked::Global(name.sort))?;
    }
    Ok(())
}

// The entry at its first command, before any choice.
fn first_state(alloc: Global, prog: &Prog, entry: u32, proc: &SrcProc) -> Result<State, AllocError>
    ensures { IfOk result (λ s. config_of s ≡ spec.first prog.now entry proc.now) }
{
    let wants = first_wants(alloc, prog, proc)?;
    Ok(State {
        env: Env {
            consts: Items::new(alloc),
            globals: Items::new(alloc),
            locals: Items::new(alloc),
        },
        place: Place {
            proc: entry,
            block: 0,
            at: 0,
            laps: Items::new(alloc),
            outs: Items::new(alloc),
        },
        callers: Items::new(alloc),
        wants,
        given: 0,
    })
}

/// How a run begins.
#[derive(Drop)]
pub enum Begun {
    /// It goes on from this state.
    Going(State),
    /// It stands with this status.
    Over(Status),
}

/// Where a turn leads.
#[derive(Clone, Copy)]
pub enum Onward {
    /// The run goes on, and the next choice has this index.
    On(usize),
    /// The run stands with this status.
    Over(Status),
}

// Whether a choice is bad.
fn is_bad(status: Status) -> bool
    ensures { result ≡ spec.is_bad status }
{
    match status {
        Status::BadChoice { index: _ } => true,
        Status::Going => false,
        Status::Ended => false,
        Status::Failed { proc: _, assert: _ } => false,
        Status::Blocked => false,
        Status::Cut => false,
    }
}

/// The status of a run that is over, where the next choice would have this index: a choice that is left is a bad one.
#[tactic(auto, using(crate::proofs::Replays::is_left, crate::proofs::Replays::none_left))]
pub fn ending(status: Status, index: usize, choices: &[Choice]) -> Status
    ensures { result ≡ spec.ending status index (drop index choices.now) }
{
    if is_bad(status) {
        return status;
    }
    if index < choices.len() {
        return Status::BadChoice { index };
    }
    status
}

// What a step leads to, where the next choice has this index.
fn behind(step: Step, index: usize, choices: &[Choice]) -> Onward
    requires { spec.IsStep step }
    ensures { result ≡ spec.behind step index choices.now }
{
    match step {
        Step::On => Onward::On(index),
        Step::Over(status) => Onward::Over(ending(status, index, choices)),
    }
}

/// The begin of the entry's run.
pub fn begin(alloc: Global, prog: &Prog, entry: u32) -> Result<Begun, AllocError>
    requires { entry < length prog.now.procs }
    ensures { IfOk result (λ begun. spec.BeginsAs prog.now entry begun) }
{
    let _consts = prog.consts();
    let mut state = first_state(alloc, prog, entry, &prog.procs()[entry as usize])?;
    match tested(alloc, prog, &mut state)? {
        Step::On => Ok(Begun::Going(state)),
        Step::Over(status) => Ok(Begun::Over(status)),
    }
}

/// One turn of a run: a step where nothing is asked for, else the next choice, if there is one.
pub fn turn(
    alloc: Global,
    prog: &Prog,
    bound: u32,
    index: usize,
    choices: &[Choice],
    state: &mut State,
) -> Result<Onward, AllocError>
    requires sorted { AreSorted prog.now (config_of state.old) }
    requires within { index ≤ length choices.now }
    ensures { IfOk result (λ t. spec.TurnsTo prog.now bound index choices.now (config_of state.old) (config_of state.new) t) }
{
    let _consts = prog.consts();
    if state.given >= state.wants.len() {
        let step = tick(alloc, prog, bound, state)?;
        return Ok(behind(step, index, choices));
    }
    if index >= choices.len() {
        return Ok(Onward::Over(Status::Going));
    }
    let step = take_choice(alloc, prog, bound, index, &choices[index], state)?;
    Ok(behind(step, index + 1, choices))
}

// Goes on from a state until the run stands.
fn run_on(
    alloc: Global,
    prog: &Prog,
    bound: u32,
    choices: &[Choice],
    mut state: State,
) -> Result<Status, AllocError>
    requires sorted { AreSorted prog.now (config_of state) }
    requires begins { config_of state ≡ machine.begin prog.now state.place.proc }
    ensures { IfOk result (λ s. Comes prog.now bound 0 (config_of state) choices.now s) }
{
    let _consts = prog.consts();
    let mut index = 0;
    loop {
        match turn(alloc, prog, bound, index, choices, &mut state)? {
            Onward::On(next) => index = next,
            Onward::Over(status) => return Ok(status),
        }
    }
}

/// The status of the entry's run after all choices, with at most so many frames of each procedure open, and so many back edges
/// of a loop taken each time that it is entered. BadChoice names the first choice that isn't of the kind or the sort that is
/// asked for, names no target, or comes behind the run's end (This is Boogie 2, commands; the choices and the bound are this
/// project's own).
///
/// It takes time for each command that the run passes, and memory for the frames that are open. `AllocError` comes where memory
/// runs out. It ends with the run, whose turns are known to be finitely many.
pub fn replay(
    alloc: Global,
    prog: &Prog,
    entry: u32,
    bound: u32,
    choices: &[Choice],
) -> Result<Status, AllocError>
    requires { entry < length prog.now.procs }
    ensures { IfOk result (λ status. HasStatus prog.now entry bound choices.now status) }
{
    match begin(alloc, prog, entry)? {
        Begun::Going(state) => run_on(alloc, prog, bound, choices, state),
        Begun::Over(status) => Ok(ending(status, 0, choices)),
    }
}
