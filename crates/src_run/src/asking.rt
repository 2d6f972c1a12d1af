//! A whole run: its status, and which variable takes each of its choices.
ghost use Rattle.std.specs.Prelude.{◌≡◌, ◌<◌, ◌≤◌, ◌+◌, ◌++◌, ◌∷◌, [], ℕ, drop, length, option_map, slice_get, IfOk, IsTrue, OnOk};
ghost use Rattle.std.specs.Option.{option_copied};
ghost use Rattle.src_prog.specs.Shape.{is_program};
ghost use Rattle.src_run.specs.Machine.{Config, begin};
ghost use Rattle.src_run.specs.Names as spec;
ghost use Rattle.src_run.specs.Names.{HasNames};
ghost use Rattle.src_run.specs.Whole.{IsRun, IsRunFrom};
ghost use Rattle.src_run.specs.Sorted.{AreSorted};
ghost use Rattle.src_run.specs.State.{callers_of, config_of, top_of, want_of};

use crate::machine::{Choice, Status};
use crate::replaying::{Begun, Onward, begin, ending, turn};
use crate::state::{Asked, State};
use crate::stepping::local_at;
use hy_val::Var;
use sqlite_items::{Items, at};
use src_prog::{Named, Prog};
use std::alloc::{AllocError, Global};

// The name, where there is one.
fn name_of(alloc: Global, named: Option<&Named>) -> Result<Option<Items<u8>>, AllocError>
    ensures { IfOk result (λ name. name ≡ option_map (λ n. n.name) (option_copied named.entry)) }
{
    match named {
        Some(found) => Ok(Some(Items::from_slice(alloc, found.name.as_slice())?)),
        None => Ok(None),
    }
}

// The local of this number of the innermost frame.
fn local_of<'a>(prog: &'a Prog, state: &State, number: usize) -> Option<&'a Named>
    ensures { option_map (λ n. n.name) (option_copied result) ≡ spec.local_name prog.now (top_of state.now ∷ callers_of state.now) number }
{
    match at(prog.procs(), state.place.proc as usize) {
        Some(proc) => local_at(proc, number),
        None => None,
    }
}

// The variable that a command writes.
fn variable_of<'a>(prog: &'a Prog, state: &State, var: Var) -> Option<&'a Named>
    ensures { option_map (λ n. n.name) (option_copied result) ≡ spec.variable_name prog.now (top_of state.now ∷ callers_of state.now) var }
{
    match var {
        Var::Const(number) => at(prog.consts(), number as usize),
        Var::Global(number) => at(prog.globals(), number as usize),
        Var::Local(number) => local_of(prog, state, number as usize),
    }
}

// The variable that takes what is asked for. A target has none.
fn asked_of<'a>(prog: &'a Prog, state: &State, asked: &Asked) -> Option<&'a Named>
    ensures { option_map (λ n. n.name) (option_copied result) ≡ spec.name_of prog.now (config_of state.now) (want_of asked.now) }
{
    match asked {
        Asked::Const(_) => at(prog.consts(), state.env.consts.len()),
        Asked::Global(_) => at(prog.globals(), state.env.globals.len()),
        Asked::Local(_) => local_of(prog, state, state.env.locals.len()),
        Asked::Variable(var, _) => variable_of(prog, state, *var),
        Asked::Target(_) => None,
    }
}

// Adds the name of the variable that takes the choice at an index in the next turn, if that takes it.
fn name_turn(
    alloc: Global,
    prog: &Prog,
    state: &State,
    index: usize,
    choices: &[Choice],
    names: &mut Items<Option<Items<u8>>>,
) -> Result<(), AllocError>
    ensures { OnOk result (names.new ≡ names.old ++ spec.turn_names prog.now (config_of state.now) (config_of state.now).status (drop index choices.now)) }
{
    if index >= choices.len() {
        return Ok(());
    }
    match at(state.wants.as_slice(), state.given) {
        Some(asked) => {
            let name = name_of(alloc, asked_of(prog, state, asked))?;
            names.push(name)
        }
        None => Ok(()),
    }
}

/// A run on a list of choices.
#[derive(Drop)]
pub struct Run {
    /// Where it stands after all choices.
    pub status: Status,
    /// Per choice the bytes of the name of the variable that takes it, or None for a target.
    pub names: Items<Option<Items<u8>>>,
}

// The run from a state until it stands.
fn run_on(
    alloc: Global,
    prog: &Prog,
    bound: u32,
    choices: &[Choice],
    mut state: State,
) -> Result<Run, AllocError>
    requires sorted { AreSorted prog.now (config_of state) }
    requires begins { config_of state ≡ begin prog.now state.place.proc }
    ensures { IfOk result (λ run. IsRunFrom prog.now bound (config_of state) choices.now run) }
{
    let mut names = Items::new(alloc);
    let _consts = prog.consts();
    let mut index = 0;
    loop {
        name_turn(alloc, prog, &state, index, choices, &mut names)?;
        match turn(alloc, prog, bound, index, choices, &mut state)? {
            Onward::On(next) => index = next,
            Onward::Over(status) => return Ok(Run { status, names }),
        }
    }
}

/// The entry's run on a list of choices: its only status, as `replay` gives it, and the names, as `asked` gives them, in one
/// walk.
/// `AllocError` comes as in `replay`.
pub fn whole_run(
    alloc: Global,
    prog: &Prog,
    entry: u32,
    bound: u32,
    choices: &[Choice],
) -> Result<Run, AllocError>
    requires { entry < length prog.now.procs }
    ensures { IfOk result (λ run. IsRun prog.now entry bound choices.now run) }
{
    match begin(alloc, prog, entry)? {
        Begun::Going(state) => run_on(alloc, prog, bound, choices, state),
        Begun::Over(status) => Ok(Run {
            status: ending(status, 0, choices),
            names: Items::new(alloc),
        }),
    }
}

/// Per choice of the entry's run the bytes of the name of the variable that takes it: a constant, a global, a local of the
/// frame that is innermost then, in the order in which they are declared, or the variable of a `havoc`; None for a target.
/// Where a choice is bad, the names end with what it was asked for, and without it where it comes behind the run's end.
///
/// It takes the time of `replay`, and memory for the frames that are open and for the names. `AllocError` comes as there.
pub fn asked(
    alloc: Global,
    prog: &Prog,
    entry: u32,
    bound: u32,
    choices: &[Choice],
) -> Result<Items<Option<Items<u8>>>, AllocError>
    requires { entry < length prog.now.procs }
    ensures { IfOk result (λ names. HasNames prog.now entry bound choices.now names) }
{
    let run = whole_run(alloc, prog, entry, bound, choices)?;
    Ok(run.names)
}
