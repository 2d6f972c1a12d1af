//! Where a run is while it goes on: the values that commands see, the frames, and what is asked for.
ghost use Rattle.std.specs.Prelude.{◌≡◌, ◌+◌, ℕ, length};
ghost use Rattle.src_run.specs.Machine as machine;
ghost use Rattle.src_run.specs.State as spec;

use crate::machine::Status;
use hy_val::{Env, Sort, Value, Var};
use sqlite_items::Items;

/// A loop that is open in a frame: its head, its exit, and the back edges taken since it was entered.
#[derive(Clone, Copy)]
pub struct OpenLoop {
    pub head: u32,
    pub exit: u32,
    pub count: u32,
}

/// What a choice is asked for.
#[derive(Drop)]
pub enum Asked {
    /// The value of the next constant, of this sort.
    Const(Sort),
    /// The value of the next global.
    Global(Sort),
    /// The value of the next local of the innermost frame.
    Local(Sort),
    /// A new value of a variable, where it is a target.
    Variable(Var, Option<Sort>),
    /// One of these blocks.
    Target(Items<u32>),
}

/// Where an open procedure is: its number, its block, the position of the next command there, its open loops, innermost last,
/// and the variables of its caller that take its outs.
#[derive(Drop)]
pub struct Place {
    pub proc: u32,
    pub block: u32,
    pub at: usize,
    pub laps: Items<OpenLoop>,
    pub outs: Items<Var>,
}

/// An open procedure that has called another: where it goes on, and the values of its locals.
#[derive(Drop)]
pub struct Caller {
    pub place: Place,
    pub locals: Items<Value>,
}

/// A run that goes on: the values of the constants, of the globals and of the innermost frame's locals, where that frame is,
/// its callers, innermost last, and what is asked for, of which so much is given already.
#[derive(Drop)]
pub struct State {
    pub env: Env,
    pub place: Place,
    pub callers: Items<Caller>,
    pub wants: Items<Asked>,
    pub given: usize,
}

/// What a step leads to.
#[derive(Clone, Copy)]
pub enum Step {
    /// The run goes on from the state.
    On,
    /// The run stands with this status.
    Over(Status),
}
