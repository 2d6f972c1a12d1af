//! Choices: whether one is what is asked for, and what taking it does.
ghost use Rattle.std.specs.Prelude.{◌≡◌, ◌<◌, ◌+◌, ◌++◌, ◌∷◌, [], ℕ, drop, length, map, not, true, false, IfOk, IsTrue, slice_get, Some, List};
ghost use Rattle.std.specs.List.{list_all};
ghost use Rattle.hy_val.specs.Exprs.{reads};
ghost use Rattle.hy_val.specs.Values.{at as value_at};
ghost use Rattle.src_run.specs.Choosing as spec;
ghost use Rattle.hy_val.specs.declared.atom.AtomKind.{AtomKind};
ghost use Rattle.hy_val.specs.Stores as stores;
ghost use Rattle.src_run.specs.Machine as machine;
ghost use Rattle.src_run.specs.Machine.{Want};
ghost use Rattle.src_run.specs.State.{StepsTo, config_of, want_of};

use crate::edges::jump;
use crate::machine::{Choice, Status};
use crate::running::{is_true, write};
use crate::state::{Asked, State, Step};
use crate::uniques::all_differ;
use hy_val::{Env, Expr, Value, Var};
use sqlite_items::{Items, at};
use src_prog::Prog;
use std::alloc::{AllocError, Global};
use std::mem;

/// What is taken by a choice that is what is asked for.
#[derive(Drop)]
pub enum Taken {
    /// The value of the next constant.
    Const(Value),
    /// The value of the next global.
    Global(Value),
    /// The value of the next local of the innermost frame.
    Local(Value),
    /// A new value of a variable.
    Variable(Var, Value),
    /// The block to which the run goes.
    To(u32),
}

// What a value is taken for, where it has the sort that is asked for.
fn taken_value(alloc: Global, asked: &Asked, value: &Value) -> Result<Option<Taken>, AllocError>
    ensures { IfOk result (λ taken. spec.TakenFor (want_of asked.now) (Choice.Val value.now) taken) }
{
    match asked {
        Asked::Const(sort) if value.has_sort(*sort) => Ok(Some(Taken::Const(value.copy(alloc)?))),
        Asked::Global(sort) if value.has_sort(*sort) => Ok(Some(Taken::Global(value.copy(alloc)?))),
        Asked::Local(sort) if value.has_sort(*sort) => Ok(Some(Taken::Local(value.copy(alloc)?))),
        Asked::Variable(var, Some(sort)) if value.has_sort(*sort) => {
            Ok(Some(Taken::Variable(*var, value.copy(alloc)?)))
        }
        _ => Ok(None),
    }
}

// The target at a place, where a target is asked for.
fn taken_target(asked: &Asked, place: u32) -> Option<Taken>
    ensures { spec.TakenFor (want_of asked.now) (Choice.Go place) result }
{
    match asked {
        Asked::Target(targets) => match at(targets.as_slice(), place as usize) {
            Some(to) => Some(Taken::To(*to)),
            None => None,
        },
        _ => None,
    }
}

// What a choice is taken for. None where it isn't what is asked for.
fn taken_for(alloc: Global, asked: &Asked, choice: &Choice) -> Result<Option<Taken>, AllocError>
    ensures { IfOk result (λ taken. spec.TakenFor (want_of asked.now) choice.now taken) }
{
    match choice {
        Choice::Val(value) => taken_value(alloc, asked, value),
        Choice::Go(place) => Ok(taken_target(asked, *place)),
    }
}

// Whether all conditions are true.
fn all_hold(alloc: Global, conditions: &[Expr], env: &Env) -> Result<bool, AllocError>
    requires { IsTrue (list_all (reads env.now) conditions.now) }
    ensures { IfOk result (λ b. b ≡ list_all (stores.holds env.now) conditions.now) }
{
    for condition in conditions {
        if !is_true(alloc, condition, env)? {
            return Ok(false);
        }
    }
    Ok(true)
}

// Whether the unique constants differ and the axioms are true.
fn allows(alloc: Global, prog: &Prog, env: &Env) -> Result<bool, AllocError>
    requires alone { env.now ≡ spec.constants env.now.consts }
    requires reads { IsTrue (list_all (reads (spec.constants env.now.consts)) prog.now.axioms) }
    ensures { IfOk result (λ b. b ≡ machine.are_allowed prog.now env.now.consts) }
{
    if !all_differ(alloc, env.consts.as_slice(), prog.uniques())? {
        return Ok(false);
    }
    all_hold(alloc, prog.axioms(), env)
}

// Whether the constants are allowed. They are lent to an environment of their own meanwhile.
fn are_allowed(alloc: Global, prog: &Prog, state: &mut State) -> Result<bool, AllocError>
    requires { IsTrue (list_all (reads (spec.constants state.old.env.consts)) prog.now.axioms) }
    ensures { IfOk result (λ b. (b ≡ machine.are_allowed prog.now state.old.env.consts) × (state.new ≡ state.old)) }
{
    let consts = mem::replace(&mut state.env.consts, Items::new(alloc));
    let env = Env {
        consts,
        globals: Items::new(alloc),
        locals: Items::new(alloc),
    };
    let allowed = allows(alloc, prog, &env)?;
    let Env {
        consts,
        globals: _,
        locals: _,
    } = env;
    state.env.consts = consts;
    Ok(allowed)
}

// Whether the value of a constant is asked for.
fn is_const(asked: &Asked) -> bool
    ensures { result ≡ spec.is_const (want_of asked.now) }
{
    match asked {
        Asked::Const(_) => true,
        Asked::Global(_) => false,
        Asked::Local(_) => false,
        Asked::Variable(_, _) => false,
        Asked::Target(_) => false,
    }
}

// Whether the value of a constant is asked for next.
fn asks_const(state: &State) -> bool
    ensures { result ≡ spec.asks_const (config_of state.now).wants }
{
    match at(state.wants.as_slice(), state.given) {
        Some(asked) => is_const(asked),
        None => false,
    }
}

/// Blocks the run where the constants are all there and aren't allowed.
pub fn tested(alloc: Global, prog: &Prog, state: &mut State) -> Result<Step, AllocError>
    requires { spec.CanTest prog.now (config_of state.old) }
    ensures { IfOk result (λ step. StepsTo step state.new (machine.tested prog.now (config_of state.old) (config_of state.old).wants)) }
{
    if asks_const(state) || are_allowed(alloc, prog, state)? {
        return Ok(Step::On);
    }
    Ok(Step::Over(Status::Blocked))
}

// Goes on with what is taken, so that the next to be given is this one.
fn accept(
    alloc: Global,
    prog: &Prog,
    bound: u32,
    taken: Taken,
    next: usize,
    state: &mut State,
) -> Result<Step, AllocError>
    requires { spec.CanAccept prog.now (config_of state.old) (map want_of (drop next state.old.wants)) taken }
    ensures { IfOk result (λ step. StepsTo step state.new (spec.took prog.now bound (config_of state.old) (map want_of (drop next state.old.wants)) taken)) }
{
    match taken {
        Taken::Const(value) => {
            state.env.consts.push(value)?;
            state.given = next;
            tested(alloc, prog, state)
        }
        Taken::Global(value) => {
            state.env.globals.push(value)?;
            state.given = next;
            Ok(Step::On)
        }
        Taken::Local(value) => {
            state.env.locals.push(value)?;
            state.given = next;
            Ok(Step::On)
        }
        Taken::Variable(var, value) => {
            write(&mut state.env, var, value);
            state.given = next;
            Ok(Step::On)
        }
        Taken::To(to) => jump(alloc, prog, bound, to, state),
    }
}

/// Takes the choice at an index where it is what is asked for; else the run stands with it as a bad choice.
pub fn take_choice(
    alloc: Global,
    prog: &Prog,
    bound: u32,
    index: usize,
    choice: &Choice,
    state: &mut State,
) -> Result<Step, AllocError>
    requires asks { state.old.given < length state.old.wants }
    requires tests { spec.CanTake prog.now bound index (config_of state.old) choice.now }
    ensures { IfOk result (λ step. (want : Want) (rest : List Want) → (config_of state.old).wants ≡ want ∷ rest → StepsTo step state.new (machine.take_choice prog.now bound (config_of state.old) index want rest choice.now)) }
{
    let wants = state.wants.as_slice();
    let next = state.given + 1;
    let Some(taken) = taken_for(alloc, &wants[state.given], choice)? else {
        return Ok(Step::Over(Status::BadChoice { index }));
    };
    accept(alloc, prog, bound, taken, next, state)
}
