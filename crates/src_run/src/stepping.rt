//! Single steps of a run: the next command, or the end of a block.
ghost use Rattle.std.specs.Prelude.{◌≡◌, ◌+◌, ◌<◌, ◌^◌, ◌++◌, ◌∷◌, ℕ, nat_lt, length, map, slice_get, take, drop, IfOk, IsTrue, OnOk, Some};
ghost use Rattle.std.specs.List.{list_all};
ghost use Rattle.std.specs.Option.{option_copied};
ghost use Rattle.hy_val.specs.Exprs.{eval, reads};
ghost use Rattle.src_prog.specs.Scope.{locals_of, sorts_of};
ghost use Rattle.hy_val.specs.Scope.{sort_of_target};
ghost use Rattle.src_prog.specs.Shape.{scope_of};
ghost use Rattle.hy_val.specs.Stores as stores;
ghost use Rattle.src_run.specs.Machine as machine;
ghost use Rattle.src_run.specs.Machine.{AConst, AGlobal, ALocal, AVariable};
ghost use Rattle.src_run.specs.Running.{all_written};
ghost use Rattle.src_run.specs.State.{StepsTo, callers_of, config_of, frames_onto, top_of, want_of};
ghost use Rattle.src_run.specs.Stepping as spec;

use crate::edges::jump;
use crate::machine::Status;
use crate::running::{assign, is_true, write};
use crate::state::{Asked, Caller, Place, State, Step};
use hy_val::{Env, Expr, Sort, Value, Var, eval};
use sqlite_items::{Items, at};
use src_prog::{Cmd, Named, Next, Prog, SrcProc};
use std::alloc::{AllocError, Global};
use std::mem;

/// The local of this number of a procedure: its ins, then its outs, then its other locals.
pub fn local_at(proc: &SrcProc, number: usize) -> Option<&Named>
    ensures { option_copied result ≡ slice_get (proc.now.ins ++ (proc.now.outs ++ proc.now.locals)) number }
{
    let mut place = number;
    if place < proc.ins.len() {
        return at(proc.ins.as_slice(), place);
    }
    place -= proc.ins.len();
    if place < proc.outs.len() {
        return at(proc.outs.as_slice(), place);
    }
    place -= proc.outs.len();
    at(proc.locals.as_slice(), place)
}

// The sort of the local of this number.
#[tactic(auto, using(crate::proofs::Takes::local_sort))]
fn sort_of_local(proc: &SrcProc, number: usize) -> Option<Sort>
    ensures { result ≡ slice_get (locals_of proc.now) number }
{
    match local_at(proc, number) {
        Some(name) => Some(name.sort),
        None => None,
    }
}

// The sort of a variable that a command of the procedure writes, where there is such a variable.
fn target_sort(prog: &Prog, proc: &SrcProc, var: Var) -> Option<Sort>
    ensures { result ≡ sort_of_target (scope_of prog.now proc.now) var }
{
    match var {
        Var::Const(_) => None,
        Var::Global(number) => match at(prog.globals(), number as usize) {
            Some(name) => Some(name.sort),
            None => None,
        },
        Var::Local(number) => sort_of_local(proc, number as usize),
    }
}

/// What is asked for behind a `havoc`: a value for each of the variables.
fn variables_asked(
    alloc: Global,
    prog: &Prog,
    proc: &SrcProc,
    vars: &[Var],
) -> Result<Items<Asked>, AllocError>
    ensures { IfOk result (λ ws. map want_of ws ≡ map (λ x. AVariable x (sort_of_target (scope_of prog.now proc.now) x)) vars.now) }
{
    let mut wants = Items::new(alloc);
    for var in vars {
        wants.push(Asked::Variable(*var, target_sort(prog, proc, *var)))?;
    }
    Ok(wants)
}

/// Asks for a value of each of these locals too.
pub fn ask_locals(wants: &mut Items<Asked>, names: &[Named]) -> Result<(), AllocError>
    ensures { OnOk result (map want_of wants.new ≡ map want_of wants.old ++ map ALocal (sorts_of names.now)) }
{
    for name in names {
        wants.push(Asked::Local(name.sort))?;
    }
    Ok(())
}

// The values of the arguments of a call.
fn args_of(alloc: Global, args: &[Expr], env: &Env) -> Result<Items<Value>, AllocError>
    requires { IsTrue (list_all (reads env.now) args.now) }
    ensures { IfOk result (λ vs. vs ≡ map (eval env.now) args.now) }
{
    let mut values = Items::new(alloc);
    for arg in args {
        values.push(eval(alloc, arg, env)?)?;
    }
    Ok(values)
}

// Whether fewer callers than this are frames of the procedure.
fn are_fewer(callers: &[Caller], number: u32, most: u32) -> bool
    ensures { result ≡ nat_lt (spec.open_callers number callers.now) most }
{
    let mut left = most;
    for caller in callers {
        if caller.place.proc == number {
            if left == 0 {
                return false;
            }
            left -= 1;
        }
    }
    left > 0
}

// Whether the bound allows one more frame of the procedure.
#[tactic(auto, using(crate::proofs::Stacked::open_count_is))]
fn may_open(bound: u32, number: u32, state: &State) -> bool
    ensures { result ≡ nat_lt (machine.open_count number (top_of state.now ∷ callers_of state.now)) bound }
{
    let callers = state.callers.as_slice();
    if state.place.proc == number {
        return bound > 0 && are_fewer(callers, number, bound - 1);
    }
    are_fewer(callers, number, bound)
}

// Opens a frame of a procedure on the values of its ins, with the variables of the caller that take its outs.
fn open_frame(
    alloc: Global,
    number: u32,
    proc: &SrcProc,
    ins: Items<Value>,
    outs: &[Var],
    state: &mut State,
) -> Result<(), AllocError>
    requires { state.old.place.at + 1 < 2 ^ 64 }
    ensures { OnOk result (config_of state.new ≡ spec.opened (config_of state.old) (top_of state.old) (callers_of state.old) number proc.now ins outs.now) }
{
    let mut wants = Items::new(alloc);
    ask_locals(&mut wants, proc.outs.as_slice())?;
    ask_locals(&mut wants, proc.locals.as_slice())?;
    let inner = Place {
        proc: number,
        block: 0,
        at: 0,
        laps: Items::new(alloc),
        outs: Items::from_slice(alloc, outs)?,
    };
    let mut place = mem::replace(&mut state.place, inner);
    place.at += 1;
    let locals = mem::replace(&mut state.env.locals, ins);
    state.callers.push(Caller { place, locals })?;
    state.wants = wants;
    state.given = 0;
    Ok(())
}

// Calls a procedure, if there is one of this number.
fn call(
    alloc: Global,
    prog: &Prog,
    bound: u32,
    number: u32,
    args: &[Expr],
    outs: &[Var],
    state: &mut State,
) -> Result<Step, AllocError>
    requires reads { IsTrue (list_all (reads state.old.env) args.now) }
    requires room { state.old.place.at + 1 < 2 ^ 64 }
    ensures { IfOk result (λ step. StepsTo step state.new (machine.call bound (config_of state.old) (top_of state.old) (callers_of state.old) number (slice_get prog.now.procs number) args.now outs.now)) }
{
    let Some(proc) = at(prog.procs(), number as usize) else {
        return Ok(Step::Over(Status::Blocked));
    };
    if !may_open(bound, number, state) {
        return Ok(Step::Over(Status::Cut));
    }
    let ins = args_of(alloc, args, &state.env)?;
    open_frame(alloc, number, proc, ins, outs, state)?;
    Ok(Step::On)
}

// Goes on behind a condition that is true; where it is false the run stands with this status.
fn tested(
    alloc: Global,
    condition: &Expr,
    otherwise: Status,
    state: &mut State,
) -> Result<Step, AllocError>
    requires reads { IsTrue (reads state.old.env condition.now) }
    requires room { state.old.place.at + 1 < 2 ^ 64 }
    ensures { IfOk result (λ step. spec.TestedTo step (stores.holds state.old.env condition.now) otherwise (config_of state.old) (config_of state.new) (top_of state.old) (callers_of state.old)) }
{
    if !is_true(alloc, condition, &state.env)? {
        return Ok(Step::Over(otherwise));
    }
    state.place.at += 1;
    Ok(Step::On)
}

// Runs a command of the innermost frame.
fn command(
    alloc: Global,
    prog: &Prog,
    bound: u32,
    proc: &SrcProc,
    cmd: &Cmd,
    state: &mut State,
) -> Result<Step, AllocError>
    requires reads { IsTrue (spec.cmd_reads state.old.env cmd.now) }
    requires room { state.old.place.at + 1 < 2 ^ 64 }
    ensures { IfOk result (λ step. StepsTo step state.new (machine.command prog.now bound (config_of state.old) proc.now (top_of state.old) (callers_of state.old) cmd.now)) }
{
    match cmd {
        Cmd::Assign(pairs) => {
            assign(alloc, pairs.as_slice(), &mut state.env)?;
            state.place.at += 1;
            Ok(Step::On)
        }
        Cmd::Havoc(vars) => {
            state.wants = variables_asked(alloc, prog, proc, vars.as_slice())?;
            state.given = 0;
            state.place.at += 1;
            Ok(Step::On)
        }
        Cmd::Assume(expr) => tested(alloc, expr, Status::Blocked, state),
        Cmd::Assert { number, expr } => {
            let failed = Status::Failed {
                proc: state.place.proc,
                assert: *number,
            };
            tested(alloc, expr, failed, state)
        }
        Cmd::Call {
            proc: number,
            args,
            outs,
        } => call(
            alloc,
            prog,
            bound,
            *number,
            args.as_slice(),
            outs.as_slice(),
            state,
        ),
    }
}

// The values from a place on, at most so many.
fn part(values: &[Value], from: usize, count: usize) -> &[Value]
    ensures { result.now ≡ take count (drop from values.now) }
{
    let behind = &values[from.min(values.len())..];
    &behind[..count.min(behind.len())]
}

// Gives each variable its value, in order, as far as there are both.
fn write_values(
    alloc: Global,
    env: &mut Env,
    vars: &[Var],
    values: &[Value],
) -> Result<(), AllocError>
    ensures { OnOk result (env.new ≡ all_written env.old vars.now values.now) }
{
    let count = vars.len().min(values.len());
    for index in 0..count {
        let value = values[index].copy(alloc)?;
        write(env, vars[index], value);
    }
    Ok(())
}

// Closes the innermost frame, whose caller, if it has one, takes the values of its outs.
fn leave(alloc: Global, proc: &SrcProc, state: &mut State) -> Result<Step, AllocError>
    ensures { IfOk result (λ step. StepsTo step state.new (machine.leave (config_of state.old) state.old.place.outs (machine.outs_of proc.now state.old.env.locals) (callers_of state.old))) }
{
    let Some(caller) = state.callers.pop() else {
        return Ok(Step::Over(Status::Ended));
    };
    let Caller { place, locals } = caller;
    let returned = mem::replace(&mut state.env.locals, locals);
    let left = mem::replace(&mut state.place, place);
    let values = part(returned.as_slice(), proc.ins.len(), proc.outs.len());
    write_values(alloc, &mut state.env, left.outs.as_slice(), values)?;
    Ok(Step::On)
}

// Goes on behind the last command of a block.
fn follow(
    alloc: Global,
    prog: &Prog,
    bound: u32,
    proc: &SrcProc,
    next: &Next,
    state: &mut State,
) -> Result<Step, AllocError>
    ensures { IfOk result (λ step. StepsTo step state.new (machine.follow prog.now bound (config_of state.old) proc.now (top_of state.old) (callers_of state.old) next.now)) }
{
    match next {
        Next::Return => leave(alloc, proc, state),
        Next::Goto(targets) => match targets.as_slice() {
            [] => Ok(Step::Over(Status::Blocked)),
            [to] => jump(alloc, prog, bound, *to, state),
            _ => {
                let mut wants = Items::new(alloc);
                wants.push(Asked::Target(Items::from_slice(alloc, targets.as_slice())?))?;
                state.wants = wants;
                state.given = 0;
                Ok(Step::On)
            }
        },
    }
}

/// One step of a run that asks for nothing: the next command, or the end of the block.
pub fn tick(alloc: Global, prog: &Prog, bound: u32, state: &mut State) -> Result<Step, AllocError>
    requires { spec.CanTick prog.now (config_of state.old) }
    ensures { IfOk result (λ step. StepsTo step state.new (machine.tick prog.now bound (config_of state.old))) }
{
    let Some(proc) = at(prog.procs(), state.place.proc as usize) else {
        return Ok(Step::Over(Status::Blocked));
    };
    let Some(block) = at(proc.blocks.as_slice(), state.place.block as usize) else {
        return Ok(Step::Over(Status::Blocked));
    };
    let cmds = block.cmds.as_slice();
    match at(cmds, state.place.at) {
        None => follow(alloc, prog, bound, proc, &block.next, state),
        Some(cmd) => command(alloc, prog, bound, proc, cmd, state),
    }
}
