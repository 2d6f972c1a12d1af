//! The run of a plain entry on a list of bools.
ghost use Rattle.std.specs.Prelude.{◌≡◌, ◌+◌, ◌<◌, ◌≤◌, ℕ, length, map, IfOk, IsTrue, MatchOption, OnOk, slice_get, Some, take, drop, ◌∷◌, []};
ghost use Rattle.std.specs.List.{list_all};
ghost use Rattle.hy_val.specs.Exprs.{eval, reads};
ghost use Rattle.hy_val.specs.Laws.{EachNodeHasItsSort};
ghost use Rattle.hy_val.specs.Values.{has_sort};
ghost use Rattle.hy_val.specs.Scope.{Scope, is_condition, is_target, pair_fits};
ghost use Rattle.src_prog.specs.declared.block.SrcBlock.{SrcBlock};
ghost use Rattle.hy_val.specs.Stores.{holds};
ghost use Rattle.src_run.specs.Plain.{is_plain};
ghost use Rattle.src_run.specs.Running as spec;
ghost use Rattle.src_run.specs.Running.{CanRun};

use crate::machine::Status;
use hy_val::{Atom, AtomKind, Env, Expr, Value, Var, each_node_has_its_sort, eval};
use sqlite_items::Items;
use src_prog::{Cmd, Prog, SrcProc};
use std::alloc::{AllocError, Global};

/// What a command leads to.
#[derive(Clone, Copy)]
pub enum Stepped {
    /// To the next command, where so many bools are taken.
    On(usize),
    /// To a status with which the run stands.
    Over(Status),
}

/// The value of a bool.
pub fn bool_value(value: bool) -> Value
    ensures { result ≡ spec.bool_value value }
{
    Value::Atom(Atom::bool(value))
}

/// The values of some bools.
pub fn bool_values(alloc: Global, given: &[bool]) -> Result<Items<Value>, AllocError>
    ensures { IfOk result (λ vs. vs ≡ map spec.bool_value given.now) }
{
    let mut values = Items::new(alloc);
    for value in given {
        values.push(bool_value(*value))?;
    }
    Ok(values)
}

/// Whether a condition is true.
pub fn is_true(alloc: Global, condition: &Expr, env: &Env) -> Result<bool, AllocError>
    requires { IsTrue (reads env.now condition.now) }
    ensures { IfOk result (λ b. b ≡ holds env.now condition.now) }
{
    match eval(alloc, condition, env)? {
        Value::Atom(atom) => match atom.kind() {
            AtomKind::Bool(value) => Ok(value),
            AtomKind::Bv(_) => Ok(false),
        },
        Value::Map(_) => Ok(false),
    }
}

/// Gives a variable a value.
pub fn write(env: &mut Env, var: Var, value: Value)
    ensures { env.new ≡ spec.written env.old var value }
{
    match var {
        Var::Const(_) => {}
        Var::Global(number) => {
            let place = number as usize;
            if place < env.globals.len() {
                env.globals.set(place, value);
            }
        }
        Var::Local(number) => {
            let place = number as usize;
            if place < env.locals.len() {
                env.locals.set(place, value);
            }
        }
    }
}

// The values of the expressions of an assignment.
fn values_of(alloc: Global, pairs: &[(Var, Expr)], env: &Env) -> Result<Items<Value>, AllocError>
    requires { IsTrue (list_all (λ p. reads env.now p.1) pairs.now) }
    ensures { IfOk result (λ vs. vs ≡ map (λ p. eval env.now p.1) pairs.now) }
{
    let mut values = Items::new(alloc);
    for (_, expr) in pairs {
        values.push(eval(alloc, expr, env)?)?;
    }
    Ok(values)
}

// Gives each variable of an assignment its value, in order.
fn write_all(
    alloc: Global,
    env: &mut Env,
    pairs: &[(Var, Expr)],
    values: &[Value],
) -> Result<(), AllocError>
    requires { length values.now ≡ length pairs.now }
    ensures { OnOk result (env.new ≡ spec.all_written env.old (map (λ p. p.0) pairs.now) values.now) }
{
    for (index, (var, _)) in pairs.iter().enumerate() {
        let value = values[index].copy(alloc)?;
        write(env, *var, value);
    }
    Ok(())
}

/// Runs an assignment: all values first, then the writes, in order.
pub fn assign(alloc: Global, pairs: &[(Var, Expr)], env: &mut Env) -> Result<(), AllocError>
    requires { IsTrue (list_all (λ p. reads env.old p.1) pairs.now) }
    ensures { OnOk result (env.new ≡ spec.all_written env.old (map (λ p. p.0) pairs.now) (map (λ p. eval env.old p.1) pairs.now)) }
{
    let values = values_of(alloc, pairs, env)?;
    write_all(alloc, env, pairs, values.as_slice())
}

// Gives each variable of a `havoc` the next bool. None where one more is asked for than there is.
fn havoc(vars: &[Var], env: &mut Env, given: &[bool], next: usize) -> Option<usize>
    requires { next ≤ length given.now }
    ensures { spec.Havocked vars.now env.old env.new given.now next result }
{
    if given.len() - next < vars.len() {
        return None;
    }
    for (index, var) in vars.iter().enumerate() {
        write(env, *var, bool_value(given[next + index]));
    }
    Some(next + vars.len())
}

// The status at an end. A bool that is left is a bad choice.
fn ending(status: Status, given: &[bool], next: usize) -> Status
    ensures { result ≡ spec.ending status given.now next }
{
    if next < given.len() {
        return Status::BadChoice { index: next };
    }
    status
}

// Runs an assume or an assert, which ends a run in which it is false with this status.
fn tested(
    alloc: Global,
    condition: &Expr,
    failed: Status,
    env: &Env,
    given: &[bool],
    next: usize,
) -> Result<Stepped, AllocError>
    requires { IsTrue (reads env.now condition.now) }
    ensures { IfOk result (λ s. spec.TestedTo env.now condition.now failed given.now next s) }
{
    if is_true(alloc, condition, env)? {
        return Ok(Stepped::On(next));
    }
    Ok(Stepped::Over(ending(failed, given, next)))
}

fn havoced(vars: &[Var], env: &mut Env, given: &[bool], next: usize) -> Stepped
    requires { next ≤ length given.now }
    ensures { spec.HavocedTo vars.now env.old env.new given.now next result }
{
    match havoc(vars, env, given, next) {
        None => Stepped::Over(Status::Going),
        Some(taken) => Stepped::On(taken),
    }
}

// Runs one command of a plain program.
fn step(
    alloc: Global,
    prog: &Prog,
    entry: u32,
    cmd: &Cmd,
    env: &mut Env,
    given: &[bool],
    next: usize,
) -> Result<Stepped, AllocError>
    requires can { CanRun prog.now.procs (cmd.now ∷ []) env.old }
    requires within { next ≤ length given.now }
    ensures { IfOk result (λ s. spec.StepIs entry prog.now.procs cmd.now env.old env.new given.now next s) }
{
    each_node_has_its_sort();
    match cmd {
        Cmd::Assign(pairs) => {
            assign(alloc, pairs.as_slice(), env)?;
            Ok(Stepped::On(next))
        }
        Cmd::Havoc(vars) => Ok(havoced(vars.as_slice(), env, given, next)),
        Cmd::Assume(condition) => tested(alloc, condition, Status::Blocked, env, given, next),
        Cmd::Assert { number, expr } => {
            let failed = Status::Failed {
                proc: entry,
                assert: *number,
            };
            tested(alloc, expr, failed, env, given, next)
        }
        Cmd::Call { .. } => unreachable!(),
    }
}

// Runs commands to their end.
fn run_cmds(
    alloc: Global,
    prog: &Prog,
    entry: u32,
    cmds: &[Cmd],
    mut env: Env,
    given: &[bool],
    first: usize,
) -> Result<Status, AllocError>
    requires can { CanRun prog.now.procs cmds.now env }
    requires within { first ≤ length given.now }
    ensures { IfOk result (λ s. s ≡ spec.run_of entry cmds.now env given.now first) }
{
    let mut next = first;
    for cmd in cmds {
        match step(alloc, prog, entry, cmd, &mut env, given, next)? {
            Stepped::On(taken) => next = taken,
            Stepped::Over(status) => return Ok(status),
        }
    }
    Ok(ending(Status::Ended, given, next))
}

// The variables with the first bools.
fn first_env(
    alloc: Global,
    globals: usize,
    locals: usize,
    given: &[bool],
) -> Result<Env, AllocError>
    requires { globals + locals ≤ length given.now }
    ensures { IfOk result (λ e. e ≡ spec.first_env globals locals given.now) }
{
    let env = Env {
        consts: Items::new(alloc),
        globals: bool_values(alloc, &given[..globals])?,
        locals: bool_values(alloc, &given[globals..globals + locals])?,
    };
    Ok(env)
}

// The commands of the first block.
fn first_cmds(proc: &SrcProc) -> &[Cmd]
    ensures { result.now ≡ spec.first_cmds proc.now.blocks }
{
    match proc.blocks.get(0) {
        Some(block) => block.cmds.as_slice(),
        None => &[],
    }
}

// The status of the run of the entry, the procedure of this number.
fn entry_status(
    alloc: Global,
    prog: &Prog,
    entry: u32,
    proc: &SrcProc,
    given: &[bool],
) -> Result<Status, AllocError>
    requires few { length prog.now.globals + (length proc.now.outs + length proc.now.locals) ≤ 16 }
    requires can { spec.CanStart prog.now proc.now given.now }
    ensures { IfOk result (λ s. s ≡ spec.status_in entry prog.now proc.now (spec.first_cmds proc.now.blocks) given.now) }
{
    let globals = prog.globals().len();
    let locals = proc.outs.len() + proc.locals.len();
    if given.len() < globals + locals {
        return Ok(Status::Going);
    }
    let env = first_env(alloc, globals, locals, given)?;
    run_cmds(
        alloc,
        prog,
        entry,
        first_cmds(proc),
        env,
        given,
        globals + locals,
    )
}

/// The status of the run of a plain entry on a list of bools.
pub fn status_of(
    alloc: Global,
    prog: &Prog,
    entry: u32,
    given: &[bool],
) -> Result<Status, AllocError>
    requires { IsTrue (is_plain prog.now entry) }
    ensures status { IfOk result (λ s. (bound : ℕ) → spec.RunsTo prog.now entry bound given.now s) }
    ensures few { IfOk result (λ s. s ≡ Status.Going → length given.now < 16) }
{
    each_node_has_its_sort();
    let _consts = prog.consts();
    let proc = &prog.procs()[entry as usize];
    entry_status(alloc, prog, entry, proc, given)
}
