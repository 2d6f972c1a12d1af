//! What a run of a flat procedure does in a node of a run tree: its begin, its commands and its calls. An error
//! comes where the node is no such run.

use flat_prog::{Child, Flat, FlatKind, FlatProc, RunNode};
use hy_val::{Atom, AtomKind, BitVec, Env, Expr, Sort, Value, Var, Width, eval};
use sqlite_items::Items;
use std::alloc::{AllocError, Global};

/// A run on its way through a node.
#[derive(Drop)]
pub struct Frame {
    /// The number of the node.
    pub node: usize,
    /// How many blocks of its path were passed.
    pub step: usize,
    /// How many commands of the next one were passed.
    pub cmd: usize,
    /// How many values were taken.
    pub value: usize,
    /// How many children were passed.
    pub child: usize,
    /// The variables.
    pub env: Env,
}

// ---- values

/// Whether a bool is true.
pub fn holds(alloc: Global, env: &Env, expr: &Expr) -> Result<bool, AllocError> {
    let value = value_of(alloc, env, expr)?;
    match value {
        Value::Atom(atom) => Ok(atom.kind() == AtomKind::Bool(true)),
        Value::Map(_) => Err(AllocError),
    }
}

fn value_of(alloc: Global, env: &Env, expr: &Expr) -> Result<Value, AllocError> {
    if env.reads(expr) {
        eval(alloc, expr, env)
    } else {
        Err(AllocError)
    }
}

fn values_of(alloc: Global, env: &Env, exprs: &[Expr]) -> Result<Items<Value>, AllocError> {
    let mut values = Items::new(alloc);
    for expr in exprs {
        values.push(value_of(alloc, env, expr)?)?;
    }
    Ok(values)
}

fn copies(alloc: Global, values: &[Value]) -> Result<Items<Value>, AllocError> {
    let mut all = Items::new(alloc);
    for value in values {
        all.push(value.copy(alloc)?)?;
    }
    Ok(all)
}

fn replace(values: &mut Items<Value>, number: usize, value: Value) -> Result<(), AllocError> {
    if number < values.len() {
        values.set(number, value);
        Ok(())
    } else {
        Err(AllocError)
    }
}

/// The variable becomes the value.
pub fn write(env: &mut Env, var: Var, value: Value) -> Result<(), AllocError> {
    match var {
        Var::Const(_) => Err(AllocError),
        Var::Global(number) => replace(&mut env.globals, number as usize, value),
        Var::Local(number) => replace(&mut env.locals, number as usize, value),
    }
}

// ---- the begin of a node

// The next value, which has the sort.
fn taken(
    alloc: Global,
    node: &RunNode,
    place: &mut usize,
    sort: Sort,
) -> Result<Value, AllocError> {
    let Some(value) = node.values.get(*place) else {
        return Err(AllocError);
    };
    if !value.has_sort(sort) {
        return Err(AllocError);
    }
    *place = place.saturating_add(1);
    value.copy(alloc)
}

// One value for each sort, behind these.
fn fill(
    alloc: Global,
    node: &RunNode,
    place: &mut usize,
    values: &mut Items<Value>,
    sorts: &[Sort],
) -> Result<(), AllocError> {
    for sort in sorts {
        values.push(taken(alloc, node, place, *sort)?)?;
    }
    Ok(())
}

// A node of a loop takes no value here: its outs start as its ins, and the exit number as 0.
fn start_loop(alloc: Global, proc: &FlatProc, locals: &mut Items<Value>) -> Result<(), AllocError> {
    let outs = copies(alloc, locals.as_slice())?;
    locals.append(outs)?;
    locals.push(Value::Atom(Atom::bits(BitVec::new(Width::new(32), 0))))?;
    for sort in proc.locals.as_slice() {
        locals.push(Value::zero(alloc, *sort))?;
    }
    Ok(())
}

// The run of a node from these globals and ins, where so many of its values are taken.
fn entered(
    alloc: Global,
    flat: &Flat,
    nodes: &[RunNode],
    number: usize,
    taken: usize,
    globals: Items<Value>,
    ins: Items<Value>,
) -> Result<Frame, AllocError> {
    let Some(node) = nodes.get(number) else {
        return Err(AllocError);
    };
    let Some(proc) = flat.procs().get(node.proc as usize) else {
        return Err(AllocError);
    };
    let mut value = taken;
    let mut locals = ins;
    match proc.kind {
        FlatKind::Source { .. } => {
            fill(alloc, node, &mut value, &mut locals, proc.outs.as_slice())?;
            fill(alloc, node, &mut value, &mut locals, proc.locals.as_slice())?;
        }
        FlatKind::Loop { .. } => start_loop(alloc, proc, &mut locals)?,
    }
    let consts = Items::new(alloc);
    Ok(Frame {
        node: number,
        step: 0,
        cmd: 0,
        value,
        child: 0,
        env: Env {
            consts,
            globals,
            locals,
        },
    })
}

/// The run of the root, of a program without constants: it takes a value for each global and in.
pub fn first(
    alloc: Global,
    flat: &Flat,
    nodes: &[RunNode],
    entry: u32,
) -> Result<Frame, AllocError> {
    let Some(node) = nodes.first() else {
        return Err(AllocError);
    };
    let Some(proc) = flat.procs().get(entry as usize) else {
        return Err(AllocError);
    };
    if node.proc != entry || !flat.consts().is_empty() {
        return Err(AllocError);
    }
    let mut place: usize = 0;
    let mut globals = Items::new(alloc);
    fill(alloc, node, &mut place, &mut globals, flat.globals())?;
    let mut ins = Items::new(alloc);
    fill(alloc, node, &mut place, &mut ins, proc.ins.as_slice())?;
    entered(alloc, flat, nodes, 0, place, globals, ins)
}

// ---- commands

/// Each variable takes the value of its expression, all of which are evaluated first.
pub fn assign(alloc: Global, env: &mut Env, pairs: &[(Var, Expr)]) -> Result<(), AllocError> {
    let mut values = Items::new(alloc);
    for (_, expr) in pairs {
        values.push(value_of(alloc, env, expr)?)?;
    }
    for ((var, _), value) in pairs.iter().zip(values.as_slice()) {
        write(env, *var, value.copy(alloc)?)?;
    }
    Ok(())
}

/// Each variable takes the next value.
pub fn havoc(
    alloc: Global,
    node: &RunNode,
    frame: &mut Frame,
    vars: &[Var],
) -> Result<(), AllocError> {
    for var in vars {
        let Some(old) = frame.env.get(*var) else {
            return Err(AllocError);
        };
        let sort = old.sort();
        let value = taken(alloc, node, &mut frame.value, sort)?;
        write(&mut frame.env, *var, value)?;
    }
    Ok(())
}

/// The run of the next child, which is one of the callee.
pub fn called(
    alloc: Global,
    flat: &Flat,
    nodes: &[RunNode],
    node: &RunNode,
    frame: &mut Frame,
    callee: u32,
    args: &[Expr],
) -> Result<Frame, AllocError> {
    let Some(Child::Node(number)) = node.children.get(frame.child) else {
        return Err(AllocError);
    };
    match nodes.get(*number) {
        Some(run) if run.proc == callee => {}
        _ => return Err(AllocError),
    }
    frame.child = frame.child.saturating_add(1);
    let globals = copies(alloc, frame.env.globals.as_slice())?;
    let ins = values_of(alloc, &frame.env, args)?;
    entered(alloc, flat, nodes, *number, 0, globals, ins)
}
