//! What each procedure may change: for each global in turn the procedures that write it are marked, and
//! then those that call a marked one, until no mark is new.
ghost use Rattle.std.specs.Prelude.{◌≡◌, ◌<◌, ◌||◌, ◌++◌, ◌∷◌, [], length, map, slice_set, true, OnOk, IfOk, if◌then◌else◌};
ghost use Rattle.std.specs.List.{list_any};
ghost use Rattle.flat_prog.specs.Limits.{AreLimits};
ghost use Rattle.flat_prog.specs.Marking as spec;
ghost use Rattle.flat_prog.specs.Sites.{calls_of, sites_of, numbers_from};

use crate::block::{FlatBlock, FlatCmd};
use crate::flat::Flat;
use crate::proc::FlatProc;
use hy_val::{Expr, Var};
use sqlite_items::{Items, at};
use std::alloc::{AllocError, Global};

// Whether the variable is the global of this number.
fn is_global(global: usize, x: Var) -> bool
    ensures { result ≡ spec.is_global global x }
{
    match x {
        Var::Const(_) => false,
        Var::Global(n) => n as usize == global,
        Var::Local(_) => false,
    }
}

// Whether the global is among the variables.
fn is_among(global: usize, xs: &[Var]) -> bool
    ensures { result ≡ list_any (spec.is_global global) xs.now }
{
    for x in xs {
        if is_global(global, *x) {
            return true;
        }
    }
    false
}

// Whether the global is assigned.
fn is_assigned(global: usize, pairs: &[(Var, Expr)]) -> bool
    ensures { result ≡ list_any (λ p. spec.is_global global p.0) pairs.now }
{
    for pair in pairs {
        if is_global(global, pair.0) {
            return true;
        }
    }
    false
}

// Whether the command writes the global.
fn cmd_writes(global: usize, cmd: &FlatCmd) -> bool
    ensures { result ≡ spec.cmd_writes global cmd.now }
{
    match cmd {
        FlatCmd::Assign(pairs) => is_assigned(global, pairs.as_slice()),
        FlatCmd::Havoc(xs) => is_among(global, xs.as_slice()),
        FlatCmd::Assume(_) => false,
        FlatCmd::Assert { .. } => false,
        FlatCmd::Call { outs, .. } => is_among(global, outs.as_slice()),
    }
}

// Whether a command of the block does.
fn block_writes(global: usize, block: &FlatBlock) -> bool
    ensures { result ≡ spec.block_writes global block.now }
{
    for cmd in block.cmds.as_slice() {
        if cmd_writes(global, cmd) {
            return true;
        }
    }
    false
}

// Whether a command of the procedure does.
fn proc_writes(global: usize, proc: &FlatProc) -> bool
    ensures { result ≡ spec.proc_writes global proc.now }
{
    for block in proc.blocks.as_slice() {
        if block_writes(global, block) {
            return true;
        }
    }
    false
}

// The procedures that write the global are marked.
fn own_marks(alloc: Global, procs: &[FlatProc], global: usize) -> Result<Items<bool>, AllocError>
    ensures { IfOk result (λ marks. marks ≡ map (spec.proc_writes global) procs.now) }
{
    let mut marks = Items::new(alloc);
    for proc in procs {
        marks.push(proc_writes(global, proc))?;
    }
    Ok(marks)
}

// The procedure that the command calls, if it calls one, stands behind the others.
fn push_call(callees: &mut Items<u32>, cmd: &FlatCmd) -> Result<(), AllocError>
    ensures { OnOk result (callees.new ≡ callees.old ++ calls_of (cmd.now ∷ [])) }
{
    match cmd {
        FlatCmd::Assign(_) => Ok(()),
        FlatCmd::Havoc(_) => Ok(()),
        FlatCmd::Assume(_) => Ok(()),
        FlatCmd::Assert { .. } => Ok(()),
        FlatCmd::Call { proc, .. } => callees.push(*proc),
    }
}

// So do those that the commands call.
fn push_calls(callees: &mut Items<u32>, cmds: &[FlatCmd]) -> Result<(), AllocError>
    ensures { OnOk result (callees.new ≡ callees.old ++ calls_of cmds.now) }
{
    for cmd in cmds {
        push_call(callees, cmd)?;
    }
    Ok(())
}

// The procedures that the blocks call, in order.
fn callees_of(alloc: Global, blocks: &[FlatBlock]) -> Result<Items<u32>, AllocError>
    ensures { IfOk result (λ ps. ps ≡ sites_of blocks.now) }
{
    let mut callees = Items::new(alloc);
    for block in blocks {
        push_calls(&mut callees, block.cmds.as_slice())?;
    }
    Ok(callees)
}

// The same for each procedure.
fn all_callees(alloc: Global, procs: &[FlatProc]) -> Result<Items<Items<u32>>, AllocError>
    ensures { IfOk result (λ pss. pss ≡ map spec.callees_of procs.now) }
{
    let mut callees = Items::new(alloc);
    for proc in procs {
        callees.push(callees_of(alloc, proc.blocks.as_slice())?)?;
    }
    Ok(callees)
}

// Whether the procedure is marked.
fn is_marked(marks: &[bool], proc: usize) -> bool
    ensures { result ≡ spec.is_marked marks.now proc }
{
    match at(marks, proc) {
        Some(mark) => *mark,
        None => false,
    }
}

// Whether one of these is.
fn is_any_marked(procs: &[u32], marks: &[bool]) -> bool
    ensures { result ≡ list_any (spec.is_marked marks.now) procs.now }
{
    for proc in procs {
        if is_marked(marks, *proc as usize) {
            return true;
        }
    }
    false
}

// The procedure is marked where it is not, but one is that it calls; whether that is so.
fn mark(callees: &[u32], marks: &mut Items<bool>, proc: usize) -> bool
    requires { proc < length marks.old }
    ensures is_due { result ≡ spec.is_due callees.now marks.old proc }
    ensures marks { marks.new ≡ (if spec.is_due callees.now marks.old proc then slice_set marks.old proc true else marks.old) }
{
    if !is_marked(marks.as_slice(), proc) && is_any_marked(callees, marks.as_slice()) {
        marks.set(proc, true);
        true
    } else {
        false
    }
}

fn is_either(one: bool, other: bool) -> bool
    ensures { result ≡ (one || other) }
{
    one || other
}

// Each procedure is looked at once; whether one is newly marked.
fn round(callees: &[Items<u32>], marks: &mut Items<bool>) -> bool
    requires { length marks.old ≡ length callees.now }
    ensures { spec.Round callees.now marks.old marks.new result }
{
    let mut is_new = false;
    for proc in 0..callees.len() {
        let is_due = mark(callees[proc].as_slice(), marks, proc);
        is_new = is_either(is_new, is_due);
    }
    is_new
}

// The marks spread to all procedures from which calls lead to a marked one.
fn spread(callees: &[Items<u32>], marks: &mut Items<bool>)
    requires { length marks.old ≡ length callees.now }
    ensures { spec.Spread callees.now marks.old marks.new }
{
    while round(callees, marks) {}
}

// The procedures that may change the global are marked.
fn column(
    alloc: Global,
    procs: &[FlatProc],
    callees: &[Items<u32>],
    global: usize,
) -> Result<Items<bool>, AllocError>
    requires { callees.now ≡ map spec.callees_of procs.now }
    ensures { IfOk result (λ marks. spec.IsColumn procs.now global marks) }
{
    let mut marks = own_marks(alloc, procs, global)?;
    spread(callees, &mut marks);
    Ok(marks)
}

// The same for each of so many globals.
fn columns(
    alloc: Global,
    procs: &[FlatProc],
    count: usize,
) -> Result<Items<Items<bool>>, AllocError>
    ensures { IfOk result (λ columns. spec.AreColumns procs.now count columns) }
{
    let callees = all_callees(alloc, procs)?;
    let mut columns = Items::new(alloc);
    for global in 0..count {
        columns.push(column(alloc, procs, callees.as_slice(), global)?)?;
    }
    Ok(columns)
}

// The marks of one procedure, from all columns.
fn across(alloc: Global, columns: &[Items<bool>], proc: usize) -> Result<Items<bool>, AllocError>
    ensures { IfOk result (λ marks. marks ≡ spec.across columns.now proc) }
{
    let mut marks = Items::new(alloc);
    for column in columns {
        marks.push(is_marked(column.as_slice(), proc))?;
    }
    Ok(marks)
}

// The same for each of so many procedures.
fn rows(
    alloc: Global,
    columns: &[Items<bool>],
    count: usize,
) -> Result<Items<Items<bool>>, AllocError>
    ensures { IfOk result (λ rows. rows ≡ map (spec.across columns.now) (numbers_from 0 count)) }
{
    let mut rows = Items::new(alloc);
    for proc in 0..count {
        rows.push(across(alloc, columns, proc)?)?;
    }
    Ok(rows)
}

/// What each procedure may change: one row for each procedure, in order, with one mark for each global, in
/// order, which is true exactly where a command of the procedure, or of one that it calls, and so on, assigns
/// the global, havocs it or takes it from a call (This is Boogie 2, modifies clauses, here computed). Time
/// grows at most as globals times procedures times calls, and as globals times the size of the program.
pub fn limits(alloc: Global, flat: &Flat) -> Result<Items<Items<bool>>, AllocError>
    ensures { IfOk result (λ limits. AreLimits flat.now limits) }
{
    // Reading the constants also gives that the program is one.
    let _consts = flat.consts();
    let globals = flat.globals();
    let procs = flat.procs();
    let columns = columns(alloc, procs, globals.len())?;
    let rows = rows(alloc, columns.as_slice(), procs.len())?;
    Ok(rows)
}
