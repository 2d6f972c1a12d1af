//! Which programs are plain: their runs ask for a few bools, and pass no edge and no call.
ghost use Rattle.std.specs.Prelude.{◌≡◌, ◌+◌, ◌<◌, length, nat_le, slice_get};
ghost use Rattle.src_run.specs.Plain as spec;

use hy_val::{ScalarKind, Sort, SortKind};
use src_prog::{Cmd, Named, Next, Prog, SrcBlock, SrcProc};

/// The most values that a run of a plain program asks for.
pub const MOST: usize = 16;

fn is_bool(sort: Sort) -> bool
    ensures { result ≡ spec.is_bool sort }
{
    match sort.kind() {
        SortKind::Scalar(scalar) => match scalar.kind() {
            ScalarKind::Bool => true,
            ScalarKind::Bv { width: _ } => false,
        },
        SortKind::Map { index: _, elem: _ } => false,
    }
}

fn are_bools(names: &[Named]) -> bool
    ensures { result ≡ spec.are_bools names.now }
{
    for name in names {
        if !is_bool(name.sort) {
            return false;
        }
    }
    true
}

// Whether none of the commands calls.
fn is_without_call(cmds: &[Cmd]) -> bool
    ensures { result ≡ spec.is_without_call cmds.now }
{
    for cmd in cmds {
        match cmd {
            Cmd::Call { .. } => return false,
            Cmd::Assign(_) => {}
            Cmd::Havoc(_) => {}
            Cmd::Assume(_) => {}
            Cmd::Assert { .. } => {}
        }
    }
    true
}

// The number of values that a command asks for.
fn asked_by(cmd: &Cmd) -> usize
    ensures { result ≡ spec.asked_by cmd.now }
{
    match cmd {
        Cmd::Havoc(vars) => vars.len(),
        Cmd::Call { .. } => 0,
        Cmd::Assign(_) => 0,
        Cmd::Assume(_) => 0,
        Cmd::Assert { .. } => 0,
    }
}

// Whether the commands ask for at most so many values.
fn ask_within(cmds: &[Cmd], room: usize) -> bool
    ensures { result ≡ nat_le (spec.asked_by_all cmds.now) room }
{
    let mut left = room;
    for cmd in cmds {
        let count = asked_by(cmd);
        if left < count {
            return false;
        }
        left -= count;
    }
    true
}

// Whether a run of the entry asks for few values.
fn asks_few(prog: &Prog, proc: &SrcProc, cmds: &[Cmd]) -> bool
    ensures { result ≡ nat_le (spec.asked prog.now proc.now cmds.now) 16 }
{
    let globals = prog.globals().len();
    let outs = proc.outs.len();
    let locals = proc.locals.len();
    if globals > MOST || outs > MOST - globals || locals > MOST - globals - outs {
        return false;
    }
    ask_within(cmds, MOST - globals - outs - locals)
}

fn is_plain_block(prog: &Prog, proc: &SrcProc, block: &SrcBlock) -> bool
    ensures { result ≡ spec.is_plain_block prog.now proc.now block.now }
{
    let cmds = block.cmds.as_slice();
    match &block.next {
        Next::Goto(_) => false,
        Next::Return => is_without_call(cmds) && asks_few(prog, proc, cmds),
    }
}

fn has_plain_block(prog: &Prog, proc: &SrcProc) -> bool
    ensures { result ≡ spec.have_plain_block prog.now proc.now proc.now.blocks }
{
    match proc.blocks.as_slice() {
        [block] => is_plain_block(prog, proc, block),
        _ => false,
    }
}

fn is_plain_entry(prog: &Prog, proc: &SrcProc) -> bool
    ensures { result ≡ spec.is_plain_proc prog.now proc.now }
{
    proc.ins.is_empty()
        && are_bools(proc.outs.as_slice())
        && are_bools(proc.locals.as_slice())
        && has_plain_block(prog, proc)
}

/// Whether the runs of the entry are searched by trying all choices: there are no constants and
/// no axioms; all variables of the program and of the entry are bools; the entry has no
/// in-parameters, one block and no call; and the globals, its outs and locals, and the names in
/// its `havoc` commands are at most 16 in all.
pub fn is_plain(prog: &Prog, entry: u32) -> bool
    requires { entry < length prog.now.procs }
    ensures { result ≡ spec.is_plain prog.now entry }
{
    prog.consts().is_empty()
        && prog.axioms().is_empty()
        && are_bools(prog.globals())
        && is_plain_entry(prog, &prog.procs()[entry as usize])
}
