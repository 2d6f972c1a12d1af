//! Whether loop procedures are called by themselves and by earlier ones alone.
ghost use Rattle.std.specs.Prelude.{◌≡◌, slice_get};
ghost use Rattle.std.specs.List.{list_all};
ghost use Rattle.flat_parts.specs.Parts as parts;

use flat_prog::{FlatBlock, FlatCmd, FlatKind, FlatProc};
use sqlite_items::at;

// Whether it stands for a loop.
fn is_loop(procs: &[FlatProc], number: u32) -> bool
    ensures { result ≡ parts.is_loop_at (slice_get procs.now number) }
{
    match at(procs, number as usize) {
        Some(proc) => match proc.kind {
            FlatKind::Source { .. } => false,
            FlatKind::Loop { .. } => true,
        },
        None => false,
    }
}

// Whether the command of a procedure with this number calls no earlier loop procedure.
fn calls_on(procs: &[FlatProc], number: usize, cmd: &FlatCmd) -> bool
    ensures { result ≡ parts.calls_on procs.now number cmd.now }
{
    match cmd {
        FlatCmd::Assign(_) => true,
        FlatCmd::Havoc(_) => true,
        FlatCmd::Assume(_) => true,
        FlatCmd::Assert { .. } => true,
        FlatCmd::Call { proc, .. } => !is_loop(procs, *proc) || number <= *proc as usize,
    }
}

// Whether all commands of the block do.
fn block_calls_on(procs: &[FlatProc], number: usize, block: &FlatBlock) -> bool
    ensures { result ≡ list_all (parts.calls_on procs.now number) block.now.cmds }
{
    for cmd in block.cmds.as_slice() {
        if !calls_on(procs, number, cmd) {
            return false;
        }
    }
    true
}

// Whether all commands of the procedure do.
fn proc_calls_on(procs: &[FlatProc], number: usize, proc: &FlatProc) -> bool
    ensures { result ≡ list_all (λ b. list_all (parts.calls_on procs.now number) b.cmds) proc.now.blocks }
{
    for block in proc.blocks.as_slice() {
        if !block_calls_on(procs, number, block) {
            return false;
        }
    }
    true
}

/// Whether each procedure calls, of the loop procedures, none that is earlier.
pub(crate) fn all_call_on(procs: &[FlatProc]) -> bool
    ensures { result ≡ parts.all_call_on procs.now 0 procs.now }
{
    for number in 0..procs.len() {
        if !proc_calls_on(procs, number, &procs[number]) {
            return false;
        }
    }
    true
}
