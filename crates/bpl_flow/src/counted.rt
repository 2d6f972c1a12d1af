//! Counts that numbers of 32 bits can name.
ghost use Rattle.std.specs.Prelude.{◌≡◌, length};
ghost use Rattle.std.specs.List.{list_all};
ghost use Rattle.bpl_flow.specs.Counted.{is_counted, is_counted_proc};
ghost use Rattle.bpl_flow.specs.Parted.{program_by};
ghost use Rattle.src_prog.specs.Scope.{locals_of};
ghost use Rattle.hy_val.specs.Scope.{are_numbered};

use crate::lowering::Parts;
use src_prog::SrcProc;

// One more than the greatest number of 32 bits.
const NUMBERS: usize = 1 << 32;

/// Whether numbers of 32 bits name so many.
pub fn is_few(count: usize) -> bool
    ensures { result ≡ are_numbered count }
{
    count < NUMBERS
}

/// Whether the ins, outs and other locals of a procedure together are few enough.
pub fn has_few_locals(proc: &SrcProc) -> bool
    ensures { result ≡ are_numbered (length (locals_of proc.now)) }
{
    let heads = proc.ins.len().saturating_add(proc.outs.len());
    is_few(heads.saturating_add(proc.locals.len()))
}

/// Whether the locals and the blocks of each procedure are few enough.
pub fn are_procs_counted(procs: &[SrcProc]) -> bool
    ensures { result ≡ list_all is_counted_proc procs.now }
{
    for proc in procs {
        if !has_few_locals(proc) || !is_few(proc.blocks.len()) {
            return false;
        }
    }
    true
}

/// Whether all that has a number is few enough.
pub fn are_counted(parts: &Parts) -> bool
    ensures { result ≡ is_counted (program_by parts.now) }
{
    is_few(parts.consts.len())
        && is_few(parts.globals.len())
        && is_few(parts.procs.len())
        && are_procs_counted(parts.procs.as_slice())
}
