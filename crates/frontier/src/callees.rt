//! The callees of all call sites of a flat program, listed once, so that a site is looked up in one step.
ghost use Rattle.std.specs.Prelude.{◌≡◌, [], ◌∷◌, ◌++◌, IfOk, OnOk, slice_get};
ghost use Rattle.flat_prog.specs.Sites.{calls_of, sites_of};
ghost use Rattle.frontier.specs.Ways.{callee_lists, list_at};

use flat_prog::{FlatBlock, FlatCmd, FlatProc};
use sqlite_items::Items;
use std::alloc::{AllocError, Global};

// Appends the procedure that a command calls, where it is a call.
fn push_call(cmd: &FlatCmd, callees: &mut Vec<u32>) -> Result<(), AllocError>
    ensures { OnOk result (callees.new.items ≡ callees.old.items ++ calls_of (cmd.now ∷ [])) }
{
    match cmd {
        FlatCmd::Call { proc, .. } => {
            callees.push(*proc)?;
            Ok(())
        }
        FlatCmd::Assign(_) => Ok(()),
        FlatCmd::Havoc(_) => Ok(()),
        FlatCmd::Assume(_) => Ok(()),
        FlatCmd::Assert { .. } => Ok(()),
    }
}

// Appends the procedures that commands call, in order.
fn push_calls(cmds: &[FlatCmd], callees: &mut Vec<u32>) -> Result<(), AllocError>
    ensures { OnOk result (callees.new.items ≡ callees.old.items ++ calls_of cmds.now) }
{
    for cmd in cmds {
        push_call(cmd, callees)?;
    }
    Ok(())
}

// The procedures that the sites in these blocks call, by number.
fn callees_in(alloc: Global, blocks: &[FlatBlock]) -> Result<Items<u32>, AllocError>
    ensures { IfOk result (λ it. it ≡ sites_of blocks.now) }
{
    let mut callees = Vec::new(alloc);
    for block in blocks {
        push_calls(block.cmds.as_slice(), &mut callees)?;
    }
    Ok(Items::from_vec(callees))
}

// The same for each procedure.
pub fn lists_of(alloc: Global, procs: &[FlatProc]) -> Result<Vec<Items<u32>>, AllocError>
    ensures { IfOk result (λ lists. lists.items ≡ callee_lists procs.now) }
{
    let mut lists = Vec::new(alloc);
    for q in procs {
        lists.push(callees_in(alloc, q.blocks.as_slice())?)?;
    }
    Ok(lists)
}

// The callees of a procedure's sites; none where there is no such procedure.
pub fn list_at(lists: &[Items<u32>], proc: u32) -> &[u32]
    ensures { result.now ≡ list_at lists.now proc }
{
    match lists.get(proc as usize) {
        Some(list) => list.as_slice(),
        None => &[],
    }
}

// The procedure that a site of a procedure calls.
pub fn callee_at(lists: &[Items<u32>], proc: u32, site: u32) -> Option<u32>
    ensures { result ≡ slice_get (list_at lists.now proc) site }
{
    list_at(lists, proc).get(site as usize).copied()
}
