//! The call sites of procedures: their calls, numbered from 0 by block and position. Nothing here takes memory.
ghost use Rattle.std.specs.Prelude.{◌≡◌, slice_get};
ghost use Rattle.flat_prog.specs.Sites.{calls_of, sites_of};
ghost use Rattle.call_tree.specs.Trees.{callees, proc_at};
ghost use Rattle.call_tree.specs.Walks.{seek};

use crate::path::SitePath;
use flat_prog::{Flat, FlatBlock, FlatCmd};

// The procedure of a call among commands, or by how much there are too few calls.
pub(crate) fn seek_call(cmds: &[FlatCmd], place: usize) -> Result<u32, usize>
    ensures { result ≡ seek (calls_of cmds.now) place }
{
    let mut left = place;
    for cmd in cmds {
        match cmd {
            FlatCmd::Call { proc, .. } => {
                if left == 0 {
                    return Ok(*proc);
                }
                left -= 1;
            }
            FlatCmd::Assign(_) => {}
            FlatCmd::Havoc(_) => {}
            FlatCmd::Assume(_) => {}
            FlatCmd::Assert { .. } => {}
        }
    }
    Err(left)
}

// The procedure that a site of these blocks calls, or by how much there are too few sites.
pub(crate) fn seek_sites(blocks: &[FlatBlock], site: usize) -> Result<u32, usize>
    ensures { result ≡ seek (sites_of blocks.now) site }
{
    let mut left = site;
    for block in blocks {
        match seek_call(block.cmds.as_slice(), left) {
            Ok(proc) => return Ok(proc),
            Err(more) => left = more,
        }
    }
    Err(left)
}

// The procedure that a site of these blocks calls.
fn seek_site(blocks: &[FlatBlock], site: usize) -> Option<u32>
    ensures { result ≡ slice_get (sites_of blocks.now) site }
{
    seek_sites(blocks, site).ok()
}

/// The procedure that a site of a procedure calls; None where there is no such site.
pub fn callee(flat: &Flat, proc: u32, site: u32) -> Option<u32>
    ensures { result ≡ slice_get (callees flat.now proc) site }
{
    match flat.procs().get(proc as usize) {
        Some(q) => seek_site(q.blocks.as_slice(), site as usize),
        None => None,
    }
}

/// The procedure to which a path leads from the entry; 0 where the path does not exist.
pub fn proc_at(flat: &Flat, entry: u32, path: &SitePath) -> u32
    ensures { result ≡ proc_at flat.now entry path.now }
{
    lead(flat, entry, path.sites())
}

// The procedure to which sites lead from another one; 0 where there are none such.
fn lead(flat: &Flat, from: u32, sites: &[u32]) -> u32
    ensures { result ≡ proc_at flat.now from sites.now }
{
    let mut at = from;
    for site in sites {
        match callee(flat, at, *site) {
            Some(next) => at = next,
            None => return 0,
        }
    }
    at
}
