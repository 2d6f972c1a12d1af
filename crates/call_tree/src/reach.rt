//! Whether a run tree reaches a path, and looking for the child of a node at a site. Nothing here takes memory.
ghost use Rattle.std.specs.Prelude.{◌≡◌, ℕ, List, false, length, slice_get, Some};
ghost use Rattle.std.specs.Option.{option_and_then};
ghost use Rattle.flat_prog.specs.declared.run.RunNode.{RunNode as Node};
ghost use Rattle.flat_prog.specs.Nodes.{run_of};
ghost use Rattle.flat_prog.specs.Program.{blocks_of};
ghost use Rattle.flat_prog.specs.Sites.{calls_of, numbers_from, sites_passed};
ghost use Rattle.call_tree.specs.Descent.{IsRunTree};
ghost use Rattle.call_tree.specs.Pieces.{reaches};
ghost use Rattle.flat_prog.specs.Once.{has_number};
ghost use Rattle.call_tree.specs.Walks.{node_of, child_for};
ghost use Rattle.call_tree.specs.Reaching.{sites_in, Finds};

use crate::path::SitePath;
use crate::sites::{seek_call, seek_sites};
use flat_prog::{
    Child, Flat, FlatBlock, FlatCmd, RunNode, RunTree, nodes_are_runs, sites_are_passed_once,
};

// What a block on the way says of the child at a site.
#[derive(Clone, Copy, Debug, PartialEq, Eq)]
enum InBlock {
    // It is this, or there is none.
    Here(Option<usize>),
    // It is behind so many children.
    Behind(usize),
}

// The node of the child at a place.
fn node_at(children: &[Child], place: usize) -> Option<usize>
    ensures { result ≡ option_and_then node_of (slice_get children.now place) }
{
    match children.get(place) {
        Some(Child::Node(number)) => Some(*number),
        Some(Child::Free { .. }) => None,
        None => None,
    }
}

// The children of a block's calls are passed.
fn passing(cmds: &[FlatCmd], children: &[Child]) -> InBlock
    ensures { (first site : ℕ) → has_number (numbers_from first (length (calls_of cmds.now))) site ≡ false → Finds (numbers_from first (length (calls_of cmds.now))) children.now site result }
{
    match seek_call(cmds, children.len()) {
        Ok(_) => InBlock::Here(None),
        Err(left) => InBlock::Behind(children.len() - left),
    }
}

// The child at a site, as far as a block says it.
fn child_in(blocks: &[FlatBlock], number: u32, children: &[Child], site: u32) -> InBlock
    ensures { Finds (sites_in blocks.now number) children.now site result }
{
    let Some(block) = blocks.get(number as usize) else {
        return InBlock::Behind(0);
    };
    let cmds = block.cmds.as_slice();
    match seek_sites(&blocks[..number as usize], site as usize) {
        Ok(_) => passing(cmds, children),
        Err(left) => match seek_call(cmds, left) {
            Ok(_) => InBlock::Here(node_at(children, left)),
            Err(_) => passing(cmds, children),
        },
    }
}

/// The node of the child at a site, where the run passes these blocks and the children stand at their sites in order; None where
/// there is none. Takes no memory.
pub fn child_at(blocks: &[FlatBlock], path: &[u32], children: &[Child], site: u32) -> Option<usize>
    ensures { result ≡ child_for (sites_passed blocks.now path.now) children.now site }
{
    let mut rest = children;
    for number in path {
        match child_in(blocks, *number, rest, site) {
            InBlock::Here(child) => return child,
            InBlock::Behind(count) => rest = rest.split_at(count).1,
        }
    }
    None
}

// The node of the child of a node at a site; None where there is none.
fn child_below(flat: &Flat, node: &RunNode, site: u32) -> Option<usize>
    ensures { result ≡ child_for (sites_passed (blocks_of (slice_get flat.now.procs node.now.proc)) node.now.path) node.now.children site }
{
    match flat.procs().get(node.proc as usize) {
        Some(q) => child_at(
            q.blocks.as_slice(),
            node.path.as_slice(),
            node.children.as_slice(),
            site,
        ),
        None => None,
    }
}

// The same for the node of a number.
fn child_of(flat: &Flat, nodes: &[RunNode], number: usize, site: u32) -> Option<usize>
    ensures { (n : Node) → slice_get nodes.now number ≡ Some n → result ≡ child_for (sites_passed (blocks_of (slice_get flat.now.procs n.proc)) n.path) n.children site }
{
    match nodes.get(number) {
        Some(node) => child_below(flat, node, site),
        None => None,
    }
}

/// Whether a run tree has a node at a site path, the calls of each node numbered as the sites of its procedure. The run is a run
/// tree of a procedure of the flat program, so that each node passes a site at most once.
pub fn reaches(flat: &Flat, run: &RunTree, path: &SitePath) -> bool
    requires { IsRunTree flat.now (run_of run.now) }
    ensures { result ≡ reaches flat.now (run_of run.now) path.now }
{
    sites_are_passed_once();
    nodes_are_runs();
    // That the program is one rests on its type.
    let _ = flat.consts();
    let nodes = run.nodes();
    let sites = path.sites();
    let mut at = 0;
    for site in sites {
        match child_of(flat, nodes, at, *site) {
            Some(next) => at = next,
            None => return false,
        }
    }
    true
}
