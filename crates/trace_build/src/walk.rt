//! A walk over the nodes of a run tree, with a stack of its own, that gives each choice once.
ghost use Rattle.std.specs.Prelude.{◌≡◌, ◌++◌, ◌∷◌, [], ◌<◌, length, None, Some, slice_get, IsTrue, IfOk, OnOk};
ghost use Rattle.flat_prog.specs.Nodes.{are_nodes};
ghost use Rattle.src_prog.specs.Program.{Program};
ghost use Rattle.flat_prog.specs.Laws.{run_at};
ghost use Rattle.trace_build.specs.Spots as spec;
ghost use Rattle.trace_build.specs.Steps.{spot_steps, run_steps};
ghost use Rattle.trace_build.specs.Walking.{Passes};

use crate::counts::{own_count, sum, taken_count};
use crate::parts::{blocks_of, cmds_of, kind_at, push_place};
use crate::values::{push_values, window};
use flat_prog::{Child, Flat, FlatCmd, FlatKind, RunNode};
use sqlite_items::Items;
use src_prog::Prog;
use src_run::Choice;
use std::alloc::{AllocError, Global};

/// Where a walk stands in a node. All is numbered from 0.
#[derive(Clone, Copy, Debug, PartialEq, Eq)]
pub struct Spot {
    /// The number of the node.
    pub node: usize,
    /// The number of the block in its procedure.
    pub block: u32,
    /// How many blocks were passed before.
    pub step: usize,
    /// The place of the next command.
    pub cmd: usize,
    /// How many of the node's values are taken.
    pub value: usize,
    /// How many of its children are passed.
    pub child: usize,
}

/// What a walk has given, and where it goes on, the last first.
#[derive(Drop)]
pub struct Walk {
    /// The choices so far.
    pub out: Items<Choice>,
    /// The spots that are left.
    pub stack: Items<Spot>,
}

/// Gives the values that a node takes at its begin and that the machine asks for, behind so many
/// others; then says where the walk goes on.
pub fn enter(
    alloc: Global,
    prog: &Prog,
    flat: &Flat,
    nodes: &[RunNode],
    out: &mut Items<Choice>,
    number: usize,
    before: usize,
) -> Result<Spot, AllocError>
    requires within { number < length nodes.now }
    requires nodes { IsTrue (are_nodes nodes.now) }
    ensures same { IfOk result (λ s. out.old ++ spec.begun_at prog.now flat.now nodes.now before (slice_get nodes.now number) ≡ out.new ++ spec.spot_choices prog.now flat.now nodes.now s) }
    ensures steps { IfOk result (λ s. spot_steps flat.now nodes.now s ≡ run_steps (run_at nodes.now number) flat.now) }
{
    let node = &nodes[number];
    let value = begin(alloc, prog, flat, node, out, before)?;
    Ok(Spot {
        node: number,
        block: 0,
        step: 0,
        cmd: 0,
        value,
        child: 0,
    })
}

// Gives the values that a node takes at its begin and that the machine asks for, behind so many
// others; then says how many are taken.
fn begin(
    alloc: Global,
    prog: &Prog,
    flat: &Flat,
    node: &RunNode,
    out: &mut Items<Choice>,
    before: usize,
) -> Result<usize, AllocError>
    ensures out { OnOk result (out.new ≡ out.old ++ spec.first_choices prog.now flat.now before node.now) }
    ensures value { IfOk result (λ n. n ≡ spec.first_count flat.now before node.now) }
{
    match kind_at(flat, node.proc) {
        FlatKind::Source { proc } => {
            let count = own_count(prog, proc)?;
            push_values(alloc, out, window(node.values.as_slice(), before, count))?;
            let taken = taken_count(flat, node.proc)?;
            let value = sum(before, taken)?;
            Ok(value)
        }
        FlatKind::Loop { .. } => Ok(before),
    }
}

// Passes a call: the walk goes on below it, and behind it later.
fn pass_call(
    alloc: Global,
    prog: &Prog,
    flat: &Flat,
    nodes: &[RunNode],
    walk: &mut Walk,
    node: &RunNode,
    spot: Spot,
) -> Result<(), AllocError>
    requires nodes { IsTrue (are_nodes nodes.now) }
    requires node { slice_get nodes.now spot.node ≡ Some node.now }
    requires cmd { spec.IsCallAt (slice_get (spec.cmds_left flat.now node.now spot) spot.cmd) }
    ensures { OnOk result (Passes prog.now flat.now nodes.now spot walk.old.out walk.old.stack walk.new.out walk.new.stack) }
{
    let cmd = sum(spot.cmd, 1)?;
    let child = sum(spot.child, 1)?;
    match node.children.get(spot.child) {
        Some(Child::Node(number)) => {
            walk.stack.push(Spot { cmd, child, ..spot })?;
            let first = enter(alloc, prog, flat, nodes, &mut walk.out, *number, 0)?;
            walk.stack.push(first)?;
        }
        Some(Child::Free { .. }) => {
            walk.stack.push(Spot { cmd, child, ..spot })?;
        }
        None => walk.stack.push(Spot { cmd, ..spot })?,
    }
    Ok(())
}

// Passes a havoc: it takes a value for each of its names.
fn pass_havoc(
    alloc: Global,
    flat: &Flat,
    nodes: &[RunNode],
    walk: &mut Walk,
    node: &RunNode,
    spot: Spot,
    count: usize,
) -> Result<(), AllocError>
    requires node { slice_get nodes.now spot.node ≡ Some node.now }
    requires cmd { spec.IsHavocAt (slice_get (spec.cmds_left flat.now node.now spot) spot.cmd) count }
    ensures { (prog : Program) → OnOk result (Passes prog flat.now nodes.now spot walk.old.out walk.old.stack walk.new.out walk.new.stack) }
{
    let taken = window(node.values.as_slice(), spot.value, count);
    push_values(alloc, &mut walk.out, taken)?;
    let cmd = sum(spot.cmd, 1)?;
    let value = sum(spot.value, count)?;
    walk.stack.push(Spot { cmd, value, ..spot })?;
    Ok(())
}

// Passes a command that takes no choice.
fn pass_plain(
    flat: &Flat,
    nodes: &[RunNode],
    walk: &mut Walk,
    node: &RunNode,
    spot: Spot,
) -> Result<(), AllocError>
    requires node { slice_get nodes.now spot.node ≡ Some node.now }
    requires cmd { spec.IsPlainAt (slice_get (spec.cmds_left flat.now node.now spot) spot.cmd) }
    ensures { (prog : Program) → OnOk result (Passes prog flat.now nodes.now spot walk.old.out walk.old.stack walk.new.out walk.new.stack) }
{
    let cmd = sum(spot.cmd, 1)?;
    walk.stack.push(Spot { cmd, ..spot })?;
    Ok(())
}

// Passes a command.
fn pass_cmd(
    alloc: Global,
    prog: &Prog,
    flat: &Flat,
    nodes: &[RunNode],
    walk: &mut Walk,
    node: &RunNode,
    spot: Spot,
    cmd: &FlatCmd,
) -> Result<(), AllocError>
    requires nodes { IsTrue (are_nodes nodes.now) }
    requires node { slice_get nodes.now spot.node ≡ Some node.now }
    requires cmd { slice_get (spec.cmds_left flat.now node.now spot) spot.cmd ≡ Some cmd.now }
    ensures { OnOk result (Passes prog.now flat.now nodes.now spot walk.old.out walk.old.stack walk.new.out walk.new.stack) }
{
    match cmd {
        FlatCmd::Assign(_) => pass_plain(flat, nodes, walk, node, spot),
        FlatCmd::Havoc(names) => pass_havoc(alloc, flat, nodes, walk, node, spot, names.len()),
        FlatCmd::Assume(_) => pass_plain(flat, nodes, walk, node, spot),
        FlatCmd::Assert { .. } => pass_plain(flat, nodes, walk, node, spot),
        FlatCmd::Call { .. } => pass_call(alloc, prog, flat, nodes, walk, node, spot),
    }
}

// Passes the end of a block: the walk goes on in the next of the path, if there is one.
fn pass_block(
    flat: &Flat,
    nodes: &[RunNode],
    walk: &mut Walk,
    node: &RunNode,
    spot: Spot,
) -> Result<(), AllocError>
    requires node { slice_get nodes.now spot.node ≡ Some node.now }
    requires cmd { slice_get (spec.cmds_left flat.now node.now spot) spot.cmd ≡ None }
    ensures { (prog : Program) → OnOk result (Passes prog flat.now nodes.now spot walk.old.out walk.old.stack walk.new.out walk.new.stack) }
{
    let step = sum(spot.step, 1)?;
    match node.places.get(spot.step) {
        Some(place) => match node.path.get(step) {
            Some(block) => {
                let blocks = blocks_of(flat, node.proc);
                push_place(flat, blocks, spot.block, *place, &mut walk.out)?;
                walk.stack.push(Spot {
                    block: *block,
                    step,
                    cmd: 0,
                    ..spot
                })?;
            }
            None => {}
        },
        None => {}
    }
    Ok(())
}

// One step of the walk from a spot that was the last one.
fn advance(
    alloc: Global,
    prog: &Prog,
    flat: &Flat,
    nodes: &[RunNode],
    walk: &mut Walk,
    spot: Spot,
) -> Result<(), AllocError>
    requires nodes { IsTrue (are_nodes nodes.now) }
    ensures { OnOk result (Passes prog.now flat.now nodes.now spot walk.old.out walk.old.stack walk.new.out walk.new.stack) }
{
    match nodes.get(spot.node) {
        Some(node) => {
            let blocks = blocks_of(flat, node.proc);
            match cmds_of(blocks, spot.block).get(spot.cmd) {
                Some(cmd) => pass_cmd(alloc, prog, flat, nodes, walk, node, spot, cmd),
                None => pass_block(flat, nodes, walk, node, spot),
            }
        }
        None => Ok(()),
    }
}

/// What the walk gives before its stack is empty, behind the other choices.
pub fn walk_out(
    alloc: Global,
    prog: &Prog,
    flat: &Flat,
    nodes: &[RunNode],
    walk: &mut Walk,
) -> Result<(), AllocError>
    requires { IsTrue (are_nodes nodes.now) }
    ensures { OnOk result (walk.new.out ≡ walk.old.out ++ spec.stack_choices prog.now flat.now nodes.now walk.old.stack) }
{
    while let Some(spot) = walk.stack.pop() {
        advance(alloc, prog, flat, nodes, walk, spot)?;
    }
    Ok(())
}
