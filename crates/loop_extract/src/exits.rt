//! The exits of a loop, found by a walk over the blocks of the loop alone.
ghost use Rattle.std.specs.Prelude.{◌≡◌, ◌++◌, [], false, if◌then◌else◌, length, filter, slice_get, slice_index_or, IfOk, OnOk};
ghost use Rattle.src_prog.specs.Loops.{holds_block};
ghost use Rattle.extract_def.specs.Exits as spec;
ghost use Rattle.extract_def.specs.Scopes.{reached_blocks};
ghost use Rattle.loop_extract.specs.Flags.{ups};

use crate::numbers::small;
use extract_def::{Dest, Edge};
use sqlite_items::Items;
use src_prog::{Next, SrcBlock, SrcLoop, SrcProc};
use std::alloc::{AllocError, Global};

/// Whether the loop holds the block.
pub fn holds(span: SrcLoop, block: u32) -> bool
    ensures { result ≡ holds_block span block }
{
    span.head <= block && block < span.exit
}

// The edges of a goto that leave the loop, behind the others.
fn push_edges(
    exits: &mut Items<Edge>,
    span: SrcLoop,
    block: u32,
    targets: &[u32],
) -> Result<(), AllocError>
    ensures { OnOk result (exits.new ≡ exits.old ++ filter (λ e. spec.leaves span e.dest) (spec.edges_to block 0 targets.now)) }
{
    for (k, target) in targets.iter().enumerate() {
        let place = small(k)?;
        if !holds(span, *target) {
            exits.push(Edge {
                block,
                place,
                dest: Dest::At(*target),
            })?;
        }
    }
    Ok(())
}

// The edges of a block that leave the loop, behind the others.
fn push_exits(
    exits: &mut Items<Edge>,
    span: SrcLoop,
    block: u32,
    next: &Next,
) -> Result<(), AllocError>
    ensures { OnOk result (exits.new ≡ exits.old ++ filter (λ e. spec.leaves span e.dest) (spec.edges_of block next.now)) }
{
    match next {
        Next::Goto(targets) => push_edges(exits, span, block, targets.as_slice()),
        Next::Return => exits.push(Edge {
            block,
            place: 0,
            dest: Dest::Back,
        }),
    }
}

// The edges of a block that leave the loop, behind the others, if the block is reached.
fn push_reached(
    exits: &mut Items<Edge>,
    proc: &SrcProc,
    up: &[bool],
    span: SrcLoop,
    block: u32,
) -> Result<(), AllocError>
    requires { length up.now ≡ length proc.now.blocks }
    ensures { OnOk result (exits.new ≡ exits.old ++ (if slice_index_or up.now block false then filter (λ e. spec.leaves span e.dest) (spec.edges_at block (slice_get proc.now.blocks block)) else [])) }
{
    let number = block as usize;
    if number >= up.len() || !up[number] {
        return Ok(());
    }
    push_exits(exits, span, block, &proc.blocks.as_slice()[number].next)
}

/// The exits of a loop, by block and place. Looks at the blocks and edges of the loop alone.
pub fn exits_of(
    alloc: Global,
    proc: &SrcProc,
    up: &[bool],
    span: SrcLoop,
) -> Result<Items<Edge>, AllocError>
    requires size { length up.now ≡ length proc.now.blocks }
    requires reached { ups 0 up.now ≡ reached_blocks proc.now }
    ensures { IfOk result (λ es. es ≡ spec.exits_of proc.now span) }
{
    let mut exits = Items::new(alloc);
    for block in span.head..span.exit {
        push_reached(&mut exits, proc, up, span, block)?;
    }
    Ok(exits)
}
