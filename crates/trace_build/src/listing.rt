//! The choices of a run tree.
ghost use Rattle.std.specs.Prelude.{◌≡◌, ℕ, IfOk, IsTrue, IsSome, slice_get};
ghost use Rattle.src_run.specs.Machine.{HasStatus};
ghost use Rattle.src_run.specs.declared.machine.Status.TheVariants.{Failed};
ghost use Rattle.flat_prog.specs.Nodes.{run_of};
ghost use Rattle.flat_prog.specs.Runs.{FailsIn, IsFull};
ghost use Rattle.extract_law.specs.Choices.{choices_of};
ghost use Rattle.extract_def.specs.Extraction.{flat_of};

use crate::counts::before_count;
use crate::values::{push_values, window};
use crate::walk::{Walk, enter, walk_out};
use extract_law::failing_trees_have_lists;
use flat_prog::{Flat, RunTree};
use sqlite_items::Items;
use src_prog::Prog;
use src_run::Choice;
use std::alloc::{AllocError, Global};

/// The choices that a run tree of the entry in the flat program stands for, in the order in which
/// the machine asks for them. Where the tree fails, the machine fails on them in the same assert of
/// the same procedure, for every bound within whose caps the tree is.
///
/// The flat program is that of the program, and the entry is the number of a procedure of it, from 0.
/// The only error is want of memory, and a count that no usize holds is that too. The work is linear
/// in the tree's blocks, commands and values.
pub fn choices(
    alloc: Global,
    prog: &Prog,
    flat: &Flat,
    entry: u32,
    run: &RunTree,
) -> Result<Items<Choice>, AllocError>
    requires flat { flat.now ≡ flat_of prog.now }
    requires entry { IsSome (slice_get prog.now.procs entry) }
    ensures value { IfOk result (λ cs. cs ≡ choices_of prog.now flat.now entry (run_of run.now)) }
    ensures fails { IfOk result (λ cs. (bound proc number : ℕ) → IsFull flat.now entry bound (run_of run.now) → FailsIn flat.now entry (run_of run.now) proc number → HasStatus prog.now entry bound cs (Failed proc number)) }
{
    failing_trees_have_lists();
    let _named = prog.consts();
    let _sorts = flat.consts();
    let nodes = run.nodes();
    let before = before_count(prog, entry)?;
    let mut out = Items::new(alloc);
    let root = &nodes[0];
    push_values(alloc, &mut out, window(root.values.as_slice(), 0, before))?;
    let first = enter(alloc, prog, flat, nodes, &mut out, 0, before)?;
    let mut stack = Items::new(alloc);
    stack.push(first)?;
    let mut walk = Walk { out, stack };
    walk_out(alloc, prog, flat, nodes, &mut walk)?;
    let Walk { out, stack: _ } = walk;
    Ok(out)
}
