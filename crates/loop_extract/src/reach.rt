//! Which blocks of a procedure are reached, in one pass in the order of their numbers: an edge back leads to a block that is reached before.
ghost use Rattle.std.specs.Prelude.{◌≡◌, ◌<◌, ◌||◌, ◌&&◌, ℕ, false, [], ◌∷◌, length, replicate, slice_index_or, IfOk};
ghost use Rattle.extract_def.specs.Scopes.{is_in, reached_from, targets_of};
ghost use Rattle.loop_extract.specs.Flags.{ups};

use sqlite_items::Items;
use src_prog::{Next, SrcBlock};
use std::alloc::{AllocError, Global};

// An edge leads to each of these blocks.
fn mark(flags: &mut Vec<bool>, targets: &[u32])
    ensures size { length flags.new.items ≡ length flags.old.items }
    ensures marks { (n : ℕ) → n < length flags.old.items → slice_index_or flags.new.items n false ≡ (slice_index_or flags.old.items n false || is_in n targets.now) }
{
    for target in targets {
        let number = *target as usize;
        if number < flags.len() {
            flags[number] = true;
        }
    }
}

// An edge leads to each block at which this one goes on.
fn mark_next(flags: &mut Vec<bool>, next: &Next)
    ensures size { length flags.new.items ≡ length flags.old.items }
    ensures marks { (n : ℕ) → n < length flags.old.items → slice_index_or flags.new.items n false ≡ (slice_index_or flags.old.items n false || is_in n (targets_of next.now)) }
{
    match next {
        Next::Goto(targets) => mark(flags, targets.as_slice()),
        Next::Return => {}
    }
}

// Whether the block of this number is reached; if so, an edge leads to each block at which it goes on.
fn visit(flags: &mut Vec<bool>, number: usize, block: &SrcBlock) -> bool
    requires { number < length flags.old.items }
    ensures size { length flags.new.items ≡ length flags.old.items }
    ensures flag { result ≡ slice_index_or flags.old.items number false }
    ensures marks { (n : ℕ) → n < length flags.old.items → slice_index_or flags.new.items n false ≡ (slice_index_or flags.old.items n false || (result && is_in n (targets_of block.now.next))) }
{
    let flag = flags[number];
    if flag {
        mark_next(flags, &block.next);
    }
    flag
}

// So many flags, none of them up.
fn all_down(alloc: Global, count: usize) -> Result<Vec<bool>, AllocError>
    ensures { IfOk result (λ flags. flags.items ≡ replicate count false) }
{
    vec![in alloc; false; count]
}

/// A flag for each block, up where it is reached. Looks at each block and each edge once.
pub fn reached(alloc: Global, blocks: &[SrcBlock]) -> Result<Items<bool>, AllocError>
    ensures exact { IfOk result (λ flags. ups 0 flags ≡ reached_from 0 blocks.now (0 ∷ [])) }
    ensures size { IfOk result (λ flags. length flags ≡ length blocks.now) }
{
    let mut flags = all_down(alloc, blocks.len())?;
    mark(&mut flags, &[0]);
    let mut up = Items::new(alloc);
    for (number, block) in blocks.iter().enumerate() {
        let flag = visit(&mut flags, number, block);
        up.push(flag)?;
    }
    Ok(up)
}
