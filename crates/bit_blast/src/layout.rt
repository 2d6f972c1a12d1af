//! Words whose bits are wires of other words: these take no gates, but for a zero.
ghost use Rattle.std.specs.Prelude.{◌≡◌, ℕ, List, Bool, ◌-◌, ◌+◌, ◌<◌, ◌≤◌, ◌++◌, length, IfOk};
ghost use Rattle.gate_net.specs.declared.net.Net.{Net};
ghost use Rattle.hy_val.specs.Bits.{concat, extract, sign_extend};
ghost use Rattle.bit_blast.specs.Words.{AreWires, Grows, IsWord, Means, word};
ghost use Rattle.bit_blast.specs.Moves.{moved};

use crate::word::{push, repeated};
use gate_net::{Net, NetGate};
use std::alloc::{AllocError, Global};

/// A word with another one in the bits above it.
pub fn joined(alloc: Global, low: &[usize], high: &[usize]) -> Result<Vec<usize>, AllocError>
    ensures { IfOk result (λ out. out.items ≡ low.now ++ high.now) }
{
    let mut out = Vec::from_slice(alloc, low)?;
    out.extend_from_slice(high)?;
    Ok(out)
}

/// Towards the high bits, or towards the low ones.
#[derive(Clone, Copy, Debug, PartialEq, Eq)]
pub enum Direction {
    Left,
    Right,
}

// The word moved to the left.
fn moved_left(alloc: Global, a: &[usize], by: usize, fill: usize) -> Result<Vec<usize>, AllocError>
    requires { by ≤ length a.now }
    ensures { IfOk result (λ out. out.items ≡ moved Direction.Left by fill a.now) }
{
    let free = repeated(alloc, fill, by)?;
    let out = joined(alloc, free.as_slice(), &a[..a.len() - by])?;
    Ok(out)
}

// The word moved to the right.
fn moved_right(alloc: Global, a: &[usize], by: usize, fill: usize) -> Result<Vec<usize>, AllocError>
    requires { by ≤ length a.now }
    ensures { IfOk result (λ out. out.items ≡ moved Direction.Right by fill a.now) }
{
    let free = repeated(alloc, fill, by)?;
    let out = joined(alloc, &a[by..], free.as_slice())?;
    Ok(out)
}

/// The word moved by a number of places, with the wire `fill` in the places that are left free.
pub fn moved(
    alloc: Global,
    direction: Direction,
    a: &[usize],
    by: usize,
    fill: usize,
) -> Result<Vec<usize>, AllocError>
    requires { by ≤ length a.now }
    ensures { IfOk result (λ out. out.items ≡ moved direction by fill a.now) }
{
    match direction {
        Direction::Left => moved_left(alloc, a, by, fill),
        Direction::Right => moved_right(alloc, a, by, fill),
    }
}

/// The bits of a word from lo up to, but without, hi.
pub fn extract(alloc: Global, a: &[usize], hi: usize, lo: usize) -> Result<Vec<usize>, AllocError>
    requires order { lo ≤ hi }
    requires within { hi ≤ length a.now }
    ensures word { IfOk result (λ out. (net : Net) → AreWires net a.now → IsWord net (hi - lo) out.items) }
    ensures value { IfOk result (λ out. (net : Net) (ins : List Bool) → word ins net out.items ≡ extract hi lo (word ins net a.now)) }
{
    let out = Vec::from_slice(alloc, &a[lo..hi])?;
    Ok(out)
}

/// A word with the bits of `a` above those of `b`.
pub fn concat(alloc: Global, a: &[usize], b: &[usize]) -> Result<Vec<usize>, AllocError>
    ensures word { IfOk result (λ out. (net : Net) → AreWires net a.now → AreWires net b.now → IsWord net (length a.now + length b.now) out.items) }
    ensures value { IfOk result (λ out. (net : Net) (ins : List Bool) → word ins net out.items ≡ concat (length b.now) (word ins net a.now) (word ins net b.now)) }
{
    let out = joined(alloc, b, a)?;
    Ok(out)
}

/// A word, of some bits, with so many copies of its sign bit above.
pub fn sign_extend(alloc: Global, a: &[usize], more: usize) -> Result<Vec<usize>, AllocError>
    requires some { 0 < length a.now }
    ensures word { IfOk result (λ out. (net : Net) → AreWires net a.now → IsWord net (length a.now + more) out.items) }
    ensures value { IfOk result (λ out. (net : Net) (ins : List Bool) → word ins net out.items ≡ sign_extend (length a.now) more (word ins net a.now)) }
{
    let above = repeated(alloc, a[a.len() - 1], more)?;
    let out = joined(alloc, a, above.as_slice())?;
    Ok(out)
}

/// A word with so many zeros above: at most one gate.
pub fn zero_extend(
    alloc: Global,
    net: &mut Net,
    a: &[usize],
    more: usize,
) -> Result<Vec<usize>, AllocError>
    requires a { AreWires net.old a.now }
    ensures grows { Grows net.old net.new 1 }
    ensures word { IfOk result (λ out. IsWord net.new (length a.now + more) out.items) }
    ensures value { IfOk result (λ out. Means net.new out.items (λ ins. word ins net.old a.now)) }
{
    let off = push(net, NetGate::False)?;
    let above = repeated(alloc, off, more)?;
    let out = joined(alloc, a, above.as_slice())?;
    Ok(out)
}
