//! Multiplication: for each bit of one word the other one, moved to its place, is added where the bit is true.
ghost use Rattle.std.specs.Prelude.{◌≡◌, ℕ, List, Bool, ◌+◌, ◌*◌, ◌<◌, length, IfOk};
ghost use Rattle.hy_val.specs.Bits.{bvmul};
ghost use Rattle.bit_blast.specs.Words.{AreWires, Grows, IsWord, Means, word};

use crate::adder::add_with_carry;
use crate::bitwise::masked;
use crate::layout::{Direction, moved};
use crate::word::{push, repeated};
use gate_net::{Net, NetGate};
use std::alloc::{AllocError, Global};

/// The product modulo 2^w of two words of w bits: at most 4w^2 + 1 gates.
pub fn bvmul(
    alloc: Global,
    net: &mut Net,
    a: &[usize],
    b: &[usize],
) -> Result<Vec<usize>, AllocError>
    requires same { length b.now ≡ length a.now }
    requires a { AreWires net.old a.now }
    requires b { AreWires net.old b.now }
    ensures grows { Grows net.old net.new (4 * (length a.now * length a.now) + 1) }
    ensures word { IfOk result (λ out. IsWord net.new (length a.now) out.items) }
    ensures value { IfOk result (λ out. Means net.new out.items (λ ins. bvmul (length a.now) (word ins net.old a.now) (word ins net.old b.now))) }
{
    let off = push(net, NetGate::False)?;
    let mut out = repeated(alloc, off, a.len())?;
    for (i, bit) in b.iter().enumerate() {
        let far = moved(alloc, Direction::Left, a, i, off)?;
        let part = masked(alloc, net, *bit, far.as_slice())?;
        let whole = add_with_carry(alloc, net, out.as_slice(), part.as_slice(), off)?;
        out = whole.sum;
    }
    Ok(out)
}
