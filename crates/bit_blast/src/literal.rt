//! Words that carry literals, by the wires of the constants.
ghost use Rattle.std.specs.Prelude.{◌≡◌, ℕ, List, Bool, ◌+◌, length, IfOk};
ghost use Rattle.hy_val.specs.Sorts.{rank, scalar_of};
ghost use Rattle.bit_blast.specs.Words.{IsWire, IsWord, Says, bits};
ghost use Rattle.bit_blast.specs.Blasted.{atom_bits, low_bits, scalar_width};
ghost use Rattle.bit_blast.specs.Standing.{HasConstants};

use crate::places::scalar_width;
use gate_net::Net;
use hy_val::Atom;
use std::alloc::{AllocError, Global};

// The wire of a constant.
fn constant(net: &Net, value: bool) -> usize
    requires { HasConstants net.now }
    ensures wire { IsWire net.now result }
    ensures value { Says net.now result (λ ins. value) }
{
    if value { net.inputs + 1 } else { net.inputs }
}

// The word of so many bits of a number.
fn number_word(
    alloc: Global,
    net: &Net,
    number: u64,
    width: usize,
) -> Result<Vec<usize>, AllocError>
    requires { HasConstants net.now }
    ensures word { IfOk result (λ out. IsWord net.now width out.items) }
    ensures bits { IfOk result (λ out. (ins : List Bool) → length ins ≡ net.now.inputs → bits ins net.now out.items ≡ low_bits width number) }
{
    let mut out = Vec::new(alloc);
    let mut rest = number;
    for i in 0..width {
        let _ = i;
        out.push(constant(net, rest % 2 == 1))?;
        rest /= 2;
    }
    Ok(out)
}

/// The word of a literal, which takes no gates.
pub(crate) fn literal(alloc: Global, net: &Net, atom: Atom) -> Result<Vec<usize>, AllocError>
    requires { HasConstants net.now }
    ensures word { IfOk result (λ out. IsWord net.now (scalar_width (scalar_of atom)) out.items) }
    ensures bits { IfOk result (λ out. (ins : List Bool) → length ins ≡ net.now.inputs → bits ins net.now out.items ≡ atom_bits atom) }
{
    let word = number_word(alloc, net, atom.rank(), scalar_width(atom.sort()))?;
    Ok(word)
}
