//! Words of wires, and one gate for each two bits of two words.
ghost use Rattle.std.specs.Prelude.{◌≡◌, ℕ, List, Bool, ◌+◌, ◌<◌, ◌≤◌, drop, length, replicate, take, IfOk, IsTrue};
ghost use Rattle.gate_net.specs.Net.{gate_value, is_lower, values};
ghost use Rattle.bit_blast.specs.Words.{AreWires, Grows, IsWire, IsWord, Says, bits};
ghost use Rattle.bit_blast.specs.Pairings.{IsPairing, pair_gate, pair_value, zipped};

use gate_net::{Net, NetGate};
use std::alloc::{AllocError, Global};

/// A gate over one bit of each of two words.
#[derive(Clone, Copy, Debug, PartialEq, Eq)]
pub enum Pairing {
    And,
    Or,
    Xor,
    /// The bit of the first word where the wire `pick` is true, and else that of the second.
    Mux { pick: usize },
}

// The gate on two bits.
fn gate(pairing: Pairing, a: usize, b: usize) -> NetGate
    ensures { result ≡ pair_gate pairing a b }
{
    match pairing {
        Pairing::And => NetGate::And { a, b },
        Pairing::Or => NetGate::Mux {
            pick: a,
            yes: a,
            no: b,
        },
        Pairing::Xor => NetGate::Xor { a, b },
        Pairing::Mux { pick } => NetGate::Mux {
            pick,
            yes: a,
            no: b,
        },
    }
}

/// Answers a wire that carries what this gate over wires of the net would: the gate is added where none carries it yet.
/// `AllocError` comes where memory runs out.
pub fn push(net: &mut Net, gate: NetGate) -> Result<usize, AllocError>
    requires { IsTrue (is_lower (net.old.inputs + length net.old.gates.items) gate) }
    ensures grows { Grows net.old net.new 1 }
    ensures wire { IfOk result (λ k. IsWire net.new k) }
    ensures value { IfOk result (λ k. Says net.new k (λ ins. gate_value (values ins net.old.gates.items) gate)) }
{
    net.add(gate)
}

/// A gate on each two bits at one place of two words of the same width: at most one gate for each place. `AllocError`
/// comes where memory runs out, and the net may then have some of the gates.
pub fn zip(
    alloc: Global,
    net: &mut Net,
    pairing: Pairing,
    a: &[usize],
    b: &[usize],
) -> Result<Vec<usize>, AllocError>
    requires pairing { IsPairing net.old pairing }
    requires same { length b.now ≡ length a.now }
    requires a { AreWires net.old a.now }
    requires b { AreWires net.old b.now }
    ensures grows { Grows net.old net.new (length a.now) }
    ensures word { IfOk result (λ out. IsWord net.new (length a.now) out.items) }
    ensures bits { IfOk result (λ out. (ins : List Bool) → length ins ≡ net.old.inputs → bits ins net.new out.items ≡ zipped (pair_value ins net.old pairing) (bits ins net.old a.now) (bits ins net.old b.now)) }
{
    let mut out = Vec::new(alloc);
    for (i, x) in a.iter().enumerate() {
        let wire = push(net, gate(pairing, *x, b[i]))?;
        out.push(wire)?;
    }
    Ok(out)
}

/// A word whose bits are all this wire.
pub fn repeated(alloc: Global, wire: usize, width: usize) -> Result<Vec<usize>, AllocError>
    ensures { IfOk result (λ out. out.items ≡ replicate width wire) }
{
    vec![in alloc; wire; width]
}

/// The word of so many inputs, from one on.
pub fn inputs(
    alloc: Global,
    net: &Net,
    first: usize,
    width: usize,
) -> Result<Vec<usize>, AllocError>
    requires { first + width ≤ net.now.inputs }
    ensures word { IfOk result (λ out. IsWord net.now width out.items) }
    ensures bits { IfOk result (λ out. (ins : List Bool) → length ins ≡ net.now.inputs → bits ins net.now out.items ≡ take width (drop first ins)) }
{
    let mut out = Vec::new(alloc);
    for i in 0..width {
        out.push(first + i)?;
    }
    Ok(out)
}
