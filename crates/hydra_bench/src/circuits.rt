//! The gates of circuits over two words, and the clauses that they become.
ghost use Rattle.std.specs.Prelude.{◌*◌, ◌≤◌};

use bit_blast::{bvadd, bvmul, divide_words, inputs};
use gate_net::{Net, clauses};
use std::alloc::{AllocError, Global};

/// What a circuit takes.
#[derive(Clone, Copy)]
pub struct Counts {
    /// Its gates, the two constants among them.
    pub gates: usize,
    /// The clauses of the net.
    pub clauses: usize,
}

/// The circuits that are counted.
#[derive(Clone, Copy)]
pub enum Circuit {
    /// The sum.
    Adder,
    /// The product.
    Multiplier,
    /// Quotient and remainder.
    Divider,
}

/// Adds the circuit over two words of so many inputs each.
fn build(alloc: Global, circuit: Circuit, net: &mut Net, width: usize) -> Result<(), AllocError>
    requires { 2 * width ≤ net.old.inputs }
{
    let a = inputs(alloc, net, 0, width)?;
    let b = inputs(alloc, net, width, width)?;
    match circuit {
        Circuit::Adder => {
            bvadd(alloc, net, a.as_slice(), b.as_slice())?;
        }
        Circuit::Multiplier => {
            bvmul(alloc, net, a.as_slice(), b.as_slice())?;
        }
        Circuit::Divider => {
            divide_words(alloc, net, a.as_slice(), b.as_slice())?;
        }
    }
    Ok(())
}

/// Builds the circuit over two words of so many bits, 64 at most, and counts.
pub fn count(alloc: Global, circuit: Circuit, width: u64) -> Result<Counts, AllocError> {
    let width = width.min(64) as usize;
    let mut net = Net::new(alloc, 2 * width)?;
    build(alloc, circuit, &mut net, width)?;
    Ok(Counts {
        gates: net.wires().saturating_sub(2 * width),
        clauses: clauses(alloc, &net)?.clauses.len(),
    })
}
