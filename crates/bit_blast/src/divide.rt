//! Restoring division: from the highest bit of the dividend on, the divisor is taken from what is left where it goes.
ghost use Rattle.std.specs.Prelude.{◌≡◌, ℕ, List, Bool, ◌+◌, ◌*◌, ◌^◌, ◌%◌, nat_le, length, IfOk};
ghost use Rattle.hy_val.specs.Bits.{bvudiv, bvurem};
ghost use Rattle.bit_blast.specs.Words.{AreWires, Grows, IsWire, IsWord, Means, Says, bit, carried, word};
ghost use Rattle.bit_blast.specs.Division.{restored};

use crate::adder::subtract;
use crate::bitwise::choose;
use crate::layout::joined;
use crate::word::{push, repeated};
use gate_net::{Net, NetGate};
use std::alloc::{AllocError, Global};

/// A quotient and a remainder.
#[derive(Drop)]
pub struct Division {
    pub quotient: Vec<usize>,
    pub remainder: Vec<usize>,
}

// What is left after a bit of the dividend, and the bit of the quotient.
#[derive(Drop)]
struct Step {
    rest: Vec<usize>,
    digit: usize,
}

// The divisor `wide`, with a zero above, is taken from the rest with the next bit below it, where it goes.
fn take_away(
    alloc: Global,
    net: &mut Net,
    rest: &[usize],
    next: usize,
    wide: &[usize],
) -> Result<Step, AllocError>
    requires same { length wide.now ≡ length rest.now + 1 }
    requires rest { AreWires net.old rest.now }
    requires next { IsWire net.old next }
    requires wide { AreWires net.old wide.now }
    ensures grows { Grows net.old net.new (5 * length rest.now + 5) }
    ensures word { IfOk result (λ s. IsWord net.new (length rest.now) s.rest.items) }
    ensures digit { IfOk result (λ s. IsWire net.new s.digit) }
    ensures rest { IfOk result (λ s. Means net.new s.rest.items (λ ins. restored (word ins net.old wide.now) (bit (carried ins net.old next) + 2 * word ins net.old rest.now) % 2 ^ length rest.now)) }
    ensures goes { IfOk result (λ s. Says net.new s.digit (λ ins. nat_le (word ins net.old wide.now) (bit (carried ins net.old next) + 2 * word ins net.old rest.now))) }
{
    let width = rest.len();
    let front = joined(alloc, &[next], rest)?;
    let whole = subtract(alloc, net, front.as_slice(), wide)?;
    let less = &whole.sum.as_slice()[..width];
    let kept = &front.as_slice()[..width];
    let rest = choose(alloc, net, whole.carry, less, kept)?;
    Ok(Step {
        rest,
        digit: whole.carry,
    })
}

/// The quotient and the remainder of two words of w bits as numbers from 0; the quotient by 0 is all ones, and the
/// remainder the dividend. At most 5w^2 + 5w + 1 gates.
pub fn divide_words(
    alloc: Global,
    net: &mut Net,
    a: &[usize],
    b: &[usize],
) -> Result<Division, AllocError>
    requires same { length b.now ≡ length a.now }
    requires a { AreWires net.old a.now }
    requires b { AreWires net.old b.now }
    ensures grows { Grows net.old net.new (5 * (length a.now * length a.now) + 5 * length a.now + 1) }
    ensures quotient { IfOk result (λ d. IsWord net.new (length a.now) d.quotient.items) }
    ensures remainder { IfOk result (λ d. IsWord net.new (length a.now) d.remainder.items) }
    ensures bvudiv { IfOk result (λ d. Means net.new d.quotient.items (λ ins. bvudiv (length a.now) (word ins net.old a.now) (word ins net.old b.now))) }
    ensures bvurem { IfOk result (λ d. Means net.new d.remainder.items (λ ins. bvurem (length a.now) (word ins net.old a.now) (word ins net.old b.now))) }
{
    let off = push(net, NetGate::False)?;
    let wide = joined(alloc, b, &[off])?;
    let mut rest = repeated(alloc, off, a.len())?;
    let mut digits = Vec::new(alloc);
    for i in 0..a.len() {
        let step = take_away(
            alloc,
            net,
            rest.as_slice(),
            a[a.len() - 1 - i],
            wide.as_slice(),
        )?;
        digits.push(step.digit)?;
        rest = step.rest;
    }
    digits.reverse();
    Ok(Division {
        quotient: digits,
        remainder: rest,
    })
}
