//! Small words: what the circuits' wires carry, beside the plain arithmetic.
ghost use Rattle.std.specs.Prelude.{◌≡◌, ◌+◌, ◌*◌, ◌<◌, ◌≤◌, length, IfOk};
ghost use Rattle.bit_blast.specs.Words.{AreWires};

use bit_blast::{
    bvadd, bvand, bvashr, bvlshr, bvmul, bvneg, bvnot, bvor, bvsdiv, bvshl, bvsle, bvslt, bvsmod,
    bvsrem, bvsub, bvule, bvult, bvxor, divide_words, equal, inputs, repeated,
};
use gate_net::Net;
use std::alloc::{AllocError, Global};
use std::process::Abort;
use std::test::Fail;

// How many circuits there are below.
const CIRCUITS: u64 = 21;

// The word of one wire.
fn single(alloc: Global, wire: usize) -> Result<Vec<usize>, AllocError> {
    repeated(alloc, wire, 1)
}

// The circuit of a number.
fn circuit(
    alloc: Global,
    net: &mut Net,
    which: u64,
    a: &[usize],
    b: &[usize],
) -> Result<Vec<usize>, AllocError>
    requires some { 0 < length a.now }
    requires same { length b.now ≡ length a.now }
    requires narrow { length a.now ≤ 64 }
    requires a { AreWires net.old a.now }
    requires b { AreWires net.old b.now }
{
    match which {
        0 => bvadd(alloc, net, a, b),
        1 => bvsub(alloc, net, a, b),
        2 => bvmul(alloc, net, a, b),
        3 => bvand(alloc, net, a, b),
        4 => bvor(alloc, net, a, b),
        5 => bvxor(alloc, net, a, b),
        6 => Ok(divide_words(alloc, net, a, b)?.quotient),
        7 => Ok(divide_words(alloc, net, a, b)?.remainder),
        8 => bvshl(alloc, net, a, b),
        9 => bvlshr(alloc, net, a, b),
        10 => bvashr(alloc, net, a, b),
        11 => bvsdiv(alloc, net, a, b),
        12 => bvsrem(alloc, net, a, b),
        13 => bvsmod(alloc, net, a, b),
        14 => bvneg(alloc, net, a),
        15 => bvnot(alloc, net, a),
        16 => single(alloc, bvult(alloc, net, a, b)?),
        17 => single(alloc, bvule(alloc, net, a, b)?),
        18 => single(alloc, bvslt(alloc, net, a, b)?),
        19 => single(alloc, bvsle(alloc, net, a, b)?),
        _ => single(alloc, equal(alloc, net, a, b)?),
    }
}

// All ones.
fn mask(width: u64) -> u64
    requires { width ≤ 4 }
{
    (1u64 << width).wrapping_sub(1)
}

fn negative(width: u64, x: u64) -> bool
    requires some { 1 ≤ width }
    requires narrow { width ≤ 4 }
{
    (x >> (width - 1)) % 2 == 1
}

fn minus(width: u64, x: u64) -> u64
    requires { width ≤ 4 }
{
    0u64.wrapping_sub(x) & mask(width)
}

fn size(width: u64, x: u64) -> u64
    requires some { 1 ≤ width }
    requires narrow { width ≤ 4 }
{
    if negative(width, x) {
        minus(width, x)
    } else {
        x
    }
}

fn quotient(width: u64, x: u64, y: u64) -> u64
    requires { width ≤ 4 }
{
    if y == 0 { mask(width) } else { x / y }
}

fn rest(x: u64, y: u64) -> u64 {
    if y == 0 { x } else { x % y }
}

// The signed quotient.
fn signed_quotient(width: u64, x: u64, y: u64) -> u64
    requires some { 1 ≤ width }
    requires narrow { width ≤ 4 }
{
    let plain = quotient(width, size(width, x), size(width, y)) & mask(width);
    if negative(width, x) != negative(width, y) {
        minus(width, plain)
    } else {
        plain
    }
}

// The signed remainder with the sign of x.
fn signed_rest(width: u64, x: u64, y: u64) -> u64
    requires some { 1 ≤ width }
    requires narrow { width ≤ 4 }
{
    let plain = rest(size(width, x), size(width, y));
    if negative(width, x) {
        minus(width, plain)
    } else {
        plain
    }
}

// The signed remainder with the sign of y.
fn signed_modulus(width: u64, x: u64, y: u64) -> u64
    requires some { 1 ≤ width }
    requires narrow { width ≤ 4 }
{
    let plain = signed_rest(width, x, y);
    if plain != 0 && negative(width, x) != negative(width, y) {
        plain.wrapping_add(y) & mask(width)
    } else {
        plain
    }
}

fn signed_less(width: u64, x: u64, y: u64) -> bool
    requires some { 1 ≤ width }
    requires narrow { width ≤ 4 }
{
    if negative(width, x) != negative(width, y) {
        negative(width, x)
    } else {
        x < y
    }
}

// The shift to the right that copies the sign bit.
fn signed_shift(width: u64, x: u64, y: u64) -> u64
    requires some { 1 ≤ width }
    requires narrow { width ≤ 4 }
    requires far { y < 16 }
{
    if negative(width, x) {
        !((!x & mask(width)) >> y) & mask(width)
    } else {
        x >> y
    }
}

// What the circuit of a number has to give.
fn expected(which: u64, width: u64, x: u64, y: u64) -> u64
    requires some { 1 ≤ width }
    requires narrow { width ≤ 4 }
    requires far { y < 16 }
{
    match which {
        0 => x.wrapping_add(y) & mask(width),
        1 => x.wrapping_sub(y) & mask(width),
        2 => x.wrapping_mul(y) & mask(width),
        3 => x & y,
        4 => x | y,
        5 => x ^ y,
        6 => quotient(width, x, y),
        7 => rest(x, y),
        8 => (x << y) & mask(width),
        9 => x >> y,
        10 => signed_shift(width, x, y),
        11 => signed_quotient(width, x, y),
        12 => signed_rest(width, x, y),
        13 => signed_modulus(width, x, y),
        14 => minus(width, x),
        15 => !x & mask(width),
        16 => (x < y) as u64,
        17 => (x <= y) as u64,
        18 => signed_less(width, x, y) as u64,
        19 => !signed_less(width, y, x) as u64,
        _ => (x == y) as u64,
    }
}

// So many lowest bits of a number, lowest first.
fn bits_of(alloc: Global, count: usize, code: u64) -> Result<Vec<bool>, AllocError>
    ensures { IfOk result (λ v. length v.items ≡ count) }
{
    let mut bits = Vec::new(alloc);
    let mut rest = code;
    for i in 0..count {
        let _ = i;
        bits.push(rest % 2 == 1)?;
        rest = rest / 2;
    }
    Ok(bits)
}

// The number that a word carries.
fn number_of(wires: &[bool], word: &[usize]) -> u64 {
    let mut number = 0u64;
    let mut power = 1u64;
    for wire in word {
        if wires.get(*wire) == Some(&true) {
            number = number.wrapping_add(power);
        }
        power = power.wrapping_mul(2);
    }
    number
}

// All operands of one circuit: a as the low bits of a number and b as the high ones.
fn check_circuit(rt: &impl Abort, alloc: Global, which: u64, width: usize) -> Result<(), AllocError>
    requires some { 1 ≤ width }
    requires narrow { width ≤ 4 }
{
    let mut net = Net::new(alloc, 2 * width)?;
    let a = inputs(alloc, &net, 0, width)?;
    let b = inputs(alloc, &net, width, width)?;
    let out = circuit(alloc, &mut net, which, a.as_slice(), b.as_slice())?;
    for code in 0..256u64 {
        let values = bits_of(alloc, net.inputs, code)?;
        let wires = net.evaluate(alloc, values.as_slice())?;
        let x = code & mask(width as u64);
        let y = (code >> width) % 16 & mask(width as u64);
        let wanted = expected(which, width as u64, x, y % 16);
        assert!(rt; number_of(wires.as_slice(), out.as_slice()) == wanted);
    }
    Ok(())
}

#[test]
fn small_words_agree(rt: HostRuntime) -> Result<(), Fail> {
    for which in 0..CIRCUITS {
        for width in 1..5usize {
            check_circuit(&rt, rt.alloc(), which, width)?;
        }
    }
    Ok(())
}
