//! SMT-LIB's operators on the numbers of bit vectors, in machine words.
//!
//! Each takes the width of its operands and their numbers, which are below 2 to the width.
ghost use Rattle.std.specs.Prelude.{◌≡◌, ◌+◌, ◌-◌, ◌%◌, ◌<◌, ◌≤◌, ◌^◌};
ghost use Rattle.hy_val.specs.Bits.{is_negative, signed_value, bvnot, bvneg, bvand, bvor, bvxor, bvadd, bvsub, bvmul, bvudiv, bvurem, absolute, negated_if, signs_differ, bvsdiv, bvsrem, bvsmod, bvshl, bvlshr, bvashr, bvslt, bvsle, concat, extract, sign_extend};
ghost use Rattle.hy_val.specs.Biased.{biased};

use crate::sort::Width;

// The lowest bits of a word.
fn low(width: Width, word: u64) -> u64
    ensures value { result ≡ word % 2 ^ width }
    ensures within { result < 2 ^ width }
    ensures narrow { width ≤ 64 }
{
    word & width.ones()
}

// The number with the sign bit alone.
fn sign_bit(width: Width) -> u64
    ensures { result ≡ 2 ^ (width - 1) }
{
    1u64 << (width.bits() - 1)
}

fn has_sign(width: Width, a: u64) -> bool
    ensures { result ≡ is_negative width a }
{
    sign_bit(width) <= a
}

/// Each bit turned.
pub fn bvnot(width: Width, a: u64) -> u64
    requires { a < 2 ^ width }
    ensures value { result ≡ bvnot width a }
    ensures within { result < 2 ^ width }
{
    width.ones() - a
}

/// 2^width - a, modulo 2^width.
pub fn bvneg(width: Width, a: u64) -> u64
    requires { a < 2 ^ width }
    ensures value { result ≡ bvneg width a }
    ensures within { result < 2 ^ width }
{
    low(width, 0u64.wrapping_sub(a))
}

/// The bits that both have.
pub fn bvand(width: Width, a: u64, b: u64) -> u64
    requires left { a < 2 ^ width }
    requires right { b < 2 ^ width }
    ensures value { result ≡ bvand width a b }
    ensures within { result < 2 ^ width }
{
    a & b
}

/// The bits that one of them has.
pub fn bvor(width: Width, a: u64, b: u64) -> u64
    requires left { a < 2 ^ width }
    requires right { b < 2 ^ width }
    ensures value { result ≡ bvor width a b }
    ensures within { result < 2 ^ width }
{
    a | b
}

/// The bits that just one of them has.
pub fn bvxor(width: Width, a: u64, b: u64) -> u64
    requires left { a < 2 ^ width }
    requires right { b < 2 ^ width }
    ensures value { result ≡ bvxor width a b }
    ensures within { result < 2 ^ width }
{
    a ^ b
}

/// The sum modulo 2^width.
pub fn bvadd(width: Width, a: u64, b: u64) -> u64
    ensures value { result ≡ bvadd width a b }
    ensures within { result < 2 ^ width }
{
    low(width, a.wrapping_add(b))
}

/// The difference modulo 2^width.
pub fn bvsub(width: Width, a: u64, b: u64) -> u64
    requires { b < 2 ^ width }
    ensures value { result ≡ bvsub width a b }
    ensures within { result < 2 ^ width }
{
    low(width, a.wrapping_sub(b))
}

/// The product modulo 2^width.
pub fn bvmul(width: Width, a: u64, b: u64) -> u64
    ensures value { result ≡ bvmul width a b }
    ensures within { result < 2 ^ width }
{
    low(width, a.wrapping_mul(b))
}

/// The quotient of the numbers; all ones where b is 0.
pub fn bvudiv(width: Width, a: u64, b: u64) -> u64
    requires { a < 2 ^ width }
    ensures value { result ≡ bvudiv width a b }
    ensures within { result < 2 ^ width }
{
    if b == 0 { width.ones() } else { a / b }
}

/// The rest of the numbers; a where b is 0.
pub fn bvurem(width: Width, a: u64, b: u64) -> u64
    requires { a < 2 ^ width }
    ensures value { result ≡ bvurem width a b }
    ensures within { result < 2 ^ width }
{
    if b == 0 { a } else { a % b }
}

fn absolute(width: Width, a: u64) -> u64
    requires { a < 2 ^ width }
    ensures value { result ≡ absolute width a }
    ensures within { result < 2 ^ width }
{
    if has_sign(width, a) {
        bvneg(width, a)
    } else {
        a
    }
}

fn negated_if(negate: bool, width: Width, a: u64) -> u64
    requires { a < 2 ^ width }
    ensures value { result ≡ negated_if negate width a }
    ensures within { result < 2 ^ width }
{
    if negate { bvneg(width, a) } else { a }
}

fn signs_differ(width: Width, a: u64, b: u64) -> bool
    ensures { result ≡ signs_differ (is_negative width a) (is_negative width b) }
{
    has_sign(width, a) != has_sign(width, b)
}

/// The quotient of the signed numbers, cut towards zero; where b is 0, that of `bvudiv` on their absolute values, with
/// its sign.
pub fn bvsdiv(width: Width, a: u64, b: u64) -> u64
    requires left { a < 2 ^ width }
    requires right { b < 2 ^ width }
    ensures value { result ≡ bvsdiv width a b }
    ensures within { result < 2 ^ width }
{
    let quotient = bvudiv(width, absolute(width, a), absolute(width, b));
    negated_if(signs_differ(width, a, b), width, quotient)
}

/// The rest of the signed numbers, with the sign of a.
pub fn bvsrem(width: Width, a: u64, b: u64) -> u64
    requires left { a < 2 ^ width }
    requires right { b < 2 ^ width }
    ensures value { result ≡ bvsrem width a b }
    ensures within { result < 2 ^ width }
{
    let rest = bvurem(width, absolute(width, a), absolute(width, b));
    negated_if(has_sign(width, a), width, rest)
}

/// The rest of the signed numbers, with the sign of b.
pub fn bvsmod(width: Width, a: u64, b: u64) -> u64
    requires left { a < 2 ^ width }
    requires right { b < 2 ^ width }
    ensures value { result ≡ bvsmod width a b }
    ensures within { result < 2 ^ width }
{
    let rest = bvurem(width, absolute(width, a), absolute(width, b));
    if rest == 0 {
        return 0;
    }
    match (has_sign(width, a), has_sign(width, b)) {
        (false, false) => rest,
        (true, false) => bvsub(width, b, rest),
        (false, true) => bvadd(width, rest, b),
        (true, true) => bvneg(width, rest),
    }
}

/// a moved up by b places, with zeros below; 0 where b is the width or more.
pub fn bvshl(width: Width, a: u64, b: u64) -> u64
    ensures value { result ≡ bvshl width a b }
    ensures within { result < 2 ^ width }
{
    if b < width.bits() as u64 {
        low(width, a << b)
    } else {
        0
    }
}

/// a moved down by b places, with zeros above; 0 where b is the width or more.
pub fn bvlshr(width: Width, a: u64, b: u64) -> u64
    requires { a < 2 ^ width }
    ensures value { result ≡ bvlshr width a b }
    ensures within { result < 2 ^ width }
{
    if b < width.bits() as u64 { a >> b } else { 0 }
}

/// a moved down by b places, with copies of its sign bit above.
pub fn bvashr(width: Width, a: u64, b: u64) -> u64
    requires { a < 2 ^ width }
    ensures value { result ≡ bvashr width a b }
    ensures within { result < 2 ^ width }
{
    if has_sign(width, a) {
        bvnot(width, bvlshr(width, bvnot(width, a), b))
    } else {
        bvlshr(width, a, b)
    }
}

// The number from 0 to 2^w - 1 that is as far above 0 as the signed value is above -2^(w-1).
fn biased(width: Width, a: u64) -> u64
    requires { a < 2 ^ width }
    ensures { result ≡ biased width a }
{
    let sign = sign_bit(width);
    if sign <= a { a - sign } else { a + sign }
}

/// Whether the signed number a is less than b.
pub fn bvslt(width: Width, a: u64, b: u64) -> bool
    requires left { a < 2 ^ width }
    requires right { b < 2 ^ width }
    ensures { result ≡ bvslt width a b }
{
    biased(width, a) < biased(width, b)
}

/// Whether the signed number a is at most b.
pub fn bvsle(width: Width, a: u64, b: u64) -> bool
    requires left { a < 2 ^ width }
    requires right { b < 2 ^ width }
    ensures { result ≡ bvsle width a b }
{
    biased(width, a) <= biased(width, b)
}

/// Takes the width of b, the low part; with that of a there are at most 64 bits.
pub fn concat(high: Width, low: Width, a: u64, b: u64) -> u64
    requires left { a < 2 ^ high }
    requires right { b < 2 ^ low }
    requires fits { high + low ≤ 64 }
    ensures value { result ≡ concat low a b }
    ensures within { result < 2 ^ (high + low) }
{
    (a << low.bits()) + b
}

/// The bits of a from lo up to hi - 1, where lo < hi <= width.
pub fn extract(width: Width, hi: u32, lo: u32, a: u64) -> u64
    requires some { lo < hi }
    requires fits { hi ≤ width }
    ensures value { result ≡ extract hi lo a }
    ensures within { result < 2 ^ (hi - lo) }
{
    low(Width::new(hi - lo), a >> lo)
}

/// Copies of the sign bit above, k of them, where width + k is at most 64.
pub fn sign_extend(width: Width, k: u32, a: u64) -> u64
    requires left { a < 2 ^ width }
    requires fits { width + k ≤ 64 }
    ensures value { result ≡ sign_extend width k a }
    ensures within { result < 2 ^ (width + k) }
{
    if has_sign(width, a) {
        a + (Width::new(width.bits() + k).ones() - width.ones())
    } else {
        a
    }
}
