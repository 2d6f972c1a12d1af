//! The operators of expressions: those of bools, and SMT-LIB's of bit vectors.

/// An operator with one operand. w is the width of a bit-vector operand.
#[derive(Clone, Copy, Debug, PartialEq, Eq, Hash)]
pub enum UnOp {
    /// `!a`, of a bool.
    Not,
    /// `a[hi:lo]`: the bits from lo up to, but without, hi, where lo < hi <= w.
    Extract { hi: u32, lo: u32 },
    /// `bvnot`: each bit turned.
    BvNot,
    /// `bvneg`: 0 - a modulo 2^w.
    BvNeg,
    /// `zero_extend k`: k zeros above, where w + k <= 64.
    ZeroExtend(u32),
    /// `sign_extend k`: k copies of the sign bit above, where w + k <= 64.
    SignExtend(u32),
}

/// An operator with two operands. Those of bit vectors from `BvAnd` on take two of one width.
#[derive(Clone, Copy, Debug, PartialEq, Eq, Hash)]
pub enum BvOp {
    /// `a && b`, of bools.
    And,
    /// `a || b`, of bools.
    Or,
    /// `a ==> b`, of bools.
    Implies,
    /// `a <==> b`, of bools.
    Iff,
    /// `a == b`, of bools, or of bit vectors of one width.
    Eq,
    /// `a != b`, of bools, or of bit vectors of one width.
    Ne,
    /// `a ++ b`: a in the high bits, where the widths add up to at most 64.
    Concat,
    BvAnd,
    BvOr,
    BvXor,
    BvAdd,
    BvSub,
    BvMul,
    /// The quotient of the unsigned numbers; all ones where b is 0.
    BvUdiv,
    /// The remainder of the unsigned numbers; a where b is 0.
    BvUrem,
    /// The quotient of the signed numbers, rounded towards 0.
    BvSdiv,
    /// The remainder of the signed numbers, with the sign of a.
    BvSrem,
    /// The remainder of the signed numbers, with the sign of b.
    BvSmod,
    /// Shift left by the number b.
    BvShl,
    /// Shift right by the number b, zeros above.
    BvLshr,
    /// Shift right by the number b, copies of the sign bit above.
    BvAshr,
    BvUlt,
    BvUle,
    BvUgt,
    BvUge,
    BvSlt,
    BvSle,
    BvSgt,
    BvSge,
}
