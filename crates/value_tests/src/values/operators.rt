//! The operators' values, against tables that were computed apart from this crate, by the words of
//! SMT-LIB 2.6: bit by bit, and on integers of any size.

use hy_val::{
    Atom, AtomKind, BitVec, BvOp, Scalar, UnOp, Width, apply, apply1, sort_of_binary, sort_of_unary,
};
use std::process::Abort;

pub fn word(rt: &impl Abort, width: u32, bits: u64) -> Atom {
    let width = Width::try_new(width).expect(rt, "1 to 64 bits");
    Atom::bits(BitVec::try_new(width, bits).expect(rt, "bits below 2 to the width"))
}

// A bool as 0 or 1.
fn number(atom: Atom) -> u64 {
    match atom.kind() {
        AtomKind::Bool(b) => b as u64,
        AtomKind::Bv(v) => v.bits(),
    }
}

fn value(rt: &impl Abort, op: BvOp, a: Atom, b: Atom) -> Atom {
    let sort = sort_of_binary(op, a.sort(), b.sort());
    assert!(rt; sort.is_some());
    apply(op, a, b)
}

fn value1(rt: &impl Abort, op: UnOp, a: Atom) -> Atom {
    let sort = sort_of_unary(op, a.sort());
    assert!(rt; sort.is_some());
    apply1(op, a)
}

// An operator at 0, 1, all ones and the least signed number, with each of these as the right
// operand in turn.
fn corners(rt: &impl Abort, width: u32, numbers: [u64; 4], op: BvOp, expected: &[u64; 16]) {
    for i in 0..4 {
        for j in 0..4 {
            let result = value(
                rt,
                op,
                word(rt, width, numbers[i]),
                word(rt, width, numbers[j]),
            );
            assert_eq!(rt;
                number(result),
                expected[4 * i + j],
                "{op:?} {width} {i} {j}"
            );
        }
    }
}

// At width 1 all ones and the least signed number are 1.
const CORNERS_OF_1: [(BvOp, [u64; 16]); 24] = [
    (BvOp::Eq, [1, 0, 0, 0, 0, 1, 1, 1, 0, 1, 1, 1, 0, 1, 1, 1]),
    (BvOp::Ne, [0, 1, 1, 1, 1, 0, 0, 0, 1, 0, 0, 0, 1, 0, 0, 0]),
    (
        BvOp::BvAnd,
        [0, 0, 0, 0, 0, 1, 1, 1, 0, 1, 1, 1, 0, 1, 1, 1],
    ),
    (BvOp::BvOr, [0, 1, 1, 1, 1, 1, 1, 1, 1, 1, 1, 1, 1, 1, 1, 1]),
    (
        BvOp::BvXor,
        [0, 1, 1, 1, 1, 0, 0, 0, 1, 0, 0, 0, 1, 0, 0, 0],
    ),
    (
        BvOp::BvAdd,
        [0, 1, 1, 1, 1, 0, 0, 0, 1, 0, 0, 0, 1, 0, 0, 0],
    ),
    (
        BvOp::BvSub,
        [0, 1, 1, 1, 1, 0, 0, 0, 1, 0, 0, 0, 1, 0, 0, 0],
    ),
    (
        BvOp::BvMul,
        [0, 0, 0, 0, 0, 1, 1, 1, 0, 1, 1, 1, 0, 1, 1, 1],
    ),
    (
        BvOp::BvUdiv,
        [1, 0, 0, 0, 1, 1, 1, 1, 1, 1, 1, 1, 1, 1, 1, 1],
    ),
    (
        BvOp::BvUrem,
        [0, 0, 0, 0, 1, 0, 0, 0, 1, 0, 0, 0, 1, 0, 0, 0],
    ),
    (
        BvOp::BvSdiv,
        [1, 0, 0, 0, 1, 1, 1, 1, 1, 1, 1, 1, 1, 1, 1, 1],
    ),
    (
        BvOp::BvSrem,
        [0, 0, 0, 0, 1, 0, 0, 0, 1, 0, 0, 0, 1, 0, 0, 0],
    ),
    (
        BvOp::BvSmod,
        [0, 0, 0, 0, 1, 0, 0, 0, 1, 0, 0, 0, 1, 0, 0, 0],
    ),
    (
        BvOp::BvShl,
        [0, 0, 0, 0, 1, 0, 0, 0, 1, 0, 0, 0, 1, 0, 0, 0],
    ),
    (
        BvOp::BvLshr,
        [0, 0, 0, 0, 1, 0, 0, 0, 1, 0, 0, 0, 1, 0, 0, 0],
    ),
    (
        BvOp::BvAshr,
        [0, 0, 0, 0, 1, 1, 1, 1, 1, 1, 1, 1, 1, 1, 1, 1],
    ),
    (
        BvOp::BvUlt,
        [0, 1, 1, 1, 0, 0, 0, 0, 0, 0, 0, 0, 0, 0, 0, 0],
    ),
    (
        BvOp::BvUle,
        [1, 1, 1, 1, 0, 1, 1, 1, 0, 1, 1, 1, 0, 1, 1, 1],
    ),
    (
        BvOp::BvUgt,
        [0, 0, 0, 0, 1, 0, 0, 0, 1, 0, 0, 0, 1, 0, 0, 0],
    ),
    (
        BvOp::BvUge,
        [1, 0, 0, 0, 1, 1, 1, 1, 1, 1, 1, 1, 1, 1, 1, 1],
    ),
    (
        BvOp::BvSlt,
        [0, 0, 0, 0, 1, 0, 0, 0, 1, 0, 0, 0, 1, 0, 0, 0],
    ),
    (
        BvOp::BvSle,
        [1, 0, 0, 0, 1, 1, 1, 1, 1, 1, 1, 1, 1, 1, 1, 1],
    ),
    (
        BvOp::BvSgt,
        [0, 1, 1, 1, 0, 0, 0, 0, 0, 0, 0, 0, 0, 0, 0, 0],
    ),
    (
        BvOp::BvSge,
        [1, 1, 1, 1, 0, 1, 1, 1, 0, 1, 1, 1, 0, 1, 1, 1],
    ),
];

const CORNERS_OF_8: [(BvOp, [u64; 16]); 24] = [
    (BvOp::Eq, [1, 0, 0, 0, 0, 1, 0, 0, 0, 0, 1, 0, 0, 0, 0, 1]),
    (BvOp::Ne, [0, 1, 1, 1, 1, 0, 1, 1, 1, 1, 0, 1, 1, 1, 1, 0]),
    (
        BvOp::BvAnd,
        [0, 0, 0, 0, 0, 1, 1, 0, 0, 1, 255, 128, 0, 0, 128, 128],
    ),
    (
        BvOp::BvOr,
        [
            0, 1, 255, 128, 1, 1, 255, 129, 255, 255, 255, 255, 128, 129, 255, 128,
        ],
    ),
    (
        BvOp::BvXor,
        [
            0, 1, 255, 128, 1, 0, 254, 129, 255, 254, 0, 127, 128, 129, 127, 0,
        ],
    ),
    (
        BvOp::BvAdd,
        [
            0, 1, 255, 128, 1, 2, 0, 129, 255, 0, 254, 127, 128, 129, 127, 0,
        ],
    ),
    (
        BvOp::BvSub,
        [
            0, 255, 1, 128, 1, 0, 2, 129, 255, 254, 0, 127, 128, 127, 129, 0,
        ],
    ),
    (
        BvOp::BvMul,
        [0, 0, 0, 0, 0, 1, 255, 128, 0, 255, 1, 128, 0, 128, 128, 0],
    ),
    (
        BvOp::BvUdiv,
        [255, 0, 0, 0, 255, 1, 0, 0, 255, 255, 1, 1, 255, 128, 0, 1],
    ),
    (
        BvOp::BvUrem,
        [0, 0, 0, 0, 1, 0, 1, 1, 255, 0, 0, 127, 128, 0, 128, 0],
    ),
    (
        BvOp::BvSdiv,
        [255, 0, 0, 0, 255, 1, 255, 0, 1, 255, 1, 0, 1, 128, 128, 1],
    ),
    (
        BvOp::BvSrem,
        [0, 0, 0, 0, 1, 0, 0, 1, 255, 0, 0, 255, 128, 0, 0, 0],
    ),
    (
        BvOp::BvSmod,
        [0, 0, 0, 0, 1, 0, 0, 129, 255, 0, 0, 255, 128, 0, 0, 0],
    ),
    (
        BvOp::BvShl,
        [0, 0, 0, 0, 1, 2, 0, 0, 255, 254, 0, 0, 128, 0, 0, 0],
    ),
    (
        BvOp::BvLshr,
        [0, 0, 0, 0, 1, 0, 0, 0, 255, 127, 0, 0, 128, 64, 0, 0],
    ),
    (
        BvOp::BvAshr,
        [
            0, 0, 0, 0, 1, 0, 0, 0, 255, 255, 255, 255, 128, 192, 255, 255,
        ],
    ),
    (
        BvOp::BvUlt,
        [0, 1, 1, 1, 0, 0, 1, 1, 0, 0, 0, 0, 0, 0, 1, 0],
    ),
    (
        BvOp::BvUle,
        [1, 1, 1, 1, 0, 1, 1, 1, 0, 0, 1, 0, 0, 0, 1, 1],
    ),
    (
        BvOp::BvUgt,
        [0, 0, 0, 0, 1, 0, 0, 0, 1, 1, 0, 1, 1, 1, 0, 0],
    ),
    (
        BvOp::BvUge,
        [1, 0, 0, 0, 1, 1, 0, 0, 1, 1, 1, 1, 1, 1, 0, 1],
    ),
    (
        BvOp::BvSlt,
        [0, 1, 0, 0, 0, 0, 0, 0, 1, 1, 0, 0, 1, 1, 1, 0],
    ),
    (
        BvOp::BvSle,
        [1, 1, 0, 0, 0, 1, 0, 0, 1, 1, 1, 0, 1, 1, 1, 1],
    ),
    (
        BvOp::BvSgt,
        [0, 0, 1, 1, 1, 0, 1, 1, 0, 0, 0, 1, 0, 0, 0, 0],
    ),
    (
        BvOp::BvSge,
        [1, 0, 1, 1, 1, 1, 1, 1, 0, 0, 1, 1, 0, 0, 0, 1],
    ),
];

const CORNERS_OF_64: [(BvOp, [u64; 16]); 24] = [
    (BvOp::Eq, [1, 0, 0, 0, 0, 1, 0, 0, 0, 0, 1, 0, 0, 0, 0, 1]),
    (BvOp::Ne, [0, 1, 1, 1, 1, 0, 1, 1, 1, 1, 0, 1, 1, 1, 1, 0]),
    (
        BvOp::BvAnd,
        [
            0,
            0,
            0,
            0,
            0,
            1,
            1,
            0,
            0,
            1,
            0xffffffffffffffff,
            0x8000000000000000,
            0,
            0,
            0x8000000000000000,
            0x8000000000000000,
        ],
    ),
    (
        BvOp::BvOr,
        [
            0,
            1,
            0xffffffffffffffff,
            0x8000000000000000,
            1,
            1,
            0xffffffffffffffff,
            0x8000000000000001,
            0xffffffffffffffff,
            0xffffffffffffffff,
            0xffffffffffffffff,
            0xffffffffffffffff,
            0x8000000000000000,
            0x8000000000000001,
            0xffffffffffffffff,
            0x8000000000000000,
        ],
    ),
    (
        BvOp::BvXor,
        [
            0,
            1,
            0xffffffffffffffff,
            0x8000000000000000,
            1,
            0,
            0xfffffffffffffffe,
            0x8000000000000001,
            0xffffffffffffffff,
            0xfffffffffffffffe,
            0,
            0x7fffffffffffffff,
            0x8000000000000000,
            0x8000000000000001,
            0x7fffffffffffffff,
            0,
        ],
    ),
    (
        BvOp::BvAdd,
        [
            0,
            1,
            0xffffffffffffffff,
            0x8000000000000000,
            1,
            2,
            0,
            0x8000000000000001,
            0xffffffffffffffff,
            0,
            0xfffffffffffffffe,
            0x7fffffffffffffff,
            0x8000000000000000,
            0x8000000000000001,
            0x7fffffffffffffff,
            0,
        ],
    ),
    (
        BvOp::BvSub,
        [
            0,
            0xffffffffffffffff,
            1,
            0x8000000000000000,
            1,
            0,
            2,
            0x8000000000000001,
            0xffffffffffffffff,
            0xfffffffffffffffe,
            0,
            0x7fffffffffffffff,
            0x8000000000000000,
            0x7fffffffffffffff,
            0x8000000000000001,
            0,
        ],
    ),
    (
        BvOp::BvMul,
        [
            0,
            0,
            0,
            0,
            0,
            1,
            0xffffffffffffffff,
            0x8000000000000000,
            0,
            0xffffffffffffffff,
            1,
            0x8000000000000000,
            0,
            0x8000000000000000,
            0x8000000000000000,
            0,
        ],
    ),
    (
        BvOp::BvUdiv,
        [
            0xffffffffffffffff,
            0,
            0,
            0,
            0xffffffffffffffff,
            1,
            0,
            0,
            0xffffffffffffffff,
            0xffffffffffffffff,
            1,
            1,
            0xffffffffffffffff,
            0x8000000000000000,
            0,
            1,
        ],
    ),
    (
        BvOp::BvUrem,
        [
            0,
            0,
            0,
            0,
            1,
            0,
            1,
            1,
            0xffffffffffffffff,
            0,
            0,
            0x7fffffffffffffff,
            0x8000000000000000,
            0,
            0x8000000000000000,
            0,
        ],
    ),
    (
        BvOp::BvSdiv,
        [
            0xffffffffffffffff,
            0,
            0,
            0,
            0xffffffffffffffff,
            1,
            0xffffffffffffffff,
            0,
            1,
            0xffffffffffffffff,
            1,
            0,
            1,
            0x8000000000000000,
            0x8000000000000000,
            1,
        ],
    ),
    (
        BvOp::BvSrem,
        [
            0,
            0,
            0,
            0,
            1,
            0,
            0,
            1,
            0xffffffffffffffff,
            0,
            0,
            0xffffffffffffffff,
            0x8000000000000000,
            0,
            0,
            0,
        ],
    ),
    (
        BvOp::BvSmod,
        [
            0,
            0,
            0,
            0,
            1,
            0,
            0,
            0x8000000000000001,
            0xffffffffffffffff,
            0,
            0,
            0xffffffffffffffff,
            0x8000000000000000,
            0,
            0,
            0,
        ],
    ),
    (
        BvOp::BvShl,
        [
            0,
            0,
            0,
            0,
            1,
            2,
            0,
            0,
            0xffffffffffffffff,
            0xfffffffffffffffe,
            0,
            0,
            0x8000000000000000,
            0,
            0,
            0,
        ],
    ),
    (
        BvOp::BvLshr,
        [
            0,
            0,
            0,
            0,
            1,
            0,
            0,
            0,
            0xffffffffffffffff,
            0x7fffffffffffffff,
            0,
            0,
            0x8000000000000000,
            0x4000000000000000,
            0,
            0,
        ],
    ),
    (
        BvOp::BvAshr,
        [
            0,
            0,
            0,
            0,
            1,
            0,
            0,
            0,
            0xffffffffffffffff,
            0xffffffffffffffff,
            0xffffffffffffffff,
            0xffffffffffffffff,
            0x8000000000000000,
            0xc000000000000000,
            0xffffffffffffffff,
            0xffffffffffffffff,
        ],
    ),
    (
        BvOp::BvUlt,
        [0, 1, 1, 1, 0, 0, 1, 1, 0, 0, 0, 0, 0, 0, 1, 0],
    ),
    (
        BvOp::BvUle,
        [1, 1, 1, 1, 0, 1, 1, 1, 0, 0, 1, 0, 0, 0, 1, 1],
    ),
    (
        BvOp::BvUgt,
        [0, 0, 0, 0, 1, 0, 0, 0, 1, 1, 0, 1, 1, 1, 0, 0],
    ),
    (
        BvOp::BvUge,
        [1, 0, 0, 0, 1, 1, 0, 0, 1, 1, 1, 1, 1, 1, 0, 1],
    ),
    (
        BvOp::BvSlt,
        [0, 1, 0, 0, 0, 0, 0, 0, 1, 1, 0, 0, 1, 1, 1, 0],
    ),
    (
        BvOp::BvSle,
        [1, 1, 0, 0, 0, 1, 0, 0, 1, 1, 1, 0, 1, 1, 1, 1],
    ),
    (
        BvOp::BvSgt,
        [0, 0, 1, 1, 1, 0, 1, 1, 0, 0, 0, 1, 0, 0, 0, 0],
    ),
    (
        BvOp::BvSge,
        [1, 0, 1, 1, 1, 1, 1, 1, 0, 0, 1, 1, 0, 0, 0, 1],
    ),
];

#[test]
fn corners_of_1(rt: HostRuntime) {
    for (op, expected) in &CORNERS_OF_1 {
        corners(&rt, 1, [0, 1, 1, 1], *op, expected);
    }
}

#[test]
fn corners_of_8(rt: HostRuntime) {
    for (op, expected) in &CORNERS_OF_8 {
        corners(&rt, 8, [0, 1, 255, 128], *op, expected);
    }
}

#[test]
fn corners_of_64(rt: HostRuntime) {
    for (op, expected) in &CORNERS_OF_64 {
        corners(&rt, 64, [0, 1, u64::MAX, 1 << 63], *op, expected);
    }
}

// A number, the amount, and the shift left, right, and right with the sign.
type Shift = (u64, u64, [u64; 3]);

const SHIFTS_OF_1: [Shift; 1] = [(1, 1, [0, 0, 1])];

const SHIFTS_OF_8: [Shift; 20] = [
    (255, 7, [128, 1, 255]),
    (255, 8, [0, 0, 255]),
    (255, 9, [0, 0, 255]),
    (255, 16, [0, 0, 255]),
    (255, 255, [0, 0, 255]),
    (128, 7, [0, 1, 255]),
    (128, 8, [0, 0, 255]),
    (128, 9, [0, 0, 255]),
    (128, 16, [0, 0, 255]),
    (128, 255, [0, 0, 255]),
    (127, 7, [128, 0, 0]),
    (127, 8, [0, 0, 0]),
    (127, 9, [0, 0, 0]),
    (127, 16, [0, 0, 0]),
    (127, 255, [0, 0, 0]),
    (5, 7, [128, 0, 0]),
    (5, 8, [0, 0, 0]),
    (5, 9, [0, 0, 0]),
    (5, 16, [0, 0, 0]),
    (5, 255, [0, 0, 0]),
];

const SHIFTS_OF_64: [Shift; 18] = [
    (
        0xffffffffffffffff,
        63,
        [0x8000000000000000, 1, 0xffffffffffffffff],
    ),
    (0xffffffffffffffff, 64, [0, 0, 0xffffffffffffffff]),
    (0xffffffffffffffff, 65, [0, 0, 0xffffffffffffffff]),
    (0xffffffffffffffff, 128, [0, 0, 0xffffffffffffffff]),
    (
        0xffffffffffffffff,
        0x8000000000000000,
        [0, 0, 0xffffffffffffffff],
    ),
    (
        0xffffffffffffffff,
        0xffffffffffffffff,
        [0, 0, 0xffffffffffffffff],
    ),
    (0x8000000000000000, 63, [0, 1, 0xffffffffffffffff]),
    (0x8000000000000000, 64, [0, 0, 0xffffffffffffffff]),
    (0x8000000000000000, 65, [0, 0, 0xffffffffffffffff]),
    (0x8000000000000000, 128, [0, 0, 0xffffffffffffffff]),
    (
        0x8000000000000000,
        0x8000000000000000,
        [0, 0, 0xffffffffffffffff],
    ),
    (
        0x8000000000000000,
        0xffffffffffffffff,
        [0, 0, 0xffffffffffffffff],
    ),
    (0x7fffffffffffffff, 63, [0x8000000000000000, 0, 0]),
    (0x7fffffffffffffff, 64, [0, 0, 0]),
    (0x7fffffffffffffff, 65, [0, 0, 0]),
    (0x7fffffffffffffff, 128, [0, 0, 0]),
    (0x7fffffffffffffff, 0x8000000000000000, [0, 0, 0]),
    (0x7fffffffffffffff, 0xffffffffffffffff, [0, 0, 0]),
];

fn shifts(rt: &impl Abort, width: u32, rows: &[Shift]) {
    for (a, amount, expected) in rows {
        let (a, amount) = (word(rt, width, *a), word(rt, width, *amount));
        assert_eq!(rt; number(value(rt, BvOp::BvShl, a, amount)), expected[0]);
        assert_eq!(rt; number(value(rt, BvOp::BvLshr, a, amount)), expected[1]);
        assert_eq!(rt; number(value(rt, BvOp::BvAshr, a, amount)), expected[2]);
    }
}

#[test]
fn shifts_at_and_above_the_width(rt: HostRuntime) {
    shifts(&rt, 1, &SHIFTS_OF_1);
    shifts(&rt, 8, &SHIFTS_OF_8);
    shifts(&rt, 64, &SHIFTS_OF_64);
}

#[test]
fn signed_and_unsigned_division(rt: HostRuntime) {
    let rows = [
        (BvOp::BvUdiv, 5, 0, 255),
        (BvOp::BvUrem, 5, 0, 5),
        (BvOp::BvSdiv, 128, 255, 128),
        (BvOp::BvSdiv, 249, 0, 1),
        (BvOp::BvSrem, 249, 2, 255),
        (BvOp::BvSrem, 249, 0, 249),
        (BvOp::BvSmod, 249, 2, 1),
        (BvOp::BvSmod, 7, 254, 255),
        (BvOp::BvAshr, 128, 9, 255),
        (BvOp::BvLshr, 255, 8, 0),
    ];
    for (op, a, b, expected) in &rows {
        let result = value(&rt, *op, word(&rt, 8, *a), word(&rt, 8, *b));
        assert_eq!(rt; result, word(&rt, 8, *expected), "{op:?} {a} {b}");
    }
}

#[test]
fn operators_of_one_operand(rt: HostRuntime) {
    let rows = [
        (UnOp::ZeroExtend(8), 8, 255, 16, 255),
        (UnOp::SignExtend(8), 8, 128, 16, 65408),
        (UnOp::SignExtend(8), 8, 127, 16, 127),
        (UnOp::SignExtend(0), 8, 128, 8, 128),
        (UnOp::SignExtend(63), 1, 1, 64, u64::MAX),
        (UnOp::Extract { hi: 8, lo: 4 }, 8, 0xa5, 4, 0xa),
        (UnOp::Extract { hi: 4, lo: 0 }, 8, 0xa5, 4, 0x5),
        (UnOp::Extract { hi: 64, lo: 63 }, 64, 1 << 63, 1, 1),
        (UnOp::BvNot, 8, 0xa5, 8, 0x5a),
        (UnOp::BvNot, 64, 0, 64, u64::MAX),
        (UnOp::BvNeg, 8, 1, 8, 255),
        (UnOp::BvNeg, 8, 128, 8, 128),
        (UnOp::BvNeg, 64, 0, 64, 0),
        (UnOp::BvNeg, 1, 1, 1, 1),
    ];
    for (op, width, a, long, expected) in &rows {
        let result = value1(&rt, *op, word(&rt, *width, *a));
        assert_eq!(rt; result, word(&rt, *long, *expected), "{op:?} {a}");
    }
}

#[test]
fn operators_of_bools(rt: HostRuntime) {
    let rows = [
        (BvOp::And, [false, false, false, true]),
        (BvOp::Or, [false, true, true, true]),
        (BvOp::Implies, [true, true, false, true]),
        (BvOp::Iff, [true, false, false, true]),
        (BvOp::Eq, [true, false, false, true]),
        (BvOp::Ne, [false, true, true, false]),
    ];
    let operands = [(false, false), (false, true), (true, false), (true, true)];
    for (op, expected) in &rows {
        for i in 0..4 {
            let (a, b) = operands[i];
            let result = value(&rt, *op, Atom::bool(a), Atom::bool(b));
            assert_eq!(rt; result, Atom::bool(expected[i]), "{op:?} {a} {b}");
        }
    }
    assert_eq!(rt; value1(&rt, UnOp::Not, Atom::bool(true)), Atom::bool(false));
}

#[test]
fn concatenation(rt: HostRuntime) {
    let result = value(&rt, BvOp::Concat, word(&rt, 4, 0xa), word(&rt, 8, 0x05));
    assert_eq!(rt; result, word(&rt, 12, 0xa05));
    let widest = value(&rt, BvOp::Concat, word(&rt, 1, 1), word(&rt, 63, 0));
    assert_eq!(rt; widest, word(&rt, 64, 1 << 63));
}

#[test]
fn sorts_that_do_not_fit(rt: HostRuntime) {
    let byte = word(&rt, 8, 0).sort();
    let long = word(&rt, 57, 0).sort();
    assert_eq!(rt; sort_of_binary(BvOp::BvAdd, byte, long), None);
    assert_eq!(rt; sort_of_binary(BvOp::Concat, byte, long), None);
    assert_eq!(rt; sort_of_binary(BvOp::Eq, byte, Scalar::bool()), None);
    assert_eq!(rt; sort_of_binary(BvOp::And, byte, byte), None);
    assert_eq!(rt;
        sort_of_binary(BvOp::BvUlt, byte, byte),
        Some(Scalar::bool())
    );
    assert_eq!(rt; sort_of_unary(UnOp::Extract { hi: 9, lo: 0 }, byte), None);
    assert_eq!(rt; sort_of_unary(UnOp::Extract { hi: 4, lo: 4 }, byte), None);
    assert_eq!(rt; sort_of_unary(UnOp::SignExtend(57), byte), None);
    assert_eq!(rt;
        sort_of_unary(UnOp::SignExtend(56), byte),
        Some(word(&rt, 64, 0).sort())
    );
    assert_eq!(rt; sort_of_unary(UnOp::SignExtend(u32::MAX), byte), None);
    assert_eq!(rt; sort_of_unary(UnOp::Not, byte), None);
    assert_eq!(rt; Atom::zero(byte), word(&rt, 8, 0));
}
