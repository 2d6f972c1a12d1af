//! The run trees of the tests, node by node, and the choices that they stand for, each worked by hand.

use crate::programs::{BROKEN, COUNTED, DEEP, NESTED, ONCE, RECURSIVE, RETURNED, TWICE};
use crate::trees::Row;
use crate::trees::Short::{self, Bits, Bool, Go};
use src_run::Status;

/// A run tree of a program.
#[derive(Clone, Copy)]
pub struct Case {
    /// The text of the program.
    pub text: &'static [u8],
    /// The number of the procedure that is run.
    pub entry: u32,
    /// The least bound, from 1, within whose caps the tree is.
    pub bound: u32,
    /// The nodes.
    pub rows: &'static [Row],
    /// The choices that it stands for.
    pub choices: &'static [Short],
    /// How the run is over.
    pub status: Status,
}

// `i` is 0, 1 and 2 in three turns, and then the loop is left.
const COUNTED_ROWS: &[Row] = &[
    Row(
        0,
        &[0, 1, 3, 2],
        &[0, 0, 0],
        &[Bits(8, 9), Bits(32, 5)],
        &[1],
    ),
    Row(1, &[0, 1, 3], &[0, 0], &[], &[2]),
    Row(1, &[0, 1, 3], &[0, 0], &[], &[3]),
    Row(1, &[0, 1, 3], &[0, 0], &[], &[4]),
    Row(1, &[0, 2], &[1], &[], &[]),
];

const COUNTED_CHOICES: &[Short] = &[Bits(8, 9), Go(0), Go(0), Go(0), Go(1)];

// `p` turns twice, and calls itself in the third turn; in there `d` is 2 at once.
const RECURSIVE_ROWS: &[Row] = &[
    Row(1, &[0], &[], &[Bits(8, 7)], &[1]),
    Row(0, &[0, 1], &[0], &[Bits(8, 8), Bits(32, 3)], &[2]),
    Row(2, &[0, 1, 3, 4, 6], &[0, 1, 0, 0], &[], &[3]),
    Row(2, &[0, 1, 3, 4, 6], &[0, 1, 0, 0], &[], &[4]),
    Row(2, &[0, 1, 2], &[0, 0], &[], &[5]),
    Row(0, &[0, 1], &[0], &[Bits(8, 9), Bits(32, 0)], &[6]),
    Row(2, &[0, 1], &[0], &[], &[]),
];

const RECURSIVE_CHOICES: &[Short] = &[
    Bits(8, 7),
    Bits(8, 8),
    Go(0),
    Go(1),
    Go(0),
    Go(1),
    Go(0),
    Go(0),
    Bits(8, 9),
    Go(0),
];

// Two turns of the outer loop, each with two turns of the inner one, after which `n` is 4.
const NESTED_ROWS: &[Row] = &[
    Row(
        0,
        &[0, 1, 3, 2],
        &[0, 0, 0],
        &[Bits(8, 6), Bits(8, 7), Bits(8, 8), Bits(32, 9)],
        &[1],
    ),
    Row(1, &[0, 1, 2, 4, 3, 6], &[0, 0, 0, 0, 0], &[], &[2, 5]),
    Row(2, &[0, 1, 3], &[0, 0], &[], &[3]),
    Row(2, &[0, 1, 3], &[0, 0], &[], &[4]),
    Row(2, &[0, 2], &[1], &[], &[]),
    Row(1, &[0, 1, 2, 4, 3, 6], &[0, 0, 0, 0, 0], &[], &[6, 9]),
    Row(2, &[0, 1, 3], &[0, 0], &[], &[7]),
    Row(2, &[0, 1, 3], &[0, 0], &[], &[8]),
    Row(2, &[0, 2], &[1], &[], &[]),
    Row(1, &[0, 5], &[1], &[], &[]),
];

const NESTED_CHOICES: &[Short] = &[
    Bits(8, 6),
    Bits(8, 7),
    Bits(8, 8),
    Go(0),
    Go(0),
    Go(0),
    Go(1),
    Go(0),
    Go(0),
    Go(0),
    Go(1),
    Go(1),
];

// `n` is 0, 1 and 2.
const DEEP_ROWS: &[Row] = &[
    Row(1, &[0], &[], &[], &[1]),
    Row(0, &[0], &[], &[], &[2]),
    Row(0, &[0], &[], &[], &[3]),
    Row(0, &[0], &[], &[], &[]),
];

// By either place of the goto.
const TWICE_FIRST: &[Row] = &[Row(0, &[0, 1], &[0], &[], &[])];

const TWICE_SECOND: &[Row] = &[Row(0, &[0, 1], &[1], &[], &[])];

// The loop is left at its head at once.
const LEFT_AT_HEAD: &[Row] = &[
    Row(
        0,
        &[0, 1, 3, 2],
        &[0, 0, 0],
        &[Bool(false), Bits(32, 0)],
        &[1],
    ),
    Row(1, &[0, 5], &[1], &[], &[]),
];

// The loop is left by its break, in the second turn.
const LEFT_BY_BREAK: &[Row] = &[
    Row(
        0,
        &[0, 1, 4, 2],
        &[0, 1, 0],
        &[Bool(false), Bits(32, 0)],
        &[1],
    ),
    Row(1, &[0, 1, 3, 4, 7], &[0, 1, 0, 0], &[Bool(true)], &[2]),
    Row(1, &[0, 1, 2, 6], &[0, 0, 0], &[], &[]),
];

// The loop is left by its return.
const LEFT_BY_RETURN: &[Row] = &[
    Row(0, &[0, 1, 4], &[0, 1], &[Bits(32, 7)], &[1]),
    Row(1, &[0, 1, 3], &[0, 0], &[], &[]),
];

// The first assert of the first procedure fails.
const FIRST_FAILS: Status = Status::Failed { proc: 0, assert: 1 };

/// The run trees, each with the choices that it stands for.
pub const CASES: [Case; 10] = [
    Case {
        text: COUNTED,
        entry: 0,
        bound: 3,
        rows: COUNTED_ROWS,
        choices: COUNTED_CHOICES,
        status: FIRST_FAILS,
    },
    Case {
        text: RECURSIVE,
        entry: 1,
        bound: 2,
        rows: RECURSIVE_ROWS,
        choices: RECURSIVE_CHOICES,
        status: FIRST_FAILS,
    },
    Case {
        text: NESTED,
        entry: 0,
        bound: 2,
        rows: NESTED_ROWS,
        choices: NESTED_CHOICES,
        status: FIRST_FAILS,
    },
    Case {
        text: DEEP,
        entry: 1,
        bound: 3,
        rows: DEEP_ROWS,
        choices: &[],
        status: FIRST_FAILS,
    },
    Case {
        text: TWICE,
        entry: 0,
        bound: 1,
        rows: TWICE_FIRST,
        choices: &[Go(0)],
        status: FIRST_FAILS,
    },
    Case {
        text: TWICE,
        entry: 0,
        bound: 1,
        rows: TWICE_SECOND,
        choices: &[Go(1)],
        status: FIRST_FAILS,
    },
    Case {
        text: ONCE,
        entry: 0,
        bound: 1,
        rows: TWICE_FIRST,
        choices: &[],
        status: FIRST_FAILS,
    },
    Case {
        text: BROKEN,
        entry: 0,
        bound: 1,
        rows: LEFT_AT_HEAD,
        choices: &[Bool(false), Go(1)],
        status: FIRST_FAILS,
    },
    Case {
        text: BROKEN,
        entry: 0,
        bound: 1,
        rows: LEFT_BY_BREAK,
        choices: &[Bool(false), Go(0), Go(1), Bool(true), Go(0), Go(0)],
        status: FIRST_FAILS,
    },
    Case {
        text: RETURNED,
        entry: 0,
        bound: 1,
        rows: LEFT_BY_RETURN,
        choices: &[Go(0)],
        status: Status::Ended,
    },
];
