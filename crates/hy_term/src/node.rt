//! The nodes of terms.

use hy_val::{Atom, BvOp, Scalar, Sort, UnOp};

/// A node of terms. Its children are named by their numbers, which are lower than its own.
#[derive(Clone, Copy, Debug, PartialEq, Eq, Hash)]
pub enum TermNode {
    /// A constant value.
    Lit(Atom),
    /// The map whose every entry is zero.
    ZeroMap {
        index: Scalar,
        elem: Scalar,
    },
    /// A variable. Nodes with the same number have the same sort.
    Variable {
        number: usize,
        sort: Sort,
    },
    /// An operator with one operand.
    Unary {
        op: UnOp,
        child: usize,
    },
    /// An operator with two operands.
    Binary {
        op: BvOp,
        left: usize,
        right: usize,
    },
    /// `yes` where the bool `cond` is true, else `no`, which has the same sort.
    If {
        cond: usize,
        yes: usize,
        no: usize,
    },
    /// The entry of a map at an index.
    Select {
        map: usize,
        index: usize,
    },
    /// The map with a value in place of its entry at an index.
    Store {
        map: usize,
        index: usize,
        value: usize,
    },
}

/// A variable of terms, by its number and its sort.
#[derive(Clone, Copy, Debug, PartialEq, Eq)]
pub struct TermVariable {
    pub number: usize,
    pub sort: Sort,
}
