//! Choices, and where a run stands after them.

use hy_val::Value;

/// What a run takes where more than one way leads on.
#[derive(Drop)]
pub enum Choice {
    /// The place of a target in its goto, from 0.
    Go(u32),
    /// A value for a constant, a variable or a parameter.
    Val(Value),
}

/// Where a run stands after its choices.
#[derive(Clone, Copy, Debug, PartialEq, Eq)]
pub enum Status {
    /// It asks for a choice.
    Going,
    /// The entry has returned.
    Ended,
    /// An assert is false.
    Failed {
        /// The number of its procedure.
        proc: u32,
        /// Its number in the procedure, from 1.
        assert: u32,
    },
    /// An assume or an axiom is false, or two unique constants are equal.
    Blocked,
    /// The run would pass the bound on calls or on rounds of a loop.
    Cut,
    /// A choice isn't what is asked for, or comes after the run's end.
    BadChoice {
        /// The place of the first such choice, from 0.
        index: usize,
    },
}
