//! Faults of flow.

/// Why a body has no flow.
#[derive(Clone, Copy, Debug, PartialEq, Eq)]
pub enum FlowKind {
    /// A goto to a label that the body does not have.
    NoLabel,
    /// A label that stands a second time.
    LabelTwice,
    /// A goto to a label that first stands before it, or inside a `while` that does not enclose the goto.
    NotForward,
    /// A `break` that no `while` encloses, or no statement with its label.
    BreakOutside,
}

/// The first fault of flow in the text.
#[derive(Clone, Copy, Debug, PartialEq, Eq)]
pub struct FlowFault {
    /// The offset of the label's name in the goto, of the second label, or of the word `break`.
    pub at: usize,
    /// Which fault it is.
    pub kind: FlowKind,
}
