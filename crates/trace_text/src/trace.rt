//! Traces, and why a text is none.

use hy_text::Text;
use sqlite_items::Items;
use src_run::Choice;

/// A failing run: what it takes, in order, and the assert that is false then.
#[derive(Drop)]
pub struct Trace {
    /// What the run takes where more than one way leads on.
    pub items: Items<TraceItem>,
    /// The name of the procedure that has the assert.
    pub proc: Text,
    /// The number of the assert in its procedure.
    pub assert: u32,
}

/// One choice of a run.
#[derive(Drop)]
pub struct TraceItem {
    /// The name of what takes the value; None exactly where a goto goes on.
    pub name: Option<Text>,
    /// The value, or the place of the goto's target.
    pub choice: Choice,
}

/// Why a text is no trace.
#[derive(Clone, Copy, Debug, PartialEq, Eq)]
pub enum TraceKind {
    /// The first line isn't `Bug`. Told at line 1.
    NoHead,
    /// The line is none that a trace has behind its head.
    BadLine,
    /// No line names the assert that is false. Told at the line after the last.
    NoEnd,
    /// A line stands behind the one that names the assert. Told at that line.
    AfterEnd,
}

/// The first fault of a text.
#[derive(Clone, Copy, Debug, PartialEq, Eq)]
pub struct TraceFault {
    /// The number of the line, from 1.
    pub line: usize,
    /// What is wrong there.
    pub kind: TraceKind,
}
