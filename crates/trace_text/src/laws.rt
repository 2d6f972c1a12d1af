//! The laws of traces, each the contract of a function that does nothing.

ghost use Rattle.trace_text.specs.ReadingBack.{TracesAreReadBack};

/// A trace is read from the text that is written of it, where its names are identifiers, its values have sorts and its numbers
/// are at most the greatest `u32`.
pub fn traces_are_read_back()
    ensures { TracesAreReadBack }
{}
