//! Texts as traces.

ghost use Rattle.std.specs.Prelude.{◌≡◌, ◌+◌, ◌<◌, ◌==◌, codes, map, if◌then◌else◌};
ghost use Rattle.std.specs.Str.{bytes_eq};
ghost use Rattle.trace_text.specs.Reading.{Gives, fault_at, trace_of, trace_of_lines};

mod lines;
mod parts;
mod values;

use crate::trace::{Trace, TraceFault, TraceKind};
use hy_text::Or;
use lines::{Line, line_of, without_empty_end};
use parts::parts;
use sqlite_items::Items;
use std::alloc::Global;

/// The trace that a text is.
///
/// Its lines end with a line feed; what follows the last one, where that isn't empty, is one more line. The first line is `Bug`.
/// Each line behind it is `v NAME VALUE`, a choice of a value, or `g NUMBER`, a choice of the place of a goto's target, up to the
/// last one, `fails PROC NUMBER`. One space stands between words. Names are identifiers or keywords of Boogie; numbers are at
/// most the greatest `u32`; leading zeros are read.
///
/// The fault is the first one: NoHead at line 1 where that isn't `Bug`, also where there is none; BadLine at the first line behind
/// it that has no such form; AfterEnd at the line behind a `fails` line; NoEnd at the line after the last where none came.
pub fn read(alloc: Global, text: &[u8]) -> Result<Trace, Or<TraceFault>>
    ensures { Gives result (trace_of text.now) }
{
    let parts = parts(alloc, b'\n', text)?;
    match without_empty_end(parts.as_slice()) {
        [head, more @ ..] if is_head(head) => trace_of_lines(alloc, more),
        _ => Err(fault(1, TraceKind::NoHead)),
    }
}

// A fault at a line.
fn fault(line: usize, kind: TraceKind) -> Or<TraceFault>
    ensures { result ≡ Or.Fault (record { line = line; kind = kind }) }
{
    Or::Fault(TraceFault { line, kind })
}

// Whether a line is the head of a trace.
fn is_head(line: &[u8]) -> bool
    ensures { result ≡ bytes_eq line.now (codes "Bug") }
{
    line == b"Bug".as_slice()
}

// The trace that ends with the line of this number, which names its assert, where so many lines stand behind that.
fn ended(trace: Trace, line: usize, behind: usize) -> Result<Trace, Or<TraceFault>>
    requires { line < usize.MAX }
    ensures { Gives result (if behind == 0 then Ok trace else fault_at (line + 1) TraceKind.AfterEnd) }
{
    if behind == 0 {
        Ok(trace)
    } else {
        Err(fault(line + 1, TraceKind::AfterEnd))
    }
}

// The trace of the lines behind the head, the first of which is line 2.
fn trace_of_lines(alloc: Global, lines: &[&[u8]]) -> Result<Trace, Or<TraceFault>>
    ensures { Gives result (trace_of_lines 2 (map (λ l. l.now) lines.now)) }
{
    let mut items = Items::new(alloc);
    for (index, line) in lines.iter().enumerate() {
        match line_of(alloc, line)? {
            None => return Err(fault(index + 2, TraceKind::BadLine)),
            Some(Line::Item(item)) => items.push(item)?,
            Some(Line::End(proc, assert)) => {
                let trace = Trace {
                    items,
                    proc,
                    assert,
                };
                return ended(trace, index + 2, lines.len() - index - 1);
            }
        }
    }
    Err(fault(lines.len() + 2, TraceKind::NoEnd))
}
