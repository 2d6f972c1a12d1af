//! Lines, and the forms that they have behind the head.

ghost use Rattle.std.specs.Prelude.{◌≡◌, ◌==◌, IfOk, length, map, if◌then◌else◌};
ghost use Rattle.trace_text.specs.Reading as spec;
ghost use Rattle.trace_text.specs.Words.{is_identifier};

use crate::reading::parts::{identifier, number_up_to, parts};
use crate::reading::values::{is, value_of};
use crate::trace::TraceItem;
use hy_text::Text;
use src_run::Choice;
use std::alloc::{AllocError, Global};

/// A line behind the head of a trace.
#[derive(Drop)]
pub enum Line {
    /// One choice.
    Item(TraceItem),
    /// The procedure and the number of the assert that is false.
    End(Text, u32),
}

/// The parts without a last one that is empty. So what follows the last line feed is a line where it isn't empty.
pub fn without_empty_end<'a, 'b>(parts: &'a [&'b [u8]]) -> &'a [&'b [u8]]
    ensures { map (λ l. l.now) result.now ≡ spec.without_empty_end (map (λ l. l.now) parts.now) }
{
    match parts.split_last() {
        Some((last, front)) => front_where_empty(last, front, parts),
        None => parts,
    }
}

// The front where the last part is empty, else all.
fn front_where_empty<'a, 'b>(
    last: &[u8],
    front: &'a [&'b [u8]],
    all: &'a [&'b [u8]],
) -> &'a [&'b [u8]]
    ensures { result.now ≡ (if length last.now == 0 then front.now else all.now) }
{
    if last.is_empty() { front } else { all }
}

// A number of a trace, at most the greatest of 32 bits.
fn number_of(digits: &[u8]) -> Option<u32>
    ensures { result ≡ spec.number_of digits.now }
{
    let number = number_up_to(u64::from(u32::MAX), digits)?;
    Some(number as u32)
}

// The place of a goto's target.
fn place_line(mark: &[u8], number: &[u8]) -> Option<Line>
    ensures { result ≡ spec.place_line mark.now number.now }
{
    if !is(mark, b"g") {
        return None;
    }
    let place = number_of(number)?;
    Some(Line::Item(TraceItem {
        name: None,
        choice: Choice::Go(place),
    }))
}

// The value of what has the name.
fn value_line(alloc: Global, name: &str, text: &[u8]) -> Result<Option<Line>, AllocError>
    ensures { IfOk result (λ l. l ≡ spec.value_line name.now text.now) }
{
    let Some(value) = value_of(alloc, text)? else {
        return Ok(None);
    };
    let name = Text::from_str(alloc, name)?;
    Ok(Some(Line::Item(TraceItem {
        name: Some(name),
        choice: Choice::Val(value),
    })))
}

// The procedure and the number of its assert.
fn end_line(alloc: Global, proc: &str, text: &[u8]) -> Result<Option<Line>, AllocError>
    ensures { IfOk result (λ l. l ≡ spec.end_line proc.now text.now) }
{
    let Some(number) = number_of(text) else {
        return Ok(None);
    };
    let proc = Text::from_str(alloc, proc)?;
    Ok(Some(Line::End(proc, number)))
}

// A line that names something.
fn named_line(
    alloc: Global,
    mark: &[u8],
    name: &str,
    text: &[u8],
) -> Result<Option<Line>, AllocError>
    ensures { IfOk result (λ l. l ≡ spec.named_line mark.now name.now text.now) }
{
    if is(mark, b"v") {
        value_line(alloc, name, text)
    } else if is(mark, b"fails") {
        end_line(alloc, name, text)
    } else {
        Ok(None)
    }
}

// A line of three words.
fn line_of_three(
    alloc: Global,
    mark: &[u8],
    name: &[u8],
    text: &[u8],
) -> Result<Option<Line>, AllocError>
    ensures { IfOk result (λ l. l ≡ (if is_identifier name.now then spec.named_line mark.now name.now text.now else None)) }
{
    match identifier(name) {
        Some(name) => named_line(alloc, mark, name, text),
        None => Ok(None),
    }
}

// A line of these words.
fn line_of_words(alloc: Global, words: &[&[u8]]) -> Result<Option<Line>, AllocError>
    ensures { IfOk result (λ l. l ≡ spec.line_of_words (map (λ w. w.now) words.now)) }
{
    if words.len() == 2 {
        return Ok(place_line(words[0], words[1]));
    }
    if words.len() != 3 {
        return Ok(None);
    }
    line_of_three(alloc, words[0], words[1], words[2])
}

/// What a line behind the head says, or None where it has none of the forms: `v NAME VALUE`, `g NUMBER`, `fails PROC NUMBER`.
pub fn line_of(alloc: Global, text: &[u8]) -> Result<Option<Line>, AllocError>
    ensures { IfOk result (λ l. l ≡ spec.line_of text.now) }
{
    let words = parts(alloc, b' ', text)?;
    line_of_words(alloc, words.as_slice())
}
