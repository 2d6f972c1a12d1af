//! Traces as texts.

ghost use Rattle.std.specs.Prelude.{◌≡◌, ◌++◌, IfOk, OnOk, codes, decimal};
ghost use Rattle.std.specs.List.{flat_map};
ghost use Rattle.trace_text.specs.Traces.{choice_line, end_line, item_line, line, text_of_trace};
ghost use Rattle.trace_text.specs.Values.{value_text};

use crate::trace::{Trace, TraceItem};
use crate::values::put_value;
use hy_text::{Bytes, put_u64};
use hy_val::Value;
use src_run::Choice;
use std::alloc::{AllocError, Global};

/// The text of a trace: the head `Bug`; a line for each choice, `v NAME VALUE` or `g NUMBER`; and `fails PROC NUMBER`. Each line
/// ends with one line feed.
pub fn write(alloc: Global, trace: &Trace) -> Result<Bytes, AllocError>
    ensures { IfOk result (λ t. t ≡ text_of_trace trace.now) }
{
    let mut text = Bytes::from_slice(alloc, b"Bug\n")?;
    put_items(&mut text, trace.items.as_slice())?;
    put_end(&mut text, trace.proc.as_bytes(), trace.assert)?;
    Ok(text)
}

// A line for each item.
fn put_items(text: &mut Bytes, items: &[TraceItem]) -> Result<(), AllocError>
    ensures { OnOk result (text.new ≡ text.old ++ flat_map item_line items.now) }
{
    for item in items {
        put_item(text, item)?;
    }
    Ok(())
}

fn put_item(text: &mut Bytes, item: &TraceItem) -> Result<(), AllocError>
    ensures { OnOk result (text.new ≡ text.old ++ item_line item.now) }
{
    match &item.name {
        Some(name) => put_choice(text, name.as_bytes(), &item.choice),
        None => put_choice(text, &[], &item.choice),
    }
}

/// Appends the line of a choice: `v`, the name and the value; or `g` and the place of the goto's target, where no name is
/// printed.
pub fn put_choice(text: &mut Bytes, name: &[u8], choice: &Choice) -> Result<(), AllocError>
    ensures { OnOk result (text.new ≡ text.old ++ choice_line name.now choice.now) }
{
    match choice {
        Choice::Val(value) => put_value_line(text, name, value),
        Choice::Go(place) => put_place_line(text, *place),
    }
}

fn put_value_line(text: &mut Bytes, name: &[u8], value: &Value) -> Result<(), AllocError>
    ensures { OnOk result (text.new ≡ text.old ++ line (codes "v " ++ name.now ++ codes " " ++ value_text value.now)) }
{
    text.append(b"v ")?;
    text.append(name)?;
    text.append(b" ")?;
    put_value(text, value)?;
    text.push(b'\n')
}

fn put_place_line(text: &mut Bytes, place: u32) -> Result<(), AllocError>
    ensures { OnOk result (text.new ≡ text.old ++ line (codes "g " ++ decimal place)) }
{
    text.append(b"g ")?;
    put_u64(text, u64::from(place))?;
    text.push(b'\n')
}

/// Appends the last line of a trace: `fails`, the name of the procedure and the number of its assert.
pub fn put_end(text: &mut Bytes, proc: &[u8], assert: u32) -> Result<(), AllocError>
    ensures { OnOk result (text.new ≡ text.old ++ end_line proc.now assert) }
{
    text.append(b"fails ")?;
    text.append(proc)?;
    text.append(b" ")?;
    put_u64(text, u64::from(assert))?;
    text.push(b'\n')
}
