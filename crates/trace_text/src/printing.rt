//! Failing runs as texts.

ghost use Rattle.std.specs.Prelude.{◌≡◌, ◌<◌, ◌++◌, IfOk, OnOk, length};
ghost use Rattle.std.specs.List.{flat_map};
ghost use Rattle.src_run.specs.Machine.{Fails};
ghost use Rattle.trace_text.specs.Printing.{IsFailed, IsPrinted, items_of, proc_name};
ghost use Rattle.trace_text.specs.Traces.{choice_line, item_line};

use crate::writing::{put_choice, put_end};
use hy_text::Bytes;
use sqlite_items::{Items, at};
use src_prog::Prog;
use src_run::{Choice, Status, whole_run};
use std::alloc::{AllocError, Global};

/// The text of the trace of a list of choices on which the entry's run fails: a head; a line for each choice, with the name of
/// the variable that takes it; and the procedure and the number of the assert that is false then.
///
/// It takes the time of two replays, and memory for the names.
pub fn print(
    alloc: Global,
    prog: &Prog,
    entry: u32,
    bound: u32,
    choices: &[Choice],
) -> Result<Bytes, AllocError>
    requires there { entry < length prog.now.procs }
    requires fails { Fails prog.now entry bound choices.now }
    ensures { IfOk result (λ text. IsPrinted prog.now entry bound choices.now text) }
{
    let run = whole_run(alloc, prog, entry, bound, choices)?;
    let (proc, assert) = failed(run.status);
    let mut text = Bytes::from_slice(alloc, b"Bug\n")?;
    put_choices(&mut text, run.names.as_slice(), choices)?;
    put_end(&mut text, proc_name(prog, proc), assert)?;
    Ok(text)
}

// The procedure and the assert of a run that fails.
fn failed(status: Status) -> (u32, u32)
    requires { IsFailed status }
    ensures { status ≡ Status.Failed result.0 result.1 }
{
    match status {
        Status::Failed { proc, assert } => (proc, assert),
        Status::Going => unreachable!(),
        Status::Ended => unreachable!(),
        Status::Blocked => unreachable!(),
        Status::Cut => unreachable!(),
        Status::BadChoice { index: _ } => unreachable!(),
    }
}

// A line for each choice that has a name, None among the names.
fn put_choices(
    text: &mut Bytes,
    names: &[Option<Items<u8>>],
    choices: &[Choice],
) -> Result<(), AllocError>
    ensures { OnOk result (text.new ≡ text.old ++ flat_map item_line (items_of names.now choices.now)) }
{
    for (index, choice) in choices.iter().enumerate() {
        match at(names, index) {
            Some(name) => put_named(text, name, choice)?,
            None => return Ok(()),
        }
    }
    Ok(())
}

fn put_named(text: &mut Bytes, name: &Option<Items<u8>>, choice: &Choice) -> Result<(), AllocError>
    ensures { OnOk result (text.new ≡ text.old ++ item_line (record { name = name.now; choice = choice.now })) }
{
    match name {
        Some(name) => put_choice(text, name.as_slice(), choice),
        None => put_choice(text, &[], choice),
    }
}

fn proc_name(prog: &Prog, number: u32) -> &[u8]
    ensures { result.now ≡ proc_name prog.now number }
{
    match prog.procs().get(number as usize) {
        Some(proc) => proc.name.as_slice(),
        None => &[],
    }
}
