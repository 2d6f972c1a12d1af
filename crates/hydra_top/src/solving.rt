//! The search of the runs of an entry.

ghost use Rattle.std.specs.Prelude.{◌≡◌, ◌<◌, ◌≤◌, IfOk, IsTrue, List, ℕ, Option, length};
ghost use Rattle.src_run.specs.Machine.{HasStatus};
ghost use Rattle.src_run.specs.Plain.{is_plain};
ghost use Rattle.src_run.specs.declared.machine.Status.TheVariants.{Failed};
ghost use Rattle.trace_text.specs.Printing.{IsPrinted};
ghost use Rattle.hydra_top.specs.Opened.{LooksAtOne, extent};
ghost use Rattle.hydra_top.specs.Reading.{IsSource};
ghost use Rattle.hydra_top.specs.Top.{IsDone, IsSearched, IsVerdict};
ghost use Rattle.hydra_top.specs.Words.{solo};

use crate::answer::{Answer, refused};
use crate::entry::entered_in;
use crate::outcome::{NotBuilt, Outcome, Refusal};
use crate::reading::Source;
use hy_text::{Bytes, Or, Text};
use src_prog::Prog;
use src_run::{Failing, is_plain, search};
use std::alloc::{AllocError, Global};
use trace_text::print;

/// The answer for the runs of the procedure of this name in the program of what was read of a file. The file is refused as
/// `entered_in` says, then an entry whose search is not built.
pub fn solved(alloc: Global, name: &Text, bound: u32, source: &Source) -> Result<Answer, AllocError>
    requires bound { (1 ≤ bound) × (bound ≤ 1000) }
    ensures answer { (bytes : List ℕ) → IsSource bytes source.now → (files : Option (List (List ℕ × List ℕ))) → IfOk result (λ a. IsDone files (solo name.now bound) bytes a.outcome a.text) }
    ensures looks { IfOk result (λ a. LooksAtOne (extent a.outcome)) }
{
    match entered_in(alloc, name, source) {
        Ok(found) => at_entry(alloc, &found.prog, found.entry, bound),
        Err(Or::Fault(refusal)) => refused(alloc, refusal),
        Err(Or::NoMemory) => Err(AllocError),
    }
}

// The answer for an entry.
fn at_entry(alloc: Global, prog: &Prog, entry: u32, bound: u32) -> Result<Answer, AllocError>
    requires entry { entry < length prog.now.procs }
    ensures answer { IfOk result (λ a. IsSearched prog.now entry bound (is_plain prog.now entry) a.outcome a.text) }
    ensures looks { IfOk result (λ a. LooksAtOne (extent a.outcome)) }
{
    if is_plain(prog, entry) {
        return searched(alloc, prog, entry, bound);
    }
    let part = NotBuilt::Source;
    refused(alloc, Refusal::NotBuilt { part })
}

// The verdict on a plain entry.
fn searched(alloc: Global, prog: &Prog, entry: u32, bound: u32) -> Result<Answer, AllocError>
    requires entry { entry < length prog.now.procs }
    requires plain { IsTrue (is_plain prog.now entry) }
    ensures answer { IfOk result (λ a. IsVerdict prog.now entry bound a.outcome a.text) }
    ensures looks { IfOk result (λ a. LooksAtOne (extent a.outcome)) }
{
    match search(alloc, prog, entry)? {
        None => {
            let text = Bytes::from_slice(alloc, b"Safe\n")?;
            Ok(Answer {
                outcome: Outcome::Safe,
                text,
            })
        }
        Some(failing) => {
            let text = trace(alloc, prog, entry, bound, &failing)?;
            Ok(Answer {
                outcome: bug(failing),
                text,
            })
        }
    }
}

// The printed trace of a failing run.
fn trace(
    alloc: Global,
    prog: &Prog,
    entry: u32,
    bound: u32,
    failing: &Failing,
) -> Result<Bytes, AllocError>
    requires entry { entry < length prog.now.procs }
    requires fails { HasStatus prog.now entry bound failing.now.choices (Failed failing.now.proc failing.now.assert) }
    ensures { IfOk result (λ text. IsPrinted prog.now entry bound failing.now.choices text) }
{
    print(alloc, prog, entry, bound, failing.choices.as_slice())
}

fn bug(failing: Failing) -> Outcome
    ensures { result ≡ Outcome.Bug failing.choices failing.proc failing.assert }
{
    let Failing {
        choices,
        proc,
        assert,
    } = failing;
    Outcome::Bug {
        choices,
        proc,
        assert,
    }
}
