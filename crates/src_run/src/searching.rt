//! The search over all lists of choices, false before true.
ghost use Rattle.std.specs.Prelude.{◌≡◌, ℕ, ◌+◌, ◌++◌, ◌∷◌, [], length, IfOk, IsTrue, MatchOption};
ghost use Rattle.src_run.specs.Machine.{NoneFails};
ghost use Rattle.src_run.specs.Plain.{is_plain};
ghost use Rattle.src_run.specs.Search.{FirstFailing, FirstFrom, NoneFrom, bool_choices};

use crate::machine::{Choice, Status};
use crate::plain::MOST;
use crate::running::{bool_value, status_of};
use sqlite_items::Items;
use src_prog::Prog;
use std::alloc::{AllocError, Global};

/// A list of choices on which the run fails, and the procedure and the number of the assert that
/// is false then.
#[derive(Drop)]
pub struct Failing {
    /// The choices.
    pub choices: Items<Choice>,
    /// The number of the procedure.
    pub proc: u32,
    /// The number of the assert in it.
    pub assert: u32,
}

/// The first failing run of a plain entry, or None exactly where no list of choices fails. Tries
/// the lists in order, false before true: at most 2^17 runs, at most 17 calls deep, in the memory
/// of as many lists of at most 16 bools and of one run.
pub fn search(alloc: Global, prog: &Prog, entry: u32) -> Result<Option<Failing>, AllocError>
    requires { IsTrue (is_plain prog.now entry) }
    ensures { IfOk result (λ found. (bound : ℕ) → MatchOption found (NoneFails prog.now entry bound) (λ f. FirstFailing prog.now entry bound f)) }
{
    let none: Vec<bool> = Vec::new(alloc);
    match search_from(alloc, prog, entry, none.as_slice(), MOST)? {
        Some(found) => return Ok(Some(found)),
        None => return Ok(None),
    }
}

// The first failing list of those that begin with these choices. At most `left` more are asked for.
fn search_from(
    alloc: Global,
    prog: &Prog,
    entry: u32,
    given: &[bool],
    left: usize,
) -> Result<Option<Failing>, AllocError>
    requires plain { IsTrue (is_plain prog.now entry) }
    requires count { length given.now + left ≡ 16 }
    ensures { IfOk result (λ found. (bound : ℕ) → MatchOption found (NoneFrom prog.now entry bound (bool_choices given.now)) (λ f. FirstFrom prog.now entry bound (bool_choices given.now) f)) }
{
    match status_of(alloc, prog, entry, given)? {
        Status::Failed { proc, assert } => {
            let choices = choices_of(alloc, given)?;
            return Ok(Some(Failing {
                choices,
                proc,
                assert,
            }));
        }
        Status::Going => {}
        Status::Ended => return Ok(None),
        Status::Blocked => return Ok(None),
        Status::Cut => return Ok(None),
        Status::BadChoice { index: _ } => return Ok(None),
    }
    let with_false = longer(alloc, given, false)?;
    match search_from(alloc, prog, entry, with_false.as_slice(), left - 1)? {
        Some(found) => return Ok(Some(found)),
        None => {}
    }
    let with_true = longer(alloc, given, true)?;
    match search_from(alloc, prog, entry, with_true.as_slice(), left - 1)? {
        Some(found) => return Ok(Some(found)),
        None => return Ok(None),
    }
}

// The bools and one more.
fn longer(alloc: Global, given: &[bool], more: bool) -> Result<Vec<bool>, AllocError>
    ensures { IfOk result (λ v. v.items ≡ given.now ++ more ∷ []) }
{
    let mut bools = given.to_vec(alloc)?;
    bools.push(more)?;
    Ok(bools)
}

// The choices of some bools.
fn choices_of(alloc: Global, given: &[bool]) -> Result<Items<Choice>, AllocError>
    ensures { IfOk result (λ cs. cs ≡ bool_choices given.now) }
{
    let mut choices = Items::new(alloc);
    for value in given {
        choices.push(Choice::Val(bool_value(*value)))?;
    }
    Ok(choices)
}
