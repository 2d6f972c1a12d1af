//! The trimmer, which drops the lines of a log that nothing needs.
ghost use Rattle.std.specs.Prelude.{◌≡◌, ℕ, List, ◌+◌, ◌-◌, ◌<◌, ◌≤◌, ◌||◌, [], ◌∷◌, ◌++◌, length, take, map, IfOk, slice_get, Some, true, false};
ghost use Rattle.std.specs.List.{list_any};
ghost use Rattle.cnf_form.specs.Literal.{is_among};
ghost use Rattle.cnf_form.specs.Lines.{refutes, is_empty_line};
ghost use Rattle.proof_check.specs.Trimmed.{is_trimmed};
ghost use Rattle.proof_check.specs.Trimming.{HintsEarlier, AreNeeded, is_set, new_number, renumbered, kept_lines};

use cnf_form::{Cnf, Hints, Line, Lines, Log, Refuted};
use std::alloc::{AllocError, Global};

/// The number of the first empty line.
fn first_empty(lines: &[Line]) -> usize
    requires { list_any is_empty_line lines.now ≡ true }
    ensures within { result < length lines.now }
    ensures before { list_any is_empty_line (take result lines.now) ≡ false }
    ensures refutes { list_any is_empty_line (take (result + 1) lines.now) ≡ true }
{
    for (i, line) in lines.iter().enumerate() {
        if line.clause.is_empty() {
            return i;
        }
    }
    unreachable!()
}

/// Sets the flags of the lines that the hints name.
fn mark_hints(needed: &mut [bool], hints: &[usize], offset: usize)
    requires { (h : ℕ) → is_among hints.now h ≡ true → h < offset + length needed.old }
    ensures { (k : ℕ) → is_set needed.new k ≡ (is_set needed.old k || is_among hints.now (offset + k)) }
{
    for hint in hints {
        if *hint < offset {
            continue;
        }
        needed[*hint - offset] = true;
    }
}

/// Flags for the last line and those that it needs, itself or through others.
fn needed_lines(alloc: Global, offset: usize, lines: &[Line]) -> Result<Vec<bool>, AllocError>
    requires some { 0 < length lines.now }
    requires earlier { HintsEarlier offset lines.now }
    ensures { IfOk result (λ needed. AreNeeded offset lines.now needed.items) }
{
    let mut needed = vec![in alloc; false; lines.len()]?;
    let mut place = lines.len();
    needed[place - 1] = true;
    while place > 0 {
        place -= 1;
        if needed[place] {
            mark_hints(&mut needed, lines[place].hints.as_slice(), offset);
        }
    }
    Ok(needed)
}

/// The new number of a clause. A line that is kept has no hint to one that is dropped.
fn renumber_hint(offset: usize, numbers: &[usize], id: usize) -> usize
    ensures { result ≡ new_number offset numbers.now id }
{
    if id < offset {
        return id;
    }
    let place = id - offset;
    if place < numbers.len() {
        numbers[place]
    } else {
        0
    }
}

/// The line with its hints renumbered.
fn renumber_line(
    alloc: Global,
    offset: usize,
    numbers: &[usize],
    line: &Line,
) -> Result<Line, AllocError>
    ensures { IfOk result (λ new. new ≡ renumbered offset numbers.now line.now) }
{
    let mut hints = Hints::new(alloc);
    let old = line.hints.as_slice();
    for id in old {
        hints.push(renumber_hint(offset, numbers, *id))?;
    }
    Ok(Line {
        clause: line.clause.copy(alloc)?,
        hints,
    })
}

/// The lines whose flag is set, with their hints renumbered. Numbers that don't fit a word are
/// those of lists that don't fit the memory.
fn keep(alloc: Global, offset: usize, needed: &[bool], lines: &[Line]) -> Result<Lines, AllocError>
    requires { length needed.now ≡ length lines.now }
    ensures { IfOk result (λ kept. kept ≡ kept_lines offset [] needed.now lines.now offset) }
{
    let mut numbers: Vec<usize> = Vec::new(alloc);
    let mut kept = Lines::new(alloc);
    for (i, line) in lines.iter().enumerate() {
        if !needed[i] {
            numbers.push(0)?;
            continue;
        }
        let next = offset.checked_add(kept.len()).ok_or(AllocError)?;
        kept.push(renumber_line(alloc, offset, numbers.as_slice(), line)?)?;
        numbers.push(next)?;
    }
    Ok(kept)
}

/// The lines up to the first empty one that it needs.
fn trim_log(alloc: Global, cnf: &Cnf, log: &Log) -> Result<Log, AllocError>
    requires { refutes cnf.now.clauses log.now.lines ≡ true }
    ensures refutes { IfOk result (λ trimmed. refutes cnf.now.clauses trimmed.lines ≡ true) }
    ensures trimmed { IfOk result (λ trimmed. is_trimmed (length cnf.now.clauses) trimmed.lines ≡ true) }
{
    let offset = cnf.clauses.len();
    let all = log.lines.as_slice();
    let last = first_empty(all);
    let lines = &all[..last + 1];
    let needed = needed_lines(alloc, offset, lines)?;
    let kept = keep(alloc, offset, needed.as_slice(), lines)?;
    Ok(Log { lines: kept })
}

/// The same formula with the lines of the log that the refutation needs.
///
/// The log still refutes the formula, its last line is its only empty one, and each other line is
/// named by a hint of a later line. The clauses of its lines are clauses of the old log. Takes
/// time and memory linear in the literals and hints of the lines that are kept, plus two words per
/// line. After an error nothing is given back.
pub fn trim(alloc: Global, proof: Refuted) -> Result<Refuted, AllocError>
    ensures variables { IfOk result (λ r. r.cnf.variables ≡ proof.cnf.variables) }
    ensures clauses { IfOk result (λ r. r.cnf.clauses ≡ proof.cnf.clauses) }
    ensures trimmed { IfOk result (λ r. is_trimmed (length r.cnf.clauses) r.log.lines ≡ true) }
{
    let log = trim_log(alloc, &proof.cnf, &proof.log)?;
    let Refuted { cnf, log: _ } = proof;
    Ok(Refuted { cnf, log })
}
