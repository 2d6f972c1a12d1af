//! Equal flat programs, the order of blocks, and what procedures may change.

use crate::programs::{BROKEN, CHANGED, COUNTED, DEEP, NESTED, RECURSIVE, RETURNED, program};
use flat_prog::{Flat, limits, order};
use loop_extract::extract;
use sqlite_items::Items;
use std::alloc::{AllocError, Global};
use std::test::Fail;

// Three programs that differ in an axiom, in an assert or in the place of a target alone.
const TRUE_AXIOM: &[u8] = b"const c: bool; axiom c; procedure main() { assert c; }";

const FALSE_AXIOM: &[u8] = b"const c: bool; axiom !c; procedure main() { assert c; }";

const OTHER_ASSERT: &[u8] = b"const c: bool; axiom c; procedure main() { assert !c; }";

const FIRST_TARGET: &[u8] = b"procedure main() { goto A, B; A: B: }";

const SECOND_TARGET: &[u8] = b"procedure main() { goto B, A; A: B: }";

// The flat program of a text.
fn flat(alloc: Global, text: &[u8]) -> Result<Flat, AllocError> {
    let prog = program(alloc, text)?;
    let extracted = extract(alloc, &prog)?;
    Ok(extracted.flat)
}

#[test]
fn flat_programs_are_told_apart(rt: HostRuntime) -> Result<(), Fail> {
    let alloc = rt.alloc();
    for (number, (left, right, same)) in [
        (TRUE_AXIOM, TRUE_AXIOM, true),
        (TRUE_AXIOM, FALSE_AXIOM, false),
        (FALSE_AXIOM, TRUE_AXIOM, false),
        (TRUE_AXIOM, OTHER_ASSERT, false),
        (FIRST_TARGET, SECOND_TARGET, false),
        (FIRST_TARGET, FIRST_TARGET, true),
        (NESTED, NESTED, true),
        (NESTED, COUNTED, false),
        (RECURSIVE, RECURSIVE, true),
        (CHANGED, CHANGED, true),
    ]
    .iter()
    .enumerate()
    {
        let one = flat(alloc, left)?;
        let other = flat(alloc, right)?;
        assert_eq!(rt; one.same(&other), *same, "pair {number}");
    }
    Ok(())
}

// The numbers of a procedure's blocks in their order, ascending.
fn ordered(alloc: Global, flat: &Flat, proc: u32) -> Result<Vec<u32>, AllocError> {
    if proc as usize >= flat.procs().len() {
        return Err(AllocError);
    }
    let found = order(alloc, flat, proc)?;
    let mut numbers = Vec::from_slice(alloc, found.as_slice())?;
    numbers.sort()?;
    Ok(numbers)
}

#[test]
fn orders_have_all_blocks(rt: HostRuntime) -> Result<(), Fail> {
    let alloc = rt.alloc();
    for text in [COUNTED, RECURSIVE, NESTED, DEEP, BROKEN, RETURNED] {
        let whole = flat(alloc, text)?;
        let mut number: u32 = 0;
        for proc in whole.procs() {
            let found = ordered(alloc, &whole, number)?;
            assert_eq!(rt; found.len(), proc.blocks.len());
            for (place, block) in found.as_slice().iter().enumerate() {
                assert_eq!(rt; *block as usize, place);
            }
            number = number.wrapping_add(1);
        }
    }
    Ok(())
}

// A row for each procedure, with a mark for each global, a one where the procedure may change it.
fn marks(alloc: Global, text: &[u8]) -> Result<String, AllocError> {
    let whole = flat(alloc, text)?;
    let rows: Items<Items<bool>> = limits(alloc, &whole)?;
    let mut shown = String::new(alloc);
    for row in rows.as_slice() {
        for mark in row.as_slice() {
            shown.push_str(if *mark { "1" } else { "0" })?;
        }
        shown.push_str(" ")?;
    }
    Ok(shown)
}

#[test]
fn procedures_change_what_they_and_their_callees_write(rt: HostRuntime) -> Result<(), Fail> {
    for (text, wanted) in [
        (COUNTED, "  "),
        (RECURSIVE, "1 1 1 "),
        (CHANGED, "00 00 10 01 11 11 "),
    ] {
        let shown = marks(rt.alloc(), text)?;
        assert_eq!(rt; shown.as_str(), wanted);
    }
    Ok(())
}
