//! The formulas of all procedures of a flat program, made once, of which the questions about its trees are asked.
ghost use Rattle.std.specs.Prelude.{◌≡◌, ◌++◌, ◌∷◌, [], true, false, slice_index_or, map, IfOk, OnOk};
ghost use Rattle.flat_prog.specs.Limits.{numbers_of};
ghost use Rattle.tree_query.specs.Asking.{IsOf};

use flat_prog::{Flat, limits, limits_name_changes};
use proc_template::templates;
use sqlite_items::Items;
use std::alloc::{AllocError, Global};
use tree_terms::Template;

/// The formulas of all procedures of a flat program, and what each procedure may change. They are made once, and questions
/// about all its trees are asked of them.
#[derive(Drop)]
pub struct Formulas {
    // For each procedure the numbers of the globals that it may change, ascending.
    pub(crate) changes: Items<Items<usize>>,
    // For each procedure its formula.
    pub(crate) templates: Items<Template>,
}

// A mark by its number; false where there is none.
fn mark_at(marks: &[bool], number: usize) -> bool
    ensures { result ≡ slice_index_or marks.now number false }
{
    match marks.get(number) {
        None => false,
        Some(mark) => *mark,
    }
}

// Puts a number behind the others where its mark is true.
fn push_marked(numbers: &mut Items<usize>, number: usize, mark: bool) -> Result<(), AllocError>
    ensures on { mark ≡ true → OnOk result (numbers.new ≡ numbers.old ++ number ∷ []) }
    ensures off { mark ≡ false → numbers.new ≡ numbers.old }
{
    if !mark {
        return Ok(());
    }
    numbers.push(number)?;
    Ok(())
}

// The numbers of the marks that are true, from 0, ascending.
fn marked(alloc: Global, marks: &[bool]) -> Result<Items<usize>, AllocError>
    ensures { IfOk result (λ ns. ns ≡ numbers_of marks.now) }
{
    let mut numbers = Items::new(alloc);
    for number in 0..marks.len() {
        push_marked(&mut numbers, number, mark_at(marks, number))?;
    }
    Ok(numbers)
}

// For each row the numbers of its marks that are true.
fn all_marked(alloc: Global, rows: &[Items<bool>]) -> Result<Items<Items<usize>>, AllocError>
    ensures { IfOk result (λ ns. ns ≡ map numbers_of rows.now) }
{
    let mut lists = Items::new(alloc);
    for marks in rows {
        lists.push(marked(alloc, marks.as_slice())?)?;
    }
    Ok(lists)
}

impl Formulas {
    /// The formulas of this program: what each procedure may change is computed once, and then for each procedure its formula.
    ///
    /// Time and memory are linear in the formulas, beside the time for what procedures may change (`flat_prog::limits`).
    /// `AllocError` comes where memory runs out, or numbers: a procedure with more than 2 ^ 32 versions or calls of a block.
    pub fn of(alloc: Global, flat: &Flat) -> Result<Formulas, AllocError>
        ensures { IfOk result (IsOf flat.now) }
    {
        limits_name_changes();
        // Reading the constants also gives that the program is one.
        let _consts = flat.consts();
        let limits = limits(alloc, flat)?;
        let changes = all_marked(alloc, limits.as_slice())?;
        let templates = templates(alloc, flat, limits.as_slice())?;
        Ok(Formulas { changes, templates })
    }
}
