//! The numbers of the unique constants.

ghost use Rattle.std.specs.Prelude.{◌≡◌, ◌+◌, ◌++◌, [], ◌∷◌, length, flat_map, IfOk, OnOk};
ghost use Rattle.type_pass.specs.Declarations.{constants_of, flags_of, unique_flags};
ghost use Rattle.bpl_type.specs.TypedOf.{places_from};

use bpl_ast::{Ast, Constants, Decl};
use sqlite_items::Items;
use std::alloc::{AllocError, Global};

// The number of a constant that is unique goes behind those of a list. The answer is the number of the next constant; where that is
// 2^32, it counts as want of memory.
fn push_unique(uniques: &mut Items<u32>, number: u32, unique: bool) -> Result<u32, AllocError>
    ensures list { OnOk result (uniques.new ≡ uniques.old ++ places_from number (unique ∷ [])) }
    ensures next { IfOk result (λ next. next ≡ number + 1) }
{
    if unique {
        uniques.push(number)?;
    }
    match number.checked_add(1) {
        None => Err(AllocError),
        Some(next) => Ok(next),
    }
}

// The same of the constants of a declaration.
fn push_uniques(
    uniques: &mut Items<u32>,
    first: u32,
    constants: &Constants,
) -> Result<u32, AllocError>
    ensures list { OnOk result (uniques.new ≡ uniques.old ++ places_from first (flags_of constants.now)) }
    ensures next { IfOk result (λ next. next ≡ first + length (flags_of constants.now)) }
{
    let mut number = first;
    for _ in 0..constants.names.len() {
        number = push_unique(uniques, number, constants.unique)?;
    }
    Ok(number)
}

// The same of any declaration.
#[tactic(auto, using(type_pass::proofs::TableLaws::table_laws))]
fn push_declared(uniques: &mut Items<u32>, first: u32, decl: &Decl) -> Result<u32, AllocError>
    ensures list { OnOk result (uniques.new ≡ uniques.old ++ places_from first (flat_map flags_of (constants_of decl.now))) }
    ensures next { IfOk result (λ next. next ≡ first + length (flat_map flags_of (constants_of decl.now))) }
{
    match decl {
        Decl::Constants(constants) => push_uniques(uniques, first, constants),
        _ => Ok(first),
    }
}

/// The numbers of the unique constants, ascending. 2^32 constants or more count as want of memory.
pub fn uniques(alloc: Global, ast: &Ast) -> Result<Items<u32>, AllocError>
    ensures { IfOk result (λ numbers. numbers ≡ places_from 0 (unique_flags ast.now)) }
{
    let mut numbers = Items::new(alloc);
    let mut next = 0;
    for decl in ast.decls.as_slice() {
        next = push_declared(&mut numbers, next, decl)?;
    }
    Ok(numbers)
}
