//! Values by number, as a solver gives them for the nodes of terms.
ghost use Rattle.std.specs.Prelude.{◌≡◌, map, IfOk};
ghost use Rattle.hy_val.specs.Values.{at, is_on};

use hy_val::{Atom, AtomKind, Value};
use sqlite_items::Items;
use std::alloc::{AllocError, Global};

/// The value of a number, copied; false where there is none. `AllocError` comes where memory runs out.
pub fn value_at(alloc: Global, values: &[Value], number: usize) -> Result<Value, AllocError>
    ensures { IfOk result (λ v. v ≡ at values.now number) }
{
    match sqlite_items::at(values, number) {
        Some(value) => value.copy(alloc),
        None => Ok(Value::Atom(Atom::bool(false))),
    }
}

/// Whether the value of a number is true.
pub fn is_on(values: &[Value], number: usize) -> bool
    ensures { result ≡ is_on (at values.now number) }
{
    match sqlite_items::at(values, number) {
        Some(Value::Atom(a)) => match a.kind() {
            AtomKind::Bool(b) => b,
            AtomKind::Bv(_) => false,
        },
        Some(Value::Map(_)) => false,
        None => false,
    }
}

/// The values of these numbers, copied. `AllocError` comes where memory runs out.
pub fn picked(
    alloc: Global,
    values: &[Value],
    numbers: &[usize],
) -> Result<Items<Value>, AllocError>
    ensures { IfOk result (λ vs. vs ≡ map (at values.now) numbers.now) }
{
    let mut list: Vec<Value> = Vec::new(alloc);
    for number in numbers {
        list.push(value_at(alloc, values, *number)?)?;
    }
    Ok(Items::from_vec(list))
}
