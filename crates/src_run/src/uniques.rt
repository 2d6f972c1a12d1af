//! Unique constants: whether all of them differ. Those without maps are looked up in a sorted set of the earlier ones, so that it takes
//! time for each, and not for each pair.

ghost use Rattle.std.specs.Prelude.{◌≡◌, ◌<◌, ◌&&◌, IfOk, MatchOption, length, not, false};
ghost use Rattle.std.specs.List.{list_all};
ghost use Rattle.hy_val.specs.Values.{at as value_at};
ghost use Rattle.hy_val.specs.Stores as stores;
ghost use Rattle.hy_val.specs.declared.atom.AtomKind.{AtomKind};
ghost use Rattle.src_run.specs.Uniques as spec;

use hy_val::{Atom, AtomKind, Value};
use sqlite_items::at;
use std::alloc::{AllocError, Global};
use std::collections::BTreeSet;

// The value at a place, false where there is none.
fn value_at<'a>(values: &'a [Value], place: u32, otherwise: &'a Value) -> &'a Value
    requires { otherwise.now ≡ Value.Atom (AtomKind.Bool false) }
    ensures { result.now ≡ value_at values.now place }
{
    at(values, place as usize).unwrap_or(otherwise)
}

// Whether two constants are equal.
fn are_same(consts: &[Value], one: u32, other: u32) -> bool
    ensures { result ≡ stores.same_value (value_at consts.now one) (value_at consts.now other) }
{
    let otherwise = Value::Atom(Atom::bool(false));
    value_at(consts, one, &otherwise).same(value_at(consts, other, &otherwise))
}

// Whether a constant differs from all others of these numbers.
fn differs_from(consts: &[Value], number: u32, others: &[u32]) -> bool
    ensures { result ≡ list_all (λ m. not (stores.same_value (value_at consts.now number) (value_at consts.now m))) others.now }
{
    for other in others {
        if are_same(consts, number, *other) {
            return false;
        }
    }
    true
}

// The pair of numbers that a value without maps has for itself.
fn key_of(atom: Atom) -> (u32, u64)
    ensures { result ≡ spec.key_of atom }
{
    match atom.kind() {
        AtomKind::Bool(false) => (0, 0),
        AtomKind::Bool(true) => (0, 1),
        AtomKind::Bv(word) => (u32::from(word.width().bits()) + 1, word.bits()),
    }
}

// Whether the value isn't among those whose pairs of numbers were seen. It is then.
fn is_new(seen: &mut BTreeSet<(u32, u64)>, atom: Atom) -> Result<bool, AllocError>
    ensures { IfOk result (λ new. spec.Adds atom seen.old seen.new new) }
{
    match seen.insert(key_of(atom)) {
        Ok(added) => Ok(added),
        Err(_) => Err(AllocError),
    }
}

// The constant of a number where it has no maps.
fn atom_at(consts: &[Value], number: u32) -> Option<Atom>
    ensures { MatchOption result (spec.IsMap (value_at consts.now number)) (λ atom. value_at consts.now number ≡ Value.Atom atom) }
{
    let otherwise = Value::Atom(Atom::bool(false));
    match value_at(consts, number, &otherwise) {
        Value::Atom(atom) => Some(*atom),
        Value::Map(_) => None,
    }
}

// Whether the first of these numbers is that of a constant which differs from those seen, or, where it is a map, from those behind it.
fn first_differs(
    consts: &[Value],
    numbers: &[u32],
    seen: &mut BTreeSet<(u32, u64)>,
) -> Result<bool, AllocError>
    requires { 0 < length numbers.now }
    ensures { IfOk result (λ differs. spec.Steps consts.now numbers.now seen.old seen.new differs) }
{
    match atom_at(consts, numbers[0]) {
        Some(atom) => {
            let new = is_new(seen, atom)?;
            Ok(new)
        }
        None => Ok(differs_from(consts, numbers[0], &numbers[1..])),
    }
}

/// Whether the constants of these numbers differ from one another. It takes memory for their numbers, and the time of a sorted set; a map,
/// which no text has for a unique constant, is compared with each one behind it.
pub fn all_differ(alloc: Global, consts: &[Value], numbers: &[u32]) -> Result<bool, AllocError>
    ensures { IfOk result (λ b. b ≡ stores.all_differ consts.now numbers.now) }
{
    let mut seen = BTreeSet::new(alloc);
    for index in 0..numbers.len() {
        if !first_differs(consts, &numbers[index..], &mut seen)? {
            return Ok(false);
        }
    }
    Ok(true)
}
