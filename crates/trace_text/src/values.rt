//! The texts of values.

ghost use Rattle.std.specs.Prelude.{◌≡◌, ◌++◌, OnOk};
ghost use Rattle.trace_text.specs.Values.{atom_text, map_text, more_pairs_text, pair_text, pairs_text, scalar_text, value_text};

use hy_text::{Bytes, put_u64};
use hy_val::{Atom, AtomKind, MapValue, Scalar, ScalarKind, Value};
use std::alloc::AllocError;

/// Appends a value: `true` or `false`; the bits in decimal, `bv` and the width; or a map as its index sort in brackets, its
/// element sort, and in braces its entries that are not zero, each behind its index, ascending.
pub fn put_value(text: &mut Bytes, value: &Value) -> Result<(), AllocError>
    ensures { OnOk result (text.new ≡ text.old ++ value_text value.now) }
{
    match value {
        Value::Atom(atom) => put_atom(text, *atom),
        Value::Map(map) => put_map(text, map),
    }
}

fn put_map(text: &mut Bytes, map: &MapValue) -> Result<(), AllocError>
    ensures { OnOk result (text.new ≡ text.old ++ map_text map.now) }
{
    text.append(b"[")?;
    put_scalar(text, map.index())?;
    text.append(b"]")?;
    put_scalar(text, map.elem())?;
    text.append(b"{")?;
    put_pairs(text, map.pairs())?;
    text.append(b"}")
}

// Pairs with commas between them.
fn put_pairs(text: &mut Bytes, pairs: &[(Atom, Atom)]) -> Result<(), AllocError>
    ensures { OnOk result (text.new ≡ text.old ++ pairs_text pairs.now) }
{
    match pairs {
        [] => Ok(()),
        [pair, more @ ..] => {
            put_pair(text, *pair)?;
            put_more_pairs(text, more)
        }
    }
}

// Pairs, each behind a comma.
fn put_more_pairs(text: &mut Bytes, pairs: &[(Atom, Atom)]) -> Result<(), AllocError>
    ensures { OnOk result (text.new ≡ text.old ++ more_pairs_text pairs.now) }
{
    for pair in pairs {
        text.append(b",")?;
        put_pair(text, *pair)?;
    }
    Ok(())
}

fn put_pair(text: &mut Bytes, pair: (Atom, Atom)) -> Result<(), AllocError>
    ensures { OnOk result (text.new ≡ text.old ++ pair_text pair) }
{
    put_atom(text, pair.0)?;
    text.append(b":")?;
    put_atom(text, pair.1)
}

fn put_atom(text: &mut Bytes, atom: Atom) -> Result<(), AllocError>
    ensures { OnOk result (text.new ≡ text.old ++ atom_text atom) }
{
    match atom.kind() {
        AtomKind::Bool(true) => text.append(b"true"),
        AtomKind::Bool(false) => text.append(b"false"),
        AtomKind::Bv(word) => {
            put_u64(text, word.bits())?;
            text.append(b"bv")?;
            put_u64(text, u64::from(word.width().bits()))
        }
    }
}

fn put_scalar(text: &mut Bytes, scalar: Scalar) -> Result<(), AllocError>
    ensures { OnOk result (text.new ≡ text.old ++ scalar_text scalar) }
{
    match scalar.kind() {
        ScalarKind::Bool => text.append(b"bool"),
        ScalarKind::Bv { width } => {
            text.append(b"bv")?;
            put_u64(text, u64::from(width.bits()))
        }
    }
}
