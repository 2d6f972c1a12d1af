//! Texts as values.

ghost use Rattle.std.specs.Prelude.{◌≡◌, ◌++◌, [], IfOk, None, Some, map, option_map, if◌then◌else◌};
ghost use Rattle.std.specs.Str.{bytes_eq};
ghost use Rattle.hy_val.specs.Maps.{is_map, pair_fits};
ghost use Rattle.hy_val.specs.Sorts.{rank};
ghost use Rattle.trace_text.specs.Pairs.{above_last, with_pair};
ghost use Rattle.trace_text.specs.Words.{and_then};
ghost use Rattle.trace_text.specs.ReadValues as spec;

use crate::reading::parts::{halves, number_up_to, parts};
use hy_val::{Atom, BitVec, MapValue, Scalar, Value, Width, store};
use std::alloc::{AllocError, Global};

// What stands before `bv` and what behind it.
fn around_bv(text: &[u8]) -> Option<(&[u8], &[u8])>
    ensures { option_map (λ p. (p.0.now, p.1.now)) result ≡ spec.around_bv text.now }
{
    let (front, back) = halves(b'b', text)?;
    if !back.starts_with(b"v") {
        return None;
    }
    let (_, digits) = back.split_at(1);
    Some((front, digits))
}

// A width from 1 to 64.
fn width_of(digits: &[u8]) -> Option<Width>
    ensures { result ≡ spec.width_of digits.now }
{
    let width = number_up_to(64, digits)?;
    if width > 0 {
        Some(Width::new(width as u32))
    } else {
        None
    }
}

// Bits that the width holds.
fn bits_of(text: &[u8]) -> Option<Atom>
    ensures { result ≡ spec.bits_of text.now }
{
    let (bits, width) = around_bv(text)?;
    let width = width_of(width)?;
    let bits = number_up_to(width.ones(), bits)?;
    Some(Atom::bits(BitVec::new(width, bits)))
}

/// Whether the text is the word.
pub fn is(text: &[u8], word: &[u8]) -> bool
    ensures { result ≡ bytes_eq text.now word.now }
{
    text == word
}

// A truth value or bits.
fn atom_of(text: &[u8]) -> Option<Atom>
    ensures { result ≡ spec.atom_of text.now }
{
    if is(text, b"true") {
        Some(Atom::bool(true))
    } else if is(text, b"false") {
        Some(Atom::bool(false))
    } else {
        bits_of(text)
    }
}

// `bv` and a width.
fn bits_sort(text: &[u8]) -> Option<Scalar>
    ensures { result ≡ spec.bits_sort text.now }
{
    let (front, width) = around_bv(text)?;
    if !front.is_empty() {
        return None;
    }
    let width = width_of(width)?;
    Some(Scalar::bits(width))
}

fn scalar_of(text: &[u8]) -> Option<Scalar>
    ensures { result ≡ spec.scalar_of text.now }
{
    if is(text, b"bool") {
        Some(Scalar::bool())
    } else {
        bits_sort(text)
    }
}

// An index and the entry there.
fn pair_of(text: &[u8]) -> Option<(Atom, Atom)>
    ensures { result ≡ spec.pair_of text.now }
{
    let (index, entry) = halves(b':', text)?;
    let index = atom_of(index)?;
    let entry = atom_of(entry)?;
    Some((index, entry))
}

// The texts of the sorts and of the pairs of a map.
fn map_parts(text: &[u8]) -> Option<(&[u8], &[u8], &[u8])>
    ensures { option_map (λ p. (p.0.now, p.1.now, p.2.now)) result ≡ spec.map_parts text.now }
{
    if !text.starts_with(b"[") {
        return None;
    }
    let (_, inside) = text.split_at(1);
    let (index, behind) = halves(b']', inside)?;
    let (elem, behind) = halves(b'{', behind)?;
    let (pairs, behind) = halves(b'}', behind)?;
    if behind.is_empty() {
        Some((index, elem, pairs))
    } else {
        None
    }
}

// Whether the number is above the last index.
fn is_above(pairs: &[(Atom, Atom)], number: u64) -> bool
    ensures { result ≡ above_last number pairs.now }
{
    match pairs.split_last() {
        None => true,
        Some((last, _)) => last.0.rank() < number,
    }
}

// Whether the pair has these sorts and its entry isn't zero.
fn fits(index_sort: Scalar, elem_sort: Scalar, index: Atom, entry: Atom) -> bool
    ensures { result ≡ pair_fits index_sort elem_sort (index, entry) }
{
    index.has_sort(index_sort) && entry.has_sort(elem_sort) && !entry.is_zero()
}

// Whether the map is one with the pair behind its own.
fn takes(found: &MapValue, index: Atom, entry: Atom) -> bool
    ensures { result ≡ is_map (with_pair found.now (index, entry)) }
{
    let pairs = found.pairs();
    if !fits(found.index(), found.elem(), index, entry) {
        return false;
    }
    is_above(pairs, index.rank())
}

// Puts the pair that the text is behind the others, where the map is one with it, and says whether it did.
fn add_pair(found: &mut MapValue, text: &[u8]) -> Result<bool, AllocError>
    ensures { IfOk result (λ added. spec.with_one found.old (spec.pair_of text.now) ≡ (if added then Some found.new else None)) }
{
    let Some((index, entry)) = pair_of(text) else {
        return Ok(false);
    };
    if !takes(found, index, entry) {
        return Ok(false);
    }
    store(found, index, entry)?;
    Ok(true)
}

// The map with the pairs that the texts are behind its own, where it is one.
fn with_pairs(empty: MapValue, texts: &[&[u8]]) -> Result<Option<MapValue>, AllocError>
    ensures { IfOk result (λ m. m ≡ and_then (spec.each_pair (map (λ t. t.now) texts.now)) (λ pairs. spec.map_with empty.index empty.elem (empty.pairs ++ pairs))) }
{
    let mut found = empty;
    for text in texts {
        let added = add_pair(&mut found, text)?;
        if !added {
            return Ok(None);
        }
    }
    let _pairs = found.pairs();
    Ok(Some(found))
}

// A map: its sorts, and its pairs with commas between them.
fn map_of(alloc: Global, text: &[u8]) -> Result<Option<MapValue>, AllocError>
    ensures { IfOk result (λ m. m ≡ spec.map_of text.now) }
{
    let Some((index, elem, pairs)) = map_parts(text) else {
        return Ok(None);
    };
    let Some(index) = scalar_of(index) else {
        return Ok(None);
    };
    let Some(elem) = scalar_of(elem) else {
        return Ok(None);
    };
    pairs_of(alloc, MapValue::zero(alloc, index, elem), pairs)
}

// The map, which has no pairs yet, with those of the text.
fn pairs_of(alloc: Global, empty: MapValue, text: &[u8]) -> Result<Option<MapValue>, AllocError>
    requires { empty.pairs ≡ [] }
    ensures { IfOk result (λ m. m ≡ and_then (spec.pairs_of text.now) (λ pairs. spec.map_with empty.index empty.elem pairs)) }
{
    if text.is_empty() {
        return Ok(Some(empty));
    }
    let texts = parts(alloc, b',', text)?;
    with_pairs(empty, texts.as_slice())
}

/// The value that a text is: `true` or `false`; bits in decimal, `bv` and the width; or a map as its index sort in brackets, its
/// element sort, and in braces its pairs, where they have its sorts, ascend by index and aren't zero.
pub fn value_of(alloc: Global, text: &[u8]) -> Result<Option<Value>, AllocError>
    ensures { IfOk result (λ v. v ≡ spec.value_of text.now) }
{
    if let Some(atom) = atom_of(text) {
        return Ok(Some(Value::Atom(atom)));
    }
    match map_of(alloc, text)? {
        Some(map) => Ok(Some(Value::Map(map))),
        None => Ok(None),
    }
}
