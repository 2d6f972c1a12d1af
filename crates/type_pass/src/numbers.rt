//! The numbers of names, which are their places in a list, by hash.

ghost use Rattle.std.specs.Prelude.{◌≡◌, ◌++◌, option_to_list, List, ℕ, map, position, None, Some, if◌then◌else◌, IfOk, OnOk};
ghost use Rattle.std.specs.Option.{option_or};
ghost use Rattle.std.specs.Str.{bytes_eq};
ghost use Rattle.indexmap.specs.IndexMap.{get_by};
ghost use Rattle.type_pass.specs.Memos.{number_among};

use indexmap::IndexMap;
use sqlite_items::Items;
use std::alloc::{AllocError, Global};
use std::marker::Model;

/// A list of names with an index. Contracts see the list.
#[derive(Drop)]
pub struct Numbers<'a> {
    names: Vec<&'a [u8]>,
    places: IndexMap<&'a [u8], usize>,
}

impl<'a> Model for Numbers<'a> {
    ghost use Rattle.std.specs.Prelude.{◌≡◌, List, ℕ, map, position};
    ghost use Rattle.std.specs.Str.{bytes_eq};
    ghost use Rattle.indexmap.specs.IndexMap.{get_by};

    ghost Value = { List (List ℕ) };

    ghost view = { λ n. map (λ t. t.now) n.names.items };

    ghost invariant = { λ n. (text : List ℕ) → get_by (λ t. bytes_eq text t.now) n.places ≡ position (bytes_eq text) (map (λ t. t.now) n.names.items) };
}

// A name gets its place, unless it has one.
fn put_first<'a>(
    places: &mut IndexMap<&'a [u8], usize>,
    name: &'a [u8],
    number: usize,
) -> Result<(), AllocError>
    ensures { OnOk result ((text : List ℕ) → get_by (λ t. bytes_eq text t.now) places.new ≡ option_or (get_by (λ t. bytes_eq text t.now) places.old) (if bytes_eq text name.now then Some number else None)) }
{
    if places.contains_key(name) {
        return Ok(());
    }
    places.insert(name, number)?;
    Ok(())
}

// The first place of each name.
fn places_of<'a>(alloc: Global, names: &[&'a [u8]]) -> Result<IndexMap<&'a [u8], usize>, AllocError>
    ensures { IfOk result (λ places. (text : List ℕ) → get_by (λ t. bytes_eq text t.now) places ≡ position (bytes_eq text) (map (λ t. t.now) names.now)) }
{
    let mut places: IndexMap<&'a [u8], usize> = IndexMap::new(alloc);
    for (i, name) in names.iter().enumerate() {
        put_first(&mut places, *name, i)?;
    }
    Ok(places)
}

impl<'a> Numbers<'a> {
    /// The index of these names.
    pub fn new(alloc: Global, names: Vec<&'a [u8]>) -> Result<Numbers<'a>, AllocError>
        ensures { IfOk result (λ numbers. numbers ≡ map (λ t. t.now) names.entry.items) }
    {
        let places = places_of(alloc, names.as_slice())?;
        Ok(Numbers { names, places })
    }

    /// The place of the first of this name.
    pub fn number(&self, text: &[u8]) -> Option<usize>
        ensures { result ≡ number_among self.now text.now }
    {
        match self.places.get(text) {
            None => None,
            Some(number) => Some(*number),
        }
    }
}

/// A number that may be there, behind those of a list.
pub fn push_number(edges: &mut Items<usize>, number: Option<usize>) -> Result<(), AllocError>
    ensures { OnOk result (edges.new ≡ edges.old ++ option_to_list number) }
{
    match number {
        None => Ok(()),
        Some(number) => edges.push(number),
    }
}
