//! Names with their sorts, and an index for them.

ghost use Rattle.std.specs.Prelude.{◌≡◌, ◌<◌, ◌^◌, length, map, filter, position, is_some, slice_get, IfOk};
ghost use Rattle.std.specs.Option.{option_map, option_and_then};
ghost use Rattle.std.specs.Str.{bytes_eq};

use crate::numbers::Numbers;
use crate::tables::{Heading, Named, Signature};
use hy_val::Sort;
use sqlite_items::at;
use std::alloc::{AllocError, Global};
use std::marker::Model;

/// Names with their sorts, fewer than 2^32. Contracts see the list.
#[derive(Drop)]
pub struct Indexed<'a> {
    names: &'a [Named],
    numbers: Numbers<'a>,
}

impl<'a> Model for Indexed<'a> {
    ghost use Rattle.std.specs.Prelude.{◌≡◌, ◌<◌, ◌^◌, List, length, map};
    ghost use Rattle.type_pass.specs.declared.tables.Named.{Named};

    ghost Value = { List Named };

    ghost view = { λ i. i.names.now };

    ghost invariant = { λ i. (i.numbers ≡ map (λ n. n.name) i.names.now) × (length i.names.now < 2 ^ 32) };
}

// The names, without their sorts.
fn named_numbers<'a>(alloc: Global, names: &'a [Named]) -> Result<Numbers<'a>, AllocError>
    ensures { IfOk result (λ numbers. numbers ≡ map (λ n. n.name) names.now) }
{
    let mut texts = Vec::new(alloc);
    for named in names {
        texts.push(named.name.as_slice())?;
    }
    Numbers::new(alloc, texts)
}

/// The names of functions.
pub fn function_numbers<'a>(
    alloc: Global,
    functions: &'a [Signature],
) -> Result<Numbers<'a>, AllocError>
    ensures { IfOk result (λ numbers. numbers ≡ map (λ f. f.name) functions.now) }
{
    let mut texts = Vec::new(alloc);
    for function in functions {
        texts.push(function.name.as_slice())?;
    }
    Numbers::new(alloc, texts)
}

/// The names of procedures.
pub fn procedure_numbers<'a>(
    alloc: Global,
    procedures: &'a [Heading],
) -> Result<Numbers<'a>, AllocError>
    ensures { IfOk result (λ numbers. numbers ≡ map (λ p. p.name) procedures.now) }
{
    let mut texts = Vec::new(alloc);
    for procedure in procedures {
        texts.push(procedure.name.as_slice())?;
    }
    Numbers::new(alloc, texts)
}

/// The names of the procedures with a body, of which there are fewer than 2^32.
pub fn body_numbers<'a>(alloc: Global, procedures: &'a [Heading]) -> Result<Numbers<'a>, AllocError>
    ensures names { IfOk result (λ numbers. numbers ≡ map (λ p. p.name) (filter (λ p. p.has_body) procedures.now)) }
    ensures few { IfOk result (λ numbers. length numbers < 2 ^ 32) }
{
    let mut texts = Vec::new(alloc);
    for procedure in procedures {
        if procedure.has_body {
            texts.push(procedure.name.as_slice())?;
        }
    }
    if texts.len() >= 1 << 32 {
        return Err(AllocError);
    }
    Numbers::new(alloc, texts)
}

impl<'a> Indexed<'a> {
    /// The index of these names. 2^32 or more count as want of memory.
    pub fn new(alloc: Global, names: &'a [Named]) -> Result<Indexed<'a>, AllocError>
        ensures { IfOk result (λ indexed. indexed ≡ names.now) }
    {
        if names.len() >= 1 << 32 {
            return Err(AllocError);
        }
        let numbers = named_numbers(alloc, names)?;
        Ok(Indexed { names, numbers })
    }

    /// Whether there is one of this name.
    #[tactic(auto, using(crate::proofs::IndexLaws::index_laws))]
    pub fn has(&self, text: &[u8]) -> bool
        ensures { result ≡ is_some (position (λ n. bytes_eq text.now n.name) self.now) }
    {
        self.numbers.number(text).is_some()
    }

    /// The number of the first of this name, with its sort.
    #[tactic(auto, using(crate::proofs::IndexLaws::index_laws))]
    pub fn seen(&self, text: &[u8]) -> Option<(u32, Sort)>
        ensures { result ≡ option_and_then (λ i. option_map (λ n. (i, n.sort)) (slice_get self.now i)) (position (λ n. bytes_eq text.now n.name) self.now) }
    {
        match self.numbers.number(text) {
            None => None,
            Some(place) => match at(self.names, place) {
                None => None,
                Some(named) => Some((place as u32, named.sort)),
            },
        }
    }
}
