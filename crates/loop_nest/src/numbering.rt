//! The numbers of the flags that are up, in order, and how many stand before each flag: the numbers between two flags are a part of the list.

ghost use Rattle.std.specs.Prelude.{◌≡◌, ◌^◌, ◌<◌, ◌≤◌, ◌++◌, ◌∷◌, [], false, length, if◌then◌else◌, slice_index_or, slice_range, IfOk, OnOk};
ghost use Rattle.loop_nest.specs.Listed.{IsNumbering, numbers};

use sqlite_items::Items;
use std::alloc::{AllocError, Global};

/// Flags, the numbers of those that are up, ascending, and for each flag how many before it are up.
#[derive(Drop)]
pub struct Numbering {
    flags: Vec<bool>,
    numbers: Vec<u32>,
    before: Vec<usize>,
    ghost exact: { IsNumbering flags.items numbers.items before.items },
}

// A number more, if its flag is up.
fn push_number(numbers: &mut Vec<u32>, flag: bool, number: u32) -> Result<(), AllocError>
    ensures { OnOk result (numbers.new.items ≡ numbers.old.items ++ (if flag then number ∷ [] else [])) }
{
    if !flag {
        return Ok(());
    }
    numbers.push(number)?;
    Ok(())
}

// A copy of a part of a list.
fn part(alloc: Global, numbers: &[u32], from: usize, to: usize) -> Result<Items<u32>, AllocError>
    requires order { from ≤ to }
    requires within { to ≤ length numbers.now }
    ensures { IfOk result (λ ns. ns ≡ slice_range numbers.now from to) }
{
    Items::from_slice(alloc, &numbers[from..to])
}

impl Numbering {
    /// The numbering of these flags. Looks at each once.
    pub fn new(alloc: Global, flags: Vec<bool>) -> Result<Numbering, AllocError>
        requires { length flags.items < 2 ^ 32 }
        ensures { IfOk result (λ n. n.flags.items ≡ flags.items) }
    {
        let mut numbers = Vec::new(alloc);
        let mut before = Vec::new(alloc);
        for (number, flag) in flags.as_slice().iter().enumerate() {
            before.push(numbers.len())?;
            push_number(&mut numbers, *flag, number as u32)?;
        }
        Ok(Numbering {
            flags,
            numbers,
            before,
        })
    }

    /// Whether the flag of this number is up.
    pub fn is_up(&self, number: u32) -> bool
        requires { number < length self.now.flags.items }
        ensures { result ≡ slice_index_or self.now.flags.items number false }
    {
        self.flags[number as usize]
    }

    /// The numbers of the flags that are up, from one on and below another one. Takes time for these alone.
    pub fn between(&self, alloc: Global, from: u32, to: u32) -> Result<Items<u32>, AllocError>
        requires order { from ≤ to }
        requires within { to < length self.now.flags.items }
        ensures { IfOk result (λ ns. ns ≡ numbers from (slice_range self.now.flags.items from to)) }
    {
        let first = self.before[from as usize];
        let end = self.before[to as usize];
        part(alloc, self.numbers.as_slice(), first, end)
    }
}
