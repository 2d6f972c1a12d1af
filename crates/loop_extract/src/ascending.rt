//! Numbers that ascend, which are searched by halves.
ghost use Rattle.std.specs.Prelude.{◌≡◌, IsTrue, length};
ghost use Rattle.extract_def.specs.Places as places;
ghost use Rattle.loop_extract.specs.Ascents.{ascends};
ghost use Rattle.loop_extract.specs.Ascents as spec;

use sqlite_items::Items;
use std::marker::Model;

/// Numbers that ascend; one may stand twice. Contracts see the list.
#[derive(Drop)]
pub struct Ascending {
    numbers: Items<u32>,
}

impl Model for Ascending {
    ghost use Rattle.std.specs.Prelude.{List, ℕ, IsTrue};

    ghost Value = { List ℕ };

    ghost use Rattle.loop_extract.specs.Ascents.{ascends};

    ghost view = { λ a. a.numbers };

    ghost invariant = { λ a. IsTrue (ascends 0 a.numbers) };
}

impl Ascending {
    /// The numbers, which ascend.
    pub fn new(numbers: Items<u32>) -> Ascending
        requires { IsTrue (ascends 0 numbers) }
        ensures { result ≡ numbers }
    {
        Ascending { numbers }
    }

    /// The numbers.
    pub fn numbers(&self) -> &[u32]
        ensures value { result.now ≡ self.now }
        ensures kept { IsTrue (ascends 0 result.now) }
    {
        self.numbers.as_slice()
    }

    /// How many they are.
    pub fn len(&self) -> usize
        ensures { result ≡ length self.now }
    {
        self.numbers.len()
    }

    /// The first place from which on no number is less.
    pub fn place_from(&self, number: u32) -> usize
        ensures { spec.IsPlaceFrom number self.now result }
    {
        place_from(number, self.numbers())
    }

    /// The place of a number, or how many there are where it isn't there.
    pub fn place_of(&self, number: u32) -> usize
        ensures { result ≡ places.index_of number self.now }
    {
        place_in(number, self.numbers())
    }
}

// The first place from which on no number is less.
fn place_from(number: u32, numbers: &[u32]) -> usize
    requires { IsTrue (ascends 0 numbers.now) }
    ensures { spec.IsPlaceFrom number numbers.now result }
{
    let mut low = 0;
    let mut high = numbers.len();
    while low < high {
        let middle = low + (high - low) / 2;
        if numbers[middle] < number {
            low = middle + 1;
        } else {
            high = middle;
        }
    }
    low
}

// The place of a number, or the length where it isn't there.
fn place_in(number: u32, numbers: &[u32]) -> usize
    requires { IsTrue (ascends 0 numbers.now) }
    ensures { result ≡ places.index_of number numbers.now }
{
    let place = place_from(number, numbers);
    if place >= numbers.len() {
        return numbers.len();
    }
    if numbers[place] == number {
        place
    } else {
        numbers.len()
    }
}
