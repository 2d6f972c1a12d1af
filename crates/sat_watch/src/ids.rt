//! Lists of clauses by their numbers.
ghost use Rattle.std.specs.Prelude.{◌≡◌, ℕ, ◌+◌, ◌<◌, ◌⊎◌, [], ◌∷◌, ◌++◌, length, OnOk, OnErr, slice_index, true};
ghost use Rattle.cnf_form.specs.Literal.{is_among};

use std::alloc::{AllocError, Global};
use std::marker::Model;

/// Numbers of clauses.
#[derive(Drop)]
pub(crate) struct Ids {
    items: Vec<usize>,
}

impl Model for Ids {
    ghost use Rattle.std.specs.Prelude.{ℕ, List};

    ghost Value = { List ℕ };

    ghost view = { λ s. s.items.items };
}

impl Ids {
    /// No number.
    pub(crate) fn new(alloc: Global) -> Self
        ensures { result ≡ [] }
    {
        Ids {
            items: Vec::new(alloc),
        }
    }

    /// How many there are.
    pub(crate) fn len(&self) -> usize
        ensures { result ≡ length self.now }
    {
        self.items.len()
    }

    /// The number at the place.
    pub(crate) fn get(&self, at: usize) -> usize
        requires { at < length self.now }
        ensures { result ≡ slice_index self.now at }
    {
        self.items[at]
    }

    /// Adds a number behind the others. After an error they are as before.
    pub(crate) fn push(&mut self, id: usize) -> Result<(), AllocError>
        ensures ok { OnOk result (self.new ≡ self.old ++ id ∷ []) }
        ensures err { OnErr result (self.new ≡ self.old) }
    {
        self.items.push(id)?;
        Ok(())
    }

    /// Takes out the number at the place, and puts the last one there.
    pub(crate) fn take_out(&mut self, at: usize)
        requires { at < length self.old }
        ensures len { length self.new + 1 ≡ length self.old }
        ensures before { (k : ℕ) → k < at → slice_index self.new k ≡ slice_index self.old k }
        ensures others { (id : ℕ) → is_among self.old id ≡ true → (is_among self.new id ≡ true) ⊎ (id ≡ slice_index self.old at) }
    {
        self.items.swap_remove(at);
    }
}
