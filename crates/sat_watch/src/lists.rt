//! For each literal, by its code, the clauses that are entered there.
ghost use Rattle.std.specs.Prelude.{◌≡◌, ℕ, ◌+◌, ◌<◌, ◌⊎◌, [], length, OnOk, slice_index, true, vec_len};
ghost use Rattle.cnf_form.specs.Literal.{is_among};
ghost use Rattle.sat_watch.specs.Lists.{list_at};

use crate::ids::Ids;
use cnf_form::Lit;
use std::alloc::{AllocError, Global};
use std::marker::Model;

/// By the literal's code, the clauses that are entered at it. Beyond the last one none are.
#[derive(Drop)]
pub(crate) struct Lists {
    alloc: Global,
    items: Vec<Ids>,
}

impl Model for Lists {
    ghost use Rattle.std.specs.Prelude.{ℕ, List};

    ghost Value = { List (List ℕ) };

    ghost view = { λ s. s.items.items };
}

/// Makes the lists reach beyond the code, and leaves what they say.
fn reach(alloc: Global, lists: &mut Vec<Ids>, code: usize) -> Result<(), AllocError>
    ensures reaches { OnOk result (code < vec_len lists.new) }
    ensures same { (k : ℕ) → list_at lists.new.items k ≡ list_at lists.old.items k }
{
    if code < lists.len() {
        return Ok(());
    }
    // So that a code far beyond fails at once.
    lists.reserve(code - lists.len())?;
    while lists.len() <= code {
        lists.push(Ids::new(alloc))?;
    }
    Ok(())
}

impl Lists {
    /// Nothing is entered.
    pub(crate) fn new(alloc: Global) -> Self
        ensures { result ≡ [] }
    {
        Lists {
            alloc,
            items: Vec::new(alloc),
        }
    }

    /// How many clauses are entered at the literal.
    pub(crate) fn count(&self, lit: Lit) -> usize
        ensures { result ≡ length (list_at self.now lit) }
    {
        let code = lit.code();
        if code < self.items.len() {
            self.items[code].len()
        } else {
            0
        }
    }

    /// The clause that is entered at the literal in this place.
    pub(crate) fn entry(&self, lit: Lit, at: usize) -> usize
        requires { at < length (list_at self.now lit) }
        ensures { result ≡ slice_index (list_at self.now lit) at }
    {
        self.items[lit.code()].get(at)
    }

    /// Enters a clause at the literal. After an error nothing is entered.
    pub(crate) fn enter(&mut self, lit: Lit, id: usize) -> Result<(), AllocError>
        ensures there { OnOk result (is_among (list_at self.new lit) id ≡ true) }
        ensures kept { (k i : ℕ) → is_among (list_at self.old k) i ≡ true → is_among (list_at self.new k) i ≡ true }
        ensures others { (k : ℕ) → (k ≡ lit → ⊥) → list_at self.new k ≡ list_at self.old k }
    {
        let code = lit.code();
        reach(self.alloc, &mut self.items, code)?;
        let list = &mut self.items[code];
        list.push(id)?;
        Ok(())
    }

    /// Takes out the entry in this place, and puts the last one there.
    pub(crate) fn take_out(&mut self, lit: Lit, at: usize)
        requires { at < length (list_at self.old lit) }
        ensures len { length (list_at self.new lit) + 1 ≡ length (list_at self.old lit) }
        ensures before { (k : ℕ) → k < at → slice_index (list_at self.new lit) k ≡ slice_index (list_at self.old lit) k }
        ensures kept { (id : ℕ) → is_among (list_at self.old lit) id ≡ true → (is_among (list_at self.new lit) id ≡ true) ⊎ (id ≡ slice_index (list_at self.old lit) at) }
        ensures others { (k : ℕ) → (k ≡ lit → ⊥) → list_at self.new k ≡ list_at self.old k }
    {
        let list = &mut self.items[lit.code()];
        list.take_out(at);
    }
}
