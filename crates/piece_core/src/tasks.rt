//! What is asked of a book.
ghost use Rattle.std.specs.Prelude.{◌≡◌, ◌↔◌, IsTrue};

use flat_prog::Flat;

/// A question: whether some run of an entry of a flat program fails, within a bound. `Book::open` says what it asks of the numbers.
#[derive(Drop)]
pub struct Task {
    /// The flat program.
    pub flat: Flat,
    /// The number of the entry among its procedures.
    pub entry: u32,
    /// The bound on recursion and on loops: how often a procedure may be open at once, and how often a loop goes round.
    pub bound: u32,
    /// The number of inlined sites from which on a leaf is split and not inlined.
    pub grain: u32,
}

impl Task {
    /// Whether two tasks are equal. It takes no memory, and a time linear in the smaller program where the numbers are equal.
    pub fn same(&self, other: &Task) -> bool
        ensures { IsTrue result ↔ (self.now ≡ other.now) }
    {
        if self.entry != other.entry {
            return false;
        }
        if self.bound != other.bound {
            return false;
        }
        if self.grain != other.grain {
            return false;
        }
        self.flat.same(&other.flat)
    }
}
