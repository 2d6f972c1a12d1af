//! Loops that are found by their heads.
ghost use Rattle.std.specs.Prelude.{◌≡◌, ◌+◌, ℕ, List, length, map, slice_get, IfOk, IsTrue};
ghost use Rattle.std.specs.List.{list_all};
ghost use Rattle.std.specs.Option.{option_copied};
ghost use Rattle.src_prog.specs.declared.proc.SrcLoop.{SrcLoop};
ghost use Rattle.src_prog.specs.declared.proc.SrcProc.{SrcProc};
ghost use Rattle.extract_def.specs.Places.{index_of};
ghost use Rattle.extract_def.specs.Scopes as scopes;
ghost use Rattle.loop_extract.specs.Ascents.{ascends, head_at, head_in, inner_head};
ghost use Rattle.loop_extract.specs.Heads as heads;
ghost use Rattle.loop_extract.specs.Plans as plans;

use crate::ascending::Ascending;
use crate::inner::Inner;
use crate::scopes::Head;
use extract_def::Scope;
use sqlite_items::Items;
use src_prog::SrcLoop;
use std::alloc::{AllocError, Global};
use std::marker::Model;

/// Loops whose heads ascend. Contracts see the list.
#[derive(Drop)]
pub struct Spans {
    heads: Ascending,
    loops: Items<SrcLoop>,
}

impl Model for Spans {
    ghost use Rattle.std.specs.Prelude.{◌≡◌, List, map};
    ghost use Rattle.src_prog.specs.declared.proc.SrcLoop.{SrcLoop};
    ghost use Rattle.loop_extract.specs.Ascents.{head_in};

    ghost Value = { List SrcLoop };

    ghost view = { λ s. s.loops };

    ghost invariant = { λ s. s.heads ≡ map head_in s.loops };
}

impl Spans {
    /// The loops with these heads.
    pub fn new(heads: Ascending, loops: Items<SrcLoop>) -> Spans
        requires { heads ≡ map head_in loops }
        ensures { result ≡ loops }
    {
        Spans { heads, loops }
    }

    /// Whether the block is the head of one of the loops.
    pub fn is_head(&self, block: u32) -> bool
        ensures { result ≡ scopes.is_head_of self.now block }
    {
        self.heads.place_of(block) < self.heads.len()
    }

    /// Their heads.
    pub fn into_heads(self) -> Ascending
        ensures { result ≡ map head_in self }
    {
        let Spans { heads, loops: _ } = self;
        heads
    }
}

/// The loops directly inside a scope, which are found by their heads. Contracts see the list.
#[derive(Drop)]
pub struct Inside {
    heads: Ascending,
    inners: Items<Inner>,
}

impl Model for Inside {
    ghost use Rattle.std.specs.Prelude.{◌≡◌, List, map};
    ghost use Rattle.loop_extract.specs.Ascents.{inner_head};
    ghost use Rattle.loop_extract.specs.declared.inner.Inner.{Inner};

    ghost Value = { List Inner };

    ghost view = { λ i. i.inners };

    ghost invariant = { λ i. i.heads ≡ map inner_head i.inners };
}

impl Inside {
    /// The loops with these heads.
    pub fn new(heads: Ascending, inners: Items<Inner>) -> Inside
        requires { heads ≡ map inner_head inners }
        ensures { result ≡ inners }
    {
        Inside { heads, inners }
    }

    /// The loops, by head.
    pub fn inners(&self) -> &[Inner]
        ensures { result.now ≡ self.now }
    {
        self.inners.as_slice()
    }

    /// The loop of a head.
    pub fn find(&self, block: u32) -> Option<&Inner>
        ensures { option_copied result ≡ slice_get self.now (index_of block (map inner_head self.now)) }
    {
        let place = self.heads.place_of(block);
        self.inners.get(place)
    }
}

/// The loops of a procedure whose heads are reached, by head, each with the scope directly around it.
/// Contracts see the list.
#[derive(Drop)]
pub struct Heads {
    numbers: Ascending,
    items: Items<Head>,
}

impl Model for Heads {
    ghost use Rattle.std.specs.Prelude.{List};
    ghost use Rattle.loop_extract.specs.Heads.{HaveHeads};
    ghost use Rattle.loop_extract.specs.declared.scopes.Head.{Head};

    ghost Value = { List Head };

    ghost view = { λ h. h.items };

    ghost invariant = { λ h. HaveHeads h.numbers h.items };
}

// The numbers of the heads.
fn numbers_of(alloc: Global, loops: &[Head]) -> Result<Items<u32>, AllocError>
    ensures { IfOk result (λ ns. ns ≡ map head_at loops.now) }
{
    let mut numbers = Items::new(alloc);
    for head in loops {
        numbers.push(head.span.head)?;
    }
    Ok(numbers)
}

impl Heads {
    /// These loops, which ascend by head and lie in the scopes around them.
    pub fn new(alloc: Global, items: Items<Head>) -> Result<Heads, AllocError>
        requires ascend { IsTrue (ascends 0 (map head_at items)) }
        requires within { IsTrue (list_all heads.lies_within items) }
        ensures { IfOk result (λ hs. hs ≡ items) }
    {
        let numbers = numbers_of(alloc, items.as_slice())?;
        let numbers = Ascending::new(numbers);
        Ok(Heads { numbers, items })
    }

    /// The loops, by head.
    pub fn as_slice(&self) -> &[Head]
        ensures { result.now ≡ self.now }
    {
        self.items.as_slice()
    }

    /// How many they are.
    pub fn len(&self) -> usize
        ensures { result ≡ length self.now }
    {
        self.items.len()
    }

    /// How many loops stand before those whose heads a scope holds, and these. The loops directly
    /// inside the scope are among them.
    pub fn window(&self, scope: Scope) -> (usize, &[Head])
        ensures spans { plans.spans_in scope result.1.now ≡ plans.spans_in scope self.now }
        ensures inners { (proc : SrcProc) (number first : ℕ) → plans.inners_from proc scope number first self.now ≡ plans.inners_from proc scope (number + result.0) first result.1.now }
        ensures ascend { IsTrue (ascends 0 (map head_at result.1.now)) }
    {
        // That the heads ascend is a clause of this reader.
        let _numbers = self.numbers.numbers();
        match scope {
            Scope::Whole => (0, self.items.as_slice()),
            Scope::In { head, exit } => {
                let first = self.numbers.place_from(head);
                let end = self.numbers.place_from(exit).max(first);
                let rest = &self.items.as_slice()[first..];
                (first, &rest[..end - first])
            }
        }
    }
}
