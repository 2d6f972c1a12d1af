//! Sets of literals that are found at once and emptied in the time of what they hold.
ghost use Rattle.std.specs.Prelude.{◌≡◌, ◌+◌, ◌<◌, ◌≤◌, [], ◌∷◌, ◌++◌, length, take, OnOk, OnErr};
ghost use Rattle.cnf_form.specs.Literal.{is_among};

use crate::lit::Lit;
use crate::look::FalseLiterals;
use std::alloc::{AllocError, Global};
use std::marker::Model;

/// Literals in the order in which they were added, with one flag per code.
#[derive(Drop)]
pub struct LiteralSet {
    flags: Vec<bool>,
    added: Vec<Lit>,
}

impl Model for LiteralSet {
    ghost use Rattle.std.specs.Prelude.{◌≡◌, ℕ, List, false, slice_index_or};
    ghost use Rattle.cnf_form.specs.Literal.{is_among};

    ghost Value = { List ℕ };

    ghost view = { λ m. m.added.items };

    ghost invariant = { λ m. (k : ℕ) → slice_index_or m.flags.items k false ≡ is_among m.added.items k };
}

impl LiteralSet {
    /// No literal.
    pub fn new(alloc: Global) -> Self
        ensures { result ≡ [] }
    {
        LiteralSet {
            flags: Vec::new(alloc),
            added: Vec::new(alloc),
        }
    }

    /// Whether the literal was added.
    pub fn has(&self, lit: Lit) -> bool
        ensures { result ≡ is_among self.now lit }
    {
        let code = lit.code();
        code < self.flags.len() && self.flags[code]
    }

    /// The literals in the order in which they were added.
    pub fn as_slice(&self) -> &[Lit]
        ensures { result.now ≡ self.now }
    {
        self.added.as_slice()
    }

    /// Adds a literal behind the others. After an error the set is as before.
    pub fn add(&mut self, lit: Lit) -> Result<(), AllocError>
        ensures ok { OnOk result (self.new ≡ self.old ++ lit ∷ []) }
        ensures err { OnErr result (self.new ≡ self.old) }
    {
        let code = lit.code();
        if code == usize::MAX {
            return Err(AllocError);
        }
        if self.flags.len() <= code {
            self.flags.resize(code + 1, false)?;
        }
        self.added.push(lit)?;
        self.flags[code] = true;
        Ok(())
    }

    /// Takes all literals away. The flags keep their memory.
    pub fn clear(&mut self)
        ensures { self.new ≡ [] }
    {
        while let Some(lit) = self.added.pop() {
            let code = lit.code();
            if code < self.flags.len() {
                self.flags[code] = false;
            }
        }
    }
}

impl FalseLiterals for LiteralSet {
    ghost falses = { λ m. m };

    fn is_false(&self, lit: Lit) -> bool {
        self.has(lit)
    }
}
