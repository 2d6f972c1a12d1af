//! The literals that are assigned.
ghost use Rattle.std.specs.Prelude.{◌≡◌, ◌+◌, ◌-◌, ◌<◌, ◌≤◌, [], ◌∷◌, ◌++◌, length, take, OnOk, OnErr, false, slice_index_or, vec_len, ℕ};
ghost use Rattle.cnf_form.specs.Literal.{is_among};

use crate::lit::Lit;
use crate::look::FalseLiterals;
use std::alloc::{AllocError, Global};
use std::marker::Model;

/// The assigned literals in the order of assignment, none twice, with one flag per code.
#[derive(Drop)]
pub struct Trail {
    flags: Vec<bool>,
    literals: Vec<Lit>,
}

impl Model for Trail {
    ghost use Rattle.std.specs.Prelude.{◌≡◌, ℕ, List, true, false, slice_index_or};
    ghost use Rattle.cnf_form.specs.Literal.{is_among, is_distinct};

    ghost Value = { List ℕ };

    ghost view = { λ m. m.literals.items };

    ghost invariant = { λ m. ((k : ℕ) → slice_index_or m.flags.items k false ≡ is_among m.literals.items k) × (is_distinct m.literals.items ≡ true) };
}

/// Makes the flags reach beyond the place, and leaves what they say.
fn make_place(flags: &mut Vec<bool>, place: usize) -> Result<(), AllocError>
    ensures reaches { OnOk result (place < vec_len flags.new) }
    ensures same { (k : ℕ) → slice_index_or flags.new.items k false ≡ slice_index_or flags.old.items k false }
{
    if place == usize::MAX {
        return Err(AllocError);
    }
    if flags.len() <= place {
        flags.resize(place + 1, false)?;
    }
    Ok(())
}

impl Trail {
    /// No literal.
    pub fn new(alloc: Global) -> Self
        ensures { result ≡ [] }
    {
        Trail {
            flags: Vec::new(alloc),
            literals: Vec::new(alloc),
        }
    }

    /// The number of literals.
    pub fn len(&self) -> usize
        ensures { result ≡ length self.now }
    {
        self.literals.len()
    }

    /// The literals, in the order of assignment.
    pub fn as_slice(&self) -> &[Lit]
        ensures { result.now ≡ self.now }
    {
        self.literals.as_slice()
    }

    /// Whether the literal is assigned.
    pub fn is_true(&self, lit: Lit) -> bool
        ensures { result ≡ is_among self.now lit }
    {
        let code = lit.code();
        code < self.flags.len() && self.flags[code]
    }

    /// Assigns a literal that isn't yet. After an error the trail is as before.
    pub fn push(&mut self, lit: Lit) -> Result<(), AllocError>
        requires { is_among self.old lit ≡ false }
        ensures ok { OnOk result (self.new ≡ self.old ++ lit ∷ []) }
        ensures err { OnErr result (self.new ≡ self.old) }
    {
        let code = lit.code();
        make_place(&mut self.flags, code)?;
        self.literals.push(lit)?;
        self.flags[code] = true;
        Ok(())
    }

    fn pop(&mut self)
        requires { 0 < length self.old }
        ensures { self.new ≡ take (length self.old - 1) self.old }
    {
        if let Some(lit) = self.literals.pop() {
            let code = lit.code();
            if code < self.flags.len() {
                self.flags[code] = false;
            }
        }
    }

    /// Keeps the first `count` literals.
    pub fn cut_to(&mut self, count: usize)
        ensures { self.new ≡ take count self.old }
    {
        while count < self.len() {
            self.pop();
        }
    }
}

impl FalseLiterals for Trail {
    ghost use Rattle.std.specs.Prelude.{map};
    ghost use Rattle.cnf_form.specs.Literal.{negation};

    ghost falses = { λ m. map negation m };

    fn is_false(&self, lit: Lit) -> bool {
        self.is_true(lit.negated())
    }
}
