//! The whole value of a node, built from what evaluation keeps.
ghost use Rattle.std.specs.Prelude.{◌≡◌, [], IfOk};
ghost use Rattle.hy_val.specs.Values.{at, table_of};
ghost use Rattle.hy_val.specs.Exprs.{read};
ghost use Rattle.hy_val.specs.Kept.{known_values, AllKept, written, AllWritable, Layers};
ghost use Rattle.hy_val.specs.declared.value.Value.TheVariants.{Map as MapIs};

use crate::atom::Atom;
use crate::expr::Var;
use crate::known::{Kept, Known};
use crate::map::{MapValue, store};
use crate::value::Value;
use sqlite_items::at;
use std::alloc::{AllocError, Global};

// A copy of a map with these entries written into it, the last of them first.
fn copy_with(
    alloc: Global,
    m: &MapValue,
    mut writes: Vec<(Atom, Atom)>,
) -> Result<MapValue, AllocError>
    requires { AllWritable m.now writes.items }
    ensures { IfOk result (λ r. r ≡ written m.now writes.items) }
{
    let mut map = m.copy(alloc)?;
    while let Some((i, v)) = writes.pop() {
        store(&mut map, i, v)?;
    }
    Ok(map)
}

impl Known<'_> {
    // The variable below the stores of a node's map, and what they write, the last written first.
    fn layers(&self, alloc: Global, place: usize) -> Result<(Var, Vec<(Atom, Atom)>), AllocError>
        requires keeps { AllKept self.now }
        requires map { at (known_values self.now) place ≡ MapIs (table_of (at (known_values self.now) place)) }
        ensures { IfOk result (λ r. Layers self.now.env.now (table_of (at (known_values self.now) place)) r.0 r.1.items) }
    {
        let mut writes = Vec::new(alloc);
        let mut node = place;
        loop {
            match at(self.kept, node) {
                Some(
                    Kept::Written {
                        under,
                        index,
                        entry,
                    },
                ) => {
                    writes.push((*index, *entry))?;
                    node = *under;
                }
                Some(Kept::Variable(var)) => return Ok((*var, writes)),
                Some(Kept::Atom(_)) => unreachable!(),
                None => unreachable!(),
            }
        }
    }

    // A node's map: a copy of a variable's, with what the stores above it write.
    fn map(&self, alloc: Global, place: usize) -> Result<Value, AllocError>
        requires keeps { AllKept self.now }
        requires map { at (known_values self.now) place ≡ MapIs (table_of (at (known_values self.now) place)) }
        ensures { IfOk result (λ v. v ≡ at (known_values self.now) place) }
    {
        let (var, writes) = self.layers(alloc, place)?;
        match self.env.get(var) {
            Some(Value::Map(m)) => {
                let map = copy_with(alloc, m, writes)?;
                Ok(Value::Map(map))
            }
            Some(Value::Atom(_)) => unreachable!(),
            None => unreachable!(),
        }
    }

    /// The value of a node; false where there is none.
    pub fn value(&self, alloc: Global, place: usize) -> Result<Value, AllocError>
        requires { AllKept self.now }
        ensures { IfOk result (λ v. v ≡ at (known_values self.now) place) }
    {
        match at(self.kept, place) {
            Some(Kept::Atom(a)) => Ok(Value::Atom(*a)),
            Some(Kept::Variable(_)) => self.map(alloc, place),
            Some(Kept::Written { .. }) => self.map(alloc, place),
            None => Ok(Value::Atom(Atom::bool(false))),
        }
    }
}
