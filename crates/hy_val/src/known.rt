//! What evaluation keeps of the nodes so far. No map is copied: a map is named by the variable that
//! has it, and a store by the number of the node whose map it changes.
ghost use Rattle.std.specs.Prelude.{◌≡◌, [], ◌++◌, ◌∷◌, map, length, slice_get, IfOk, IsTrue, IsSome};
ghost use Rattle.std.specs.Option.{option_map};
ghost use Rattle.hy_val.specs.Maps.{select};
ghost use Rattle.hy_val.specs.Sorts.{scalar_of, has_scalar};
ghost use Rattle.hy_val.specs.Values.{sort_of, at, atom_of, table_of, is_on, unary_value, binary_value};
ghost use Rattle.hy_val.specs.NodeSorts.{as_scalar, unary_sort, binary_sort, select_sort, store_sort};
ghost use Rattle.hy_val.specs.Exprs.{sort_of_node, node_by, node_reads, read};
ghost use Rattle.hy_val.specs.Kept.{meant, MayKeep, known_values, AllKept};
ghost use Rattle.hy_val.specs.declared.value.Value.TheVariants.{Map as MapIs};

use crate::atom::{Atom, AtomKind};
use crate::expr::{Env, ExprNode, Var};
use crate::map::select;
use crate::operation::{apply, apply1};
use crate::operator::{BvOp, UnOp};
use crate::value::Value;
use sqlite_items::at;

/// What is kept of a node's value.
#[derive(Clone, Copy)]
pub enum Kept {
    /// The value, of a scalar sort.
    Atom(Atom),
    /// The map of a variable.
    Variable(Var),
    /// The map of a lower node with another entry at an index.
    Written {
        under: usize,
        index: Atom,
        entry: Atom,
    },
}

/// The environment, and what is kept of the nodes so far.
#[derive(Clone, Copy)]
pub struct Known<'a> {
    pub env: &'a Env,
    pub kept: &'a [Kept],
}

// The entry at an index of a variable's map; false where it has no map.
fn entry_of(env: &Env, var: Var, i: Atom) -> Atom
    requires { IsTrue (has_scalar i (table_of (read env.now var)).index) }
    ensures { result ≡ select (table_of (read env.now var)) i }
{
    match env.get(var) {
        Some(Value::Map(m)) => select(m, i),
        Some(Value::Atom(_)) => Atom::bool(false),
        None => Atom::bool(false),
    }
}

// What to keep of a variable: its value, or that it has a map.
fn variable(env: &Env, var: Var) -> Kept
    ensures value { meant env.now [] result ≡ read env.now var }
    ensures may { MayKeep env.now [] 0 result }
{
    match env.get(var) {
        Some(Value::Atom(a)) => {
            let _sort = a.sort();
            Kept::Atom(*a)
        }
        Some(Value::Map(m)) => {
            let _pairs = m.pairs();
            Kept::Variable(var)
        }
        None => Kept::Atom(Atom::bool(false)),
    }
}

impl Known<'_> {
    // The atom of a node, which has its own sort; false where it has none.
    fn atom(&self, place: usize) -> Atom
        requires { AllKept self.now }
        ensures value { result ≡ atom_of (at (known_values self.now) place) }
        ensures kept { IsTrue (has_scalar result (scalar_of result)) }
    {
        match at(self.kept, place) {
            Some(Kept::Atom(a)) => *a,
            Some(Kept::Variable(_)) => Atom::bool(false),
            Some(Kept::Written { .. }) => Atom::bool(false),
            None => Atom::bool(false),
        }
    }

    // Whether the value of a node is true.
    fn is_on(&self, place: usize) -> bool
        requires { AllKept self.now }
        ensures { result ≡ is_on (at (known_values self.now) place) }
    {
        match self.atom(place).kind() {
            AtomKind::Bool(b) => b,
            AtomKind::Bv(_) => false,
        }
    }

    // What is kept of a node; false where there is none.
    fn same(&self, place: usize) -> Kept
        requires { AllKept self.now }
        ensures value { meant self.now.env.now (known_values self.now) result ≡ at (known_values self.now) place }
        ensures may { MayKeep self.now.env.now (known_values self.now) (length self.now.kept.now) result }
    {
        match at(self.kept, place) {
            Some(kept) => *kept,
            None => Kept::Atom(Atom::bool(false)),
        }
    }

    fn unary(&self, op: UnOp, child: usize) -> Atom
        requires keeps { AllKept self.now }
        requires fits { IsSome (unary_sort op (as_scalar (slice_get (map sort_of (known_values self.now)) child))) }
        ensures { result ≡ atom_of (unary_value op (at (known_values self.now) child)) }
    {
        apply1(op, self.atom(child))
    }

    fn binary(&self, op: BvOp, left: usize, right: usize) -> Atom
        requires keeps { AllKept self.now }
        requires fits { IsSome (binary_sort op (as_scalar (slice_get (map sort_of (known_values self.now)) left)) (as_scalar (slice_get (map sort_of (known_values self.now)) right))) }
        ensures { result ≡ atom_of (binary_value op (at (known_values self.now) left) (at (known_values self.now) right)) }
    {
        apply(op, self.atom(left), self.atom(right))
    }

    // The entry at an index of a node's map, down its stores to the variable that has the map below
    // them; false where there is no map.
    fn select(&self, place: usize, i: Atom) -> Atom
        requires keeps { AllKept self.now }
        requires index { IsTrue (has_scalar i (table_of (at (known_values self.now) place)).index) }
        ensures { result ≡ select (table_of (at (known_values self.now) place)) i }
    {
        let mut node = place;
        loop {
            match at(self.kept, node) {
                Some(
                    Kept::Written {
                        under,
                        index,
                        entry,
                    },
                ) => {
                    if index.rank() == i.rank() {
                        return *entry;
                    }
                    node = *under;
                }
                Some(Kept::Variable(var)) => return entry_of(self.env, *var, i),
                Some(Kept::Atom(_)) => return Atom::bool(false),
                None => return Atom::bool(false),
            }
        }
    }

    /// What to keep of a node.
    pub fn node(&self, node: &ExprNode) -> Kept
        requires keeps { AllKept self.now }
        requires sorts { IsSome (sort_of_node (map sort_of (known_values self.now)) node.now) }
        ensures value { meant self.now.env.now (known_values self.now) result ≡ node_by (read self.now.env.now) (known_values self.now) node.now }
        ensures may { MayKeep self.now.env.now (known_values self.now) (length self.now.kept.now) result }
    {
        match node {
            ExprNode::Lit(atom) => {
                let _sort = atom.sort();
                Kept::Atom(*atom)
            }
            ExprNode::Var { var, sort: _ } => variable(self.env, *var),
            ExprNode::Unary { op, child } => Kept::Atom(self.unary(*op, *child)),
            ExprNode::Binary { op, left, right } => Kept::Atom(self.binary(*op, *left, *right)),
            ExprNode::If { cond, yes, no } => {
                if self.is_on(*cond) {
                    self.same(*yes)
                } else {
                    self.same(*no)
                }
            }
            ExprNode::Select { map, index } => Kept::Atom(self.select(*map, self.atom(*index))),
            ExprNode::Store { map, index, value } => Kept::Written {
                under: *map,
                index: self.atom(*index),
                entry: self.atom(*value),
            },
        }
    }
}
