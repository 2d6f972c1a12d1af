//! The exits of a loop in their order, which are searched by halves.
ghost use Rattle.std.specs.Prelude.{◌≡◌, ◌&&◌, IsTrue, length, nat_eq};
ghost use Rattle.extract_def.specs.Exits as exits;
ghost use Rattle.loop_extract.specs.Orders as spec;

use extract_def::Edge;
use sqlite_items::Items;
use std::marker::Model;

/// Edges by block and then by place, no two of them from one place of one block. Contracts see the list.
#[derive(Drop)]
pub struct Exits {
    edges: Items<Edge>,
}

impl Model for Exits {
    ghost use Rattle.std.specs.Prelude.{List, IsTrue};
    ghost use Rattle.extract_def.specs.declared.edge.Edge.{Edge};

    ghost Value = { List Edge };

    ghost use Rattle.loop_extract.specs.Orders.{are_ordered};

    ghost view = { λ e. e.edges };

    ghost invariant = { λ e. IsTrue (are_ordered e.edges) };
}

impl Exits {
    /// These edges, which stand in order.
    pub fn new(edges: Items<Edge>) -> Exits
        requires { IsTrue (spec.are_ordered edges) }
        ensures { result ≡ edges }
    {
        Exits { edges }
    }

    /// The edges, in order.
    pub fn as_slice(&self) -> &[Edge]
        ensures value { result.now ≡ self.now }
        ensures kept { IsTrue (spec.are_ordered result.now) }
    {
        self.edges.as_slice()
    }

    /// How many they are.
    pub fn len(&self) -> usize
        ensures { result ≡ length self.now }
    {
        self.edges.len()
    }

    /// The number of the edge from a place of a block, or how many there are where it isn't among them.
    pub fn place_of(&self, block: u32, place: u32) -> usize
        ensures { result ≡ exits.place_of_edge block place self.now }
    {
        place_in(block, place, self.as_slice())
    }
}

// Whether the edge stands before that from a place of a block.
fn is_before(block: u32, place: u32, edge: Edge) -> bool
    ensures { result ≡ spec.is_before block place edge }
{
    edge.block < block || edge.block == block && edge.place < place
}

// The first number from which on no edge stands before that from a place of a block.
fn first_from(block: u32, place: u32, edges: &[Edge]) -> usize
    requires { IsTrue (spec.are_ordered edges.now) }
    ensures { spec.IsFirstFrom block place edges.now result }
{
    let mut low = 0;
    let mut high = edges.len();
    while low < high {
        let middle = low + (high - low) / 2;
        if is_before(block, place, edges[middle]) {
            low = middle + 1;
        } else {
            high = middle;
        }
    }
    low
}

// Whether the edge is that from a place of a block.
fn is_from(block: u32, place: u32, edge: Edge) -> bool
    ensures { result ≡ (nat_eq edge.block block && nat_eq edge.place place) }
{
    edge.block == block && edge.place == place
}

// The number of the edge from a place of a block, or the length where it isn't there.
fn place_in(block: u32, place: u32, edges: &[Edge]) -> usize
    requires { IsTrue (spec.are_ordered edges.now) }
    ensures { result ≡ exits.place_of_edge block place edges.now }
{
    let first = first_from(block, place, edges);
    if first >= edges.len() {
        return edges.len();
    }
    if is_from(block, place, edges[first]) {
        first
    } else {
        edges.len()
    }
}
