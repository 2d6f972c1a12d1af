//! What the walk over the statements of a body has made so far.

use crate::breaks::Breaks;
use crate::fault::FlowFault;
use crate::places::Places;
use bpl_ast::Name;
use sqlite_items::Items;
use src_prog::{Cmd, SrcLoop};

/// Where an edge leads.
#[derive(Drop)]
pub enum Aim {
    /// To the block of this number.
    Block { number: u32 },
    /// To the first place of the label of this name.
    Label { name: Items<u8> },
    /// Past the statement of this number.
    Exit { statement: u32 },
}

/// How a block ends.
#[derive(Drop)]
pub enum End {
    /// With edges, in order.
    Goes { aims: Items<Aim> },
    /// With the end of the procedure.
    Returns,
}

/// The current block.
#[derive(Drop)]
pub struct Current {
    /// Its number.
    pub number: u32,
    /// Its commands so far.
    pub cmds: Items<Cmd>,
}

/// A block that has ended.
#[derive(Drop)]
pub struct Ended {
    /// Its number.
    pub number: u32,
    /// Its commands.
    pub cmds: Items<Cmd>,
    /// How it ends.
    pub end: End,
}

/// An `if` or a `while` that is being walked.
#[derive(Drop)]
pub struct Around {
    /// Its number: that of the block of its first part, or of its head.
    pub statement: u32,
    /// The label directly before it.
    pub label: Option<Name>,
    /// Whether it is a `while`.
    pub is_loop: bool,
}

/// The first place of a label.
#[derive(Drop)]
pub struct Place {
    /// The bytes of the label's name.
    pub name: Items<u8>,
    /// The block that it makes.
    pub block: u32,
    /// The loops around it, the innermost first.
    pub loops: Items<u32>,
}

/// A name in a goto.
#[derive(Drop)]
pub struct Jump {
    /// The name.
    pub name: Name,
    /// Whether the label stood before.
    pub is_behind: bool,
    /// The loops around the goto, the innermost first.
    pub loops: Items<u32>,
}

/// What the walk has made so far.
#[derive(Drop)]
pub struct Walk {
    /// How many blocks have been made.
    pub made: u32,
    /// How many asserts have been numbered.
    pub asserts: u32,
    /// The current block, where there is one.
    pub current: Option<Current>,
    /// The blocks that have ended, in this order.
    pub ended: Items<Ended>,
    /// The loops that have been walked since the begin of the innermost one around, by head.
    pub loops: Items<SrcLoop>,
    /// The statements that have been walked, each with the block of its exit.
    pub exits: Items<(u32, u32)>,
    /// The labels so far.
    pub places: Places,
    /// The names in gotos so far.
    pub jumps: Items<Jump>,
    /// The statements that the breaks so far leave.
    pub breaks: Breaks,
    /// The second labels and the breaks that leave nothing, so far.
    pub faults: Items<FlowFault>,
}
