//! The law of printing and reading. The call does nothing; what it ensures holds of every program.

ghost use Rattle.bpl_round.specs.Round.{ShownReadsAlike};

/// The canonical text of the tree of a program is read again, without fault and with no deeper nesting than the reader allows,
/// as a tree that is alike: equal but for the offsets of its tokens, and with the brackets after an operand as one list.
pub fn shown_reads_alike()
    ensures { ShownReadsAlike }
{}
