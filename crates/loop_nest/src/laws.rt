//! Laws of the loops, each the contract of a function that does nothing.
ghost use Rattle.loop_nest.specs.Laws.{HeadsComeFirst, LoopsAreEnteredAtHeads, LoopsAreNested, NestsAreUnique, OtherEdgesLeadOn};

/// Each procedure of a program has one list of loops that is as the definition says.
pub fn nests_are_unique()
    ensures { NestsAreUnique }
{}

/// The head of a loop is the first of its blocks.
pub fn heads_come_first()
    ensures { HeadsComeFirst }
{}

/// An edge into a loop, from a reached block that it does not hold, leads to the loop's head; and
/// each path from block 0 to a block of the loop passes the head.
pub fn loops_are_entered_at_heads()
    ensures { LoopsAreEnteredAtHeads }
{}

/// Each edge from a reached block leads to a greater block, or from a block of a loop back to the
/// loop's head.
pub fn other_edges_lead_on()
    ensures { OtherEdgesLeadOn }
{}

/// Two loops share no block, or the one with the lesser head holds all blocks of the other.
pub fn loops_are_nested()
    ensures { LoopsAreNested }
{}
