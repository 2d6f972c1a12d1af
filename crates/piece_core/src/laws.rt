//! Laws of journals, each the contract of a function that does nothing. They speak of the journal alone, without its evidence, and of a
//! table that opens with any piece and any tree in which that piece names nodes.
ghost use Rattle.piece_core.specs.Counts.{CountsLaw, FaultLaw, JournalLaw, WholeLaw};

/// In a journal that is legal in shape, whatever meets the piece with which the table opens meets exactly one leaf's piece; the trees
/// are partial trees; and the first Found stands.
pub fn journals_cover()
    ensures { JournalLaw }
{}

/// A journal that is legal in shape has at most B Inline and at most B Split events on the way to each node, where B is the number of
/// paths within the caps; so it has fewer than 2^B Split and at most B * 2^(B+1) Inline events.
pub fn journals_are_bounded()
    ensures { CountsLaw }
{}

/// The empty piece and the root alone may open a table of each task that may be opened.
pub fn whole_searches_begin()
    ensures { WholeLaw }
{}

/// A journal is legal in shape exactly where no entry has a fault, and the journal of each book is so.
pub fn faults_are_found()
    ensures { FaultLaw }
{}
