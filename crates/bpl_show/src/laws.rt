//! Laws of the definitions. These calls do nothing; what they ensure holds of every program.
ghost use Rattle.bpl_show.specs.Lines.{ShownInLines};

/// The canonical text is whole lines, and these hold the tokens in their order: each line is one token or more with one space
/// between them, and a line feed.
#[tactic(auto, using(crate::proofs::LineLaws::in_lines))]
pub fn shown_in_lines()
    ensures { ShownInLines }
{}
