//! The law of extraction that the type of flat programs asks for, as the contract of a function that
//! does nothing.
ghost use Rattle.extract_def.specs.Laws.{ExtractionIsFlat};

/// The flat program of a program keeps the facts of its type, where numbers of 32 bits name its
/// procedures, and the variables and blocks of each.
pub fn extraction_is_flat()
    ensures { ExtractionIsFlat }
{}
