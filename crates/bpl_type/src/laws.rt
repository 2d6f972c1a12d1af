//! Laws of the definitions. These calls do nothing; what they ensure holds of every tree.

ghost use Rattle.bpl_type.specs.Laws.{TermsAreExpressions, CheckedProgramsAreTyped};

/// The nodes of an expression in which functions are replaced are as many as are counted, and where
/// the sorts of its operands fit they are an expression of its sort.
pub fn terms_are_expressions()
    ensures { TermsAreExpressions }
{}

/// A program without faults is well typed: each of its expressions has the sort that its place asks
/// for over the variables that are known there, each number names what is there, and each callee has
/// a body.
pub fn checked_programs_are_typed()
    ensures { CheckedProgramsAreTyped }
{}
