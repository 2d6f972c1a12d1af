//! Where a token was refused, which tells what the program has that is left out.

/// What the grammar awaited at a token. Each is a place in which some tokens are told as forms that are left out.
#[derive(Clone, Copy, Debug, PartialEq, Eq)]
pub enum Place {
    /// An operand of an expression.
    Operand,
    /// What follows an operand.
    AfterOperand,
    /// What follows an index in brackets.
    AfterIndex,
    /// A sort.
    Sort,
    /// What follows a sort.
    AfterSort,
    /// What follows the sort of an index, in brackets.
    AfterIndexSort,
    /// What follows the sort of constants.
    AfterConstantSort,
    /// What follows the declared name of a function, a procedure or an implementation.
    AfterDeclaredName,
    /// The `=` of a type.
    SynonymSign,
    /// What follows `call` and its attributes.
    Called,
    /// A statement.
    Statement,
    /// A spec of a procedure.
    Spec,
    /// A place in which nothing is left out.
    Other,
}

/// Why reading stopped at a token.
#[derive(Clone, Copy, Debug, PartialEq, Eq)]
pub enum StopKind {
    /// The token continues no program, or the tokens end too soon.
    Refused(Place),
    /// The token continues a program, but not with the token after it.
    Ahead(Place),
    /// The token opens a level too many.
    TooDeep,
}
