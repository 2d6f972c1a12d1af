//! What the language leaves out.

/// What a program is refused for where it has a form that other readers of this family of languages take.
#[derive(Clone, Copy, Debug, PartialEq, Eq)]
pub enum Word {
    /// `int` as a sort, or a number as an operand.
    Integer,
    /// `real` as a sort.
    Real,
    /// An arithmetic sign.
    Arithmetic,
    /// An order sign.
    Order,
    /// Type parameters.
    Polymorphism,
    /// A type without `=`, or with parameters.
    TypeConstructor,
    /// A comma in brackets.
    SeveralIndexes,
    /// `forall` or `exists`.
    Quantifier,
    /// `lambda`
    Lambda,
    /// `where` after a sort.
    Where,
    /// `extends` or `complete` after the sort of a constant.
    Extends,
    /// `async`, `par` or `yield`.
    Concurrency,
    /// `requires` or `ensures`.
    Contract,
    /// `old`
    Old,
    /// `bvN` with N 0 or above 64.
    WideType,
    /// A map whose index or element is a map.
    MapOfMap,
    /// A unique constant that is a map.
    UniqueMap,
    /// `==` or `!=` of maps.
    MapEquality,
    /// A function without meaning in use.
    Uninterpreted,
    /// A call of a procedure without a body.
    NoBody,
}
