//! What is told of operands one after another, without a list of them.

ghost use Rattle.std.specs.Prelude.{◌≡◌, [], Some, Ok};
ghost use Rattle.std.specs.Option.{option_copied, option_or};
ghost use Rattle.type_pass.specs.ExprSorts as spec;
ghost use Rattle.type_pass.specs.Running.{with_answer, unfit, unless_told, argument_sort, applied_from, joined_with, joined_from};

use crate::fault::{TypeFault, TypeKind};
use crate::operand::{
    Operand, bool_sort, chosen, compared, implies, is_nothing, mismatch, negated, same_sort,
    selected, stored, width_of,
};
use crate::tables::Signature;
use bpl_ast::Word;
use hy_val::{Scalar, Sort, Width};
use sqlite_items::at;

/// The fault of an operand in a place that asks for a sort, unless one was told before.
pub fn fits(told: Option<TypeFault>, operand: &Operand, wanted: Option<Sort>) -> Option<TypeFault>
    ensures { result ≡ option_or told (unfit operand.now wanted) }
{
    match told {
        Some(fault) => Some(fault),
        None => match wanted {
            None => None,
            Some(sort) => {
                if same_sort(operand.sort, sort) {
                    None
                } else {
                    Some(mismatch(operand))
                }
            }
        },
    }
}

/// The fault that was told, else the sort.
pub fn unless_told(told: Option<TypeFault>, sort: Sort) -> Result<Sort, TypeFault>
    ensures { result ≡ unless_told told (Ok sort) }
{
    match told {
        None => Ok(sort),
        Some(fault) => Err(fault),
    }
}

/// The sort of an argument, by its number.
pub fn argument_sort(function: Option<&Signature>, number: usize) -> Option<Sort>
    ensures { result ≡ argument_sort (option_copied function.entry) number }
{
    match function {
        None => None,
        Some(signature) => match at(signature.arguments.as_slice(), number) {
            None => None,
            Some(argument) => Some(argument.sort),
        },
    }
}

/// The sort of a use of a function at an offset, where it is known, with so many arguments, of which
/// the first that has not its sort was told: Unknown, else Arity, else `uninterpreted` where it has
/// no meaning, else that Mismatch.
pub fn applied(
    at: usize,
    function: Option<&Signature>,
    count: usize,
    told: Option<TypeFault>,
) -> Result<Sort, TypeFault>
    ensures { result ≡ applied_from at (option_copied function.entry) count told [] }
{
    match function {
        None => Err(TypeFault {
            at,
            kind: TypeKind::Unknown,
        }),
        Some(signature) => {
            if signature.arguments.len() != count {
                return Err(TypeFault {
                    at,
                    kind: TypeKind::Arity,
                });
            }
            if is_nothing(signature.meaning) {
                return Err(TypeFault {
                    at,
                    kind: TypeKind::LeftOut {
                        what: Word::Uninterpreted,
                    },
                });
            }
            unless_told(told, signature.output)
        }
    }
}

// A width with that of one more operand.
fn wider(at: usize, width: Width, operand: &Operand) -> Result<Width, TypeFault>
    ensures { result ≡ joined_with at (Some (Ok width)) operand.now }
{
    let more = width_of(operand)?;
    if more.bits() > Width::MAX - width.bits() {
        return Err(TypeFault {
            at,
            kind: TypeKind::Width,
        });
    }
    Ok(Width::new(width.bits() + more.bits()))
}

/// The width of a chain of `++` at an offset with one more operand, where that of the operands so far
/// is known, if there are some: Mismatch at an operand that is no bit vector, and Width where it is
/// more than 64.
pub fn joined_with(
    at: usize,
    width: Option<Result<Width, TypeFault>>,
    operand: &Operand,
) -> Result<Width, TypeFault>
    ensures { result ≡ joined_with at width operand.now }
{
    match width {
        None => width_of(operand),
        Some(Err(fault)) => Err(fault),
        Some(Ok(width)) => wider(at, width, operand),
    }
}

/// The sort of a whole chain of `++` of a width. Arity where it has no operand, which no text has.
pub fn joined(at: usize, width: Option<Result<Width, TypeFault>>) -> Result<Sort, TypeFault>
    ensures { result ≡ joined_from at width [] }
{
    match width {
        None => Err(TypeFault {
            at,
            kind: TypeKind::Arity,
        }),
        Some(Err(fault)) => Err(fault),
        Some(Ok(width)) => Ok(Sort::scalar(Scalar::bits(width))),
    }
}

/// The sort of a negation.
pub fn negation(operand: Result<Operand, TypeFault>) -> Result<Sort, TypeFault>
    ensures { result ≡ with_answer operand (λ o. spec.needs spec.bool_sort o (Ok spec.bool_sort)) }
{
    match operand {
        Err(fault) => Err(fault),
        Ok(operand) => negated(&operand),
    }
}

/// The sort of an implication.
pub fn implication(
    left: Result<Operand, TypeFault>,
    right: Result<Operand, TypeFault>,
) -> Result<Sort, TypeFault>
    ensures { result ≡ with_answer left (λ l. with_answer right (λ r. spec.needs spec.bool_sort l (spec.needs spec.bool_sort r (Ok spec.bool_sort)))) }
{
    match left {
        Err(fault) => Err(fault),
        Ok(left) => match right {
            Err(fault) => Err(fault),
            Ok(right) => implies(&left, &right),
        },
    }
}

/// The sort of `==` or `!=` at an offset.
pub fn comparison(
    at: usize,
    left: Result<Operand, TypeFault>,
    right: Result<Operand, TypeFault>,
) -> Result<Sort, TypeFault>
    ensures { result ≡ with_answer left (λ l. with_answer right (λ r. spec.compared at l r)) }
{
    match left {
        Err(fault) => Err(fault),
        Ok(left) => match right {
            Err(fault) => Err(fault),
            Ok(right) => compared(at, &left, &right),
        },
    }
}

/// The sort of an `if` at an offset.
pub fn choice(
    at: usize,
    condition: Result<Operand, TypeFault>,
    yes: Result<Operand, TypeFault>,
    no: Result<Operand, TypeFault>,
) -> Result<Sort, TypeFault>
    ensures { result ≡ with_answer condition (λ c. with_answer yes (λ y. with_answer no (λ n. spec.chosen at c y n))) }
{
    match condition {
        Err(fault) => Err(fault),
        Ok(condition) => match yes {
            Err(fault) => Err(fault),
            Ok(yes) => match no {
                Err(fault) => Err(fault),
                Ok(no) => chosen(at, &condition, &yes, &no),
            },
        },
    }
}

/// The sort of an entry of a map.
pub fn selection(map: &Operand, index: Result<Operand, TypeFault>) -> Result<Sort, TypeFault>
    ensures { result ≡ with_answer index (λ i. spec.selected map.now i) }
{
    match index {
        Err(fault) => Err(fault),
        Ok(index) => selected(map, &index),
    }
}

/// The sort of a map with a value at an index.
pub fn replacement(
    map: &Operand,
    index: Result<Operand, TypeFault>,
    value: Result<Operand, TypeFault>,
) -> Result<Sort, TypeFault>
    ensures { result ≡ with_answer index (λ i. with_answer value (λ v. spec.stored map.now i v)) }
{
    match index {
        Err(fault) => Err(fault),
        Ok(index) => match value {
            Err(fault) => Err(fault),
            Ok(value) => stored(map, &index, &value),
        },
    }
}
