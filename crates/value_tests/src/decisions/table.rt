//! Each decision of a small question is that of a search over all values.

use super::search::Question;
use super::shapes::{COUNT, Family, question};
use decide::{Decision, decide};
use hy_term::Terms;
use hy_val::{Scalar, Width};
use std::alloc::{AllocError, Global};
use std::test::Fail;

// How many questions could hold, could not, and were decided otherwise or not at all.
#[derive(Clone, Copy, Debug, PartialEq, Eq)]
struct Counts {
    held: u64,
    refuted: u64,
    wrong: u64,
}

// What is decided of the terms: that values hold, which do, or that none can; None where there is no answer or the values
// don't hold.
fn decided(
    alloc: Global,
    terms: &Terms,
    question: &mut Question,
) -> Result<Option<bool>, AllocError> {
    match decide(alloc, terms) {
        Decision::Model(values) => {
            if question.holds(alloc, values)? {
                Ok(Some(true))
            } else {
                Ok(None)
            }
        }
        Decision::Refuted(_) => Ok(Some(false)),
        Decision::NoMemory => Ok(None),
    }
}

// Whether the terms can hold, where the decision and the search agree.
fn agreed(alloc: Global, terms: &Terms) -> Result<Option<bool>, AllocError> {
    let Some(mut question) = Question::of(alloc, terms)? else {
        return Ok(None);
    };
    let searched = question.can_hold(alloc)?;
    let decided = decided(alloc, terms, &mut question)?;
    if decided == Some(searched) {
        Ok(decided)
    } else {
        Ok(None)
    }
}

// Whether the question of this number can hold, where both agree.
fn agreed_at(alloc: Global, family: &Family, number: u64) -> Result<Option<bool>, AllocError> {
    match question(alloc, family, number)? {
        Some(terms) => agreed(alloc, &terms),
        None => Ok(None),
    }
}

impl Counts {
    // Counts one question more.
    fn add(&mut self, agreed: Option<bool>) {
        match agreed {
            Some(true) => self.held = self.held.saturating_add(1),
            Some(false) => self.refuted = self.refuted.saturating_add(1),
            None => self.wrong = self.wrong.saturating_add(1),
        }
    }
}

// Decides so many questions of the family, whose numbers are a step apart.
fn counted(alloc: Global, family: &Family, count: u64, step: u64) -> Result<Counts, AllocError> {
    let mut counts = Counts {
        held: 0,
        refuted: 0,
        wrong: 0,
    };
    for k in 0..count {
        let agreed = agreed_at(alloc, family, k.saturating_mul(step))?;
        counts.add(agreed);
    }
    Ok(counts)
}

// Maps from bools to bools, of which there are 4.
#[test]
fn maps_of_bools_are_decided_as_by_search(rt: HostRuntime) -> Result<(), Fail> {
    let family = Family {
        index: Scalar::bool(),
        elem: Scalar::bool(),
        second_is_zero: false,
    };
    let counts = counted(rt.alloc(), &family, COUNT, 1)?;
    assert_eq!(rt;
        counts,
        Counts {
            held: 1228,
            refuted: 116,
            wrong: 0
        }
    );
    Ok(())
}

// Maps from two bits to two bits, of which there are 256. The step has no divisor in common with COUNT, so
// that each choice comes.
#[test]
fn maps_of_bits_are_decided_as_by_search(rt: HostRuntime) -> Result<(), Fail> {
    let bits = Scalar::bits(Width::new(2));
    let family = Family {
        index: bits,
        elem: bits,
        second_is_zero: true,
    };
    let counts = counted(rt.alloc(), &family, 64, 961)?;
    assert_eq!(rt;
        counts,
        Counts {
            held: 60,
            refuted: 4,
            wrong: 0
        }
    );
    Ok(())
}
