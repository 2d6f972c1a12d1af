//! The terms behind which the formulas of a question are copied. `AllocError` comes where memory runs out.
ghost use Rattle.std.specs.Prelude.{IfOk};
ghost use Rattle.tree_query.specs.Founded.{IsFoundation};

use crate::allowing::allowed;
use crate::opening::{BaseTerms, base_terms};
use flat_prog::Flat;
use sqlite_items::Items;
use std::alloc::{AllocError, Global};
use tree_terms::SharedTerms;
use tree_words::literal;

/// The numbers of bools: one that is true where the constants are allowed, one that always is, and one that never is.
#[derive(Clone, Copy, Debug, PartialEq, Eq)]
pub(crate) struct Bools {
    pub(crate) allowed: usize,
    pub(crate) always: usize,
    pub(crate) never: usize,
}

/// Terms with those of the constants, of the globals and of the entry's ins, and with bools.
#[derive(Drop)]
pub(crate) struct Foundation {
    pub(crate) terms: SharedTerms,
    pub(crate) consts: Items<usize>,
    pub(crate) globals: Items<usize>,
    pub(crate) args: Items<usize>,
    pub(crate) bools: Bools,
}

/// The terms that a question about an entry begins with. The error also comes where a unique constant is a map, since terms
/// do not compare maps.
pub(crate) fn founded(alloc: Global, flat: &Flat, entry: u32) -> Result<Foundation, AllocError>
    ensures { IfOk result (λ x. IsFoundation flat.now entry x.terms.nodes x.consts x.globals x.args x.bools.allowed x.bools.always x.bools.never) }
{
    let BaseTerms {
        terms,
        consts,
        globals,
        args,
    } = base_terms(alloc, flat, entry)?;
    let mut opened = terms;
    let Some(allowed) = allowed(alloc, flat, &mut opened, consts.as_slice())? else {
        return Err(AllocError);
    };
    let mut terms = SharedTerms::new(alloc, opened)?;
    let always = literal(&mut terms, true)?;
    let never = literal(&mut terms, false)?;
    Ok(Foundation {
        terms,
        consts,
        globals,
        args,
        bools: Bools {
            allowed,
            always,
            never,
        },
    })
}
