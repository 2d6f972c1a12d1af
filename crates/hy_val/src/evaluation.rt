//! Evaluation of expressions, in one pass over the nodes that copies no map.
ghost use Rattle.std.specs.Prelude.{◌≡◌, [], IfOk, IsTrue, IsSome};
ghost use Rattle.hy_val.specs.Exprs.{sorts_onto, values_by, read, eval, reads};
ghost use Rattle.hy_val.specs.Kept.{meant_onto, Keeps};

use crate::expr::{Env, Expr, ExprNode};
use crate::known::{Kept, Known};
use crate::value::Value;
use std::alloc::{AllocError, Global};

// What is kept of all nodes.
fn kept_of(alloc: Global, env: &Env, nodes: &[ExprNode]) -> Result<Vec<Kept>, AllocError>
    requires sorts { IsSome (sorts_onto [] nodes.now) }
    requires variables { IsTrue (reads env.now nodes.now) }
    ensures values { IfOk result (λ ks. meant_onto env.now [] ks.items ≡ values_by (read env.now) [] nodes.now) }
    ensures keeps { IfOk result (λ ks. Keeps env.now ks.items) }
{
    let mut kept = Vec::new(alloc);
    for node in nodes {
        let known = Known {
            env,
            kept: kept.as_slice(),
        };
        let next = known.node(node);
        kept.push(next)?;
    }
    Ok(kept)
}

/// The value of an expression in an environment, which has its variables with their sorts.
///
/// One pass over the nodes keeps an atom, a variable or a store for each, and copies no map. A select
/// goes down the stores below it to the map of a variable, in which it searches. Where no node is the
/// child of two, no two selects go over the same store, so the pass takes as many steps as there are
/// nodes; n selects above one chain of n stores take n each. A map is copied once, where it is the
/// value of the whole, and then takes what the stores above its variable write, one by one.
pub fn eval(alloc: Global, e: &Expr, env: &Env) -> Result<Value, AllocError>
    requires { IsTrue (reads env.now e.now) }
    ensures { IfOk result (λ v. v ≡ eval env.now e.now) }
{
    let nodes = e.nodes();
    let kept = kept_of(alloc, env, nodes)?;
    let known = Known {
        env,
        kept: kept.as_slice(),
    };
    known.value(alloc, nodes.len() - 1)
}
