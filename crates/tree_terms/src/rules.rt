//! Rules on bools, and the bool that says that all of a list of rules hold.
ghost use Rattle.std.specs.Prelude.{◌≡◌, true, false, ◌&&◌, IfOk, IsSome, if◌then◌else◌};
ghost use Rattle.hy_term.specs.TermSorts.{sorts};
ghost use Rattle.tree_terms.specs.Rules.{IsBit, IsBool, IsFalse, RuleFits, RulesFit, bit, rule_holds, rules_hold};

use crate::placing::placed;
use crate::shared::SharedTerms;
use hy_term::TermNode;
use std::alloc::AllocError;

/// A rule on bools, by their numbers: where `when` is true, `one` or `other` is; or, where the rule is negated, `one` isn't.
#[derive(Clone, Copy, Debug, PartialEq, Eq)]
pub struct Rule {
    /// The bool under which something is asked.
    pub when: usize,
    /// Whether `one` is to be false, and `other` isn't read.
    pub negated: bool,
    /// The first bool.
    pub one: usize,
    /// The second bool.
    pub other: usize,
}

/// A bool that is `yes` where `cond` is true, else `no`, by the numbers of three bools. `AllocError` comes where memory runs
/// out.
pub fn choice(
    terms: &mut SharedTerms,
    cond: usize,
    yes: usize,
    no: usize,
) -> Result<usize, AllocError>
    requires sorted { IsSome (sorts terms.old.nodes) }
    requires cond { IsBool terms.old.nodes cond }
    requires yes { IsBool terms.old.nodes yes }
    requires no { IsBool terms.old.nodes no }
    ensures { IfOk result (IsBit terms.old.nodes terms.new.nodes (λ a. if bit a terms.old.nodes cond then bit a terms.old.nodes yes else bit a terms.old.nodes no)) }
{
    let place = placed(terms, TermNode::If { cond, yes, no })?;
    Ok(place)
}

// True where `all` is and a rule that is negated holds.
fn negated(
    terms: &mut SharedTerms,
    never: usize,
    all: usize,
    rule: Rule,
) -> Result<usize, AllocError>
    requires sorted { IsSome (sorts terms.old.nodes) }
    requires never { IsFalse terms.old.nodes never }
    requires all { IsBool terms.old.nodes all }
    requires rule { RuleFits terms.old.nodes rule }
    requires negated { rule.negated ≡ true }
    ensures { IfOk result (IsBit terms.old.nodes terms.new.nodes (λ a. bit a terms.old.nodes all && rule_holds (bit a terms.old.nodes) rule)) }
{
    let kept = choice(terms, rule.one, never, all)?;
    let place = choice(terms, rule.when, kept, all)?;
    Ok(place)
}

// True where `all` is and another rule holds.
fn plain(terms: &mut SharedTerms, never: usize, all: usize, rule: Rule) -> Result<usize, AllocError>
    requires sorted { IsSome (sorts terms.old.nodes) }
    requires never { IsFalse terms.old.nodes never }
    requires all { IsBool terms.old.nodes all }
    requires rule { RuleFits terms.old.nodes rule }
    requires plain { rule.negated ≡ false }
    ensures { IfOk result (IsBit terms.old.nodes terms.new.nodes (λ a. bit a terms.old.nodes all && rule_holds (bit a terms.old.nodes) rule)) }
{
    let other = choice(terms, rule.other, all, never)?;
    let kept = choice(terms, rule.one, all, other)?;
    let place = choice(terms, rule.when, kept, all)?;
    Ok(place)
}

// True where `all` is and the rule holds.
fn with_rule(
    terms: &mut SharedTerms,
    never: usize,
    all: usize,
    rule: Rule,
) -> Result<usize, AllocError>
    requires sorted { IsSome (sorts terms.old.nodes) }
    requires never { IsFalse terms.old.nodes never }
    requires all { IsBool terms.old.nodes all }
    requires rule { RuleFits terms.old.nodes rule }
    ensures { IfOk result (IsBit terms.old.nodes terms.new.nodes (λ a. bit a terms.old.nodes all && rule_holds (bit a terms.old.nodes) rule)) }
{
    if rule.negated {
        negated(terms, never, all, rule)
    } else {
        plain(terms, never, all, rule)
    }
}

/// A bool that is true where the bool `start` is and all rules hold. `never` is a bool that is false under every assignment.
/// `AllocError` comes where memory runs out.
pub fn ruled(
    terms: &mut SharedTerms,
    never: usize,
    start: usize,
    rules: &[Rule],
) -> Result<usize, AllocError>
    requires sorted { IsSome (sorts terms.old.nodes) }
    requires never { IsFalse terms.old.nodes never }
    requires start { IsBool terms.old.nodes start }
    requires rules { RulesFit terms.old.nodes rules.now }
    ensures { IfOk result (IsBit terms.old.nodes terms.new.nodes (λ a. bit a terms.old.nodes start && rules_hold (bit a terms.old.nodes) rules.now)) }
{
    let mut all = start;
    for rule in rules {
        all = with_rule(terms, never, all, *rule)?;
    }
    Ok(all)
}
