// Whether the parts' own rules lie in their parts and together say what the given rules say.
ghost use Rattle.std.specs.Prelude.{◌≡◌};
ghost use Rattle.columns.specs.Cols.{Same};
ghost use Rattle.columns.specs.Every.{every};
ghost use Rattle.columns.specs.Sets.{cols};
ghost use Rattle.dependencies.specs.Closure.{round, Closes, does_fix, do_follow};
ghost use Rattle.dependencies.specs.Rules.{dep, deps};
ghost use Rattle.verdict.specs.Deciding.{Decides};
ghost use Rattle.schema.specs.Design.{all_rules, KeepsRules};
ghost use Rattle.verdict.specs.Given.{own_of, given_parts};
ghost use Rattle.verdict.specs.Kept.{does_stand};

use crate::given_design::GivenDesign;
use crate::own_rules::OwnRules;
use columns::ColumnSet;
use dependencies::{Rule, closure};

// Whether an own rule lies in its part and follows from the given ones.
fn stands(rule: Rule, part: ColumnSet, rules: &[Rule]) -> bool
    ensures { result ≡ does_stand (deps rules.now) (cols part) (dep rule) }
{
    rule.left.is_subset(part)
        && rule.right.is_subset(part)
        && rule.right.is_subset(closure(rules, rule.left))
}

// Whether all rules of a part do.
fn own_rules_stand(mut own: OwnRules, part: ColumnSet, rules: &[Rule]) -> bool
    ensures { result ≡ every (own_of own.entry) (does_stand (deps rules.now) (cols part)) }
{
    own.all(|rule| stands(rule, part, rules))
}

// Whether the rules of all parts do.
fn all_stand(mut design: GivenDesign, rules: &[Rule]) -> bool
    ensures { result ≡ every (given_parts design.entry) (λ p. every p.rules (does_stand (deps rules.now) p.cols)) }
{
    design.all(|part| own_rules_stand(part.rules, part.set, rules))
}

// The columns with all that each rule of a part, once and in order, adds to them.
fn part_round(own: OwnRules, start: ColumnSet) -> ColumnSet
    ensures { Same (cols result) (round (own_of own.entry) (cols start)) }
{
    let mut all = start;
    for rule in own {
        if rule.left.is_subset(all) {
            all = all.union(rule.right);
        }
    }
    all
}

// The same of all parts.
fn design_round(design: GivenDesign, start: ColumnSet) -> ColumnSet
    ensures { Same (cols result) (round (all_rules (given_parts design.entry)) (cols start)) }
{
    let mut all = start;
    for part in design {
        all = part_round(part.rules, all);
    }
    all
}

// All columns that the given ones fix under the parts' own rules, of which there may be any number.
fn design_closure(design: GivenDesign, start: ColumnSet) -> ColumnSet
    ensures { Closes (all_rules (given_parts design.entry)) (cols start) (cols result) }
{
    let mut all = start;
    loop {
        let next = design_round(design, all);
        if next == all {
            return all;
        }
        all = next;
    }
}

// Whether a given rule follows from the parts' own ones.
fn follows(rule: Rule, design: GivenDesign) -> bool
    ensures { result ≡ does_fix (all_rules (given_parts design.entry)) (cols rule.left) (cols rule.right) }
{
    rule.right.is_subset(design_closure(design, rule.left))
}

// Whether each given rule does.
fn given_follow(design: GivenDesign, rules: &[Rule]) -> bool
    ensures { result ≡ do_follow (all_rules (given_parts design.entry)) (deps rules.now) }
{
    rules.iter().all(|rule| follows(*rule, design))
}

// Whether the own rules ask no more than the given ones, each inside its part, and no less.
pub(crate) fn keeps_rules(design: GivenDesign, rules: &[Rule]) -> bool
    ensures { Decides (KeepsRules (deps rules.now) (given_parts design.entry)) result }
{
    if !all_stand(design, rules) {
        return false;
    }
    given_follow(design, rules)
}
