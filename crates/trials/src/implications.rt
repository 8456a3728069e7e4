// Random rules: which others follow from them, beside all tables of two rows.
use crate::brute_force::{holds_in_all, obeys, obeys_all, two_row_tables};
use crate::generator::Random;
use crate::plain_rules::{PlainRule, PlainRules, Size, random_rules, set_count};
use anyhow::anyhow;
use columns::ColumnSet;
use dependencies::{Implication, Rule, RuleSet, TwoRows, follows, read_rules, two_rows};

const TRIALS: u32 = 2000;

const SIZE: Size = Size {
    columns: 6,
    rules: 6,
};

// What the crates say; none where the rule names a column that is not there.
fn asked(set: &RuleSet, rule: PlainRule) -> Option<Implication> {
    let left = ColumnSet::from_bits(rule.left, set.width())?;
    let right = ColumnSet::from_bits(rule.right, set.width())?;
    Some(follows(set.rules(), Rule { left, right }))
}

// The columns of the table in which two rows agree.
fn agreement(rows: TwoRows, columns: u64) -> u64 {
    let mut agree = 0;
    let cells = rows.first.iter().zip(rows.second.iter());
    for (c, (one, two)) in cells.enumerate().take(columns.min(16) as usize) {
        if one == two {
            agree |= 1 << (c % 64);
        }
    }
    agree
}

// Whether two rows obey the rules and break this one.
fn are_against(rows: TwoRows, rules: &PlainRules, rule: PlainRule) -> bool {
    let agree = agreement(rows, rules.columns);
    obeys_all(agree, rules.list.as_slice()) && !obeys(agree, rule)
}

// Whether the answer is that of the tables, and the two rows, where they are given, are right.
fn is_right(
    answer: Option<Implication>,
    rules: &PlainRules,
    tables: &[u64],
    rule: PlainRule,
) -> bool {
    let holds = holds_in_all(tables, rule);
    match answer {
        Some(Implication::Follows) => holds,
        Some(Implication::Against(fixed)) => !holds && are_against(two_rows(fixed), rules, rule),
        None => false,
    }
}

fn show(
    rt: &HostRuntime,
    rules: &PlainRules,
    rule: PlainRule,
    answer: Option<Implication>,
) -> anyhow::Result<()> {
    let tables = two_row_tables(rt.alloc(), rules)?;
    let plain = holds_in_all(tables.as_slice(), rule);
    println!(rt; "implications: a difference with {rules}, asked {rule}")?;
    println!(rt; "  holds in all tables of two rows: {plain}")?;
    match answer {
        Some(Implication::Follows) => println!(rt; "  follows: yes")?,
        Some(Implication::Against(fixed)) => {
            let TwoRows { first, second } = two_rows(fixed);
            println!(rt; "  follows: no, by {first:?} and {second:?}")?;
        }
        None => println!(rt; "  follows: not asked")?,
    }
    Ok(())
}

// How many of all rules follow, and how many do not.
#[derive(Clone, Copy)]
struct Tally {
    follow: u64,
    fail: u64,
}

impl Tally {
    fn with(self, follows: bool) -> Tally {
        if follows {
            return Tally {
                follow: self.follow.saturating_add(1),
                fail: self.fail,
            };
        }
        Tally {
            follow: self.follow,
            fail: self.fail.saturating_add(1),
        }
    }
}

// All rules over the columns; none after a difference, which is shown.
fn all_asked(
    rt: &HostRuntime,
    rules: &PlainRules,
    set: &RuleSet,
    start: Tally,
) -> anyhow::Result<Option<Tally>> {
    let tables = two_row_tables(rt.alloc(), rules)?;
    let mut tally = start;
    for left in 0..set_count(rules.columns) {
        for right in 0..set_count(rules.columns) {
            let rule = PlainRule { left, right };
            let answer = asked(set, rule);
            if !is_right(answer, rules, tables.as_slice(), rule) {
                show(rt, rules, rule, answer)?;
                return Ok(None);
            }
            tally = tally.with(holds_in_all(tables.as_slice(), rule));
        }
    }
    Ok(Some(tally))
}

// One line; or the first difference in full.
pub fn run(rt: &HostRuntime) -> anyhow::Result<()> {
    let mut random = Random::from_start(4);
    let mut tally = Tally { follow: 0, fail: 0 };
    for _ in 0..TRIALS {
        let rules = random_rules(rt.alloc(), &mut random, SIZE)?;
        let lent = rules.lent(rt.alloc())?;
        let Ok(set) = read_rules(lent.as_slice()) else {
            return Err(anyhow!("{:?}", "random rules are refused"));
        };
        let Some(after) = all_asked(rt, &rules, &set, tally)? else {
            return Ok(());
        };
        tally = after;
    }
    let follow = tally.follow;
    let fail = tally.fail;
    println!(rt;
        "implications: {follow} rules follow and {fail} do not, under {TRIALS} random lists of rules; no difference"
    )?;
    Ok(())
}
