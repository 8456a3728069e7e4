// Whether somebody else's design is one: the rules are read, and then the five conditions are tested in their order.
ghost use Rattle.std.specs.Prelude.{◌≡◌, length, Ok, Err};
ghost use Rattle.dependencies.specs.Reads.{rules_of};
ghost use Rattle.dependencies.specs.Rules.{deps};
ghost use Rattle.verdict.specs.Check.{Judged, Checked, Accepted, parts_given};
ghost use Rattle.verdict.specs.Given.{given_parts};
ghost use Rattle.verdict.specs.Sweeps.{RowsLeft};
ghost use Rattle.dependencies.specs.declared.refusals.Refusal.TheVariants.{NotADesign};
ghost use Rattle.verdict.specs.declared.check.CheckFailure.TheVariants.{Refused};

use crate::chase::lossless;
use crate::given_design::GivenDesign;
use crate::keeping::keeps_rules;
use crate::opening::{opened, readable};
use crate::spread::{covers, none_inside};
use crate::third::third_forms;
use dependencies::{Condition, Refusal, RuleSet, read_rules};

// Why there is no verdict that it is a design.
#[derive(Clone, Copy, PartialEq, Eq, Debug)]
pub enum CheckFailure {
    // The rules are refused, by 1, 2 or 3; or the design is none, by 6, with the first condition that it misses.
    Refused(Refusal),
    // The first two conditions are met, and the tableau lent for the third has fewer rows than the design has parts. Their count.
    ShortTableau(u64),
}

impl From<Refusal> for CheckFailure {
    ghost from_gives = { λ refusal failure. failure ≡ Refused refusal };

    fn from(refusal: Refusal) -> CheckFailure {
        CheckFailure::Refused(refusal)
    }
}

// It is no design, by a condition that it misses.
fn missed(condition: Condition) -> Result<(), CheckFailure>
    ensures { result ≡ Err (Refused (NotADesign condition)) }
{
    Err(Refusal::NotADesign(condition).into())
}

// The parts against the rules, in the order of the conditions.
fn judge(
    rules: &RuleSet,
    design: GivenDesign,
    tableau: &mut [[u64; 16]],
) -> Result<(), CheckFailure>
    requires { rules.now.width ≡ design.width }
    ensures rows { RowsLeft (length (given_parts design.entry)) tableau.old tableau.new }
    ensures told { Judged rules.now.width.columns (deps (rules_of rules.now)) (given_parts design.entry) (length tableau.old) result }
{
    if !covers(design) {
        return missed(Condition::Covers);
    }
    if !none_inside(design) {
        return missed(Condition::NoneInside);
    }
    let parts = design.count;
    if tableau.len() < parts {
        return Err(CheckFailure::ShortTableau(parts as u64));
    }
    if !lossless(&mut tableau[0..parts], rules, design) {
        return missed(Condition::Lossless);
    }
    if !keeps_rules(design, rules.rules()) {
        return missed(Condition::RulesKept);
    }
    if !third_forms(design, rules.rules()) {
        return missed(Condition::ThirdForm);
    }
    Ok(())
}

// Whether lent numbers are a design for lent rules: yes exactly if they are, or the first refusal that applies. The tableau is
// worked in: it needs a row a part. No more than 12,870 sets of 16 columns lie outside each other, by Sperner's theorem, on which
// nothing here rests: so many rows are never too few.
pub fn check_design(
    rules: &[u64],
    design: &[u64],
    tableau: &mut [[u64; 16]],
) -> Result<(), CheckFailure>
    ensures told { Checked rules.now design.now (length tableau.old) result }
    ensures accepts { Accepted rules.now design.now (length tableau.old) → result ≡ Ok tt }
    ensures rows { RowsLeft (length (parts_given rules.now design.now)) tableau.old tableau.new }
{
    let set = read_rules(rules)?;
    let width = set.width();
    if !readable(design, width) {
        return missed(Condition::Covers);
    }
    judge(&set, opened(design, width), tableau)
}

#[cfg(test)]
mod tests {
    use super::*;

    const ORGANS: [u64; 10] = [6, 4, 1, 10, 2, 4, 48, 1, 33, 16];

    // With three rows for the tableau.
    fn verdict(rules: &[u64], design: &[u64]) -> Result<(), CheckFailure> {
        let mut tableau = [[7; 16]; 3];
        check_design(rules, design, &mut tableau)
    }

    // Written out, so that the tests do not rest on the code that they test.
    fn misses(condition: Condition) -> Result<(), CheckFailure> {
        Err(CheckFailure::Refused(Refusal::NotADesign(condition)))
    }

    #[test]
    fn organs(rt: HostRuntime) {
        assert_eq!(rt;
            verdict(
                &ORGANS,
                &[3, 11, 2, 1, 2, 1, 8, 6, 1, 2, 4, 49, 2, 48, 1, 33, 16],
            ),
            Ok(())
        );
        assert_eq!(rt;
            verdict(&ORGANS, &[2, 15, 3, 1, 2, 1, 8, 2, 4, 49, 2, 48, 1, 33, 16]),
            misses(Condition::ThirdForm)
        );
        assert_eq!(rt;
            verdict(&ORGANS, &[2, 11, 2, 1, 2, 1, 8, 52, 0]),
            misses(Condition::Lossless)
        );
    }

    #[test]
    fn not_a_design_at_all(rt: HostRuntime) {
        assert_eq!(rt; verdict(&ORGANS, &[]), misses(Condition::Covers));
        assert_eq!(rt; verdict(&ORGANS, &[0]), misses(Condition::Covers));
        assert_eq!(rt; verdict(&ORGANS, &[1, 127, 0]), misses(Condition::Covers));
        assert_eq!(rt;
            verdict(&ORGANS, &[1, 63, 1, 1, 64]),
            misses(Condition::Covers)
        );
        assert_eq!(rt; verdict(&ORGANS, &[1, 31, 0]), misses(Condition::Covers));
        assert_eq!(rt;
            verdict(
                &ORGANS,
                &[3, 11, 2, 1, 2, 1, 8, 6, 1, 2, 4, 49, 2, 48, 1, 33],
            ),
            misses(Condition::Covers)
        );
    }

    #[test]
    fn inside_another(rt: HostRuntime) {
        assert_eq!(rt;
            verdict(&ORGANS, &[2, 2, 0, 63, 0]),
            misses(Condition::NoneInside)
        );
        assert_eq!(rt;
            verdict(&ORGANS, &[2, 63, 0, 2, 0]),
            misses(Condition::NoneInside)
        );
    }

    // A given rule is lost; an own rule does not follow; an own rule lies outside its part.
    #[test]
    fn rules_not_kept(rt: HostRuntime) {
        assert_eq!(rt;
            verdict(&ORGANS, &[3, 11, 2, 1, 2, 1, 8, 6, 0, 49, 2, 48, 1, 33, 16]),
            misses(Condition::RulesKept)
        );
        assert_eq!(rt;
            verdict(
                &ORGANS,
                &[3, 11, 2, 1, 2, 1, 8, 6, 2, 2, 4, 4, 2, 49, 2, 48, 1, 33, 16],
            ),
            misses(Condition::RulesKept)
        );
        assert_eq!(rt;
            verdict(
                &ORGANS,
                &[3, 11, 3, 1, 2, 1, 8, 2, 4, 6, 0, 49, 2, 48, 1, 33, 16],
            ),
            misses(Condition::RulesKept)
        );
    }

    // The rule that makes the first row all 0 comes before those that it needs.
    #[test]
    fn second_sweep(rt: HostRuntime) {
        assert_eq!(rt;
            verdict(
                &[4, 3, 4, 8, 2, 4, 1, 2],
                &[3, 3, 1, 1, 2, 6, 1, 2, 4, 12, 1, 4, 8],
            ),
            Ok(())
        );
    }

    // Column 1 is fixed by less than a key, and is in one.
    #[test]
    fn prime_column(rt: HostRuntime) {
        assert_eq!(rt;
            verdict(&[3, 2, 3, 4, 4, 2], &[1, 7, 2, 3, 4, 4, 2]),
            Ok(())
        );
    }

    // Column 2 is fixed by 1 through a column outside the part, which has no rule for it.
    #[test]
    fn fixed_elsewhere(rt: HostRuntime) {
        assert_eq!(rt;
            verdict(&[4, 3, 1, 15, 2, 8, 8, 4], &[2, 7, 1, 1, 6, 10, 1, 2, 8]),
            misses(Condition::RulesKept)
        );
        assert_eq!(rt;
            verdict(
                &[4, 3, 1, 15, 2, 8, 8, 4],
                &[3, 7, 1, 1, 6, 10, 1, 2, 8, 12, 1, 8, 4],
            ),
            misses(Condition::ThirdForm)
        );
    }

    #[test]
    fn too_few_rows(rt: HostRuntime) {
        assert_eq!(rt;
            verdict(&[4, 0], &[4, 1, 0, 2, 0, 4, 0, 8, 0]),
            Err(CheckFailure::ShortTableau(4))
        );
        assert_eq!(rt;
            verdict(&[17, 0], &[]),
            Err(CheckFailure::Refused(Refusal::Columns))
        );
        assert_eq!(rt;
            verdict(&[4, 1, 1], &[]),
            Err(CheckFailure::Refused(Refusal::RuleCount(1)))
        );
    }

    // The rows of the parts are left all 0, and the others as they were.
    #[test]
    fn rows_after(rt: HostRuntime) {
        let mut tableau = [[7; 16]; 3];
        let _ = check_design(&[2, 1, 1, 2], &[1, 3, 1, 1, 2], &mut tableau);
        assert_eq!(rt; tableau[0][15], 0);
        assert_eq!(rt; tableau[1][0], 7);
    }
}
