// Whether joining the parts loses nothing, by the chase: a tableau of one row a part, made more and more equal by the rules.
// A row has 0 in its part's columns and a number of its own elsewhere. Where two rows agree on a rule's left side, the larger
// number in a right column becomes the smaller in the whole column. In the end some row is all 0 exactly if nothing is lost.
ghost use Rattle.std.specs.Prelude.{◌≡◌, ℕ, ◌<◌, true, [], ◌∷◌, length};
ghost use Rattle.columns.specs.Cols.{columns as range_of};
ghost use Rattle.columns.specs.Every.{any};
ghost use Rattle.columns.specs.Sets.{cols};
ghost use Rattle.dependencies.specs.Rules.{dep, deps};
ghost use Rattle.dependencies.specs.Reads.{rules_of};
ghost use Rattle.dependencies.specs.Tables.{agree, zero_row};
ghost use Rattle.verdict.specs.Chase.{put_low, mend, tableau};
ghost use Rattle.verdict.specs.Deciding.{Decides};
ghost use Rattle.schema.specs.Design.{LosesNothing};
ghost use Rattle.verdict.specs.Given.{given_parts};
ghost use Rattle.verdict.specs.Sweeps.{Sweep, PairQuiet, RowQuiet, RuleQuiet, AllQuiet, Chased, Merged, fault, blank};

use crate::given_design::GivenDesign;
use columns::{Column, ColumnSet, Width};
use dependencies::{Rule, RuleSet, agrees, row_apart};

// In a column, the larger of two numbers becomes the smaller.
#[derive(Clone, Copy)]
pub(crate) struct Merge {
    pub(crate) column: Column,
    pub(crate) low: u64,
    pub(crate) high: u64,
}

// A row after a merge.
fn lower_row(row: &mut [u64; 16], merge: Merge)
    ensures { row.new ≡ put_low merge.column.index merge.high merge.low row.old }
{
    let c = merge.column.index() as usize;
    if row[c] == merge.high {
        row[c] = merge.low;
    }
}

// The merge in all rows: what was equal in the column stays so.
fn lower(rows: &mut [[u64; 16]], merge: Merge)
    ensures { rows.new ≡ mend (fault merge) rows.old }
{
    for row in rows.iter_mut() {
        lower_row(row, merge);
    }
}

// Makes two rows equal in a column; whether they were not.
fn merge_at(rows: &mut [[u64; 16]], c: Column, one: usize, two: usize) -> bool
    requires one_in_bounds { one < length rows.old }
    requires two_in_bounds { two < length rows.old }
    ensures { Merged c.index one two rows.old rows.new result }
{
    let a = rows[one][c.index() as usize];
    let b = rows[two][c.index() as usize];
    if a == b {
        return false;
    }
    let merge = Merge {
        column: c,
        low: a.min(b),
        high: a.max(b),
    };
    lower(rows, merge);
    true
}

// Makes two rows equal where the rule asks for it; whether they were not.
fn apply(rows: &mut [[u64; 16]], rule: Rule, one: usize, two: usize) -> bool
    requires one_in_bounds { one < length rows.old }
    requires two_in_bounds { two < length rows.old }
    ensures { Sweep (dep rule ∷ []) (PairQuiet (dep rule) rows.old one two) rows.old rows.new result }
{
    if !agrees(rule.left, &rows[one], &rows[two]) {
        return false;
    }
    let mut changed = false;
    let mut todo = rule.right;
    while let Some(c) = todo.take_first() {
        changed |= merge_at(rows, c, one, two);
    }
    changed
}

// A rule on one row and each behind it; whether anything changed.
fn sweep_row(rows: &mut [[u64; 16]], rule: Rule, one: usize) -> bool
    requires { one < length rows.old }
    ensures { Sweep (dep rule ∷ []) (RowQuiet (dep rule) rows.old (length rows.old) one) rows.old rows.new result }
{
    let mut changed = false;
    // By places, since any two rows of the one slice may change.
    for two in one + 1..rows.len() {
        changed |= apply(rows, rule, one, two);
    }
    changed
}

// A rule on all pairs of rows, each once: it asks the same of a pair either way round.
fn sweep_rule(rows: &mut [[u64; 16]], rule: Rule) -> bool
    ensures { Sweep (dep rule ∷ []) (RuleQuiet (dep rule) rows.old (length rows.old)) rows.old rows.new result }
{
    let mut changed = false;
    // By places, as above.
    for one in 0..rows.len() {
        changed |= sweep_row(rows, rule, one);
    }
    changed
}

// One pass over the rules and all pairs of rows, which goes on after a change; whether anything changed.
fn sweep(rows: &mut [[u64; 16]], rules: &[Rule]) -> bool
    ensures { Sweep (deps rules.now) (AllQuiet (deps rules.now) rows.old) rows.old rows.new result }
{
    let mut changed = false;
    for rule in rules {
        changed |= sweep_rule(rows, *rule);
    }
    changed
}

// Sweeps until nothing changes.
fn chase(rows: &mut [[u64; 16]], rules: &[Rule])
    ensures { (Chased (deps rules.now) rows.old rows.new) × (AllQuiet (deps rules.now) rows.new) }
{
    loop {
        if !sweep(rows, rules) {
            return;
        }
    }
}

// Writes the tableau that the chase begins with: a row is 0 in its part's columns, and has a number of its own elsewhere.
fn lay_out(rows: &mut [[u64; 16]], design: GivenDesign)
    requires { length rows.old ≡ length (given_parts design) }
    ensures { rows.new ≡ tableau 16 0 (given_parts design.entry) }
{
    let mut todo = design;
    for (i, row) in rows.iter_mut().enumerate() {
        let Some(part) = todo.next() else {
            return;
        };
        *row = row_apart(part.set, i as u64 + 1);
    }
}

// Whether some row is 0 in all columns of the table.
fn has_zero_row(rows: &[[u64; 16]], width: Width) -> bool
    ensures { result ≡ any rows.now (λ x. agree (range_of 0 width.columns) (zero_row 16) x) }
{
    let all = ColumnSet::all(width);
    rows.iter().any(|row| agrees(all, &[0; 16], row))
}

// Whether a row that looks in each part like a row of a table is a row of that table. The rows are worked in, and left all 0.
pub(crate) fn lossless(rows: &mut [[u64; 16]], rules: &RuleSet, design: GivenDesign) -> bool
    requires rows_len { length rows.old ≡ length (given_parts design) }
    requires rows_nonzero { 0 < length rows.old }
    requires columns_value { rules.now.width.columns ≡ design.width.columns }
    ensures decides { Decides (LosesNothing rules.now.width.columns (deps (rules_of rules.now)) (given_parts design.entry)) result }
    ensures cleared { rows.new ≡ blank (length rows.old) }
{
    lay_out(rows, design);
    chase(rows, rules.rules());
    let nothing_lost = has_zero_row(rows, rules.width());
    rows.fill([0; 16]);
    nothing_lost
}
