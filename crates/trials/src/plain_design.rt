// The plain side of the verdict on a design: its five conditions by their words, over all small tables.
use crate::plain_rules::{
    PlainRule, PlainRules, ShownSet, all_columns, has, is_inside, push_rules,
};
use crate::small_tables::{COLUMNS, SmallTable, SmallTables};
use std::alloc::{AllocError, Global};
use std::fmt;

#[derive(Drop)]
pub struct PlainPart {
    pub set: u64,
    pub own: Vec<PlainRule>,
}

#[derive(Drop)]
pub struct PlainDesign {
    pub parts: Vec<PlainPart>,
}

// The conditions that a splitting may miss, by their numbers: written apart from those of the crates, which are compared with them.
#[derive(Clone, Copy, PartialEq, Eq, Debug)]
pub enum Missed {
    Covers = 1,
    NoneInside = 2,
    Lossless = 3,
    RulesKept = 4,
    ThirdForm = 5,
}

impl Missed {
    pub fn number(self) -> u64 {
        self as u64
    }
}

// Those of the tables that obey the given rules; what follows from the rules is what all of them obey.
#[derive(Drop)]
pub struct Obeying {
    tables: Vec<SmallTable>,
    in_all: SmallTable,
}

impl Obeying {
    pub fn of(
        heap: Global,
        tables: &SmallTables,
        rules: &PlainRules,
    ) -> Result<Obeying, AllocError> {
        let mut obeying = Vec::new(heap);
        let mut in_all = SmallTable::without_rows();
        for table in tables.all.iter() {
            if table.obeys_all(rules.list.as_slice()) {
                obeying.push(*table)?;
                in_all = in_all.both_hold(*table);
            }
        }
        Ok(Obeying {
            tables: obeying,
            in_all,
        })
    }

    // Whether the left columns fix the right ones in all of them.
    pub fn fix(&self, left: u64, right: u64) -> bool {
        self.in_all.obeys(PlainRule { left, right })
    }
}

fn lies_in(rule: PlainRule, set: u64) -> bool {
    is_inside(rule.left, set) && is_inside(rule.right, set)
}

impl PlainPart {
    fn all_lie_in(&self, set: u64) -> bool {
        for rule in self.own.iter() {
            if !lies_in(*rule, set) {
                return false;
            }
        }
        true
    }

    // Whether the set fixes the part and no smaller one does.
    fn has_key(&self, obeying: &Obeying, key: u64) -> bool {
        if !is_inside(key, self.set) || !obeying.fix(key, self.set) {
            return false;
        }
        for less in 0..key {
            if is_inside(less, key) && obeying.fix(less, self.set) {
                return false;
            }
        }
        true
    }

    fn is_in_some_key(&self, obeying: &Obeying, column: usize) -> bool {
        for key in 0..8u64 {
            if has(key, column) && self.has_key(obeying, key) {
                return true;
            }
        }
        false
    }

    // Whether these columns fix no other column of the part, or all of it, or only such as are in some key.
    fn may_fix(&self, obeying: &Obeying, set: u64) -> bool {
        if obeying.fix(set, self.set) {
            return true;
        }
        for c in 0..COLUMNS {
            if has(self.set, c)
                && !has(set, c)
                && obeying.fix(set, 1 << c)
                && !self.is_in_some_key(obeying, c)
            {
                return false;
            }
        }
        true
    }

    fn is_in_third_form(&self, obeying: &Obeying) -> bool {
        for set in 0..8u64 {
            if is_inside(set, self.set) && !self.may_fix(obeying, set) {
                return false;
            }
        }
        true
    }
}

impl PlainDesign {
    // 1: every column is in some part, and nothing outside the table.
    fn covers(&self, columns: u64) -> bool {
        let all = all_columns(columns);
        let mut seen = 0;
        for part in self.parts.iter() {
            seen |= part.set;
            if !part.all_lie_in(all) {
                return false;
            }
        }
        seen == all
    }

    // 2: no part lies inside another.
    fn none_inside(&self) -> bool {
        for (i, part) in self.parts.iter().enumerate() {
            for (k, other) in self.parts.iter().enumerate() {
                if i != k && is_inside(part.set, other.set) {
                    return false;
                }
            }
        }
        true
    }

    fn all_show(&self, tables: &SmallTables, table: SmallTable, row: u32) -> bool {
        for part in self.parts.iter() {
            if !tables.shows(table, row, part.set) {
                return false;
            }
        }
        true
    }

    // 3: a row that in each part looks like some row of a table obeying the rules is a row of that table.
    fn loses_nothing(&self, tables: &SmallTables, obeying: &Obeying) -> bool {
        for table in obeying.tables.iter() {
            for row in 0..tables.rows {
                if !table.has_row(row) && self.all_show(tables, *table, row) {
                    return false;
                }
            }
        }
        true
    }

    fn obeyed_by(&self, table: SmallTable) -> bool {
        for part in self.parts.iter() {
            if !table.obeys_all(part.own.as_slice()) {
                return false;
            }
        }
        true
    }

    // 4: own rules lie in their parts, and a table obeys all rules exactly if it obeys all own ones.
    fn keeps_rules(&self, tables: &SmallTables, rules: &PlainRules) -> bool {
        for part in self.parts.iter() {
            if !part.all_lie_in(part.set) {
                return false;
            }
        }
        for table in tables.all.iter() {
            if self.obeyed_by(*table) != table.obeys_all(rules.list.as_slice()) {
                return false;
            }
        }
        true
    }

    // 5: wherever columns inside a part fix another column of it, they fix the whole part, or that column is in some key of it.
    fn is_in_third_form(&self, obeying: &Obeying) -> bool {
        for part in self.parts.iter() {
            if !part.is_in_third_form(obeying) {
                return false;
            }
        }
        true
    }

    // Whether it is a design, and else the first condition that it misses.
    pub fn verdict(
        &self,
        tables: &SmallTables,
        obeying: &Obeying,
        rules: &PlainRules,
    ) -> Result<(), Missed> {
        if !self.covers(rules.columns) {
            return Err(Missed::Covers);
        }
        if !self.none_inside() {
            return Err(Missed::NoneInside);
        }
        if !self.loses_nothing(tables, obeying) {
            return Err(Missed::Lossless);
        }
        if !self.keeps_rules(tables, rules) {
            return Err(Missed::RulesKept);
        }
        if !self.is_in_third_form(obeying) {
            return Err(Missed::ThirdForm);
        }
        Ok(())
    }

    // The row of numbers that the tester is lent.
    pub fn lent(&self, heap: Global) -> Result<Vec<u64>, AllocError> {
        let mut row = Vec::new(heap);
        row.push(self.parts.len() as u64)?;
        for part in self.parts.iter() {
            row.push(part.set)?;
            row.push(part.own.len() as u64)?;
            push_rules(&mut row, part.own.as_slice())?;
        }
        Ok(row)
    }
}

impl fmt::Display for PlainPart {
    fn fmt<W: fmt::Write>(&self, f: &mut fmt::Formatter<W>) -> fmt::Result {
        let set = ShownSet(self.set);
        write!(f, "part {set} by")?;
        for rule in self.own.iter() {
            write!(f, " {rule};")?;
        }
        Ok(())
    }
}
