//! A plain program that keeps a list of tables with their levels, and judges each rule over all of them.
use std::alloc::{AllocError, Global};

/// A table on a level. Its ends have one byte each.
#[derive(Clone, Copy)]
pub(crate) struct Placed {
    pub(crate) level: u8,
    pub(crate) number: u64,
    pub(crate) rank: u64,
    pub(crate) backing: u64,
    pub(crate) size: u64,
    pub(crate) lo: u8,
    pub(crate) hi: u8,
    pub(crate) is_virtual: bool,
    pub(crate) has_prefix: bool,
}

/// An edit, with all new tables in one list. The five numbers are in the order of `Edit`; a backing is a number and a size.
#[derive(Drop)]
pub(crate) struct Plan {
    pub(crate) five: [Option<u64>; 5],
    pub(crate) deleted: Vec<(u8, u64)>,
    pub(crate) added: Vec<Placed>,
    pub(crate) created: Vec<(u64, u64)>,
    pub(crate) removed: Vec<u64>,
}

#[derive(Drop)]
pub(crate) struct Plain {
    pub(crate) tables: Vec<Placed>,
    pub(crate) backings: Vec<(u64, u64)>,
    pub(crate) five: [u64; 5],
}

pub(crate) fn new_plan(alloc: Global, five: [Option<u64>; 5]) -> Plan {
    Plan {
        five,
        deleted: Vec::new(alloc),
        added: Vec::new(alloc),
        created: Vec::new(alloc),
        removed: Vec::new(alloc),
    }
}

impl Plan {
    fn deletes(&self, table: &Placed) -> bool {
        self.deleted.iter().any(|(level, number)| *level == table.level && *number == table.number)
    }

    fn creates(&self, number: u64) -> bool {
        self.created.iter().any(|(backing, _)| *backing == number)
    }

    fn removes(&self, number: u64) -> bool {
        self.removed.iter().any(|backing| *backing == number)
    }

    fn adds_once(&self, number: u64) -> bool {
        self.added
            .iter()
            .filter(|table| table.number == number)
            .count()
            == 1
    }
}

pub(crate) fn new_plain(alloc: Global) -> Plain {
    Plain {
        tables: Vec::new(alloc),
        backings: Vec::new(alloc),
        five: [0; 5],
    }
}

impl Plain {
    pub(crate) fn size_of(&self, number: u64) -> Option<u64> {
        for (backing, size) in &self.backings {
            if *backing == number {
                return Some(*size);
            }
        }
        None
    }

    fn has_table(&self, number: u64) -> bool {
        self.tables.iter().any(|table| table.number == number)
    }

    fn has_table_on(&self, level: u8, number: u64) -> bool {
        self.tables
            .iter()
            .any(|table| table.level == level && table.number == number)
    }

    /// How many virtual tables show the backing.
    pub(crate) fn parts_of(&self, backing: u64) -> usize {
        self.tables
            .iter()
            .filter(|table| table.is_virtual && table.backing == backing)
            .count()
    }

    /// The number of the table that says what a key of this one byte has: that of the least level, on level 0 of the greatest
    /// rank.
    pub(crate) fn newest_over(&self, key: u8) -> Option<u64> {
        let mut newest: Option<Placed> = None;
        for table in &self.tables {
            if table.lo <= key && key < table.hi && is_newer(table, &newest) {
                newest = Some(*table);
            }
        }
        match newest {
            Some(table) => Some(table.number),
            None => None,
        }
    }

    /// Applies an edit that breaks no rule. The first rule that it breaks, or 0.
    pub(crate) fn apply(&mut self, alloc: Global, plan: &Plan) -> Result<u8, AllocError> {
        let after = self.after(alloc, plan)?;
        let rule = self.first_broken(plan, &after);
        if rule == 0 {
            *self = after;
        }
        Ok(rule)
    }

    /// What stands after the edit, whichever rules it breaks.
    fn after(&self, alloc: Global, plan: &Plan) -> Result<Plain, AllocError> {
        let mut after = new_plain(alloc);
        self.add_backings(plan, &mut after)?;
        self.add_tables(plan, &mut after)?;
        after.backings.retain(|(number, _)| !plan.removes(*number));
        for at in 0..5 {
            after.five[at] = plan.five[at].unwrap_or(self.five[at]);
        }
        Ok(after)
    }

    fn add_backings(&self, plan: &Plan, after: &mut Plain) -> Result<(), AllocError> {
        for backing in &self.backings {
            after.backings.push(*backing)?;
        }
        for backing in &plan.created {
            after.backings.push(*backing)?;
        }
        Ok(())
    }

    /// The tables that stay, and then the new ones. A virtual one has the size of its backing.
    fn add_tables(&self, plan: &Plan, after: &mut Plain) -> Result<(), AllocError> {
        for table in &self.tables {
            if !plan.deletes(table) {
                after.tables.push(*table)?;
            }
        }
        for table in &plan.added {
            let mut placed = *table;
            if placed.is_virtual {
                placed.size = after.size_of(placed.backing).unwrap_or(0);
            }
            after.tables.push(placed)?;
        }
        Ok(())
    }

    fn first_broken(&self, plan: &Plan, after: &Plain) -> u8 {
        if !self.has_deleted(plan) {
            return 1;
        }
        if !self.are_new(plan, after.five[1]) {
            return 2;
        }
        if !plan.added.iter().all(|table| is_plain(table)) {
            return 3;
        }
        if !after.has_room_for(plan) {
            return 4;
        }
        if !self.are_new_backings(plan, after.five[1]) {
            return 5;
        }
        if !after.has_each_backing() {
            return 6;
        }
        if !self.are_shown(plan, after) {
            return 7;
        }
        if !fits(&self.five, &after.five, &plan.five) {
            return 8;
        }
        if after.tables.len() > 4096 { 9 } else { 0 }
    }

    fn has_deleted(&self, plan: &Plan) -> bool {
        plan.deleted
            .iter()
            .all(|(level, number)| self.has_table_on(*level, *number))
    }

    fn are_new(&self, plan: &Plan, next: u64) -> bool {
        plan.added.iter().all(|table| self.is_new(plan, table)
            && table.number < next
            && table.rank < next)
    }

    fn is_new(&self, plan: &Plan, table: &Placed) -> bool {
        plan.adds_once(table.number)
            && !plan.creates(table.number)
            && !self.has_table(table.number)
            && self.size_of(table.number).is_none()
    }

    /// Whether each new table stands apart from every other.
    fn has_room_for(&self, plan: &Plan) -> bool {
        plan.added.iter().all(|table| self.is_apart_from(table))
    }

    fn is_apart_from(&self, table: &Placed) -> bool {
        self.tables.iter().all(|other| other.number == table.number || are_apart(table, other))
    }

    fn are_new_backings(&self, plan: &Plan, next: u64) -> bool {
        plan.created.iter().all(|(number, size)| *number < next
            && self.is_new_backing(plan, *number, *size))
    }

    /// The number is no backing's, and no table's but that of a deleted physical table of the size.
    fn is_new_backing(&self, plan: &Plan, number: u64, size: u64) -> bool {
        self.size_of(number).is_none()
            && (!self.has_table(number) || self.is_freed(plan, number, size))
    }

    fn is_freed(&self, plan: &Plan, number: u64, size: u64) -> bool {
        self.tables.iter().any(|table| {
            table.number == number && table.size == size && !table.is_virtual && plan.deletes(table)
        })
    }

    fn has_each_backing(&self) -> bool {
        self.tables.iter().all(|table| !table.is_virtual || self.size_of(table.backing).is_some())
    }

    fn are_shown(&self, plan: &Plan, after: &Plain) -> bool {
        self.has_removed(plan) && after.shows_each_backing()
    }

    fn has_removed(&self, plan: &Plan) -> bool {
        plan.removed.iter().all(|n| self.size_of(*n).is_some())
    }

    fn shows_each_backing(&self) -> bool {
        self.backings.iter().all(|(n, _)| self.parts_of(*n) > 0)
    }
}

fn is_newer(table: &Placed, than: &Option<Placed>) -> bool {
    match than {
        None => true,
        Some(other) => {
            table.level < other.level
                || (table.level == 0 && other.level == 0 && other.rank < table.rank)
        }
    }
}

fn is_plain(table: &Placed) -> bool {
    table.lo < table.hi && table.lo != b'@' && table.hi != b'@' && !table.has_prefix
}

fn are_apart(table: &Placed, other: &Placed) -> bool {
    table.level != other.level
        || (table.level == 0 && table.rank != other.rank)
        || table.hi <= other.lo
        || other.hi <= table.lo
}

/// Of accepted, next, log, flushed and format. The log may fall.
fn fits(old: &[u64; 5], new: &[u64; 5], said: &[Option<u64>; 5]) -> bool {
    let falls = new[0] < old[0] || new[1] < old[1] || new[3] < old[3] || new[4] < old[4];
    let agrees = new[3] <= new[0] && new[2] < new[1] && new[4] == 1;
    let is_whole = old[4] != 0 || said.iter().all(|number| number.is_some());
    !falls && agrees && is_whole
}
