//! Drawn sequences of edits, on versions and on the plain program.
use super::beside::{Both, apply, compare_again, new_both, part, table};
use super::plain::{Placed, Plain, Plan, new_plan};
use super::versions::{FIRST, NOTHING};
use std::alloc::{AllocError, Global};
use std::process::Abort;
use std::test::Fail;

/// What is drawn next, and the next number that no table has had.
#[derive(Drop)]
struct Draws {
    seed: u64,
    fresh: u64,
}

impl Draws {
    fn next(&mut self) -> u64 {
        self.seed = self
            .seed
            .wrapping_mul(6_364_136_223_846_793_005)
            .wrapping_add(1_442_695_040_888_963_407);
        self.seed >> 33
    }

    fn is_rare(&mut self) -> bool {
        self.next() % 12 == 0
    }

    /// A number that is free, but for a few.
    fn number(&mut self) -> u64 {
        if self.is_rare() {
            return self.next() % 80;
        }
        self.fresh = self.fresh.wrapping_add(1);
        self.fresh
    }

    fn letter(&mut self) -> u8 {
        b'a'.wrapping_add((self.next() % 12) as u8)
    }

    /// Ends of which a few have no span.
    fn ends(&mut self) -> (u8, u8) {
        let lo = self.letter();
        if self.is_rare() {
            return (lo, b'@');
        }
        (lo, lo.wrapping_add(1 + (self.next() % 3) as u8))
    }

    fn table(&mut self) -> Placed {
        let level = (self.next() % 7) as u8;
        let (lo, hi) = self.ends();
        let mut drawn = table(level / 2, self.number(), lo, hi);
        drawn.rank = if level < 2 {
            self.next() % 8
        } else {
            drawn.rank
        };
        drawn
    }

    fn one_of(&mut self, plain: &Plain) -> Option<Placed> {
        if plain.tables.is_empty() {
            return None;
        }
        let at = self.next() as usize % plain.tables.len();
        Some(plain.tables[at])
    }
}

/// Deletes a table, and with a backing's last part mostly the backing.
fn delete(draws: &mut Draws, plain: &Plain, plan: &mut Plan) -> Result<(), AllocError> {
    let Some(gone) = draws.one_of(plain) else {
        return Ok(());
    };
    plan.deleted.push((gone.level, gone.number))?;
    if gone.is_virtual && plain.parts_of(gone.backing) == 1 && !draws.is_rare() {
        plan.removed.push(gone.backing)?;
    }
    Ok(())
}

/// A table becomes the backing of two parts, or a part becomes a narrower one.
fn carve(draws: &mut Draws, plain: &Plain, plan: &mut Plan) -> Result<(), AllocError> {
    let Some(of) = draws.one_of(plain) else {
        return Ok(());
    };
    plan.deleted.push((of.level, of.number))?;
    let mut left = part(&of, draws.number(), of.lo, of.lo.wrapping_add(1));
    left.has_prefix = draws.is_rare();
    plan.added.push(left)?;
    if of.is_virtual {
        return Ok(());
    }
    let size = if draws.is_rare() { 9 } else { of.size };
    plan.created.push((of.number, size))?;
    if of.lo.wrapping_add(1) < of.hi {
        plan.added
            .push(part(&of, draws.number(), of.lo.wrapping_add(1), of.hi))?;
    }
    Ok(())
}

/// One of the five numbers, which mostly rises.
fn renumber(draws: &mut Draws, plain: &Plain, plan: &mut Plan) {
    let at = draws.next() as usize % 4;
    let old = plain.five[at];
    let to = if draws.is_rare() {
        old.wrapping_sub(1) % 1024
    } else {
        old.wrapping_add(draws.next() % 4)
    };
    plan.five[at] = Some(to);
    if at == 3 {
        plan.five[0] = Some(to);
    }
}

/// Something that breaks a rule, as a rule.
fn spoil(draws: &mut Draws, plan: &mut Plan) -> Result<(), AllocError> {
    let number = draws.next() % 80;
    match draws.next() % 4 {
        0 => plan.deleted.push(((number % 7) as u8, number))?,
        1 => plan.removed.push(number)?,
        2 => {
            let mut lost = table(1, draws.number(), b'x', b'z');
            lost.is_virtual = true;
            lost.backing = number;
            plan.added.push(lost)?;
        }
        _ => {
            plan.created.clear();
            plan.created.push((number, 8))?;
        }
    }
    Ok(())
}

fn drawn(alloc: Global, draws: &mut Draws, plain: &Plain) -> Result<Plan, AllocError> {
    let mut plan = new_plan(alloc, NOTHING);
    match draws.next() % 6 {
        0 => delete(draws, plain, &mut plan)?,
        1 => carve(draws, plain, &mut plan)?,
        2 => renumber(draws, plain, &mut plan),
        3 => {
            delete(draws, plain, &mut plan)?;
            plan.added.push(draws.table())?;
        }
        _ => plan.added.push(draws.table())?,
    }
    if draws.is_rare() {
        spoil(draws, &mut plan)?;
    }
    Ok(plan)
}

/// How many edits broke each rule, and before them how many broke none.
type Tally = [u64; 10];

fn count(tally: &mut Tally, rule: u8) {
    if let Some(told) = tally.get_mut(rule as usize) {
        *told = told.wrapping_add(1);
    }
}

fn run(
    rt: &impl Abort,
    alloc: Global,
    draws: &mut Draws,
    both: &mut Both,
    tally: &mut Tally,
) -> Result<(), Fail> {
    for _ in 0..60 {
        let plan = drawn(alloc, draws, &both.plain)?;
        let rule = apply(rt, alloc, both, &plan)?;
        count(tally, rule);
    }
    compare_again(rt, alloc, both)
}

#[test]
fn drawn_edits_do_what_the_plain_program_does(rt: HostRuntime) -> Result<(), Fail> {
    let alloc = rt.alloc();
    let mut tally: Tally = [0; 10];
    for seed in 0..40 {
        let mut draws = Draws { seed, fresh: 3 };
        let mut both = new_both(alloc);
        let first = new_plan(alloc, FIRST);
        assert_eq!(rt; apply(&rt, alloc, &mut both, &first)?, 0);
        run(&rt, alloc, &mut draws, &mut both, &mut tally)?;
    }
    assert!(rt; tally[0] >= 1000, "{tally:?}");
    for rule in 1..9 {
        assert!(rt; tally[rule] > 0, "{tally:?}");
    }
    Ok(())
}
