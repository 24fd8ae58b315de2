// Drawn stacks of up to eight tables, from the newest on.
use std::alloc::{AllocError, Global};

/// The first of eight keys of one byte, and the end behind the last.
pub(crate) const FIRST_KEY: u8 = b'a';

pub(crate) const END: u8 = b'i';

/// A table: where it stands, the keys from `lo` to `hi` that it shows, and what the bytes behind it say: a deletion, where its ends
/// rise, and rows that have a value or delete their key.
#[derive(Drop)]
pub(crate) struct Drawn {
    pub(crate) number: u8,
    pub(crate) level: u8,
    pub(crate) is_virtual: bool,
    pub(crate) lo: u8,
    pub(crate) hi: u8,
    pub(crate) del: (u8, u8),
    pub(crate) rows: Vec<(u8, bool)>,
}

impl Drawn {
    /// The number of its bytes.
    pub(crate) fn backing(&self) -> u8 {
        if self.is_virtual {
            self.number.saturating_add(20)
        } else {
            self.number
        }
    }
}

/// A drawn number below 256, and the next state.
fn draw(state: &mut u32) -> u8 {
    *state = state.wrapping_mul(1_664_525).wrapping_add(1_013_904_223);
    (*state / 65_536 % 256) as u8
}

/// A drawn key, or the end behind the last.
fn draw_key(state: &mut u32) -> u8 {
    FIRST_KEY + draw(state) % 9
}

fn draw_span(state: &mut u32) -> (u8, u8) {
    let one = draw_key(state);
    let other = draw_key(state);
    (one.min(other), one.max(other))
}

// Of each key with even odds no row, else one with a value or without.
fn draw_rows(alloc: Global, state: &mut u32) -> Result<Vec<(u8, bool)>, AllocError> {
    let mut rows = Vec::new(alloc);
    for key in FIRST_KEY..END {
        draw_row(&mut rows, state, key)?;
    }
    Ok(rows)
}

fn draw_row(rows: &mut Vec<(u8, bool)>, state: &mut u32, key: u8) -> Result<(), AllocError> {
    let said = draw(state) % 4;
    if said > 1 {
        rows.push((key, said == 3))?;
    }
    Ok(())
}

// A table that shows the keys between these ends. A table of nothing is none, so it has a row then.
fn draw_table(
    alloc: Global,
    state: &mut u32,
    (number, level): (u8, u8),
    (lo, hi): (u8, u8),
) -> Result<Drawn, AllocError> {
    let is_virtual = draw(state) % 2 == 1;
    let del = draw_span(state);
    let mut rows = draw_rows(alloc, state)?;
    if rows.is_empty() {
        rows.push((FIRST_KEY, true))?;
    }
    Ok(Drawn {
        number,
        level,
        is_virtual,
        lo,
        hi,
        del,
        rows,
    })
}

// Where the ends rise, a table of this level that shows the keys between them.
fn push_table(
    alloc: Global,
    stack: &mut Vec<Drawn>,
    state: &mut u32,
    level: u8,
    ends: (u8, u8),
) -> Result<(), AllocError> {
    if ends.0 < ends.1 {
        let number = 10 + (stack.len() % 10) as u8;
        stack.push(draw_table(alloc, state, (number, level), ends)?)?;
    }
    Ok(())
}

// Up to four tables of level 0.
fn push_on_top(alloc: Global, stack: &mut Vec<Drawn>, state: &mut u32) -> Result<(), AllocError> {
    for _ in 0..draw(state) % 5 {
        let ends = draw_span(state);
        push_table(alloc, stack, state, 0, ends)?;
    }
    Ok(())
}

// The parts of a level before a drawn key and from it on.
fn push_parts(
    alloc: Global,
    stack: &mut Vec<Drawn>,
    state: &mut u32,
    level: u8,
) -> Result<(), AllocError> {
    let cut = draw_key(state);
    push_table(alloc, stack, state, level, (FIRST_KEY, cut))?;
    push_table(alloc, stack, state, level, (cut, END))
}

pub(crate) fn draw_stack(alloc: Global, seed: u32) -> Result<Vec<Drawn>, AllocError> {
    let mut stack = Vec::new(alloc);
    let mut state = seed;
    push_on_top(alloc, &mut stack, &mut state)?;
    push_parts(alloc, &mut stack, &mut state, 1)?;
    push_parts(alloc, &mut stack, &mut state, 6)?;
    Ok(stack)
}
