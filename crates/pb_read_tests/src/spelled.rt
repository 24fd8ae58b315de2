// The bytes of drawn tables, and the edit that brings them. Each number is below 128, so a byte spells it.
use super::stacks::Drawn;
use std::alloc::{AllocError, Global};

/// The bytes behind a table. Its values are its number.
pub(crate) fn bytes_of(alloc: Global, drawn: &Drawn) -> Result<Vec<u8>, AllocError> {
    let mut out = Vec::new(alloc);
    out.push(1)?;
    put_del(&mut out, drawn.del)?;
    out.push((drawn.rows.len() % 128) as u8)?;
    for (key, has_value) in drawn.rows.iter() {
        put_row(&mut out, *key, *has_value, drawn.number)?;
    }
    Ok(out)
}

fn put_del(out: &mut Vec<u8>, (lo, hi): (u8, u8)) -> Result<(), AllocError> {
    if lo < hi {
        out.extend_from_slice(&[1, 1, lo, 1, hi])
    } else {
        out.push(0)?;
        Ok(())
    }
}

fn put_row(out: &mut Vec<u8>, key: u8, has_value: bool, number: u8) -> Result<(), AllocError> {
    if has_value {
        out.extend_from_slice(&[1, key, 1, 1, number])
    } else {
        out.extend_from_slice(&[1, key, 0])
    }
}

fn size_of(alloc: Global, drawn: &Drawn) -> Result<u8, AllocError> {
    let bytes = bytes_of(alloc, drawn)?;
    Ok((bytes.len() % 128) as u8)
}

// The rank falls with the number, so that the first of the tables of level 0 is the newest.
fn rank_of(drawn: &Drawn) -> u8 {
    60u8.saturating_sub(drawn.number)
}

fn put_physical(alloc: Global, out: &mut Vec<u8>, drawn: &Drawn) -> Result<(), AllocError> {
    if drawn.is_virtual {
        return Ok(());
    }
    let size = size_of(alloc, drawn)?;
    out.extend_from_slice(&[7, drawn.level, drawn.number, rank_of(drawn), size])?;
    out.extend_from_slice(&[1, drawn.lo, 1, drawn.hi])
}

fn put_virtual(out: &mut Vec<u8>, drawn: &Drawn) -> Result<(), AllocError> {
    if !drawn.is_virtual {
        return Ok(());
    }
    out.extend_from_slice(&[
        8,
        drawn.level,
        drawn.number,
        rank_of(drawn),
        drawn.backing(),
    ])?;
    out.extend_from_slice(&[1, drawn.lo, 1, drawn.hi, 0, 0])
}

fn put_backing(alloc: Global, out: &mut Vec<u8>, drawn: &Drawn) -> Result<(), AllocError> {
    if !drawn.is_virtual {
        return Ok(());
    }
    let size = size_of(alloc, drawn)?;
    out.extend_from_slice(&[9, drawn.backing(), size])
}

fn put_physicals(alloc: Global, out: &mut Vec<u8>, stack: &[Drawn]) -> Result<(), AllocError> {
    for drawn in stack {
        put_physical(alloc, out, drawn)?;
    }
    Ok(())
}

fn put_virtuals(out: &mut Vec<u8>, stack: &[Drawn]) -> Result<(), AllocError> {
    for drawn in stack {
        put_virtual(out, drawn)?;
    }
    Ok(())
}

fn put_backings(alloc: Global, out: &mut Vec<u8>, stack: &[Drawn]) -> Result<(), AllocError> {
    for drawn in stack {
        put_backing(alloc, out, drawn)?;
    }
    Ok(())
}

/// The edit that brings the tables of a stack.
pub(crate) fn edit_of(alloc: Global, stack: &[Drawn]) -> Result<Vec<u8>, AllocError> {
    let mut out = Vec::new(alloc);
    put_physicals(alloc, &mut out, stack)?;
    put_virtuals(&mut out, stack)?;
    put_backings(alloc, &mut out, stack)?;
    Ok(out)
}
