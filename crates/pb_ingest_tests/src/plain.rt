//! A plain program over the four pieces between five ends: a span is the set of its pieces.

/// A table on a level, by its span's place among `SPANS`.
#[derive(Clone, Copy)]
pub(crate) struct Placed {
    pub(crate) level: u8,
    pub(crate) span: usize,
}

/// Each span by its ends, and the set of its pieces.
pub(crate) const SPANS: [(u8, u8, u8); 10] = [
    (b'a', b'b', 0b0001),
    (b'b', b'c', 0b0010),
    (b'c', b'd', 0b0100),
    (b'd', b'e', 0b1000),
    (b'a', b'c', 0b0011),
    (b'b', b'd', 0b0110),
    (b'c', b'e', 0b1100),
    (b'a', b'd', 0b0111),
    (b'b', b'e', 0b1110),
    (b'a', b'e', 0b1111),
];

/// The set of a span's pieces, none where there is no such span.
pub(crate) fn set_at(place: usize) -> u8 {
    match SPANS.get(place) {
        Some((_, _, set)) => *set,
        None => 0,
    }
}

fn stands_at_or_above(table: &Placed, level: u8, cut: u8, hull: u8) -> bool {
    table.level <= level && set_at(table.span) & !cut & hull != 0
}

/// The deepest level at and above which no table has a piece of the hull that the cut hasn't; 0 where there is none.
pub(crate) fn deepest(tables: &[Placed], cut: u8, hull: u8) -> u8 {
    for level in [6, 5, 4, 3, 2, 1] {
        if !tables
            .iter()
            .any(|table| stands_at_or_above(table, level, cut, hull))
        {
            return level;
        }
    }
    0
}
