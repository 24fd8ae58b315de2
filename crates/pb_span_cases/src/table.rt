use crate::relations::Rel;

/// What stays of a span `table` beside a span `cut`.
#[derive(Clone, Copy, Debug, PartialEq, Eq)]
pub enum Part {
    Nothing,
    /// The table's own ends.
    Whole,
    /// From the table's start to the cut's.
    LoToCut,
    /// From the cut's end to the table's.
    CutToHi,
}

/// What stays in front of the cut and behind it, where the two spans lie so.
#[derive(Clone, Copy, Debug, PartialEq, Eq)]
pub struct Case {
    pub rel: Rel,
    pub left: Part,
    pub right: Part,
}

/// Lines of a table, one for each relation, in the order of `Rel`.
#[derive(Clone, Copy)]
pub struct Cases<const N: usize> {
    pub lines: [Case; N],
}

macro_rules! case {
    ($rel:ident: $left:ident, $right:ident) => {
        Case {
            rel: Rel::$rel,
            left: Part::$left,
            right: Part::$right,
        }
    };
}

/// What a cut leaves of a table in each of the thirteen relations.
pub const CASES: Cases<13> = Cases {
    lines: [
        case!(Before: Whole, Nothing),
        case!(Meets: Whole, Nothing),
        case!(After: Whole, Nothing),
        case!(MetBy: Whole, Nothing),
        case!(Equal: Nothing, Nothing),
        case!(Starts: Nothing, Nothing),
        case!(During: Nothing, Nothing),
        case!(Finishes: Nothing, Nothing),
        case!(StartedBy: Nothing, CutToHi),
        case!(FinishedBy: LoToCut, Nothing),
        case!(Overlaps: LoToCut, Nothing),
        case!(OverlappedBy: Nothing, CutToHi),
        case!(Contains: LoToCut, CutToHi),
    ],
};
