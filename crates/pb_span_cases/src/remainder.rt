ghost use Rattle.std.specs.Prelude.{◌≡◌, ◌++◌, IfSome, false};
ghost use Rattle.std.specs.Option.{option_to_list};
ghost use Rattle.pb_keys.specs.Span.{IsSpan, overlap};
ghost use Rattle.pb_span_cases.specs.Relation.{IsCase};
ghost use Rattle.pb_span_cases.specs.Remainder.{IsLine, Remains, remains, ends_of, case_place};

use crate::relations::{Rel, relation};
use crate::table::{CASES, Case, Part};
use pb_keys::Span;
use std::marker::Model;

/// Two ends of a span. Contracts see them as the span.
#[derive(Debug, Drop)]
pub struct Ends<'a> {
    pub lo: &'a [u8],
    pub hi: &'a [u8],
}

impl<'a> Model for Ends<'a> {
    ghost use Rattle.pb_keys.specs.Span.{KeySpan, span_of};

    ghost Value = { KeySpan };

    ghost view = { λ ends. span_of ends.lo.now ends.hi.now };
}

/// What the cut leaves of a table: the part in front of it and the part behind it, as `CASES` names them.
/// A table that the cut doesn't overlap stays whole, as the first part.
pub fn minus<'a>(table: &'a Span, cut: &'a Span) -> (Option<Ends<'a>>, Option<Ends<'a>>)
    ensures parts { option_to_list result.0 ++ option_to_list result.1 ≡ remains table.now cut.now }
    ensures keys { Remains table.now cut.now result.0 result.1 }
    ensures left { (line : Case) → IsLine line → IsCase line.rel table.now cut.now
        → result.0 ≡ ends_of line.left table.now cut.now }
    ensures right { (line : Case) → IsLine line → IsCase line.rel table.now cut.now
        → result.1 ≡ ends_of line.right table.now cut.now }
    ensures whole { overlap table.now cut.now ≡ false → (result.0 ≡ Some table.now) × (result.1 ≡ None) }
    ensures left_in_form { IfSome result.0 IsSpan }
    ensures right_in_form { IfSome result.1 IsSpan }
{
    let case = line_of(relation(table, cut));
    (part(case.left, table, cut), part(case.right, table, cut))
}

// The lines stand in the order of the relations.
fn line_of(rel: Rel) -> Case
    ensures named { result.rel ≡ rel }
    ensures listed { IsLine result }
{
    CASES.lines[place_of(rel)]
}

fn place_of(rel: Rel) -> usize
    ensures { result ≡ case_place rel }
{
    rel as usize
}

fn part<'a>(part: Part, table: &'a Span, cut: &'a Span) -> Option<Ends<'a>>
    ensures { result ≡ ends_of part table.now cut.now }
{
    match part {
        Part::Nothing => None,
        Part::Whole => Some(Ends {
            lo: table.lo(),
            hi: table.hi(),
        }),
        Part::LoToCut => Some(Ends {
            lo: table.lo(),
            hi: cut.lo(),
        }),
        Part::CutToHi => Some(Ends {
            lo: cut.hi(),
            hi: table.hi(),
        }),
    }
}
