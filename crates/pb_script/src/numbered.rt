ghost use Rattle.std.specs.Prelude.{◌≡◌, ◌<◌, Some, length, map, slice_get};
ghost use Rattle.pb_script.specs.Runs.{with_numbers, AreRuns};
ghost use Rattle.pb_script.specs.Script.{without_numbers};

use crate::Line;
use crate::runs::{Run, Runs, number_at};
use std::marker::Model;

/// What a script says: its lines up to the first fault, each with the number of its first text, and the fault, if there is one.
///
/// Texts are counted from 1. A table's block is one line.
#[derive(Debug, Drop)]
pub struct Numbered {
    lines: Vec<Line>,
    runs: Vec<Run>,
    within: Option<u64>,
    fault: Option<u64>,
}

impl Model for Numbered {
    ghost use Rattle.std.specs.Prelude.{length};
    ghost use Rattle.pb_script.specs.Script.{NumberedRead};
    ghost use Rattle.pb_script.specs.Runs.{with_numbers, AreRuns};

    ghost Value = { NumberedRead };

    ghost view = { λ n. record { lines = with_numbers n.runs.items n.lines.items; within = n.within; fault = n.fault } };

    ghost invariant = { λ n. AreRuns n.runs.items (length n.lines.items) };
}

impl Numbered {
    pub(crate) fn new(
        lines: Vec<Line>,
        runs: Runs,
        within: Option<u64>,
        fault: Option<u64>,
    ) -> Numbered
        requires { AreRuns runs.runs.items (length lines.items) }
        ensures { result ≡ record { lines = with_numbers runs.runs.items lines.items; within = within; fault = fault } }
    {
        let runs = runs.runs;
        Numbered {
            lines,
            runs,
            within,
            fault,
        }
    }

    /// The lines, in order.
    pub fn lines(&self) -> &[Line]
        ensures { result.now ≡ without_numbers self.now.lines }
    {
        self.lines.as_slice()
    }

    /// The number of the first text of the line at this place, where places are counted from 0. It takes as long as
    /// halving the places behind which a number is left out.
    pub fn number(&self, place: usize) -> u64
        requires { place < length self.now.lines }
        ensures { slice_get (map (λ line. line.0) self.now.lines) place ≡ Some result }
    {
        number_at(self.runs.as_slice(), place)
    }

    /// Where the fault lies in a block, the number of the block's first text.
    pub fn within(&self) -> Option<u64>
        ensures { result ≡ self.now.within }
    {
        self.within
    }

    /// The number of the first text that is off the grammar; of a block without its end, the number behind the last text.
    pub fn fault(&self) -> Option<u64>
        ensures { result ≡ self.now.fault }
    {
        self.fault
    }

    /// The lines, in order, to be moved out.
    pub fn into_lines(self) -> Vec<Line>
        ensures { result.items ≡ without_numbers self.lines }
    {
        self.lines
    }
}
