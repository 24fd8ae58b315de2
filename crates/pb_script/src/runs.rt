//! How the numbers of lines are kept: only where they leave the run, so that a script of plain lines keeps none.
ghost use Rattle.std.specs.Prelude.{◌≡◌, ◌+◌, ◌<◌, ◌^◌, ℕ, OnOk};
ghost use Rattle.pb_script.specs.Runs.{number_at, AreKept, Ascend};

use std::alloc::{AllocError, Global};

/// From this place among the lines on, numbers follow one another, the first of them this one.
#[derive(Clone, Copy, Debug)]
pub(crate) struct Run {
    pub(crate) place: usize,
    pub(crate) number: u64,
}

/// The runs of the lines so far, and the number of the line that would follow.
#[derive(Debug, Drop)]
pub(crate) struct Runs {
    pub(crate) runs: Vec<Run>,
    next: u64,
}

impl Runs {
    /// Of no lines.
    pub(crate) fn new(alloc: Global) -> Runs
        ensures kept { AreKept result.runs.items result.next 0 }
    {
        Runs {
            runs: Vec::new(alloc),
            next: 1,
        }
    }

    /// Keeps the number of the line at a place, which is behind all others.
    #[inline(always)]
    pub(crate) fn keep(&mut self, place: usize, number: u64) -> Result<(), AllocError>
        requires kept { AreKept self.old.runs.items self.old.next place }
        requires small { number + 1 < 2 ^ 64 }
        ensures kept { OnOk result (AreKept self.new.runs.items self.new.next (place + 1)) }
        ensures at { OnOk result (number_at self.new.runs.items place ≡ number) }
        ensures before { OnOk result ((at : ℕ) → at < place → number_at self.new.runs.items at ≡ number_at self.old.runs.items at) }
    {
        if number == self.next {
            self.next = number + 1;
            return Ok(());
        }
        self.runs.push(Run { place, number })?;
        self.next = number + 1;
        Ok(())
    }
}

/// The number of the line at a place, by halving.
pub(crate) fn number_at(runs: &[Run], place: usize) -> u64
    requires ascend { (count : ℕ) × Ascend 0 runs.now count }
    requires small { number_at runs.now place < 2 ^ 64 }
    ensures { result ≡ number_at runs.now place }
{
    let at = runs.partition_point(|run| run.place <= place);
    if at == 0 {
        return place as u64 + 1;
    }
    let run = runs[at - 1];
    run.number + (place - run.place) as u64
}
