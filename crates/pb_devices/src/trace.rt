ghost use Rattle.std.specs.Prelude.{◌≡◌, ℕ, ◌+◌, ◌-◌, ◌<◌, ◌≤◌, List, [], ◌∷◌, ◌++◌, OnOk, OnErr};

use std::alloc::{AllocError, Global};
use std::marker::Model;

/// What a line of a script came to, in numbers.
#[derive(Clone, Copy, Debug, PartialEq, Eq)]
pub struct Mark {
    /// The number of the refusal, 0 for any other reply.
    pub refusal: u64,
    /// The n of `ok n` or `opened n`, 0 otherwise.
    pub count: u64,
    /// Whether the line left a command unfinished that it had begun or gone on with.
    pub more: bool,
    /// Whether each of the stores A to H is Down after the line.
    pub down: [bool; 8],
}

/// The marks of the lines that ran, in order, and room for so many more (`spare`).
#[derive(Drop)]
pub struct Trace {
    marks: Vec<Mark>,
    spare: u64,
}

impl Model for Trace {
    ghost use Rattle.std.specs.Prelude.{◌+◌, ◌≤◌, vec_len, vec_capacity};
    ghost use Rattle.pb_devices.specs.Marks.{Marks};

    ghost Value = { Marks };

    ghost view = { λ t. record { marks = t.marks.items; spare = t.spare } };

    ghost invariant = { λ t. vec_len t.marks + t.spare ≤ vec_capacity t.marks };
}

impl Trace {
    /// An empty trace, with no room yet.
    pub fn new(alloc: Global) -> Trace
        ensures { result ≡ record { marks = []; spare = 0 } }
    {
        Trace {
            marks: Vec::new(alloc),
            spare: 0,
        }
    }

    /// Makes room for at least so many marks; room that was there stays. Without memory nothing has changed.
    pub fn reserve(&mut self, _alloc: Global, lines: u64) -> Result<(), AllocError>
        ensures marks { self.new.marks ≡ self.old.marks }
        ensures room { OnOk result (lines ≤ self.new.spare) }
        ensures kept { self.old.spare ≤ self.new.spare }
        ensures err { OnErr result (self.new ≡ self.old) }
    {
        self.marks.reserve(lines as usize)?;
        self.spare = lines.max(self.spare);
        Ok(())
    }

    /// Adds a mark behind the others. It takes no memory.
    pub fn add(&mut self, mark: Mark)
        requires { 1 ≤ self.old.spare }
        ensures marks { self.new.marks ≡ self.old.marks ++ mark ∷ [] }
        ensures spare { self.new.spare + 1 ≡ self.old.spare }
    {
        self.spare -= 1;
        self.marks.push(mark).unwrap();
    }

    /// The marks, in order.
    pub fn marks(&self) -> &[Mark]
        ensures { result.now ≡ self.now.marks }
    {
        &self.marks
    }
}
