ghost use Rattle.std.specs.Prelude.{◌≡◌, ◌↔◌, IsErr};
ghost use Rattle.pb_mem.specs.Calls.{IsListed, no_calls, with_call, with_want, with_list, faults_of};

use pb_devices::Failed;
use std::marker::Model;

/// The calls of a device, counted: a device in memory holds one, and begins each of its calls with `begin`.
#[derive(Drop)]
pub struct Calls {
    fail: Vec<u64>,
    made: u64,
    failed: u64,
    wants: u64,
}

impl Model for Calls {
    ghost use Rattle.pb_mem.specs.Calls.{CallCounts};

    ghost Value = { CallCounts };

    ghost view = { λ c. record { fail = c.fail.items; made = c.made; failed = c.failed; wants = c.wants } };
}

impl Calls {
    /// No call was made yet. Those whose numbers `fail` lists are to fail, counted from 1.
    pub fn new(fail: Vec<u64>) -> Calls
        ensures { result ≡ no_calls fail.items }
    {
        Calls {
            fail,
            made: 0,
            failed: 0,
            wants: 0,
        }
    }

    /// Counts a call, which fails exactly where its number is listed.
    pub fn begin(&mut self) -> Result<(), Failed>
        ensures counts { self.new ≡ with_call self.old }
        ensures failed { IsErr result ↔ IsListed self.old }
    {
        self.made = self.made.saturating_add(1);
        if self.fail.contains(&self.made) {
            self.failed = self.failed.saturating_add(1);
            return Err(Failed);
        }
        Ok(())
    }

    /// Counts that the device found no memory for itself in the call that has begun.
    pub fn want(&mut self)
        ensures { self.new ≡ with_want self.old }
    {
        self.wants = self.wants.saturating_add(1);
    }

    /// The counts go on, with another list of the calls that are to fail.
    pub fn again(self, fail: Vec<u64>) -> Calls
        ensures { result ≡ with_list self fail.items }
    {
        Calls { fail, ..self }
    }

    /// How many calls were made. It stands still at 2^64 - 1.
    pub fn made(&self) -> u64
        ensures { result ≡ self.now.made }
    {
        self.made
    }

    /// In how many calls the device found no memory for itself. It stands still at 2^64 - 1.
    pub fn wants(&self) -> u64
        ensures { result ≡ self.now.wants }
    {
        self.wants
    }

    /// How often a call has failed: the listed calls and the wants. It stands still at 2^64 - 1.
    pub fn faults(&self) -> u64
        ensures { result ≡ faults_of self.now }
    {
        self.failed.saturating_add(self.wants)
    }
}
