ghost use Rattle.std.specs.Prelude.{◌≡◌};
ghost use Rattle.pb_reply.specs.Statuses.{IsRunStatus, first_status, place, status_alone, status_code};

use crate::{Refusal, Reply};

/// How a run of the program ended. The number is the exit status of the process.
#[derive(Clone, Copy, Debug, PartialEq, Eq)]
pub enum Status {
    /// Every line ran, and no reply is a refusal.
    Success = 0,
    /// Every line ran, and some reply is a refusal that no other status tells.
    Refused = 1,
    /// The words of the command line are out of form.
    Usage = 2,
    /// A line of the script is out of form; no line ran.
    Script = 3,
    /// Reading the script failed; no line ran.
    Read = 4,
    /// Writing a reply failed; the run ended there.
    Write = 5,
    /// A disk or the bucket failed.
    Device = 6,
    /// Memory was wanting.
    Memory = 7,
    /// A file or an object is damaged.
    Damaged = 8,
    /// The script is too long; no line ran.
    TooLong = 9,
}

/// The worse of a run's status so far and the status that this reply alone would give:
/// want of memory, then a device's fault, then damage, then another refusal, then success.
pub fn status_of(worst: Status, reply: &Reply) -> Status
    requires { IsRunStatus worst }
    ensures { result ≡ first_status worst (status_alone reply.now) }
{
    let alone = status_alone_of(reply);
    if place_of(worst) <= place_of(alone) {
        worst
    } else {
        alone
    }
}

fn status_alone_of(reply: &Reply) -> Status
    ensures { result ≡ status_alone reply.now }
{
    match reply {
        Reply::Refused(Refusal::NoMemory) => Status::Memory,
        Reply::Refused(Refusal::DiskFault | Refusal::BucketFault) => Status::Device,
        Reply::Refused(Refusal::Damaged(_)) => Status::Damaged,
        Reply::Refused(_) => Status::Refused,
        _ => Status::Success,
    }
}

fn place_of(status: Status) -> u8
    ensures { result ≡ place status }
{
    match status {
        Status::Memory => 0,
        Status::Device => 1,
        Status::Damaged => 2,
        Status::Refused => 3,
        _ => 4,
    }
}

impl Status {
    /// The exit status of the process, from 0 to 9.
    pub fn code(self) -> u8
        ensures { result ≡ status_code self }
    {
        self as u8
    }
}
