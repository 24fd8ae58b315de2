ghost use Rattle.std.specs.Prelude.{◌≡◌, ◌⊎◌, Bool, List, ◌++◌, ◌∷◌, []};
ghost use Rattle.pb_devices.specs.declared.trace.Mark.{Mark};
ghost use Rattle.pb_machine.specs.Trail.{refusal_in, count_in, goes_on};
ghost use Rattle.pb_reply.specs.Statuses.{IsRunStatus};
ghost use Rattle.pebble_cli.specs.Runs.{status_of as status_of_marks};
ghost use Rattle.pebble_cli.specs.StoreStates.{TellsFault, mark_in};

use pb_devices::Mark;
use pb_reply::{Reply, Status, status_of};

/// The reply in numbers, for the trace, and whether A is Down after the line.
pub fn mark_of(reply: &Reply, is_down: bool) -> Mark
    ensures { result ≡ mark_in reply.now is_down }
{
    Mark {
        refusal: refusal_in(reply),
        count: count_in(reply),
        more: goes_on(reply),
        down: [is_down, false, false, false, false, false, false, false],
    }
}

fn refusal_in(reply: &Reply) -> u64
    ensures { result ≡ refusal_in reply.now }
{
    match reply {
        Reply::Refused(refusal) => refusal.number(),
        _ => 0,
    }
}

fn count_in(reply: &Reply) -> u64
    ensures { result ≡ count_in reply.now }
{
    match reply {
        Reply::Opened(count) | Reply::Accepted(count) => *count,
        _ => 0,
    }
}

fn goes_on(reply: &Reply) -> bool
    ensures { result ≡ goes_on reply.now }
{
    matches!(reply, Reply::Started | Reply::Working)
}

/// The status once a further line was replied to so.
pub fn status_with(status: Status, reply: &Reply) -> Status
    requires { IsRunStatus status }
    ensures status { (marks : List Mark) (is_down : Bool) → status ≡ status_of_marks marks → result ≡ status_of_marks (marks ++ mark_in reply.now is_down ∷ []) }
    ensures device { result ≡ Status.Device → (status ≡ Status.Device) ⊎ TellsFault reply.now }
{
    status_of(status, reply)
}
