ghost use Rattle.std.specs.Prelude.{◌≡◌, ◌+◌, ◌≤◌, ◌++◌, ◌∷◌, ◌⊎◌, ◌≢◌, [], true, List, length, map, string_bytes, MatchBool, Option, ℕ};
ghost use Rattle.pb_devices.specs.Contents.{MayLeave};
ghost use Rattle.pb_devices.specs.Counts.{Rose};
ghost use Rattle.std.specs.List.{list_all};
ghost use Rattle.pebble_cli.specs.Lines.{is_built, fault_line};
ghost use Rattle.pb_gate_log.specs.Payloads.{payloads_in};
ghost use Rattle.pebble_cli.specs.Folder.{log_name, HasFrom};
ghost use Rattle.pebble_cli.specs.Headline.{Headline, IsGood, HasBadImage};
ghost use Rattle.pebble_cli.specs.Usage.{is_run};
ghost use Rattle.pebble_cli.specs.StoreStates.{Acts, Keeps, Finds, HasReplyCause, IsSetBy, map_in, ran_of};
ghost use Rattle.pebble_cli.specs.Runs.{script as script_task, fault, usage, task_of, task_of_source, task_of_script, lines_of_task, has_damage, IsReadWhole, IsWhole, IsCutShort, IsBeforeLines, Ends, Prints, Causes, RunMeets};

use crate::lines::read_lines;
use crate::mark::{mark_of, status_with};
use crate::print::{fault_text, print_reply, say};
use crate::script::{ReadError, read_script};
use crate::step::Step;
use crate::store::Store;
use crate::usage::asks_to_run;
use pb_devices::{Bucket, Disk, Sink, Source, Trace};
use pb_reply::{Reply, Status};
use pb_script::{Line, ParseError};
use std::alloc::Global;

/// The text for words that aren't the usage.
const USAGE: &[u8] = b"usage: pebble_cli run | pebble_cli gen N SEED\n";

/// The text for a script that is too long.
const TOO_LONG: &[u8] = b"too long\n";

/// Runs the script that the words ask for, over the devices: docs/MODEL.md, "Run". The folder of store A is that of the first
/// disk.
///
/// The script is read whole, parsed whole, and then its lines run in order. Each line's mark is in the trace before its reply
/// is printed. Without memory the run ends with the status `Memory`, at any place.
pub fn run<I: Source, O: Sink, D: Disk, B: Bucket>(
    alloc: Global,
    words: &[String],
    script: &mut I,
    out: &mut O,
    disks: &mut [D],
    bucket: &mut B,
    trace: &mut Trace,
) -> Status
    requires eight { length disks.old ≡ 8 }
    requires empty { trace.old.marks ≡ [] }

    // What the lines came to, what was printed, and, where each image of A's folder stood for some count and map, the
    // headline: no stop and no fault loses an accepted command.
    ensures comes { I.told ≡ true → (a b : D) (others : List D) → disks.old ≡ a ∷ others → disks.new ≡ b ∷ others
        → RunMeets (task_of (map string_bytes words.now) (I.left script.old)) result trace.new.marks
        (λ ran. O.told ≡ true → Prints (task_of (map string_bytes words.now) (I.left script.old)) result ran
        (O.taken out.old) (O.taken out.new) (O.fault_count out.old) (O.fault_count out.new))
        (λ ran. D.told ≡ true → IsGood (D.contents a)
        → Headline (D.contents a) (D.contents b) (lines_of_task (task_of (map string_bytes words.now) (I.left script.old))) ran) }
    ensures said { O.told ≡ true → result ≡ Status.Usage → Prints usage result []
        (O.taken out.old) (O.taken out.new) (O.fault_count out.old) (O.fault_count out.new) }
    ensures usage { MatchBool (is_run (map string_bytes words.now)) (result ≢ Status.Usage) ((result ≡ Status.Usage) ⊎ (result ≡ Status.Memory)) }
    ensures causes { Causes result trace.new.marks (O.fault_count out.old) (O.fault_count out.new) }
    ensures device { (a b : D) (others : List D) → disks.old ≡ a ∷ others → disks.new ≡ b ∷ others
        → result ≡ Status.Device → Rose (D.fault_count a) (D.fault_count b) }

    // Damage, and with it the status `Damaged`, comes of a log that stood for no count and map when the run began: no
    // stop and no fault of this run makes it.
    ensures damaged { D.told ≡ true → (a : D) (others : List D) → disks.old ≡ a ∷ others
        → has_damage trace.new.marks ≡ true → HasBadImage (D.contents a) }

    ensures read { result ≡ Status.Read → Rose (I.fault_count script.old) (I.fault_count script.new) }
    ensures whole { I.told ≡ true → IsReadWhole result → I.left script.new ≡ [] }
    ensures later { I.fault_count script.old ≤ I.fault_count script.new }

    // Before the first line no disk is called, and never any but the first, nor the bucket.
    ensures untouched { IsBeforeLines result → disks.new ≡ disks.old }
    ensures others { (a : D) (others : List D) → disks.old ≡ a ∷ others → (b : D) × (disks.new ≡ b ∷ others) }
    ensures bucket { bucket.new ≡ bucket.old }
{
    let Ok(asks) = asks_to_run(alloc, words) else {
        return Status::Memory;
    };
    if !asks {
        return say(out, USAGE, Status::Usage);
    }
    run_source(alloc, script, out, &mut disks[0], trace)
}

/// Runs the script that a source has left.
fn run_source<I: Source, O: Sink, D: Disk>(
    alloc: Global,
    source: &mut I,
    out: &mut O,
    disk: &mut D,
    trace: &mut Trace,
) -> Status
    requires { trace.old.marks ≡ [] }
    ensures comes { I.told ≡ true → RunMeets (task_of_source (I.left source.old)) result trace.new.marks
        (λ ran. O.told ≡ true → Prints (task_of_source (I.left source.old)) result ran
        (O.taken out.old) (O.taken out.new) (O.fault_count out.old) (O.fault_count out.new))
        (λ ran. D.told ≡ true → IsGood (D.contents disk.old)
        → Headline (D.contents disk.old) (D.contents disk.new) (lines_of_task (task_of_source (I.left source.old))) ran) }
    ensures usage { result ≢ Status.Usage }
    ensures causes { Causes result trace.new.marks (O.fault_count out.old) (O.fault_count out.new) }
    ensures device { result ≡ Status.Device → Rose (D.fault_count disk.old) (D.fault_count disk.new) }
    ensures damaged { D.told ≡ true → has_damage trace.new.marks ≡ true → HasBadImage (D.contents disk.old) }
    ensures read { result ≡ Status.Read → Rose (I.fault_count source.old) (I.fault_count source.new) }
    ensures whole { I.told ≡ true → IsReadWhole result → I.left source.new ≡ [] }
    ensures later { I.fault_count source.old ≤ I.fault_count source.new }
    ensures untouched { IsBeforeLines result → disk.new ≡ disk.old }
{
    match read_script(alloc, source) {
        Ok(script) => run_script(alloc, &script, out, disk, trace),
        Err(ReadError::TooLong) => say(out, TOO_LONG, Status::TooLong),
        Err(ReadError::Failed) => Status::Read,
        Err(ReadError::NoMemory) => Status::Memory,
    }
}

/// Runs a script that isn't too long.
fn run_script<O: Sink, D: Disk>(
    alloc: Global,
    script: &[u8],
    out: &mut O,
    disk: &mut D,
    trace: &mut Trace,
) -> Status
    requires { trace.old.marks ≡ [] }
    ensures comes { RunMeets (task_of_script script.now (fault_line script.now)) result trace.new.marks
        (λ ran. O.told ≡ true → Prints (task_of_script script.now (fault_line script.now)) result ran
        (O.taken out.old) (O.taken out.new) (O.fault_count out.old) (O.fault_count out.new))
        (λ ran. D.told ≡ true → IsGood (D.contents disk.old)
        → Headline (D.contents disk.old) (D.contents disk.new) (lines_of_task (task_of_script script.now (fault_line script.now))) ran) }
    ensures usage { (result ≢ Status.Usage) × (result ≢ Status.Read) × (result ≢ Status.TooLong) }
    ensures causes { Causes result trace.new.marks (O.fault_count out.old) (O.fault_count out.new) }
    ensures device { result ≡ Status.Device → Rose (D.fault_count disk.old) (D.fault_count disk.new) }
    ensures damaged { D.told ≡ true → has_damage trace.new.marks ≡ true → HasBadImage (D.contents disk.old) }
    ensures untouched { IsBeforeLines result → disk.new ≡ disk.old }
{
    match read_lines(alloc, script) {
        Ok(lines) => run_lines(alloc, &lines, out, disk, trace),
        Err(ParseError::Fault(number)) => say_fault(alloc, number, out),
        Err(ParseError::NoMemory) => Status::Memory,
    }
}

/// Prints the number of the first line that is off the grammar or not built.
fn say_fault<O: Sink>(alloc: Global, number: u64, out: &mut O) -> Status
    ensures ends { Ends (fault number) result [] }
    ensures prints { O.told ≡ true → Prints (fault number) result []
        (O.taken out.old) (O.taken out.new) (O.fault_count out.old) (O.fault_count out.new) }
    ensures status { (result ≡ Status.Script) ⊎ (result ≡ Status.Memory) }
    ensures later { O.fault_count out.old ≤ O.fault_count out.new }
{
    match fault_text(alloc, number) {
        Ok(text) => say(out, text.as_bytes(), Status::Script),
        Err(_) => Status::Memory,
    }
}

/// Runs the lines of a script in order. Each is made a step when its turn comes.
fn run_lines<O: Sink, D: Disk>(
    alloc: Global,
    lines: &[Line],
    out: &mut O,
    disk: &mut D,
    trace: &mut Trace,
) -> Status
    requires built { list_all is_built lines.now ≡ true }
    requires empty { trace.old.marks ≡ [] }
    ensures comes { RunMeets (script_task lines.now) result trace.new.marks
        (λ ran. O.told ≡ true → Prints (script_task lines.now) result ran
        (O.taken out.old) (O.taken out.new) (O.fault_count out.old) (O.fault_count out.new))
        (λ ran. D.told ≡ true → IsGood (D.contents disk.old)
        → Headline (D.contents disk.old) (D.contents disk.new) lines.now ran) }
    ensures status { IsWhole result ⊎ IsCutShort result }
    ensures causes { Causes result trace.new.marks (O.fault_count out.old) (O.fault_count out.new) }
    ensures device { result ≡ Status.Device → Rose (D.fault_count disk.old) (D.fault_count disk.new) }
    ensures damaged { D.told ≡ true → has_damage trace.new.marks ≡ true → HasBadImage (D.contents disk.old) }
{
    if trace.reserve(alloc, lines.len() as u64).is_err() {
        return Status::Memory;
    }
    let mut store = Store::Closed;
    let mut text = Vec::new(alloc);
    let mut status = Status::Success;
    for line in lines {
        let Ok(step) = Step::new(alloc, line) else {
            return Status::Memory;
        };
        let reply = run_step(&mut store, alloc, disk, step, trace);
        status = status_with(status, &reply);
        if let Err(early) = print_reply(alloc, reply, &mut text, out) {
            return early;
        }
    }
    status
}

/// Runs a step, and adds its mark to the trace: a reply that doesn't reach the sink has its mark.
fn run_step<D: Disk>(
    store: &mut Store,
    alloc: Global,
    disk: &mut D,
    step: Step,
    trace: &mut Trace,
) -> Reply
    requires kept { D.told ≡ true → Keeps store.old (D.contents disk.old) }
    requires spare { 1 ≤ trace.old.spare }
    ensures kept { D.told ≡ true → Keeps store.new (D.contents disk.new) }
    ensures acts { Acts store.old step result store.new }
    ensures found { D.told ≡ true → Finds (payloads_in ((D.contents disk.old).seen log_name)) step result (map_in store.new) }
    ensures crash { D.told ≡ true → (image : Option (List ℕ)) → MayLeave (D.contents disk.new) log_name image
        → HasFrom (D.contents disk.old) image ⊎ IsSetBy store.old step image }
    ensures cause { HasReplyCause (D.fault_count disk.old) (D.fault_count disk.new) result }
    ensures marks { trace.new.marks ≡ trace.old.marks ++ (ran_of result store.new).mark ∷ [] }
    ensures spare { trace.new.spare + 1 ≡ trace.old.spare }
{
    let reply = store.step(alloc, disk, step);
    trace.add(mark_of(&reply, store.is_down()));
    reply
}

#[cfg(test)]
mod fault_tests;
#[cfg(test)]
mod headline_tests;
#[cfg(test)]
mod stopped_tests;
#[cfg(test)]
mod tests;
