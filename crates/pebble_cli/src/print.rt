ghost use Rattle.std.specs.Prelude.{◌≡◌, ◌++◌, ◌≤◌, ◌⊎◌, true, OnOk, OnErr, IfErr, IfOk, string_bytes};
ghost use Rattle.pb_devices.specs.Counts.{HasCause, Rose};
ghost use Rattle.pb_reply.specs.Printed.{printed};
ghost use Rattle.pebble_cli.specs.Texts.{fault_text};
ghost use Rattle.pebble_cli.specs.Runs.{TakesPart, IsCutShort};

use pb_devices::{Failed, Sink};
use pb_reply::{Reply, Status, print};
use std::alloc::{AllocError, Global};

/// Writes a text whole, by as many writes as it takes. After `Failed` a part of it was taken.
pub fn write_all<O: Sink>(out: &mut O, text: &[u8]) -> Result<(), Failed>
    ensures ok { O.told ≡ true → OnOk result (O.taken out.new ≡ O.taken out.old ++ text.now) }
    ensures err { O.told ≡ true → OnErr result (TakesPart (O.taken out.old) (O.taken out.new) text.now) }
    ensures cause { HasCause (O.fault_count out.old) (O.fault_count out.new) result }
{
    let mut at = 0;
    while at < text.len() {
        at += out.write(&text[at..])?;
    }
    Ok(())
}

/// Prints a text in place of replies, and answers the status, which stands also where the sink fails.
pub fn say<O: Sink>(out: &mut O, text: &[u8], status: Status) -> Status
    ensures status { result ≡ status }
    ensures text { O.told ≡ true → (O.taken out.new ≡ O.taken out.old ++ text.now)
        ⊎ (TakesPart (O.taken out.old) (O.taken out.new) text.now × Rose (O.fault_count out.old) (O.fault_count out.new)) }
    ensures later { O.fault_count out.old ≤ O.fault_count out.new }
{
    let _ = write_all(out, text);
    status
}

/// Puts the text of a reply in place of another.
fn spell_reply(alloc: Global, reply: Reply, text: &mut Vec<u8>) -> Result<(), AllocError>
    ensures { OnOk result (text.new.items ≡ printed reply) }
{
    text.clear();
    print(alloc, &reply, text)
}

/// Prints a reply, by a write where the sink takes it whole; `text` is overwritten.
/// The status on `Err` is the one with which the run ends: a part of the reply was taken.
pub fn print_reply<O: Sink>(
    alloc: Global,
    reply: Reply,
    text: &mut Vec<u8>,
    out: &mut O,
) -> Result<(), Status>
    ensures ok { O.told ≡ true → OnOk result (O.taken out.new ≡ O.taken out.old ++ printed reply) }
    ensures err { O.told ≡ true → OnErr result (TakesPart (O.taken out.old) (O.taken out.new) (printed reply)) }
    ensures status { IfErr result IsCutShort }
    ensures cause { result ≡ Err Status.Write → Rose (O.fault_count out.old) (O.fault_count out.new) }
    ensures later { O.fault_count out.old ≤ O.fault_count out.new }
{
    if spell_reply(alloc, reply, text).is_err() {
        return Err(Status::Memory);
    }
    if write_all(out, text.as_slice()).is_err() {
        return Err(Status::Write);
    }
    Ok(())
}

/// The text for the first line that is off the grammar or not built.
pub fn fault_text(alloc: Global, number: u64) -> Result<String, AllocError>
    ensures { IfOk result (λ text. string_bytes text ≡ fault_text number) }
{
    format!(in alloc; "fault line {number}\n")
}
