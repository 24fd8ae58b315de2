ghost use Rattle.std.specs.Prelude.{◌≡◌, ◌<◌, ◌^◌, true, IfOk, OnOk};
ghost use Rattle.pb_devices.specs.Counts.{HasCause};
ghost use Rattle.pb_marker_world.specs.Bucket.{shown_names};
ghost use Rattle.pb_markers.specs.declared.phase.Phase.TheVariants as phase;
ghost use Rattle.pb_names.specs.Identity.{IsObject, IsStore};

use pb_devices::{Bucket, Failed};
use pb_markers::{Create, Phase};
use pb_names::{ObjectId, marker, object};

/// Makes an object of these bytes, and the store's marker of it: two calls. After `Ok` the bucket shows both.
pub fn made<B: Bucket>(
    bucket: &mut B,
    id: &ObjectId,
    store: u64,
    number: u64,
    bytes: &[u8],
) -> Result<Phase, Failed>
    requires object { IsObject id.now }
    requires store { IsStore store }
    requires number { number < 2 ^ 62 }
    ensures held { IfOk result (λ answer. answer ≡ phase.Held) }
    ensures object { B.told ≡ true → OnOk result ((shown_names (B.objects bucket.new)).objects id.now ≡ true) }
    ensures marker { B.told ≡ true → OnOk result (
        (shown_names (B.objects bucket.new)).markers (record { object = id.now; store = store; number = number }) ≡ true) }
    ensures cause { HasCause (B.fault_count bucket.old) (B.fault_count bucket.new) result }
{
    let mut create = Create::new(object(id), marker(id, store, number));
    create.next(bucket, bytes)?;
    let answer = create.next(bucket, bytes)?;
    Ok(answer)
}
