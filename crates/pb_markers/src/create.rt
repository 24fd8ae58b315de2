ghost use Rattle.std.specs.Prelude.{◌≡◌, ℕ, true, [], IfOk, OnOk, OnErr};
ghost use Rattle.pb_devices.specs.Counts.{HasCause, one_more};
ghost use Rattle.pb_marker_world.specs.declared.stages.Stage.TheVariants as stage;
ghost use Rattle.pb_marker_world.specs.Machine.{Entry, Local, Marker};
ghost use Rattle.pb_marker_world.specs.Sound.{is_beginning};
ghost use Rattle.pb_marker_world.specs.Bucket.{NamesInForm};
ghost use Rattle.pb_markers.specs.declared.phase.Phase.TheVariants as phase;
ghost use Rattle.pb_markers.specs.Call.{IsMade, IsStep, StaysElsewhere};
ghost use Rattle.pb_markers.specs.Call.Call.{PutsBytes};
ghost use Rattle.pb_markers.specs.Creating.{create_call, create_phase, create_step, entry_created, stage_created, Creates, HasNamesOf};

use crate::phase::Phase;
use pb_devices::{Bucket, Failed};
use pb_marker_world::Stage;
use pb_names::Name;

/// Makes an object of the store's own.
///
/// Intended -> Put -> Held.
#[derive(Debug, Drop)]
pub struct Create {
    object: Name,
    own: Name,
    stage: Stage,
}

impl Create {
    /// For an object of this name, and the store's own marker of it. Nothing is put yet.
    pub fn new(object: Name, own: Name) -> Create
        ensures { result ≡ record { object = object; own = own; stage = stage.Intended } }
    {
        Create {
            object,
            own,
            stage: Stage::Intended,
        }
    }

    /// How far the machine has come. It has a call to make at Intended and at Put.
    pub fn stage(&self) -> Stage
        ensures { result ≡ self.now.stage }
    {
        self.stage
    }

    /// Makes the next call: it puts the object with these bytes, and after that the marker, which is empty. After `Failed` the
    /// machine stands where it stood, and what was to be put is there or not.
    pub fn next<B: Bucket>(&mut self, bucket: &mut B, bytes: &[u8]) -> Result<Phase, Failed>
        requires { is_beginning self.old.stage ≡ true }
        ensures calls { B.call_count bucket.new ≡ one_more (B.call_count bucket.old) }
        ensures cause { HasCause (B.fault_count bucket.old) (B.fault_count bucket.new) result }
        ensures phase { IfOk result (λ answer. answer ≡ create_phase self.old.stage) }
        ensures names { self.new ≡ record self.old { stage = self.new.stage } }
        ensures goes { OnOk result (self.new.stage ≡ stage_created self.old.stage) }
        ensures same { OnErr result (self.new ≡ self.old) }
        ensures objects { B.told ≡ true → IsMade (create_call self.old bytes.now) (B.objects bucket.old) (B.objects bucket.new) result }
        ensures elsewhere { B.told ≡ true → StaysElsewhere (create_call self.old bytes.now) (B.objects bucket.old) (B.objects bucket.new) }
        ensures form { B.told ≡ true → (m : Marker) → HasNamesOf m self.old.object self.old.own
            → NamesInForm (B.objects bucket.old) → NamesInForm (B.objects bucket.new) }
        ensures step { B.told ≡ true → (store : ℕ) (l : Local) (number : ℕ) (e : Entry) → Creates self.old store l number e (B.objects bucket.old)
            → IsStep store l number (create_step self.old.stage number) (entry_created self.old.stage e) (B.objects bucket.old) (B.objects bucket.new) result }
    {
        match self.stage {
            Stage::Intended => self.put_object(bucket, bytes),
            Stage::Put => self.put_marker(bucket),
            _ => unreachable!(),
        }
    }

    fn put_object<B: Bucket>(&mut self, bucket: &mut B, bytes: &[u8]) -> Result<Phase, Failed>
        ensures calls { B.call_count bucket.new ≡ one_more (B.call_count bucket.old) }
        ensures cause { HasCause (B.fault_count bucket.old) (B.fault_count bucket.new) result }
        ensures phase { IfOk result (λ answer. answer ≡ phase.More) }
        ensures goes { OnOk result (self.new ≡ record self.old { stage = stage.Put }) }
        ensures same { OnErr result (self.new ≡ self.old) }
        ensures objects { B.told ≡ true → IsMade (PutsBytes self.old.object bytes.now) (B.objects bucket.old) (B.objects bucket.new) result }
    {
        bucket.put(self.object.as_str(), bytes)?;
        self.stage = Stage::Put;
        Ok(Phase::More)
    }

    fn put_marker<B: Bucket>(&mut self, bucket: &mut B) -> Result<Phase, Failed>
        ensures calls { B.call_count bucket.new ≡ one_more (B.call_count bucket.old) }
        ensures cause { HasCause (B.fault_count bucket.old) (B.fault_count bucket.new) result }
        ensures phase { IfOk result (λ answer. answer ≡ phase.Held) }
        ensures goes { OnOk result (self.new ≡ record self.old { stage = stage.Held }) }
        ensures same { OnErr result (self.new ≡ self.old) }
        ensures objects { B.told ≡ true → IsMade (PutsBytes self.old.own []) (B.objects bucket.old) (B.objects bucket.new) result }
    {
        bucket.put(self.own.as_str(), &[])?;
        self.stage = Stage::Held;
        Ok(Phase::Held)
    }
}
