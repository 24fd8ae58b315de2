ghost use Rattle.std.specs.Prelude.{◌≡◌, ℕ, ◌==◌, true, Some, IfOk, OnOk, OnErr, if◌then◌else◌};
ghost use Rattle.pb_devices.specs.Counts.{HasCause, one_more};
ghost use Rattle.pb_devices.specs.Objects.{count_with};
ghost use Rattle.pb_marker_world.specs.declared.stages.Stage.TheVariants as stage;
ghost use Rattle.pb_marker_world.specs.Machine.{Entry, Local};
ghost use Rattle.pb_marker_world.specs.Bucket.{NamesInForm};
ghost use Rattle.pb_markers.specs.declared.phase.Phase.TheVariants as phase;
ghost use Rattle.pb_markers.specs.Call.{IsMade, IsStep, StaysElsewhere};
ghost use Rattle.pb_markers.specs.Call.Call.{DeletesName};
ghost use Rattle.pb_markers.specs.Releasing.{count_in, entry_released, is_releasing, release_call, release_leaves, release_phase, release_step, Releases};

use crate::phase::Phase;
use pb_devices::{Bucket, Failed};
use pb_marker_world::Stage;
use pb_names::Name;

/// Lets an object go that the store held, or that it isn't known to hold: the stage Loose stands for both.
///
/// Loose -> Bare -> Counted -> Ended, or from Bare to Ended where a marker of another entry stands.
#[derive(Debug, Drop)]
pub struct Release {
    prefix: Name,
    object: Name,
    own: Name,
    stage: Stage,
}

impl Release {
    /// For an object of this name, whose markers begin with the prefix, and the store's own marker of it. Nothing is deleted yet.
    pub fn new(prefix: Name, object: Name, own: Name) -> Release
        ensures { result ≡ record { prefix = prefix; object = object; own = own; stage = stage.Loose } }
    {
        Release {
            prefix,
            object,
            own,
            stage: Stage::Loose,
        }
    }

    /// How far the machine has come. It has a call to make at Loose, at Bare and at Counted.
    pub fn stage(&self) -> Stage
        ensures { result ≡ self.now.stage }
    {
        self.stage
    }

    /// Makes the next call: it deletes the store's own marker, then counts the object's markers, and where there was none deletes
    /// the object. After `Failed` the machine stands where it stood, and what was to be deleted is there or not. The bytes aren't used.
    pub fn next<B: Bucket>(&mut self, bucket: &mut B, _bytes: &[u8]) -> Result<Phase, Failed>
        requires { is_releasing self.old.stage ≡ true }
        ensures calls { B.call_count bucket.new ≡ one_more (B.call_count bucket.old) }
        ensures cause { HasCause (B.fault_count bucket.old) (B.fault_count bucket.new) result }
        ensures names { self.new ≡ record self.old { stage = self.new.stage } }
        ensures goes { IfOk result (λ answer. release_leaves self.old.stage answer ≡ Some self.new.stage) }
        ensures same { OnErr result (self.new ≡ self.old) }
        ensures phase { B.told ≡ true → IfOk result (λ answer. answer ≡ release_phase self.old.stage (count_in (B.objects bucket.old) self.old)) }
        ensures objects { B.told ≡ true → IsMade (release_call self.old) (B.objects bucket.old) (B.objects bucket.new) result }
        ensures elsewhere { B.told ≡ true → StaysElsewhere (release_call self.old) (B.objects bucket.old) (B.objects bucket.new) }
        ensures form { B.told ≡ true → NamesInForm (B.objects bucket.old) → NamesInForm (B.objects bucket.new) }
        ensures step { B.told ≡ true → (store : ℕ) (l : Local) (number : ℕ) (e : Entry) → Releases self.old store l number e (B.objects bucket.old)
            → IsStep store l number (release_step self.old.stage number) (entry_released self.old.stage (count_in (B.objects bucket.old) self.old) e)
            (B.objects bucket.old) (B.objects bucket.new) result }
    {
        match self.stage {
            Stage::Loose => self.delete_marker(bucket),
            Stage::Bare => self.count(bucket),
            Stage::Counted => self.delete_object(bucket),
            _ => unreachable!(),
        }
    }

    fn delete_marker<B: Bucket>(&mut self, bucket: &mut B) -> Result<Phase, Failed>
        ensures calls { B.call_count bucket.new ≡ one_more (B.call_count bucket.old) }
        ensures cause { HasCause (B.fault_count bucket.old) (B.fault_count bucket.new) result }
        ensures phase { IfOk result (λ answer. answer ≡ phase.More) }
        ensures goes { OnOk result (self.new ≡ record self.old { stage = stage.Bare }) }
        ensures same { OnErr result (self.new ≡ self.old) }
        ensures objects { B.told ≡ true → IsMade (DeletesName self.old.own) (B.objects bucket.old) (B.objects bucket.new) result }
    {
        bucket.delete(self.own.as_str())?;
        self.stage = Stage::Bare;
        Ok(Phase::More)
    }

    fn count<B: Bucket>(&mut self, bucket: &mut B) -> Result<Phase, Failed>
        ensures calls { B.call_count bucket.new ≡ one_more (B.call_count bucket.old) }
        ensures cause { HasCause (B.fault_count bucket.old) (B.fault_count bucket.new) result }
        ensures names { self.new ≡ record self.old { stage = self.new.stage } }
        ensures goes { IfOk result (λ answer. release_leaves stage.Bare answer ≡ Some self.new.stage) }
        ensures same { OnErr result (self.new ≡ self.old) }
        ensures phase { B.told ≡ true → IfOk result (λ answer.
            answer ≡ (if count_with self.old.prefix (B.objects bucket.old) == 0 then phase.More else phase.Left)) }
        ensures objects { B.told ≡ true → B.objects bucket.new ≡ B.objects bucket.old }
    {
        if bucket.count(self.prefix.as_str())? != 0 {
            self.stage = Stage::Ended;
            return Ok(Phase::Left);
        }
        self.stage = Stage::Counted;
        Ok(Phase::More)
    }

    fn delete_object<B: Bucket>(&mut self, bucket: &mut B) -> Result<Phase, Failed>
        ensures calls { B.call_count bucket.new ≡ one_more (B.call_count bucket.old) }
        ensures cause { HasCause (B.fault_count bucket.old) (B.fault_count bucket.new) result }
        ensures phase { IfOk result (λ answer. answer ≡ phase.Freed) }
        ensures goes { OnOk result (self.new ≡ record self.old { stage = stage.Ended }) }
        ensures same { OnErr result (self.new ≡ self.old) }
        ensures objects { B.told ≡ true → IsMade (DeletesName self.old.object) (B.objects bucket.old) (B.objects bucket.new) result }
    {
        bucket.delete(self.object.as_str())?;
        self.stage = Stage::Ended;
        Ok(Phase::Freed)
    }
}
