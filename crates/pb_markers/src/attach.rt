ghost use Rattle.std.specs.Prelude.{◌≡◌, ℕ, true, [], Some, IfOk, OnOk, OnErr, if◌then◌else◌};
ghost use Rattle.std.specs.FinMap.{contains_key};
ghost use Rattle.pb_devices.specs.Counts.{HasCause, one_more};
ghost use Rattle.pb_marker_world.specs.declared.stages.Stage.TheVariants as stage;
ghost use Rattle.pb_marker_world.specs.Machine.{Entry, Local, Marker};
ghost use Rattle.pb_marker_world.specs.Bucket.{NamesInForm};
ghost use Rattle.pb_markers.specs.declared.phase.Phase.TheVariants as phase;
ghost use Rattle.pb_markers.specs.Call.{IsMade, IsStep, StaysElsewhere};
ghost use Rattle.pb_markers.specs.Call.Call.{LooksFor, PutsBytes};
ghost use Rattle.pb_markers.specs.Creating.{HasNamesOf};
ghost use Rattle.pb_markers.specs.Attaching.{attach_call, attach_leaves, attach_phase, attach_step, entry_attached, has_lender_in, is_attaching, Attaches};

use crate::phase::Phase;
use crate::release::Release;
use pb_devices::{Bucket, Failed};
use pb_marker_world::Stage;
use pb_names::Name;

/// Takes an object that a lender's marker keeps.
///
/// Intended -> Marked -> Held, or Loose where the lender's marker isn't there any more.
#[derive(Debug, Drop)]
pub struct Attach {
    prefix: Name,
    object: Name,
    own: Name,
    lender: Name,
    stage: Stage,
}

impl Attach {
    /// For an object of this name, whose markers begin with the prefix, the store's own marker of it and the lender's. Nothing is
    /// put yet.
    pub fn new(prefix: Name, object: Name, own: Name, lender: Name) -> Attach
        ensures { result ≡ record { prefix = prefix; object = object; own = own; lender = lender; stage = stage.Intended } }
    {
        Attach {
            prefix,
            object,
            own,
            lender,
            stage: Stage::Intended,
        }
    }

    /// How far the machine has come. It has a call to make at Intended and at Marked.
    pub fn stage(&self) -> Stage
        ensures { result ≡ self.now.stage }
    {
        self.stage
    }

    /// The release of what was attached, from its beginning.
    pub fn release(&self) -> Release
        ensures { result ≡ record { prefix = self.now.prefix; object = self.now.object; own = self.now.own; stage = stage.Loose } }
    {
        Release::new(self.prefix, self.object, self.own)
    }

    /// Makes the next call: it puts the store's own marker, which is empty, and after that looks for the lender's. After `Failed`
    /// the machine stands where it stood, and what was to be put is there or not. The bytes aren't used.
    pub fn next<B: Bucket>(&mut self, bucket: &mut B, _bytes: &[u8]) -> Result<Phase, Failed>
        requires { is_attaching self.old.stage ≡ true }
        ensures calls { B.call_count bucket.new ≡ one_more (B.call_count bucket.old) }
        ensures cause { HasCause (B.fault_count bucket.old) (B.fault_count bucket.new) result }
        ensures names { self.new ≡ record self.old { stage = self.new.stage } }
        ensures goes { IfOk result (λ answer. attach_leaves self.old.stage answer ≡ Some self.new.stage) }
        ensures same { OnErr result (self.new ≡ self.old) }
        ensures phase { B.told ≡ true → IfOk result (λ answer. answer ≡ attach_phase self.old.stage (has_lender_in (B.objects bucket.old) self.old)) }
        ensures objects { B.told ≡ true → IsMade (attach_call self.old) (B.objects bucket.old) (B.objects bucket.new) result }
        ensures elsewhere { B.told ≡ true → StaysElsewhere (attach_call self.old) (B.objects bucket.old) (B.objects bucket.new) }
        ensures form { B.told ≡ true → (m : Marker) → HasNamesOf m self.old.object self.old.own
            → NamesInForm (B.objects bucket.old) → NamesInForm (B.objects bucket.new) }
        ensures step { B.told ≡ true → (store : ℕ) (l : Local) (number : ℕ) (e : Entry) → Attaches self.old store l number e (B.objects bucket.old)
            → IsStep store l number (attach_step self.old.stage number) (entry_attached self.old.stage (has_lender_in (B.objects bucket.old) self.old) e)
            (B.objects bucket.old) (B.objects bucket.new) result }
    {
        match self.stage {
            Stage::Intended => self.put_marker(bucket),
            Stage::Marked => self.check(bucket),
            _ => unreachable!(),
        }
    }

    fn put_marker<B: Bucket>(&mut self, bucket: &mut B) -> Result<Phase, Failed>
        ensures calls { B.call_count bucket.new ≡ one_more (B.call_count bucket.old) }
        ensures cause { HasCause (B.fault_count bucket.old) (B.fault_count bucket.new) result }
        ensures phase { IfOk result (λ answer. answer ≡ phase.More) }
        ensures goes { OnOk result (self.new ≡ record self.old { stage = stage.Marked }) }
        ensures same { OnErr result (self.new ≡ self.old) }
        ensures objects { B.told ≡ true → IsMade (PutsBytes self.old.own []) (B.objects bucket.old) (B.objects bucket.new) result }
    {
        bucket.put(self.own.as_str(), &[])?;
        self.stage = Stage::Marked;
        Ok(Phase::More)
    }

    fn check<B: Bucket>(&mut self, bucket: &mut B) -> Result<Phase, Failed>
        ensures calls { B.call_count bucket.new ≡ one_more (B.call_count bucket.old) }
        ensures cause { HasCause (B.fault_count bucket.old) (B.fault_count bucket.new) result }
        ensures names { self.new ≡ record self.old { stage = self.new.stage } }
        ensures goes { IfOk result (λ answer. attach_leaves stage.Marked answer ≡ Some self.new.stage) }
        ensures same { OnErr result (self.new ≡ self.old) }
        ensures phase { B.told ≡ true → IfOk result (λ answer.
            answer ≡ (if contains_key (B.objects bucket.old) self.old.lender then phase.Held else phase.Gone)) }
        ensures objects { B.told ≡ true → B.objects bucket.new ≡ B.objects bucket.old }
    {
        if bucket.size(self.lender.as_str())?.is_none() {
            self.stage = Stage::Loose;
            return Ok(Phase::Gone);
        }
        self.stage = Stage::Held;
        Ok(Phase::Held)
    }
}
