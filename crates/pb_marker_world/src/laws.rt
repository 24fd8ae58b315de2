//! What holds of the marker world whatever happens in it. These functions do nothing: their clauses are the laws.

ghost use Rattle.std.specs.Prelude.{◌≡◌, ℕ, ◌≤◌, ◌<◌, Bool, true, false, Some, None, List, [], ◌∷◌, ◌++◌, nat_eq, slice_get};
ghost use Rattle.std.specs.FinMap.{insert, remove};
ghost use Rattle.std.specs.List.{list_any, IsDistinct};
ghost use Rattle.pb_devices.specs.Objects.{Objects, count_with};
ghost use Rattle.pb_names.specs.Identity.{Identity, IsObject};
ghost use Rattle.pb_names.specs.Spelling.{marker_prefix, object_name};
ghost use Rattle.pb_marker_world.specs.declared.stages.Stage.TheVariants.{Intended, Held};
ghost use Rattle.pb_marker_world.specs.Machine.{Marker, Entry, Lending, Local, World, empty_world, entry_at, identity, local_of, own_marker, with_local, with_object, without_object, with_marker, without_marker};
ghost use Rattle.pb_marker_world.specs.Steps.{Step, IsMarked, IsOffered, Happens, Goes, Reaches, ReachesThrough, Runs, with_part};
ghost use Rattle.pb_marker_world.specs.Sound.{is_beginning, AllSettled, IsSound, IsSteady, with_openings};
ghost use Rattle.pb_marker_world.specs.Spending.{spend_block, spend_each, with_all_used, with_block_used};
ghost use Rattle.pb_marker_world.specs.Bucket.{IsMarker, name_of, shown_names, is_shared_name, NamesInForm};
ghost use Rattle.pb_marker_world.specs.Calls.{is_bucket_step, puts_marker, puts_object, touched_name};

/// Whatever steps the stores make, in any order, each with its condition met, the world stays sound. So no object that
/// a store holds is gone, or about to be deleted.
pub fn always_sound()
    ensures { (steps : List (ℕ × Step)) (w : World) → Runs empty_world steps w → IsSound w }
{}

/// A step of a store reads and changes only that store's part, the names in the bucket and the handles: it may happen,
/// and does the same, in each world in which the store sees the same.
pub fn own_part_alone()
    ensures reads { (w x v : World) (store : ℕ) (step : Step) → local_of x store ≡ local_of w store → Goes w store step v
        → Goes x store step (with_local x store (local_of v store)) }
    ensures changes { (w v : World) (store t : ℕ) (step : Step) → Goes w store step v → (t ≡ store → ⊥) → v.parts t ≡ w.parts t }
{}

/// Whatever steps one store makes, a steady world stays steady.
pub fn steps_keep_steady()
    ensures { (w : World) (store : ℕ) (steps : List Step) (after : Local) → IsSteady w → Reaches store (local_of w store) steps after
        → IsSteady (with_local w store after) }
{}

/// A steady world stays steady with other handles, if each of them was there: with fewer, or with the same in another order.
pub fn fewer_handles_keep_steady()
    ensures { (w : World) (lendings : List Lending) → IsSteady w
        → ((h : ℕ) (g : Lending) → slice_get lendings h ≡ Some g → (j : ℕ) × (slice_get w.lendings j ≡ Some g))
        → IsSteady (record { parts = w.parts; names = w.names; lendings = lendings }) }
{}

/// Each put or delete of a shared object's name, or of a marker's, is its step on what the bucket shows, and leaves the
/// names in form. A put or delete of a name that doesn't begin with `obj/` changes neither.
pub fn a_call_is_its_step_on_names()
    ensures puts_object { (objects : Objects) (o : Identity) (bytes : List ℕ) → IsObject o
        → shown_names (insert objects (object_name o) bytes) ≡ with_object (shown_names objects) o }
    ensures deletes_object { (objects : Objects) (o : Identity) → IsObject o
        → shown_names (remove objects (object_name o)) ≡ without_object (shown_names objects) o }
    ensures puts_marker { (objects : Objects) (m : Marker) (bytes : List ℕ) → IsMarker m
        → shown_names (insert objects (name_of m) bytes) ≡ with_marker (shown_names objects) m }
    ensures deletes_marker { (objects : Objects) (m : Marker) → IsMarker m
        → shown_names (remove objects (name_of m)) ≡ without_marker (shown_names objects) m }
    ensures object_in_form { (objects : Objects) (o : Identity) (bytes : List ℕ) → IsObject o
        → NamesInForm objects → NamesInForm (insert objects (object_name o) bytes) }
    ensures marker_in_form { (objects : Objects) (m : Marker) (bytes : List ℕ) → IsMarker m
        → NamesInForm objects → NamesInForm (insert objects (name_of m) bytes) }
    ensures deleted_in_form { (objects : Objects) (name : List ℕ) → NamesInForm objects → NamesInForm (remove objects name) }
    ensures puts_another { (objects : Objects) (name bytes : List ℕ) → is_shared_name name ≡ false
        → (shown_names (insert objects name bytes) ≡ shown_names objects)
        × (NamesInForm objects → NamesInForm (insert objects name bytes)) }
    ensures deletes_another { (objects : Objects) (name : List ℕ) → is_shared_name name ≡ false
        → shown_names (remove objects name) ≡ shown_names objects }
{}

/// A count of an object's markers that is 0 says that none is shown, whatever else the bucket holds; and one that isn't
/// says that some is shown, where the names are in form.
pub fn counting_tells_markers()
    ensures none { (objects : Objects) (o : Identity) → IsObject o → count_with (marker_prefix o) objects ≡ 0
        → IsMarked (shown_names objects) o → ⊥ }
    ensures some { (objects : Objects) (o : Identity) → IsObject o → NamesInForm objects
        → (count_with (marker_prefix o) objects ≡ 0 → ⊥) → IsMarked (shown_names objects) o }
{}

/// Two markers in form with one name are one marker.
pub fn one_marker()
    ensures { (m n : Marker) → IsMarker m → IsMarker n → name_of m ≡ name_of n → m ≡ n }
{}

/// A step changes at most the one name that it puts or deletes, and a step that is no call of the bucket changes none.
pub fn a_step_touches_one_name()
    ensures objects { (store : ℕ) (l after : Local) (step : Step) (o : Identity) → Happens store l step after
        → (touched_name store l step ≡ Some (object_name o) → ⊥) → after.names.objects o ≡ l.names.objects o }
    ensures markers { (store : ℕ) (l after : Local) (step : Step) (m : Marker) → Happens store l step after
        → (touched_name store l step ≡ Some (name_of m) → ⊥) → after.names.markers m ≡ l.names.markers m }
    ensures none { (store : ℕ) (l after : Local) (step : Step) → Happens store l step after
        → is_bucket_step step ≡ false → after.names ≡ l.names }
{}

/// Steps behind steps are steps: what two lists reach one after the other, both reach in a row, and the other way round;
/// and one step is a list.
pub fn steps_join()
    ensures joined { (store : ℕ) (l between after : Local) (steps more : List Step) → Reaches store l steps between
        → Reaches store between more after → Reaches store l (steps ++ more) after }
    ensures parted { (store : ℕ) (l after : Local) (steps more : List Step) → Reaches store l (steps ++ more) after
        → ReachesThrough store l steps more after }
    ensures one { (store : ℕ) (l after : Local) (step : Step) → Happens store l step after → Reaches store l (step ∷ []) after }
    ensures only { (store : ℕ) (l after : Local) (step : Step) → Reaches store l (step ∷ []) after → Happens store l step after }
{}

/// Any different numbers that aren't used may be used up, and so may all from a on and below b. Nothing else changes.
pub fn spends_reach()
    ensures each { (store : ℕ) (numbers : List ℕ) (l : Local) → IsDistinct nat_eq numbers → list_any l.part.used numbers ≡ false
        → Reaches store l (spend_each numbers) (with_part l (with_all_used l.part numbers)) }
    ensures block { (store a b : ℕ) (l : Local) → a ≤ b → ((k : ℕ) → a ≤ k → k < b → l.part.used k ≡ false)
        → Reaches store l (spend_block a b) (with_part l (with_block_used l.part a b)) }
{}

/// What a steady world has is never put again: neither an object by its creator, nor a marker by its store, whatever steps that
/// store makes. What an entry is about to put isn't there.
pub fn names_are_put_once()
    ensures object { (w : World) (store : ℕ) (steps : List Step) (after : Local) (n : ℕ) → IsSteady w
        → Reaches store (local_of w store) steps after → w.names.objects (identity store n) ≡ true
        → list_any (puts_object n) steps ≡ false }
    ensures marker { (w : World) (store : ℕ) (steps : List Step) (after : Local) (n : ℕ) (m : Marker) → IsSteady w
        → Reaches store (local_of w store) steps after → m.store ≡ store → m.number ≡ n → w.names.markers m ≡ true
        → list_any (puts_marker n) steps ≡ false }
    ensures intended { (w : World) (s n : ℕ) (e : Entry) → IsSteady w → entry_at w s n ≡ Some e → e.stage ≡ Intended
        → e.lender ≡ None → w.names.objects e.object ≡ false }
    ensures beginning { (w : World) (s n : ℕ) (e : Entry) → IsSteady w → entry_at w s n ≡ Some e → is_beginning e.stage ≡ true
        → w.names.markers (own_marker s n e) ≡ false }
{}

/// An object of which a handle, open or dropped, lends a marker is never put again by its creator.
pub fn what_is_lent_is_never_put()
    ensures { (w : World) (store : ℕ) (steps : List Step) (after : Local) (n : ℕ) (m : Marker) → IsSteady w
        → Reaches store (local_of w store) steps after → IsOffered w.lendings m → m.object ≡ identity store n
        → list_any (puts_object n) steps ≡ false }
{}

/// While a handle of its store's present opening is open, each marker that it lends is there.
pub fn a_lender_protects()
    ensures { (w : World) (h : ℕ) (g : Lending) (k : ℕ) (m : Marker) → IsSteady w → slice_get w.lendings h ≡ Some g
        → g.is_open ≡ true → g.opening ≡ (w.parts g.store).opening → slice_get g.markers k ≡ Some m
        → w.names.markers m ≡ true }
{}

/// Whatever steps one store makes, the object of each Held entry of another is there after them.
pub fn held_objects_stay()
    ensures { (w : World) (store : ℕ) (steps : List Step) (after : Local) (t n : ℕ) (e : Entry) → IsSteady w
        → Reaches store (local_of w store) steps after → (t ≡ store → ⊥) → entry_at w t n ≡ Some e → e.stage ≡ Held
        → after.names.objects e.object ≡ true }
{}

/// A sound world is steady where no handle is given and each entry is Held or Loose, with no lender.
pub fn closed_worlds_are_steady()
    ensures { (w : World) → IsSound w → AllSettled w → w.lendings ≡ [] → IsSteady w }
{}

/// Opening numbers matter to handles alone: without one, a sound world is sound with any others, and a steady one steady.
pub fn openings_matter_to_handles_alone()
    ensures sound { (w : World) (openings : ℕ → ℕ) → w.lendings ≡ [] → IsSound w → IsSound (with_openings w openings) }
    ensures steady { (w : World) (openings : ℕ → ℕ) → w.lendings ≡ [] → IsSteady w → IsSteady (with_openings w openings) }
{}
