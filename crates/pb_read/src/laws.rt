//! What follows of a look-up's clauses. The function does nothing: its contract is a law of the definitions.
ghost use Rattle.std.specs.Prelude.{ℕ, List};
ghost use Rattle.pb_devices.specs.Contents.{Folder};
ghost use Rattle.pb_devices.specs.Objects.{Objects};
ghost use Rattle.pb_folder.specs.Held.{HoldsVersion};
ghost use Rattle.pb_payloads.specs.Catalogue.{Entries};
ghost use Rattle.pb_read.specs.Damage.{IsDamaged, IsMissing};
ghost use Rattle.pb_read.specs.Tables.{HasTable};
ghost use Rattle.pb_rows.specs.Layer.{KeyLayer};
ghost use Rattle.pb_version.specs.Version.{VersionView, all_tables};

/// Where all that a version stores is held, what a look-up tells of a damaged table or of a missing object is of no table.
pub fn what_is_held_is_not_amiss()
    ensures damaged { (folder : Folder) (objects : Objects) (entries : Entries) (version : VersionView) (layers : ℕ → KeyLayer) (key name : List ℕ)
        → HoldsVersion folder objects entries version layers → HasTable (IsDamaged folder objects entries name) key (all_tables version) → ⊥ }
    ensures missing { (folder : Folder) (objects : Objects) (entries : Entries) (version : VersionView) (layers : ℕ → KeyLayer) (key name : List ℕ)
        → HoldsVersion folder objects entries version layers → HasTable (IsMissing objects entries name) key (all_tables version) → ⊥ }
{}
