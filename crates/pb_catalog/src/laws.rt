//! What holds of all catalogues. Each function does nothing: its contract is a law of the definitions that the contracts of
//! this crate and of those above cite.
ghost use Rattle.std.specs.Prelude.{◌≡◌, ℕ, List};
ghost use Rattle.pb_catalog.specs.Catalog.{CatalogView, EachCatalogue};
ghost use Rattle.pb_catalog.specs.Found.{IsOfAnother};
ghost use Rattle.pb_devices.specs.Contents.{KeptAt};
ghost use Rattle.pb_payloads.specs.Catalogue.{Entries, SaysCatalogue, with_id};

use pb_devices::Disk;

/// A catalogue is kept wherever its file is: a call on any other file leaves it.
pub fn catalogue_kept<D: Disk>(old: &D, new: &D)
    ensures { (catalog : CatalogView) → KeptAt (D.contents old.now) (D.contents new.now) catalog.log.file
        → EachCatalogue catalog (D.contents old.now) → EachCatalogue catalog (D.contents new.now) }
{}

/// Payloads that say a catalogue with this id don't begin with another store's, so an opening has one answer.
pub fn no_catalogue_is_anothers()
    ensures { (id other : ℕ) (payloads : List (List ℕ)) (entries : Entries) → SaysCatalogue payloads (with_id id entries)
        → IsOfAnother id other payloads → ⊥ }
{}
