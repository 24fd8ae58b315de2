//! What holds of all folders that are opened again. Each function does nothing: its contract is a law of the definitions that
//! the contracts of the crates above cite.
ghost use Rattle.std.specs.Prelude.{◌≡◌, ℕ, true, List};
ghost use Rattle.pb_devices.specs.Contents.{KeptAt};
ghost use Rattle.pb_devices.specs.DiskCalls.{AllSettled};
ghost use Rattle.pb_recover.specs.Reopened.{Reopens};
ghost use Rattle.pb_recover.specs.Standing.{SameStanding, SameWords};

use pb_devices::Disk;

pub mod files;
pub mod steps;

/// An opening after an opening does no more to a folder than one may do.
pub fn reopenings_chain<D: Disk>(old: &D, mid: &D, new: &D)
    ensures { (id : ℕ) → Reopens id (D.contents old.now) (D.contents mid.now) → Reopens id (D.contents mid.now) (D.contents new.now)
        → Reopens id (D.contents old.now) (D.contents new.now) }
{}

/// What an opening leaves stands for what the folder stood for, whatever it says and beside any bucket.
pub fn reopened_stands<D: Disk>(old: &D, new: &D)
    ensures { (id : ℕ) → Reopens id (D.contents old.now) (D.contents new.now) → SameStanding id (D.contents old.now) (D.contents new.now) }
{}

/// What an opening leaves shows the words that the folder showed, or those of a new store where it was new.
pub fn reopened_words<D: Disk>(old: &D, new: &D)
    ensures { (id : ℕ) → Reopens id (D.contents old.now) (D.contents new.now) → SameWords id (D.contents old.now) (D.contents new.now) }
{}

/// A folder of which each name is kept, and one after a barrier alone, is as an opening may leave it.
pub fn nothing_reopened<D: Disk>(old: &D, new: &D)
    ensures kept { (id : ℕ) → ((name : List ℕ) → KeptAt (D.contents old.now) (D.contents new.now) name)
        → Reopens id (D.contents old.now) (D.contents new.now) }
    ensures barred { D.told ≡ true → (id : ℕ) → AllSettled (D.contents old.now) (D.contents new.now)
        → Reopens id (D.contents old.now) (D.contents new.now) }
{}
