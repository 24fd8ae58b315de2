ghost use Rattle.std.specs.Prelude.{◌≡◌};
ghost use Rattle.pb_payloads.specs.Catalogue.{is_of, stands, dropped};
ghost use Rattle.pb_payloads.specs.Places.{object_of, standing_name};

use pb_names::{Name, ObjectId, object};
use std::marker::Model;

/// An object that stands under a number. An external one can't, since no catalogue enters one yet.
#[derive(Debug, Drop)]
pub struct Entered {
    pub number: u64,
    pub object: ObjectId,
}

impl Model for Entered {
    ghost use Rattle.std.specs.Prelude.{ℕ};
    ghost use Rattle.pb_names.specs.Identity.{IsObject};
    ghost use Rattle.pb_payloads.specs.Catalogued.{Standing};
    ghost use Rattle.pb_payloads.specs.Catalogued.Standing.{Shared};

    ghost Value = { ℕ × Standing };

    ghost view = { λ e. (e.number, Shared e.object) };

    ghost invariant = { λ e. IsObject e.object };
}

/// Whether an object stands under the number.
pub(crate) fn stands_under(entries: &[Entered], number: u64) -> bool
    ensures { result ≡ stands number entries.now }
{
    entries.iter().any(|entry| is_of(number, entry))
}

fn is_of(number: u64, entry: &Entered) -> bool
    ensures { result ≡ is_of number entry.now }
{
    entry.number == number
}

pub(crate) fn drop_number(entries: &mut Vec<Entered>, number: u64)
    ensures { entries.new.items ≡ dropped number entries.old.items }
{
    entries.retain(|entry| !is_of(number, entry));
}

/// The name of the object that stands under the number, if one does.
pub(crate) fn object_of(entries: &[Entered], number: u64) -> Option<Name>
    ensures { result ≡ object_of entries.now number }
{
    for entry in entries {
        if is_of(number, entry) {
            return Some(name_of(entry));
        }
    }
    None
}

fn name_of(entry: &Entered) -> Name
    ensures { result ≡ standing_name entry.now.1 }
{
    object(&entry.object)
}
