ghost use Rattle.std.specs.Prelude.{◌≡◌, ◌<◌, ◌^◌};
ghost use Rattle.pb_names.specs.Identity.{IsObject, IsStore};
ghost use Rattle.pb_names.specs.Spelling.{marker_name, marker_prefix, object_name};

use crate::{Name, ObjectId};

/// The name of a shared object: `obj/1/4`.
pub fn object(id: &ObjectId) -> Name
    requires { IsObject id.now }
    ensures { result ≡ object_name id.now }
{
    let mut name = Name::empty();
    name.push(b"obj/");
    name.push_number(id.creator);
    name.push(b"/");
    name.push_number(id.number);
    name
}

/// What the names of the object's markers begin with, and no other name: `obj/1/4.ref.`.
pub fn marker_prefix(id: &ObjectId) -> Name
    requires { IsObject id.now }
    ensures { result ≡ marker_prefix id.now }
{
    let mut name = object(id);
    name.push(b".ref.");
    name
}

/// The name of the object's marker for a store that has it under this number: `obj/1/4.ref.2.7`.
pub fn marker(id: &ObjectId, store: u64, number: u64) -> Name
    requires object { IsObject id.now }
    requires store { IsStore store }
    requires number { number < 2 ^ 62 }
    ensures { result ≡ marker_name id.now store number }
{
    let mut name = marker_prefix(id);
    name.push_number(store);
    name.push(b".");
    name.push_number(number);
    name
}
