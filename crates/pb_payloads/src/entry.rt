use pb_names::{Name, ObjectId};

/// The object behind a number of a catalogue.
#[derive(Clone, Copy, Debug, PartialEq, Eq)]
pub enum Entry {
    Shared(ObjectId),
    /// An external object, by its whole name: `x/e1`. The payload has it without `x/`.
    External(Name),
}

/// What a payload of a catalogue says.
#[derive(Clone, Copy, Debug, PartialEq, Eq)]
pub enum CataloguePayload {
    /// The id of the store. It comes first and nowhere else.
    Id(u64),
    /// An object is entered under a number.
    Entered { number: u64, entry: Entry },
    /// The entry of this number is dropped.
    Dropped(u64),
}
