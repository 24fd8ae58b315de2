use std::marker::Model;

/// A shared object: the store that created it, 1 to 8, and the number that this store drew for it.
#[derive(Clone, Copy, Debug, PartialEq, Eq)]
pub struct ObjectId {
    pub creator: u64,
    pub number: u64,
}

impl Model for ObjectId {
    ghost use Rattle.pb_names.specs.Identity.{Identity};

    ghost Value = { Identity };

    ghost view = { λ id. record { creator = id.creator; number = id.number } };

    ghost inverse = { λ id. record { creator = id.creator; number = id.number } };
}
