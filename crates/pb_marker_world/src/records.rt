use crate::stages::Stage;
use pb_names::ObjectId;
use std::marker::Model;

/// A marker: its object, and the store and the number that it stands for.
#[derive(Clone, Copy)]
pub struct MarkerId {
    pub object: ObjectId,
    pub store: u64,
    pub number: u64,
}

impl Model for MarkerId {
    ghost use Rattle.pb_marker_world.specs.Machine.{Marker};

    ghost Value = { Marker };

    ghost view = { λ m. record { object = m.object; store = m.store; number = m.number } };

    ghost inverse = { λ m. record { object = m.object; store = m.store; number = m.number } };
}

/// What a store has under a number.
#[derive(Clone, Copy)]
pub struct StoreEntry {
    pub object: ObjectId,
    /// The lender's marker, until it is checked.
    pub lender: Option<MarkerId>,
    pub stage: Stage,
}

impl Model for StoreEntry {
    ghost use Rattle.pb_marker_world.specs.Machine.{Entry};

    ghost Value = { Entry };

    ghost view = { λ e. record { object = e.object; lender = e.lender; stage = e.stage } };

    ghost inverse = { λ e. record { object = e.object; lender = e.lender; stage = e.stage } };
}

/// A handle that a store gave in one of its openings.
#[derive(Drop)]
pub struct Handle {
    pub store: u64,
    pub opening: u64,
    pub markers: Vec<MarkerId>,
    pub is_open: bool,
}

impl Model for Handle {
    ghost use Rattle.pb_marker_world.specs.Machine.{Lending};

    ghost Value = { Lending };

    ghost view = { λ h. record { store = h.store; opening = h.opening; markers = h.markers.items; is_open = h.is_open } };
}

/// The place of an entry: whose it is, and the entry until it is dropped.
#[derive(Clone, Copy)]
pub struct Place {
    pub store: u64,
    pub number: u64,
    pub entry: Option<StoreEntry>,
}

/// A number that a store used without an entry.
#[derive(Clone, Copy)]
pub struct Spent {
    pub store: u64,
    pub number: u64,
}

/// How often a store was opened again.
#[derive(Clone, Copy)]
pub struct Opening {
    pub store: u64,
    pub opening: u64,
}
