ghost use Rattle.std.specs.Prelude.{◌≡◌, ℕ, true, false, Some, None, IfErr};
ghost use Rattle.pb_marker_world.specs.Machine.{Entry, empty_world};
ghost use Rattle.pb_marker_world.specs.Steps.{is_held_entry};
ghost use Rattle.pb_marker_world.specs.Sound.{IsSound, IsSteady};
ghost use Rattle.pb_marker_world.specs.Book.{world_of};
ghost use Rattle.pb_marker_world.specs.Events.{placed_in, takes_memory, Meets};
ghost use Rattle.pb_marker_world.specs.declared.events.WorldError.TheVariants.{NotNow};

use crate::events::{Event, Outcome, WorldError};
use crate::ledger::Ledger;
use pb_names::ObjectId;
use std::alloc::Global;
use std::marker::Model;

/// Stores that share one bucket, with what each has noted, what is in the bucket, and which handles were given
/// (docs/MODEL.md, "Marker world"). The world is steady at any time, and so sound.
#[derive(Drop)]
pub struct World {
    ledger: Ledger,
}

impl Model for World {
    ghost use Rattle.pb_marker_world.specs.Book.{Book, world_of};
    ghost use Rattle.pb_marker_world.specs.Sound.{IsSteady};

    ghost Value = { Book };

    ghost view = { λ w. w.ledger };

    ghost invariant = { λ w. IsSteady (world_of w.ledger) };
}

impl World {
    /// A world in which nothing has happened yet.
    pub fn new(alloc: Global) -> World
        ensures world { world_of result ≡ empty_world }
        ensures steady { IsSteady (world_of result) }
        ensures places { (at : ℕ) → placed_in result.places at ≡ None }
    {
        World {
            ledger: Ledger::new(alloc),
        }
    }

    /// Makes the event happen. NotNow exactly where its condition doesn't hold, or where a crash finds the store's
    /// opening number at 2^64 - 1. NoMemory only at an event that notes something more. After an error the world is as before.
    pub fn step(&mut self, alloc: Global, event: &Event) -> Result<Outcome, WorldError>
        ensures happens { Meets self.old event.now result self.new }
        ensures memory { takes_memory event.now ≡ false → IfErr result (λ error. error ≡ NotNow) }
        ensures sound { IsSound (world_of self.new) }
        ensures steady { IsSteady (world_of self.new) }
    {
        self.ledger.happen(alloc, event)
    }

    /// Whether the place holds an entry that is Held. Its object is in the bucket then.
    pub fn held(&self, entry: usize) -> bool
        ensures held { result ≡ is_held_entry (placed_in self.now.places entry) }
        ensures kept { (e : Entry) → placed_in self.now.places entry ≡ Some e → result ≡ true
            → (world_of self.now).names.objects e.object ≡ true }
    {
        self.ledger.held(entry)
    }

    /// Whether the object is in the bucket.
    pub fn object_present(&self, id: &ObjectId) -> bool
        ensures { result ≡ (world_of self.now).names.objects id.now }
    {
        self.ledger.object_present(id)
    }
}

#[cfg(test)]
mod tests;
