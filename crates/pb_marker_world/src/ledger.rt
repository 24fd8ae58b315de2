ghost use Rattle.std.specs.Prelude.{◌≡◌, ℕ};
ghost use Rattle.pb_marker_world.specs.Machine.{empty_world};
ghost use Rattle.pb_marker_world.specs.Steps.{is_held_entry};
ghost use Rattle.pb_marker_world.specs.Book.{world_of};
ghost use Rattle.pb_marker_world.specs.Events.{placed_in, Meets};

use crate::edits::{
    close, forget_marker, forget_object, loosen, numbers_of, own_markers, reopen, write,
};
use crate::events::{Event, Lender, Outcome, WorldError};
use crate::records::{Handle, MarkerId, Opening, Place, Spent};
use crate::scans::{
    are_held, are_own, find, has_lender_marker, is_entry_held, is_marked, is_object, is_protected,
    is_used, lent, opening_of,
};
use crate::stages::Stage;
use crate::stages_of::{
    at_stage, checked_stage, counted_stage, has_lender, intended, is_at, is_made_by, is_marker_of,
    is_settled, lender_of, marked_stage, object_of, own_marker, settled,
};
use pb_names::ObjectId;
use std::alloc::Global;
use std::marker::Model;

/// The lists that stand for a world.
#[derive(Drop)]
pub struct Ledger {
    pub places: Vec<Place>,
    pub spent: Vec<Spent>,
    pub openings: Vec<Opening>,
    pub objects: Vec<ObjectId>,
    pub markers: Vec<MarkerId>,
    pub given: Vec<Handle>,
}

impl Model for Ledger {
    ghost use Rattle.pb_marker_world.specs.Book.{Book};

    ghost Value = { Book };

    ghost view = { λ w. record {
      places = w.places.items;
      spent = w.spent.items;
      openings = w.openings.items;
      objects = w.objects.items;
      markers = w.markers.items;
      given = w.given.items;
    } };
}

impl Ledger {
    /// Nothing has happened yet.
    pub fn new(alloc: Global) -> Ledger
        ensures world { world_of result ≡ empty_world }
        ensures places { (at : ℕ) → placed_in result.places at ≡ None }
    {
        Ledger {
            places: Vec::new(alloc),
            spent: Vec::new(alloc),
            openings: Vec::new(alloc),
            objects: Vec::new(alloc),
            markers: Vec::new(alloc),
            given: Vec::new(alloc),
        }
    }

    /// Whether the place holds an entry that is Held.
    pub fn held(&self, entry: usize) -> bool
        ensures { result ≡ is_held_entry (placed_in self.now.places entry) }
    {
        is_entry_held(self.places.as_slice(), entry)
    }

    /// Whether the object is present.
    pub fn object_present(&self, id: &ObjectId) -> bool
        ensures { result ≡ (world_of self.now).names.objects id.now }
    {
        is_object(self.objects.as_slice(), id)
    }

    /// Makes the event happen, or changes nothing.
    pub fn happen(&mut self, alloc: Global, event: &Event) -> Result<Outcome, WorldError>
        ensures { Meets self.old event.now result self.new }
    {
        match event {
            Event::Spend { store, number } => self.spend(*store, *number),
            Event::Intend {
                store,
                number,
                object,
                lender,
            } => match lender {
                None => self.intend_own(*store, *number, object),
                Some(lender) => self.intend_lent(*store, *number, object, lender),
            },
            Event::PutObject(at) => self.put_object(*at),
            Event::PutMarker(at) => self.put_marker(*at),
            Event::Check(at) => self.check(*at),
            Event::DeleteMarker(at) => self.delete_marker(*at),
            Event::Count(at) => self.count(*at),
            Event::DeleteObject(at) => self.delete_object(*at),
            Event::Drop(at) => self.drop_entry(*at),
            Event::Lend { store, entries } => self.lend(alloc, *store, entries.as_slice()),
            Event::DropHandle(handle) => self.drop_handle(*handle),
            Event::Crash { store, kept } => self.crash(alloc, *store, kept.as_slice()),
        }
    }

    fn spend(&mut self, store: u64, number: u64) -> Result<Outcome, WorldError>
        ensures { Meets self.old (Event.Spend store number) result self.new }
    {
        if is_used(self.places.as_slice(), self.spent.as_slice(), store, number) {
            return Err(WorldError::NotNow);
        }
        self.spent.push(Spent { store, number })?;
        Ok(Outcome::Done)
    }

    fn intend_own(
        &mut self,
        store: u64,
        number: u64,
        object: &ObjectId,
    ) -> Result<Outcome, WorldError>
        ensures { Meets self.old (Event.Intend store number object.now None) result self.new }
    {
        if is_used(self.places.as_slice(), self.spent.as_slice(), store, number) {
            return Err(WorldError::NotNow);
        }
        if !is_made_by(object, store, number) {
            return Err(WorldError::NotNow);
        }
        let place = self.places.len();
        self.places.push(Place {
            store,
            number,
            entry: Some(intended(object, None)),
        })?;
        Ok(Outcome::Entry(place))
    }

    fn intend_lent(
        &mut self,
        store: u64,
        number: u64,
        object: &ObjectId,
        lender: &Lender,
    ) -> Result<Outcome, WorldError>
        ensures { Meets self.old (Event.Intend store number object.now (Some lender.now)) result self.new }
    {
        if is_used(self.places.as_slice(), self.spent.as_slice(), store, number) {
            return Err(WorldError::NotNow);
        }
        let marker = match lent(self.given.as_slice(), lender) {
            Some(marker) => marker,
            None => return Err(WorldError::NotNow),
        };
        if !is_marker_of(&marker, object) {
            return Err(WorldError::NotNow);
        }
        let place = self.places.len();
        self.places.push(Place {
            store,
            number,
            entry: Some(intended(object, Some(marker))),
        })?;
        Ok(Outcome::Entry(place))
    }

    fn put_object(&mut self, at: usize) -> Result<Outcome, WorldError>
        ensures { Meets self.old (Event.PutObject at) result self.new }
    {
        let found = match find(self.places.as_slice(), at) {
            Some(found) => found,
            None => return Err(WorldError::NotNow),
        };
        if !is_at(&found.entry, Stage::Intended) {
            return Err(WorldError::NotNow);
        }
        if has_lender(&found.entry) {
            return Err(WorldError::NotNow);
        }
        self.objects.push(object_of(&found.entry))?;
        let next = Some(at_stage(&found.entry, Stage::Put));
        write(&mut self.places, found.store, found.number, &next);
        Ok(Outcome::Done)
    }

    fn put_marker(&mut self, at: usize) -> Result<Outcome, WorldError>
        ensures { Meets self.old (Event.PutMarker at) result self.new }
    {
        let found = match find(self.places.as_slice(), at) {
            Some(found) => found,
            None => return Err(WorldError::NotNow),
        };
        let stage = match marked_stage(&found.entry) {
            Some(stage) => stage,
            None => return Err(WorldError::NotNow),
        };
        self.markers.push(own_marker(&found))?;
        let next = Some(at_stage(&found.entry, stage));
        write(&mut self.places, found.store, found.number, &next);
        Ok(Outcome::Done)
    }

    fn check(&mut self, at: usize) -> Result<Outcome, WorldError>
        ensures { Meets self.old (Event.Check at) result self.new }
    {
        let found = match find(self.places.as_slice(), at) {
            Some(found) => found,
            None => return Err(WorldError::NotNow),
        };
        if !is_at(&found.entry, Stage::Marked) {
            return Err(WorldError::NotNow);
        }
        let present = has_lender_marker(self.markers.as_slice(), &lender_of(&found.entry));
        let next = Some(settled(&found.entry, checked_stage(present)));
        write(&mut self.places, found.store, found.number, &next);
        Ok(Outcome::Present(present))
    }

    fn delete_marker(&mut self, at: usize) -> Result<Outcome, WorldError>
        ensures { Meets self.old (Event.DeleteMarker at) result self.new }
    {
        let found = match find(self.places.as_slice(), at) {
            Some(found) => found,
            None => return Err(WorldError::NotNow),
        };
        if !is_settled(&found.entry) {
            return Err(WorldError::NotNow);
        }
        let own = own_marker(&found);
        let opening = opening_of(self.openings.as_slice(), found.store);
        if is_protected(self.given.as_slice(), found.store, opening, &own) {
            return Err(WorldError::NotNow);
        }
        forget_marker(&mut self.markers, &own);
        let next = Some(at_stage(&found.entry, Stage::Bare));
        write(&mut self.places, found.store, found.number, &next);
        Ok(Outcome::Done)
    }

    fn count(&mut self, at: usize) -> Result<Outcome, WorldError>
        ensures { Meets self.old (Event.Count at) result self.new }
    {
        let found = match find(self.places.as_slice(), at) {
            Some(found) => found,
            None => return Err(WorldError::NotNow),
        };
        if !is_at(&found.entry, Stage::Bare) {
            return Err(WorldError::NotNow);
        }
        let any = is_marked(self.markers.as_slice(), &object_of(&found.entry));
        let next = Some(at_stage(&found.entry, counted_stage(any)));
        write(&mut self.places, found.store, found.number, &next);
        Ok(Outcome::Any(any))
    }

    fn delete_object(&mut self, at: usize) -> Result<Outcome, WorldError>
        ensures { Meets self.old (Event.DeleteObject at) result self.new }
    {
        let found = match find(self.places.as_slice(), at) {
            Some(found) => found,
            None => return Err(WorldError::NotNow),
        };
        if !is_at(&found.entry, Stage::Counted) {
            return Err(WorldError::NotNow);
        }
        forget_object(&mut self.objects, &object_of(&found.entry));
        let next = Some(at_stage(&found.entry, Stage::Ended));
        write(&mut self.places, found.store, found.number, &next);
        Ok(Outcome::Done)
    }

    fn drop_entry(&mut self, at: usize) -> Result<Outcome, WorldError>
        ensures { Meets self.old (Event.Drop at) result self.new }
    {
        let found = match find(self.places.as_slice(), at) {
            Some(found) => found,
            None => return Err(WorldError::NotNow),
        };
        if !is_at(&found.entry, Stage::Ended) {
            return Err(WorldError::NotNow);
        }
        write(&mut self.places, found.store, found.number, &None);
        Ok(Outcome::Done)
    }

    fn lend(&mut self, alloc: Global, store: u64, at: &[usize]) -> Result<Outcome, WorldError>
        ensures { Meets self.old (Event.Lend store at.now) result self.new }
    {
        if !are_own(self.places.as_slice(), store, at) {
            return Err(WorldError::NotNow);
        }
        let numbers = numbers_of(alloc, self.places.as_slice(), at)?;
        if !are_held(self.places.as_slice(), store, numbers.as_slice()) {
            return Err(WorldError::NotNow);
        }
        let markers = own_markers(alloc, self.places.as_slice(), store, numbers.as_slice())?;
        let opening = opening_of(self.openings.as_slice(), store);
        let handle = self.given.len();
        self.given.push(Handle {
            store,
            opening,
            markers,
            is_open: true,
        })?;
        Ok(Outcome::Handle(handle))
    }

    fn drop_handle(&mut self, handle: usize) -> Result<Outcome, WorldError>
        ensures { Meets self.old (Event.DropHandle handle) result self.new }
    {
        if !close(&mut self.given, handle) {
            return Err(WorldError::NotNow);
        }
        Ok(Outcome::Done)
    }

    fn crash(&mut self, alloc: Global, store: u64, at: &[usize]) -> Result<Outcome, WorldError>
        ensures { Meets self.old (Event.Crash store at.now) result self.new }
    {
        if !are_own(self.places.as_slice(), store, at) {
            return Err(WorldError::NotNow);
        }
        let opening = opening_of(self.openings.as_slice(), store);
        if opening == u64::MAX {
            return Err(WorldError::NotNow);
        }
        let kept = numbers_of(alloc, self.places.as_slice(), at)?;
        if !are_held(self.places.as_slice(), store, kept.as_slice()) {
            return Err(WorldError::NotNow);
        }
        reopen(&mut self.openings, store, opening + 1)?;
        loosen(&mut self.places, store, kept.as_slice());
        Ok(Outcome::Done)
    }
}
