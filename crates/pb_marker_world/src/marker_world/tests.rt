ghost use Rattle.std.specs.Prelude.{◌<◌};

use super::World;
use crate::events::{Event, Lender, Outcome, WorldError};
use crate::records::{Handle, MarkerId, Place, StoreEntry};
use crate::scans::{entry_of, is_marked, is_marker, is_object, is_used, opening_of};
use crate::stages::Stage;
use crate::stages_of::{is_at, lender_of, object_of};
use pb_keys::List;
use pb_names::ObjectId;
use std::alloc::{AllocError, Global};
use std::process::Abort;
use std::test::Fail;

fn places(alloc: Global, one: usize) -> Result<List<usize>, AllocError> {
    let mut list = Vec::new(alloc);
    list.push(one)?;
    Ok(List::from_vec(list))
}

fn does(
    rt: &impl Abort,
    alloc: Global,
    world: &mut World,
    event: Event,
    wanted: Outcome,
) -> Result<(), WorldError> {
    let outcome = world.step(alloc, &event)?;
    assert_eq!(rt; outcome, wanted, "{event:?}");
    Ok(())
}

fn intends(store: u64, number: u64, lender: Option<Lender>) -> Event {
    Event::Intend {
        store,
        number,
        object: ObjectId {
            creator: 1,
            number: 4,
        },
        lender,
    }
}

// Store 1 makes an object, holds it and lends it; store 2 puts its own marker.
fn lends_to_two(rt: &impl Abort, alloc: Global, world: &mut World) -> Result<(), WorldError> {
    does(rt, alloc, world, intends(1, 4, None), Outcome::Entry(0))?;
    does(rt, alloc, world, Event::PutObject(0), Outcome::Done)?;
    does(rt, alloc, world, Event::PutMarker(0), Outcome::Done)?;
    let entries = places(alloc, 0)?;
    does(
        rt,
        alloc,
        world,
        Event::Lend { store: 1, entries },
        Outcome::Handle(0),
    )?;
    let lender = Some(Lender {
        handle: 0,
        place: 0,
    });
    does(rt, alloc, world, intends(2, 4, lender), Outcome::Entry(1))?;
    does(rt, alloc, world, Event::PutMarker(1), Outcome::Done)
}

#[test]
fn a_lender_that_crashes_and_lets_go_is_found_gone(rt: HostRuntime) -> Result<(), Fail> {
    let alloc = rt.alloc();
    let mut world = World::new(alloc);
    lends_to_two(&rt, alloc, &mut world)?;
    let kept = places(alloc, 0)?;
    does(
        &rt,
        alloc,
        &mut world,
        Event::Crash { store: 1, kept },
        Outcome::Done,
    )?;
    does(
        &rt,
        alloc,
        &mut world,
        Event::DeleteMarker(0),
        Outcome::Done,
    )?;
    does(&rt, alloc, &mut world, Event::Count(0), Outcome::Any(true))?;
    does(&rt, alloc, &mut world, Event::Drop(0), Outcome::Done)?;
    does(
        &rt,
        alloc,
        &mut world,
        Event::Check(1),
        Outcome::Present(false),
    )?;
    does(
        &rt,
        alloc,
        &mut world,
        Event::DeleteMarker(1),
        Outcome::Done,
    )?;
    does(&rt, alloc, &mut world, Event::Count(1), Outcome::Any(false))?;
    does(
        &rt,
        alloc,
        &mut world,
        Event::DeleteObject(1),
        Outcome::Done,
    )?;
    does(&rt, alloc, &mut world, Event::Drop(1), Outcome::Done)?;
    let id = ObjectId {
        creator: 1,
        number: 4,
    };
    assert!(rt; !world.object_present(&id));
    Ok(())
}

#[test]
fn an_open_handle_keeps_the_lender_from_letting_go(rt: HostRuntime) -> Result<(), Fail> {
    let alloc = rt.alloc();
    let mut world = World::new(alloc);
    lends_to_two(&rt, alloc, &mut world)?;
    does(
        &rt,
        alloc,
        &mut world,
        Event::Check(1),
        Outcome::Present(true),
    )?;
    assert_eq!(rt;
        world.step(alloc, &Event::DeleteMarker(0)),
        Err(WorldError::NotNow)
    );
    does(&rt, alloc, &mut world, Event::DropHandle(0), Outcome::Done)?;
    does(
        &rt,
        alloc,
        &mut world,
        Event::DeleteMarker(0),
        Outcome::Done,
    )?;
    does(&rt, alloc, &mut world, Event::Count(0), Outcome::Any(true))?;
    assert!(rt; world.held(1));
    assert_eq!(rt;
        world.step(
            alloc,
            &Event::Spend {
                store: 2,
                number: 4
            }
        ),
        Err(WorldError::NotNow)
    );
    does(
        &rt,
        alloc,
        &mut world,
        Event::Spend {
            store: 2,
            number: 5,
        },
        Outcome::Done,
    )?;
    Ok(())
}

fn is_same(a: &ObjectId, b: &ObjectId) -> bool {
    a.creator == b.creator && a.number == b.number
}

fn is_doomed(places: &[Place], object: &ObjectId) -> bool {
    for place in places {
        if let Some(entry) = &place.entry {
            if is_at(entry, Stage::Counted) && is_same(&object_of(entry), object) {
                return true;
            }
        }
    }
    false
}

fn count_of(places: &[Place], object: &ObjectId) -> u64 {
    let mut count = 0u64;
    for place in places {
        if let Some(entry) = &place.entry {
            if is_same(&object_of(entry), object) {
                count = count.saturating_add(1);
            }
        }
    }
    count
}

fn is_offered(given: &[Handle], object: &ObjectId) -> bool {
    for handle in given {
        for marker in handle.markers.as_slice() {
            if is_same(&marker.object, object) {
                return true;
            }
        }
    }
    false
}

// The first broken rule of an entry, or 0.
fn entry_fault(world: &World, place: &Place, entry: &StoreEntry) -> u8 {
    let object = object_of(entry);
    let own = MarkerId {
        object,
        store: place.store,
        number: place.number,
    };
    let places = world.ledger.places.as_slice();
    let held = is_at(entry, Stage::Held);
    let present = is_object(world.ledger.objects.as_slice(), &object);
    if (held || is_at(entry, Stage::Marked)) && !is_marker(world.ledger.markers.as_slice(), &own) {
        return 1;
    }
    if held && (!present || is_doomed(places, &object)) {
        return 2;
    }
    let spent = world.ledger.spent.as_slice();
    if !is_used(places, spent, place.store, place.number)
        || !is_used(places, spent, object.creator, object.number)
    {
        return 7;
    }
    let begins = is_at(entry, Stage::Intended) || is_at(entry, Stage::Put);
    if begins && object.creator == place.store && object.number == place.number {
        let alone = count_of(places, &object) == 1
            && !is_marked(world.ledger.markers.as_slice(), &object);
        if !alone
            || is_offered(world.ledger.given.as_slice(), &object)
            || present != is_at(entry, Stage::Put)
        {
            return 8;
        }
    }
    match lender_of(entry) {
        Some(lender) => lent_fault(world, &lender),
        None => 0,
    }
}

fn lent_fault(world: &World, marker: &MarkerId) -> u8 {
    let places = world.ledger.places.as_slice();
    let spent = world.ledger.spent.as_slice();
    let object = marker.object;
    if !is_used(places, spent, marker.store, marker.number)
        || !is_used(places, spent, object.creator, object.number)
    {
        return 3;
    }
    if let Some(entry) = entry_of(places, marker.store, marker.number) {
        let on_its_way = is_at(&entry, Stage::Intended)
            || is_at(&entry, Stage::Put)
            || is_at(&entry, Stage::Marked);
        if on_its_way && is_same(&object_of(&entry), &object) {
            return 3;
        }
    }
    let stands = is_marker(world.ledger.markers.as_slice(), marker);
    if stands
        && (!is_object(world.ledger.objects.as_slice(), &object) || is_doomed(places, &object))
    {
        return 3;
    }
    0
}

fn is_shown(places: &[Place], marker: &MarkerId) -> bool {
    match entry_of(places, marker.store, marker.number) {
        Some(entry) => {
            let shows = is_at(&entry, Stage::Marked)
                || is_at(&entry, Stage::Held)
                || is_at(&entry, Stage::Loose);
            shows && is_same(&object_of(&entry), &marker.object)
        }
        None => false,
    }
}

fn is_held_under(places: &[Place], store: u64, marker: &MarkerId) -> bool {
    match entry_of(places, store, marker.number) {
        Some(entry) => {
            is_at(&entry, Stage::Held)
                && marker.store == store
                && is_same(&object_of(&entry), &marker.object)
        }
        None => false,
    }
}

fn is_answered(places: &[Place], object: &ObjectId) -> bool {
    for place in places {
        if let Some(entry) = &place.entry {
            let through = is_at(entry, Stage::Intended) || is_at(entry, Stage::Ended);
            if !through && is_same(&object_of(entry), object) {
                return true;
            }
        }
    }
    false
}

fn handle_fault(world: &World, handle: &Handle) -> u8 {
    let places = world.ledger.places.as_slice();
    let open = handle.is_open
        && handle.opening == opening_of(world.ledger.openings.as_slice(), handle.store);
    for marker in handle.markers.as_slice() {
        let fault = lent_fault(world, marker);
        if fault != 0 {
            return fault;
        }
        if open && !is_held_under(places, handle.store, marker) {
            return 4;
        }
    }
    0
}

fn first_fault(world: &World) -> u8 {
    for place in world.ledger.places.as_slice() {
        if let Some(entry) = &place.entry {
            let fault = entry_fault(world, place, entry);
            if fault != 0 {
                return fault;
            }
        }
    }
    for handle in world.ledger.given.as_slice() {
        let fault = handle_fault(world, handle);
        if fault != 0 {
            return fault;
        }
    }
    for marker in world.ledger.markers.as_slice() {
        if !is_shown(world.ledger.places.as_slice(), marker) {
            return 5;
        }
    }
    for object in world.ledger.objects.as_slice() {
        if !is_answered(world.ledger.places.as_slice(), object) {
            return 6;
        }
    }
    0
}

#[derive(Drop)]
struct Dice {
    state: u64,
}

impl Dice {
    fn below(&mut self, bound: u64) -> u64
        requires { 0 < bound }
        ensures { result < bound }
    {
        self.state = self
            .state
            .wrapping_mul(6364136223846793005)
            .wrapping_add(1442695040888963407);
        (self.state >> 33) % bound
    }
}

fn some_place(dice: &mut Dice) -> usize {
    dice.below(8) as usize
}

fn some_intention(dice: &mut Dice, store: u64) -> Event {
    let number = dice.below(6);
    if dice.below(2) == 0 {
        let object = ObjectId {
            creator: store,
            number,
        };
        return Event::Intend {
            store,
            number,
            object,
            lender: None,
        };
    }
    let object = ObjectId {
        creator: dice.below(3) + 1,
        number: dice.below(6),
    };
    let lender = Some(Lender {
        handle: dice.below(4) as usize,
        place: 0,
    });
    Event::Intend {
        store,
        number,
        object,
        lender,
    }
}

fn some_event(alloc: Global, dice: &mut Dice) -> Result<Event, AllocError> {
    let store = dice.below(3) + 1;
    match dice.below(20) {
        0 => Ok(Event::Spend {
            store,
            number: dice.below(6),
        }),
        1 | 2 | 3 => Ok(some_intention(dice, store)),
        4 | 5 => Ok(Event::PutObject(some_place(dice))),
        6 | 7 | 8 => Ok(Event::PutMarker(some_place(dice))),
        9 => Ok(Event::Check(some_place(dice))),
        10 | 11 => Ok(Event::DeleteMarker(some_place(dice))),
        12 | 13 => Ok(Event::Count(some_place(dice))),
        14 => Ok(Event::DeleteObject(some_place(dice))),
        15 => Ok(Event::Drop(some_place(dice))),
        16 | 17 => Ok(Event::Lend {
            store,
            entries: places(alloc, some_place(dice))?,
        }),
        18 => Ok(Event::DropHandle(dice.below(4) as usize)),
        _ => Ok(Event::Crash {
            store,
            kept: places(alloc, some_place(dice))?,
        }),
    }
}

#[test]
fn random_walks_stay_sound(rt: HostRuntime) -> Result<(), Fail> {
    let alloc = rt.alloc();
    let mut happened = 0u64;
    for seed in 0..200u64 {
        let mut dice = Dice { state: seed };
        let mut world = World::new(alloc);
        for _ in 0..50u64 {
            let event = some_event(alloc, &mut dice)?;
            match world.step(alloc, &event) {
                Ok(_) => happened = happened.saturating_add(1),
                Err(error) => assert_eq!(rt; error, WorldError::NotNow),
            }
            assert_eq!(rt; first_fault(&world), 0, "walk {seed}, after {event:?}");
        }
    }
    assert!(rt; happened > 1000);
    Ok(())
}
