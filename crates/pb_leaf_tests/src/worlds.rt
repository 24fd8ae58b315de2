// A world beside a bucket: each event makes its call, and both say the same of each object and of each answer.
ghost use Rattle.std.specs.Prelude.{◌<◌};

use pb_devices::Bucket;
use pb_keys::List;
use pb_marker_world::{Event, Lender, Outcome, World, WorldError, laws};
use pb_mem::MemBucket;
use pb_names::{Name, ObjectId, marker, marker_prefix, object};
use std::alloc::{AllocError, Global};
use std::process::Abort;
use std::test::Fail;

const NUMBERS: u64 = 4_611_686_018_427_387_904;

/// An entry: its object, its store and number, and the entry whose marker it waits for.
#[derive(Clone, Copy)]
struct Noted {
    object: ObjectId,
    store: u64,
    number: u64,
    lender: Option<usize>,
}

fn object_of(noted: &Noted) -> Option<Name> {
    let id = noted.object;
    if id.creator < 1 || id.creator > 8 || id.number >= NUMBERS {
        return None;
    }
    Some(object(&id))
}

fn prefix_of(noted: &Noted) -> Option<Name> {
    let id = noted.object;
    if id.creator < 1 || id.creator > 8 || id.number >= NUMBERS {
        return None;
    }
    Some(marker_prefix(&id))
}

fn marker_of(noted: &Noted) -> Option<Name> {
    let id = noted.object;
    if id.creator < 1 || id.creator > 8 || id.number >= NUMBERS {
        return None;
    }
    if noted.store < 1 || noted.store > 8 || noted.number >= NUMBERS {
        return None;
    }
    Some(marker(&id, noted.store, noted.number))
}

#[derive(Drop)]
struct Beside {
    world: World,
    bucket: MemBucket,
    entries: Vec<Noted>,
    lent: Vec<usize>,
}

impl Beside {
    fn entry(&self, place: usize) -> Result<Noted, &'static str> {
        self.entries
            .as_slice()
            .get(place)
            .copied()
            .ok_or("no such entry")
    }

    fn has(&mut self, name: Option<Name>) -> Result<bool, Fail> {
        let name = name.ok_or("off the range")?;
        Ok(self.bucket.size(name.as_str())?.is_some())
    }

    fn put(&mut self, name: Option<Name>) -> Result<(), Fail> {
        let name = name.ok_or("off the range")?;
        self.bucket.put(name.as_str(), b"")?;
        Ok(())
    }

    fn delete(&mut self, name: Option<Name>) -> Result<(), Fail> {
        let name = name.ok_or("off the range")?;
        self.bucket.delete(name.as_str())?;
        Ok(())
    }

    fn counts_some(&mut self, noted: &Noted) -> Result<bool, Fail> {
        let name = prefix_of(noted).ok_or("off the range")?;
        Ok(self.bucket.count(name.as_str())? != 0)
    }

    // Whether the marker that the entry waits for is in the bucket.
    fn lender_is_there(&mut self, place: usize) -> Result<bool, Fail> {
        let lender = self.entry(place)?.lender.ok_or("no lender")?;
        let lender = self.entry(lender)?;
        self.has(marker_of(&lender))
    }

    // An entry is noted, and a handle by the entry that it lends.
    fn note(&mut self, event: &Event) -> Result<(), Fail> {
        match event {
            Event::Intend {
                store,
                number,
                object,
                lender,
            } => {
                let lender = match lender {
                    Some(lender) => self.lent.as_slice().get(lender.handle).copied(),
                    None => None,
                };
                self.entries.push(Noted {
                    object: *object,
                    store: *store,
                    number: *number,
                    lender,
                })?;
            }
            Event::Lend { store: _, entries } => {
                let place = entries.get(0).copied().ok_or("nothing is lent")?;
                self.lent.push(place)?;
            }
            _ => {}
        }
        Ok(())
    }

    // The call that the event makes.
    fn call(&mut self, event: &Event) -> Result<(), Fail> {
        match event {
            Event::PutObject(at) => {
                let noted = self.entry(*at)?;
                self.put(object_of(&noted))
            }
            Event::PutMarker(at) => {
                let noted = self.entry(*at)?;
                self.put(marker_of(&noted))
            }
            Event::DeleteMarker(at) => {
                let noted = self.entry(*at)?;
                self.delete(marker_of(&noted))
            }
            Event::DeleteObject(at) => {
                let noted = self.entry(*at)?;
                self.delete(object_of(&noted))
            }
            _ => self.note(event),
        }
    }

    // Whether the bucket answers as the world does.
    fn agrees(&mut self, event: &Event, outcome: Outcome) -> Result<bool, Fail> {
        match event {
            Event::Check(at) => {
                let there = self.lender_is_there(*at)?;
                Ok(outcome == Outcome::Present(there))
            }
            Event::Count(at) => {
                let noted = self.entry(*at)?;
                let some = self.counts_some(&noted)?;
                Ok(outcome == Outcome::Any(some))
            }
            _ => Ok(true),
        }
    }

    // Whether the world and the bucket say the same of the object.
    fn same_object(&mut self, creator: u64, number: u64) -> Result<bool, Fail> {
        let object = ObjectId { creator, number };
        let noted = Noted {
            object,
            store: 1,
            number: 0,
            lender: None,
        };
        let there = self.has(object_of(&noted))?;
        Ok(self.world.object_present(&object) == there)
    }

    // Whether the bucket has the object and the marker of the entry, if the world holds it.
    fn held_is_there(&mut self, place: usize) -> Result<bool, Fail> {
        if !self.world.held(place) {
            return Ok(true);
        }
        let noted = self.entry(place)?;
        let object = self.has(object_of(&noted))?;
        let marker = self.has(marker_of(&noted))?;
        Ok(object && marker)
    }
}

#[derive(Drop)]
struct Dice {
    state: u64,
}

impl Dice {
    fn below(&mut self, bound: u64) -> u64
        requires { 0 < bound }
        ensures { result < bound }
    {
        self.state = self
            .state
            .wrapping_mul(6364136223846793005)
            .wrapping_add(1442695040888963407);
        (self.state >> 33) % bound
    }
}

fn place(dice: &mut Dice) -> usize {
    dice.below(8) as usize
}

fn one(alloc: Global, dice: &mut Dice) -> Result<List<usize>, AllocError> {
    let mut list = Vec::new(alloc);
    list.push(place(dice))?;
    Ok(List::from_vec(list))
}

fn intention(dice: &mut Dice, store: u64) -> Event {
    let number = dice.below(6);
    if dice.below(2) == 0 {
        let object = ObjectId {
            creator: store,
            number,
        };
        return Event::Intend {
            store,
            number,
            object,
            lender: None,
        };
    }
    let object = ObjectId {
        creator: dice.below(3) + 1,
        number: dice.below(6),
    };
    let lender = Some(Lender {
        handle: dice.below(4) as usize,
        place: 0,
    });
    Event::Intend {
        store,
        number,
        object,
        lender,
    }
}

fn some_event(alloc: Global, dice: &mut Dice) -> Result<Event, AllocError> {
    let store = dice.below(3) + 1;
    match dice.below(20) {
        0 => Ok(Event::Spend {
            store,
            number: dice.below(6),
        }),
        1 | 2 | 3 => Ok(intention(dice, store)),
        4 | 5 => Ok(Event::PutObject(place(dice))),
        6 | 7 | 8 => Ok(Event::PutMarker(place(dice))),
        9 => Ok(Event::Check(place(dice))),
        10 | 11 => Ok(Event::DeleteMarker(place(dice))),
        12 | 13 => Ok(Event::Count(place(dice))),
        14 => Ok(Event::DeleteObject(place(dice))),
        15 => Ok(Event::Drop(place(dice))),
        16 | 17 => Ok(Event::Lend {
            store,
            entries: one(alloc, dice)?,
        }),
        18 => Ok(Event::DropHandle(dice.below(4) as usize)),
        _ => Ok(Event::Crash {
            store,
            kept: one(alloc, dice)?,
        }),
    }
}

// One event, and what it calls for. Answers whether it happened.
fn goes(rt: &impl Abort, alloc: Global, beside: &mut Beside, event: &Event) -> Result<bool, Fail> {
    match beside.world.step(alloc, event) {
        Ok(outcome) => {
            let agrees = beside.agrees(event, outcome)?;
            assert!(rt; agrees, "{event:?}");
            beside.call(event)?;
            Ok(true)
        }
        Err(error) => {
            assert_eq!(rt; error, WorldError::NotNow);
            Ok(false)
        }
    }
}

fn objects_agree(rt: &impl Abort, beside: &mut Beside) -> Result<(), Fail> {
    for creator in 1..4u64 {
        for number in 0..6u64 {
            let same = beside.same_object(creator, number)?;
            assert!(rt; same, "object {number} of store {creator}");
        }
    }
    Ok(())
}

fn held_are_there(rt: &impl Abort, beside: &mut Beside) -> Result<(), Fail> {
    for place in 0..9usize {
        let there = beside.held_is_there(place)?;
        assert!(rt; there, "place {place}");
    }
    Ok(())
}

fn walk(rt: &impl Abort, alloc: Global, seed: u64) -> Result<u64, Fail> {
    let mut dice = Dice { state: seed };
    let mut beside = Beside {
        world: World::new(alloc),
        bucket: MemBucket::new(alloc, Vec::new(alloc)),
        entries: Vec::new(alloc),
        lent: Vec::new(alloc),
    };
    let mut happened = 0u64;
    for _ in 0..50u64 {
        let event = some_event(alloc, &mut dice)?;
        if goes(rt, alloc, &mut beside, &event)? {
            happened = happened.saturating_add(1);
        }
        objects_agree(rt, &mut beside)?;
        held_are_there(rt, &mut beside)?;
    }
    Ok(happened)
}

#[test]
fn worlds_and_buckets_agree(rt: HostRuntime) -> Result<(), Fail> {
    let alloc = rt.alloc();
    let mut happened = 0u64;
    for seed in 0..200u64 {
        happened = happened.saturating_add(walk(&rt, alloc, seed)?);
    }
    assert!(rt; happened > 1000);
    Ok(())
}

#[test]
fn the_laws_of_worlds_can_be_called(_rt: HostRuntime) {
    laws::a_call_is_its_step_on_names();
    laws::counting_tells_markers();
    laws::one_marker();
    laws::a_step_touches_one_name();
    laws::steps_join();
    laws::spends_reach();
    laws::names_are_put_once();
    laws::what_is_lent_is_never_put();
    laws::a_lender_protects();
    laws::held_objects_stay();
    laws::closed_worlds_are_steady();
    laws::openings_matter_to_handles_alone();
}
