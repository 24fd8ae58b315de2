//! Counts: the cases of who uses what, beside a plain program over lists of pairs, and at the size of the product.
use pb_counts::{Counts, User};
use std::alloc::AllocError;
use std::test::Fail;

#[test]
fn a_backing_waits_for_its_last_user(rt: HostRuntime) -> Result<(), Fail> {
    let mut counts = Counts::new(rt.alloc());
    counts.retain(User::Version, 4)?;
    counts.retain(User::Job(0), 4)?;
    counts.release(User::Version, 4);
    assert!(rt; counts.obsolete().is_none());
    counts.release(User::Job(0), 4);
    assert_eq!(rt; counts.obsolete(), Some(4));
    if let Some(backing) = counts.obsolete() {
        counts.forget(backing);
    }
    assert!(rt; counts.obsolete().is_none());
    Ok(())
}

#[test]
fn the_least_comes_first(rt: HostRuntime) -> Result<(), Fail> {
    let mut counts = Counts::new(rt.alloc());
    counts.retain(User::Version, 6)?;
    counts.retain(User::Version, 4)?;
    counts.release(User::Version, 6);
    counts.release(User::Version, 4);
    assert_eq!(rt; counts.obsolete(), Some(4));
    if let Some(backing) = counts.obsolete() {
        counts.forget(backing);
    }
    assert_eq!(rt; counts.obsolete(), Some(6));
    Ok(())
}

#[test]
fn a_pair_stands_once(rt: HostRuntime) -> Result<(), Fail> {
    let mut counts = Counts::new(rt.alloc());
    counts.retain(User::Version, 4)?;
    counts.retain(User::Version, 4)?;
    counts.release(User::Version, 4);
    assert_eq!(rt; counts.obsolete(), Some(4));
    Ok(())
}

#[test]
fn two_pins_are_two_users(rt: HostRuntime) -> Result<(), Fail> {
    let mut counts = Counts::new(rt.alloc());
    counts.retain(User::Pin(3), 4)?;
    counts.retain(User::Pin(4), 4)?;
    counts.release(User::Pin(3), 4);
    assert!(rt; counts.obsolete().is_none());
    Ok(())
}

/// The pairs and the known backings as they came.
#[derive(Drop)]
struct Plain {
    pairs: Vec<(User, u64)>,
    known: Vec<u64>,
}

impl Plain {
    fn has(&self, pair: (User, u64)) -> bool {
        self.pairs.iter().any(|it| *it == pair)
    }

    fn retain(&mut self, pair: (User, u64)) -> Result<(), AllocError> {
        if !self.has(pair) {
            self.pairs.push(pair)?;
        }
        if !self.known.iter().any(|it| *it == pair.1) {
            self.known.push(pair.1)?;
        }
        Ok(())
    }

    fn release(&mut self, pair: (User, u64)) {
        self.pairs.retain(|it| *it != pair);
    }

    fn forget(&mut self, backing: u64) {
        self.known.retain(|it| *it != backing);
    }

    fn obsolete(&self) -> Option<u64> {
        let mut least = None;
        for backing in &self.known {
            let is_used = self.pairs.iter().any(|it| it.1 == *backing);
            let is_less = least.is_none_or(|it| *backing < it);
            if !is_used && is_less {
                least = Some(*backing);
            }
        }
        least
    }
}

fn drawn_user(draw: u64) -> User {
    let number = draw / 4 % 3;
    match draw % 4 {
        0 => User::Version,
        1 => User::Pin(number),
        2 => User::Handle(number),
        _ => User::Job(number % 2),
    }
}

/// A pair that stands is retained once more before it is released, which changes nothing.
fn step(counts: &mut Counts, plain: &mut Plain, draw: u64) -> Result<(), AllocError> {
    let user = drawn_user(draw / 4);
    let backing = draw / 1024 % 7;
    match draw % 4 {
        0 => {
            if let Some(backing) = counts.obsolete() {
                counts.forget(backing);
                plain.forget(backing);
            }
        }
        1 => {
            if plain.has((user, backing)) {
                counts.retain(user, backing)?;
                counts.release(user, backing);
                plain.release((user, backing));
            }
        }
        _ => {
            counts.retain(user, backing)?;
            plain.retain((user, backing))?;
        }
    }
    Ok(())
}

#[test]
fn drawn_calls_leave_what_a_plain_program_leaves(rt: HostRuntime) -> Result<(), Fail> {
    let mut seed = 1u64;
    for round in 0..200u64 {
        let mut counts = Counts::new(rt.alloc());
        let mut plain = Plain {
            pairs: Vec::new(rt.alloc()),
            known: Vec::new(rt.alloc()),
        };
        for call in 0..60u64 {
            seed = seed.wrapping_mul(6_364_136_223_846_793_005).wrapping_add(1);
            step(&mut counts, &mut plain, seed >> 33)?;
            assert_eq!(rt;
                counts.obsolete(),
                plain.obsolete(),
                "round {round}, call {call}"
            );
        }
    }
    Ok(())
}

/// One backing with the version, 64 pins and both jobs.
fn retain_all(counts: &mut Counts, backing: u64) -> Result<(), AllocError> {
    counts.retain(User::Version, backing)?;
    for pin in 0..64u64 {
        counts.retain(User::Pin(pin), backing)?;
    }
    counts.retain(User::Job(0), backing)?;
    counts.retain(User::Job(1), backing)
}

#[test]
fn a_store_of_full_size_has_room(rt: HostRuntime) -> Result<(), Fail> {
    let mut counts = Counts::new(rt.alloc());
    for backing in 0..4096u64 {
        retain_all(&mut counts, backing)?;
    }
    assert!(rt; counts.obsolete().is_none());
    Ok(())
}
