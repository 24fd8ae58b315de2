//! Drawn calls of a bucket in memory and of a plain one: a list of names and bytes in the order of the names' bytes.
use crate::bucket::MemBucket;
use crate::draws::Draws;
use pb_devices::{Bucket, Failed, ListError};
use std::alloc::{AllocError, Global};
use std::process::Abort;
use std::test::Fail;

#[derive(Drop)]
struct PlainBucket {
    objects: Vec<Option<Vec<u8>>>,
    fail: Vec<u64>,
    calls: u64,
    faults: u64,
}

const NAMES: usize = 4;

fn name_of(at: usize) -> &'static str {
    match at {
        0 => "a",
        1 => "ab",
        2 => "abc",
        _ => "b",
    }
}

/// Whether the name of a place begins with that of another.
fn begins(at: usize, with: usize) -> bool {
    at == with || with < at && at < 3
}

impl PlainBucket {
    fn begin(&mut self) -> Result<(), Failed> {
        self.calls = self.calls.wrapping_add(1);
        if self.fail.contains(&self.calls) {
            self.faults = self.faults.wrapping_add(1);
            return Err(Failed);
        }
        Ok(())
    }

    fn change(&mut self, at: usize, object: Option<Vec<u8>>) -> Result<(), Failed> {
        let begun = self.begin();
        if begun.is_ok() || self.calls % 2 == 0 {
            if at < self.objects.len() {
                self.objects[at] = object;
            }
        }
        begun
    }

    fn object(&self, at: usize) -> Option<&Vec<u8>> {
        match self.objects.get(at) {
            None => None,
            Some(object) => object.as_ref(),
        }
    }

    fn places(&self, alloc: Global, with: usize) -> Result<Vec<usize>, AllocError> {
        let mut places = Vec::new(alloc);
        for at in 0..NAMES {
            if begins(at, with) && self.object(at).is_some() {
                places.push(at)?;
            }
        }
        Ok(places)
    }
}

#[derive(Drop)]
struct Pair {
    bucket: MemBucket,
    plain: PlainBucket,
    draws: Draws,
    alloc: Global,
}

fn put(rt: &impl Abort, pair: &mut Pair, at: usize) -> Result<(), Fail> {
    let count = pair.draws.below(6);
    let bytes = pair.draws.bytes(pair.alloc, count)?;
    let done = pair.bucket.put(name_of(at), &bytes);
    assert!(rt; pair.plain.change(at, Some(bytes)) == done, "a put");
    Ok(())
}

fn delete(rt: &impl Abort, pair: &mut Pair, at: usize) -> Result<(), Fail> {
    let done = pair.bucket.delete(name_of(at));
    assert!(rt; pair.plain.change(at, None) == done, "a delete");
    Ok(())
}

fn size(rt: &impl Abort, pair: &mut Pair, at: usize) -> Result<(), Fail> {
    let size = pair.bucket.size(name_of(at));
    match pair.plain.begin() {
        Err(Failed) => assert!(rt; size.is_err(), "a size"),
        Ok(()) => match pair.plain.object(at) {
            None => assert!(rt; size == Ok(None), "no object"),
            Some(bytes) => assert!(rt; size == Ok(Some(bytes.len() as u64)), "a size"),
        },
    }
    Ok(())
}

fn read(rt: &impl Abort, pair: &mut Pair, at: usize) -> Result<(), Fail> {
    let mut piece = [0u8; 8];
    let found = pair.bucket.read_at(name_of(at), 0, &mut piece);
    match pair.plain.begin() {
        Err(Failed) => assert!(rt; found.is_err(), "a read"),
        Ok(()) => match pair.plain.object(at) {
            None => assert!(rt; found == Ok(None), "no object"),
            Some(bytes) => {
                assert!(rt; found == Ok(Some(bytes.len())), "how many");
                assert!(rt; bytes.len() <= 8, "a piece");
                assert_eq!(rt; &piece[..bytes.len()], bytes.as_slice());
            }
        },
    }
    Ok(())
}

fn count(rt: &impl Abort, pair: &mut Pair, with: usize) -> Result<(), Fail> {
    let count = pair.bucket.count(name_of(with));
    match pair.plain.begin() {
        Err(Failed) => assert!(rt; count.is_err(), "a count"),
        Ok(()) => {
            let places = pair.plain.places(pair.alloc, with)?;
            assert!(rt; count == Ok(places.len() as u64), "a count");
        }
    }
    Ok(())
}

fn same_names(rt: &impl Abort, names: &[String], places: &[usize]) {
    assert_eq!(rt; names.len(), places.len(), "names");
    for (i, name) in names.iter().enumerate() {
        assert_eq!(rt; name.as_str(), name_of(places[i]));
    }
}

fn list(rt: &impl Abort, pair: &mut Pair, with: usize) -> Result<(), Fail> {
    let begun = pair.plain.begin();
    let places = pair.plain.places(pair.alloc, with)?;
    match pair.bucket.list(pair.alloc, name_of(with)) {
        Ok(names) => {
            assert!(rt; begun.is_ok(), "a list");
            same_names(rt, &names, &places);
        }
        Err(error) => assert!(rt; error == ListError::Failed && begun.is_err(), "a list"),
    }
    Ok(())
}

fn step(rt: &impl Abort, pair: &mut Pair) -> Result<(), Fail> {
    let at = pair.draws.below(4) as usize;
    match pair.draws.below(12) {
        0..=4 => put(rt, pair, at),
        5..=6 => delete(rt, pair, at),
        7 => size(rt, pair, at),
        8..=9 => read(rt, pair, at),
        10 => count(rt, pair, at),
        _ => list(rt, pair, at),
    }
}

/// Forty steps; about every sixth call fails.
fn compare(rt: &impl Abort, alloc: Global, seed: u32) -> Result<(), Fail> {
    let mut draws = Draws::new(seed);
    let fail = draws.calls(alloc, 50)?;
    let mut objects = Vec::new(alloc);
    for _ in 0..NAMES {
        objects.push(None)?;
    }
    let plain = PlainBucket {
        objects,
        fail: fail.as_slice().to_vec(alloc)?,
        calls: 0,
        faults: 0,
    };
    let mut pair = Pair {
        bucket: MemBucket::new(alloc, fail),
        plain,
        draws,
        alloc,
    };
    for _ in 0..40 {
        step(rt, &mut pair)?;
    }
    assert_eq!(rt; pair.bucket.calls(), pair.plain.calls, "seed {seed}");
    assert_eq!(rt; pair.bucket.faults(), pair.plain.faults, "seed {seed}");
    assert_eq!(rt; pair.bucket.wants(), 0);
    Ok(())
}

#[test]
fn drawn_calls_leave_what_the_plain_bucket_has(rt: HostRuntime) -> Result<(), Fail> {
    for seed in 0..200 {
        compare(&rt, rt.alloc(), seed)?;
    }
    Ok(())
}
