//! A disk as plainly as it can be: each byte has a mark that says whether it is pending, and what stood under a name at the last
//! barrier is kept whole. Only the table of picks is shared with the disk that is tried, and spelled anew.
use pb_devices::Failed;
use std::alloc::{AllocError, Global};

#[derive(Drop)]
struct PlainFile {
    bytes: Vec<(u8, bool)>,
    durable: Vec<u8>,
}

/// What stands under a name, and what stood there before the first creation or removal since the last barrier.
#[derive(Drop)]
struct PlainName {
    file: Option<PlainFile>,
    changed: bool,
    before: Option<PlainFile>,
}

#[derive(Drop)]
pub struct PlainDisk {
    names: Vec<PlainName>,
    fail: Vec<u64>,
    calls: u64,
    faults: u64,
    pick: u64,
    alloc: Global,
}

fn has_happened(pick: u64) -> bool {
    match pick {
        0 => false,
        1 => true,
        _ => pick % 2 == 0,
    }
}

fn byte_of(pick: u64, place: usize) -> u8 {
    let sum = pick
        .wrapping_mul(31)
        .wrapping_add((place as u64).wrapping_mul(17));
    (sum % 256) as u8
}

impl PlainFile {
    fn new(alloc: Global) -> PlainFile {
        PlainFile {
            bytes: Vec::new(alloc),
            durable: Vec::new(alloc),
        }
    }

    fn seen(&self, alloc: Global) -> Result<Vec<u8>, AllocError> {
        let mut seen = Vec::new(alloc);
        for one in &self.bytes {
            seen.push(one.0)?;
        }
        Ok(seen)
    }

    fn put(&mut self, place: usize, byte: u8) -> Result<(), AllocError> {
        if place < self.bytes.len() {
            self.bytes[place] = (byte, true);
            return Ok(());
        }
        self.bytes.push((byte, true))?;
        Ok(())
    }

    fn write(&mut self, at: usize, bytes: &[u8]) -> Result<(), AllocError> {
        let mut place = at;
        for byte in bytes {
            self.put(place, *byte)?;
            place = place.wrapping_add(1);
        }
        Ok(())
    }

    fn touch(&mut self, at: usize, count: usize) {
        let end = at.saturating_add(count).min(self.bytes.len());
        for place in at..end {
            self.bytes[place] = (self.bytes[place].0, true);
        }
    }

    fn fail(
        &mut self,
        alloc: Global,
        at: usize,
        bytes: &[u8],
        pick: u64,
    ) -> Result<(), AllocError> {
        if pick == 0 {
            self.touch(at, bytes.len());
            return Ok(());
        }
        if pick == 1 {
            return self.write(at, bytes);
        }
        let mut others = Vec::new(alloc);
        for _ in 0..bytes.len() {
            others.push(byte_of(pick, at.wrapping_add(others.len())))?;
        }
        self.write(at, &others)
    }

    fn settle(&mut self, alloc: Global, bytes: &[u8]) -> Result<(), AllocError> {
        self.bytes.clear();
        for byte in bytes {
            self.bytes.push((*byte, false))?;
        }
        self.durable = bytes.to_vec(alloc)?;
        Ok(())
    }

    fn sync(&mut self, alloc: Global) -> Result<(), AllocError> {
        let seen = self.seen(alloc)?;
        self.settle(alloc, &seen)
    }

    fn patterned(&self, alloc: Global, pick: u64) -> Result<Vec<u8>, AllocError> {
        let growth = self.bytes.len().saturating_sub(self.durable.len()) as u64;
        let len = self.durable.len() as u64 + pick % growth.saturating_add(1).max(1);
        let mut image = Vec::new(alloc);
        for one in &self.bytes {
            let place = image.len();
            if (place as u64) < len {
                image.push(if one.1 { byte_of(pick, place) } else { one.0 })?;
            }
        }
        Ok(image)
    }

    fn cut(&mut self, alloc: Global, pick: u64) -> Result<(), AllocError> {
        let image = match pick {
            0 => self.durable.as_slice().to_vec(alloc)?,
            1 => self.seen(alloc)?,
            _ => self.patterned(alloc, pick)?,
        };
        self.settle(alloc, &image)
    }
}

impl PlainName {
    fn change(&mut self, file: Option<PlainFile>) {
        let before = self.file.take();
        if !self.changed {
            self.changed = true;
            self.before = before;
        }
        self.file = file;
    }

    fn settle(&mut self, alloc: Global) -> Result<(), AllocError> {
        self.changed = false;
        self.before = None;
        match &mut self.file {
            None => Ok(()),
            Some(file) => file.sync(alloc),
        }
    }

    fn cut(&mut self, alloc: Global, pick: u64) -> Result<(), AllocError> {
        if self.changed && !has_happened(pick) {
            self.file = self.before.take();
        }
        self.changed = false;
        self.before = None;
        match &mut self.file {
            None => Ok(()),
            Some(file) => file.cut(alloc, pick),
        }
    }
}

impl PlainDisk {
    pub fn new(alloc: Global, fail: Vec<u64>, pick: u64) -> Result<PlainDisk, AllocError> {
        let mut names = Vec::new(alloc);
        for _ in 0..3 {
            names.push(PlainName {
                file: None,
                changed: false,
                before: None,
            })?;
        }
        Ok(PlainDisk {
            names,
            fail,
            calls: 0,
            faults: 0,
            pick,
            alloc,
        })
    }

    pub fn faults(&self) -> u64 {
        self.faults
    }

    /// Whether the call that is made now fails.
    fn begin(&mut self) -> Result<(), Failed> {
        self.calls = self.calls.wrapping_add(1);
        if self.fail.contains(&self.calls) {
            self.faults = self.faults.wrapping_add(1);
            return Err(Failed);
        }
        Ok(())
    }

    /// Whether a creation or removal that begins with `begun` happens.
    fn happens(&self, begun: Result<(), Failed>) -> bool {
        begun.is_ok() || has_happened(self.pick)
    }

    pub fn calls(&self) -> u64 {
        self.calls
    }

    pub fn len(&mut self, at: usize) -> Result<Option<u64>, Failed> {
        self.begin()?;
        match self.file(at) {
            None => Ok(None),
            Some(file) => Ok(Some(file.bytes.len() as u64)),
        }
    }

    /// The bytes of a file, none where it isn't there.
    pub fn read(&mut self, at: usize) -> Result<Result<Vec<u8>, Failed>, AllocError> {
        if self.begin().is_err() {
            return Ok(Err(Failed));
        }
        match self.file(at) {
            None => Ok(Ok(Vec::new(self.alloc))),
            Some(file) => Ok(Ok(file.seen(self.alloc)?)),
        }
    }

    fn file(&self, at: usize) -> Option<&PlainFile> {
        match self.names.get(at) {
            None => None,
            Some(one) => one.file.as_ref(),
        }
    }

    /// The places of the names that have a file, none where the call fails.
    pub fn list(&mut self) -> Result<Option<Vec<usize>>, AllocError> {
        if self.begin().is_err() {
            return Ok(None);
        }
        let mut places = Vec::new(self.alloc);
        for (place, one) in self.names.iter().enumerate() {
            if one.file.is_some() {
                places.push(place)?;
            }
        }
        Ok(Some(places))
    }

    pub fn create(&mut self, at: usize) -> Result<(), Failed> {
        let begun = self.begin();
        let happens = self.happens(begun);
        let file = PlainFile::new(self.alloc);
        if let Some(one) = self.names.get_mut(at) {
            if happens {
                one.change(Some(file));
            }
        }
        begun
    }

    pub fn remove(&mut self, at: usize) -> Result<(), Failed> {
        let begun = self.begin();
        let happens = self.happens(begun);
        if let Some(one) = self.names.get_mut(at) {
            if happens && one.file.is_some() {
                one.change(None);
            }
        }
        begun
    }

    pub fn write(
        &mut self,
        at: usize,
        place: usize,
        bytes: &[u8],
    ) -> Result<Result<(), Failed>, AllocError> {
        let begun = self.begin();
        if let Some(one) = self.names.get_mut(at) {
            if let Some(file) = &mut one.file {
                match begun {
                    Ok(()) => file.write(place, bytes)?,
                    Err(_) => file.fail(self.alloc, place, bytes, self.pick)?,
                }
            }
        }
        Ok(begun)
    }

    pub fn sync(&mut self, at: usize) -> Result<Result<(), Failed>, AllocError> {
        let begun = self.begin();
        if begun.is_ok() {
            if let Some(one) = self.names.get_mut(at) {
                if let Some(file) = &mut one.file {
                    file.sync(self.alloc)?;
                }
            }
        }
        Ok(begun)
    }

    pub fn barrier(&mut self) -> Result<Result<(), Failed>, AllocError> {
        let begun = self.begin();
        if begun.is_ok() {
            for one in &mut self.names {
                one.settle(self.alloc)?;
            }
        }
        Ok(begun)
    }

    pub fn power(&mut self) -> Result<(), AllocError> {
        for one in &mut self.names {
            one.cut(self.alloc, self.pick)?;
        }
        Ok(())
    }
}
