ghost use Rattle.std.specs.Prelude.{◌≡◌, ℕ, ◌+◌, ◌-◌, ◌*◌, ◌%◌, ◌<◌, ◌≤◌, ◌^◌, [], length, min, OnOk, OnErr, IfOk, vec_len, vec_capacity, ◌⊎◌, slice_index};
ghost use Rattle.pb_mem.specs.Files.{empty_file, touched, put_back, with_saved, replaced, written, scribbled, durable_bytes, synced, pattern, pattern_byte, IsPicked, IsPatterned, IsFilled, IsPatternedOver, before_writes};

use std::alloc::{AllocError, Global};
use std::marker::Model;

/// Bytes that stood from a place on before a write.
#[derive(Drop)]
struct Saved {
    at: usize,
    bytes: Vec<u8>,
}

impl Model for Saved {
    ghost use Rattle.pb_mem.specs.Files.{Saved as SavedBytes, saved_code};

    ghost Value = { SavedBytes };

    ghost coded = { saved_code };

    ghost view = { λ s. record { at = s.at; bytes = s.bytes.items } };
}

/// A file: its bytes as reads give them, and what its writes since the last sync have replaced.
#[derive(Drop)]
pub struct File {
    bytes: Vec<u8>,
    durable_len: usize,
    saved: Vec<Saved>,
}

impl Model for File {
    ghost use Rattle.std.specs.Prelude.{◌≤◌, vec_len};
    ghost use Rattle.pb_mem.specs.Files.{FileView, file_code};

    ghost Value = { FileView };

    ghost coded = { file_code };

    ghost view = { λ f. record { seen = f.bytes.items; durable_len = f.durable_len; saved = f.saved.items } };

    ghost invariant = { λ f. f.durable_len ≤ vec_len f.bytes };
}

impl File {
    /// An empty file.
    pub fn new(alloc: Global) -> File
        ensures { result ≡ empty_file }
    {
        File {
            bytes: Vec::new(alloc),
            durable_len: 0,
            saved: Vec::new(alloc),
        }
    }

    /// The bytes as reads give them.
    pub fn bytes(&self) -> &[u8]
        ensures { result.now ≡ self.now.seen }
    {
        &self.bytes
    }

    /// Notes that the bytes of a range may be any after a power cut.
    fn touch(&mut self, alloc: Global, at: usize, n: usize) -> Result<(), AllocError>
        requires { at ≤ length self.old.seen }
        ensures ok { OnOk result (self.new ≡ touched self.old at n) }
        ensures durable { durable_bytes self.new ≡ durable_bytes self.old }
        ensures err { OnErr result (self.new ≡ self.old) }
    {
        let one = replaced_bytes(alloc, &self.bytes, self.durable_len, at, n)?;
        self.saved.reserve(1)?;
        add_saved(&mut self.saved, one);
        Ok(())
    }

    /// Writes over what is there and past the end. Without memory nothing has changed.
    pub fn write(&mut self, alloc: Global, at: usize, bytes: &[u8]) -> Result<(), AllocError>
        requires { at ≤ length self.old.seen }
        ensures ok { OnOk result (self.new ≡ written self.old at bytes.now) }
        ensures durable { durable_bytes self.new ≡ durable_bytes self.old }
        ensures err { OnErr result (self.new ≡ self.old) }
    {
        let one = replaced_bytes(alloc, &self.bytes, self.durable_len, at, bytes.len())?;
        self.saved.reserve(1)?;
        let room = (self.bytes.len() - at).min(bytes.len());
        self.bytes.extend_from_slice(&bytes[room..])?;
        put_over(&mut self.bytes, at, bytes);
        add_saved(&mut self.saved, one);
        Ok(())
    }

    /// Leaves what a write that failed does. Without memory nothing has changed.
    pub fn scribble(
        &mut self,
        alloc: Global,
        at: usize,
        bytes: &[u8],
        pick: u64,
    ) -> Result<(), AllocError>
        requires { at ≤ length self.old.seen }
        ensures ok { OnOk result (self.new ≡ scribbled pick self.old at bytes.now) }
        ensures durable { durable_bytes self.new ≡ durable_bytes self.old }
        ensures err { OnErr result (self.new ≡ self.old) }
    {
        match pick {
            0 => self.touch(alloc, at, bytes.len()),
            1 => self.write(alloc, at, bytes),
            _ => {
                let end = self.bytes.len();
                prove!(at <= end);
                let bytes = pattern_bytes(alloc, pick, at, bytes.len())?;
                self.write(alloc, at, &bytes)
            }
        }
    }

    /// Makes the bytes durable as reads give them.
    pub fn sync(&mut self)
        ensures { self.new ≡ synced self.old }
    {
        self.durable_len = self.bytes.len();
        self.saved.clear();
    }

    /// Becomes the image that a pick leaves, which is durable.
    pub fn cut(&mut self, pick: u64)
        ensures picked { IsPicked pick self.old self.new.seen }
        ensures durable { self.new ≡ synced self.new }
    {
        match pick {
            0 => self.undo(),
            1 => self.sync(),
            _ => self.fill(pick),
        }
    }

    fn undo(&mut self)
        ensures seen { self.new.seen ≡ durable_bytes self.old }
        ensures durable { self.new ≡ synced self.new }
    {
        self.bytes.truncate(self.durable_len);
        put_all_back(&mut self.bytes, &self.saved);
        self.saved.clear();
    }

    fn fill(&mut self, pick: u64)
        ensures seen { IsPatterned pick self.old self.new.seen }
        ensures durable { self.new ≡ synced self.new }
    {
        cut_pattern(&mut self.bytes, self.durable_len, &self.saved, pick);
        self.durable_len = self.bytes.len();
        self.saved.clear();
    }
}

/// Becomes the image that a pick of 2 or more leaves.
fn cut_pattern(bytes: &mut Vec<u8>, durable_len: usize, saved: &[Saved], pick: u64)
    requires { durable_len ≤ vec_len bytes.old }
    ensures { IsPatterned pick (record { seen = bytes.old.items; durable_len = durable_len; saved = saved.now }) bytes.new.items }
{
    let left = pattern_left(durable_len, bytes.len(), pick);
    fill_pending(bytes, durable_len, saved, pick);
    bytes.truncate(left);
}

/// How many bytes a pick of 2 or more leaves.
fn pattern_left(durable_len: usize, len: usize, pick: u64) -> usize
    requires within { durable_len ≤ len }
    requires fits { len < 2 ^ 63 }
    ensures { result ≡ durable_len + pick % (len - durable_len + 1) }
{
    let growth = (len - durable_len) as u64;
    durable_len + (pick % (growth + 1)) as usize
}

/// A copy of the durable bytes that a write of `n` bytes from `at` on replaces.
fn replaced_bytes(
    alloc: Global,
    bytes: &[u8],
    durable_len: usize,
    at: usize,
    n: usize,
) -> Result<Saved, AllocError>
    requires durable { durable_len ≤ length bytes.now }
    requires within { at ≤ length bytes.now }
    ensures { IfOk result (λ one. one
        ≡ replaced (record { seen = bytes.now; durable_len = durable_len; saved = [] }) at n) }
{
    let count = n.min(durable_len.saturating_sub(at));
    let bytes = Vec::from_slice(alloc, &bytes[at..at + count])?;
    Ok(Saved { at, bytes })
}

/// Adds saved bytes behind the others, unless there are none.
fn add_saved(saved: &mut Vec<Saved>, one: Saved)
    requires { vec_len saved.old + 1 ≤ vec_capacity saved.old }
    ensures { saved.new.items ≡ with_saved saved.old.items one }
{
    if !one.bytes.is_empty() {
        saved.push(one).unwrap();
    }
}

/// Puts bytes over others from a place on, as far as these reach.
fn put_over(bytes: &mut [u8], at: usize, with: &[u8])
    ensures { bytes.new ≡ put_back (record { at = at; bytes = with.now }) bytes.old }
{
    let from = at.min(bytes.len());
    let count = with.len().min(bytes.len() - from);
    bytes[from..from + count].copy_from_slice(&with[..count]);
}

/// The byte that a pick of 2 or more puts at a place.
fn pattern_at(pick: u64, place: usize) -> u8
    ensures { result ≡ pattern_byte pick place }
{
    ((pick % 256 * 31 + place as u64 % 256 * 17) % 256) as u8
}

/// Puts back what the writes have replaced, the newest first.
fn put_all_back(bytes: &mut [u8], saved: &[Saved])
    ensures { bytes.new ≡ before_writes saved.now bytes.old }
{
    let mut left = saved.len();
    while left > 0 {
        left -= 1;
        let one = &saved[left];
        put_over(bytes, one.at, &one.bytes);
    }
}

/// Puts the bytes of a pick of 2 or more into a range, as far as the bytes reach.
fn fill_range(bytes: &mut [u8], from: usize, to: usize, pick: u64)
    ensures within { (place : ℕ) → from ≤ place → place < to → place < length bytes.old → slice_index bytes.new place ≡ pattern_byte pick place }
    ensures outside { (place : ℕ) → (place < from) ⊎ (to ≤ place) → slice_index bytes.new place ≡ slice_index bytes.old place }
{
    for place in from..to.min(bytes.len()) {
        bytes[place] = pattern_at(pick, place);
    }
}

/// Puts the bytes of a pick of 2 or more wherever a write has replaced durable ones.
fn fill_saved(bytes: &mut [u8], saved: &[Saved], pick: u64)
    ensures { IsFilled pick saved.now bytes.old bytes.new }
{
    for one in saved {
        fill_range(bytes, one.at, one.at.saturating_add(one.bytes.len()), pick);
    }
}

/// Puts the bytes of a pick of 2 or more at each pending place.
fn fill_pending(bytes: &mut [u8], durable_len: usize, saved: &[Saved], pick: u64)
    ensures { IsPatternedOver pick (record { seen = bytes.old; durable_len = durable_len; saved = saved.now }) bytes.new }
{
    let end = bytes.len();
    fill_range(bytes, durable_len, end, pick);
    fill_saved(bytes, saved, pick);
}

/// The bytes that a pick of 2 or more puts from a place on.
fn pattern_bytes(alloc: Global, pick: u64, at: usize, n: usize) -> Result<Vec<u8>, AllocError>
    requires { at + n < 2 ^ 64 }
    ensures { IfOk result (λ bytes. bytes.items ≡ pattern pick at n) }
{
    let mut bytes = Vec::with_capacity(alloc, n)?;
    for place in at..at + n {
        bytes.push(pattern_at(pick, place))?;
    }
    Ok(bytes)
}
