ghost use Rattle.std.specs.Prelude.{◌≡◌, ℕ, ◌≤◌, ◌++◌, ◌∷◌, ◌||◌, ◌&&◌, ◌==◌, ◌%◌, nat_lt, [], List, Some, None, length, OnOk, OnErr, is_some};
ghost use Rattle.std.specs.Option.{option_map, option_copied};
ghost use Rattle.pb_devices.specs.Reads.{IsWithin};
ghost use Rattle.pb_mem.specs.Files.{empty_file, written, scribbled, synced};
ghost use Rattle.pb_mem.specs.Slots.{seen_of, durable_of, settled, survivor, IsPickedOf, happens as is_happening};

use crate::file::File;
use std::alloc::{AllocError, Global};
use std::marker::Model;

/// What stands under a name, and what stood there since the last barrier.
#[derive(Drop)]
pub struct Slot {
    file: Option<File>,
    earlier: Vec<Option<File>>,
}

impl Model for Slot {
    ghost use Rattle.pb_mem.specs.Slots.{SlotView, slot_code};

    ghost Value = { SlotView };

    ghost coded = { slot_code };

    ghost view = { λ s. record { file = s.file; earlier = s.earlier.items } };
}

/// Whether a pick lets what has no barrier behind it have happened.
pub fn happens(pick: u64) -> bool
    ensures { result ≡ is_happening pick }
{
    pick == 1 || 1 < pick && pick % 2 == 0
}

impl Slot {
    /// No file, and none before.
    pub fn new(alloc: Global) -> Slot
        ensures { result ≡ record { file = None; earlier = [] } }
    {
        Slot {
            file: None,
            earlier: Vec::new(alloc),
        }
    }

    /// The file that stands, if there is one.
    pub fn file(&self) -> Option<&File>
        ensures { option_copied result ≡ self.now.file }
    {
        self.file.as_ref()
    }

    /// An empty file stands now. Without memory nothing has changed.
    pub fn create(&mut self, alloc: Global) -> Result<(), AllocError>
        ensures ok { OnOk result (self.new
            ≡ record { file = Some empty_file; earlier = self.old.earlier ++ self.old.file ∷ [] }) }
        ensures err { OnErr result (self.new ≡ self.old) }
    {
        self.earlier.reserve(1)?;
        self.earlier.push(self.file.take()).unwrap();
        self.file = Some(File::new(alloc));
        Ok(())
    }

    /// No file stands any more. Without memory nothing has changed.
    pub fn remove(&mut self) -> Result<(), AllocError>
        ensures ok { OnOk result (self.new ≡ record { file = None; earlier = self.old.earlier ++ self.old.file ∷ [] }) }
        ensures err { OnErr result (self.new ≡ self.old) }
    {
        self.earlier.reserve(1)?;
        self.earlier.push(self.file.take()).unwrap();
        Ok(())
    }

    /// Writes over what is there and past the end. Without memory nothing has changed.
    pub fn write(&mut self, alloc: Global, at: usize, bytes: &[u8]) -> Result<(), AllocError>
        requires { IsWithin at (seen_of self.old.file) }
        ensures ok { OnOk result (self.new
            ≡ record self.old { file = option_map (λ f. written f at bytes.now) self.old.file }) }
        ensures durable { durable_of self.new.file ≡ durable_of self.old.file }
        ensures err { OnErr result (self.new ≡ self.old) }
    {
        match &mut self.file {
            None => unreachable!(),
            Some(file) => file.write(alloc, at, bytes),
        }
    }

    /// Leaves what a write that failed does. Without memory nothing has changed.
    pub fn scribble(
        &mut self,
        alloc: Global,
        at: usize,
        bytes: &[u8],
        pick: u64,
    ) -> Result<(), AllocError>
        requires { IsWithin at (seen_of self.old.file) }
        ensures ok { OnOk result (self.new
            ≡ record self.old { file = option_map (λ f. scribbled pick f at bytes.now) self.old.file }) }
        ensures durable { durable_of self.new.file ≡ durable_of self.old.file }
        ensures err { OnErr result (self.new ≡ self.old) }
    {
        match &mut self.file {
            None => unreachable!(),
            Some(file) => file.scribble(alloc, at, bytes, pick),
        }
    }

    /// Makes the file's bytes durable.
    pub fn sync(&mut self)
        ensures { self.new ≡ record self.old { file = option_map synced self.old.file } }
    {
        if let Some(file) = &mut self.file {
            file.sync();
        }
    }

    /// Makes what stands durable, and nothing else possible. Whether there is a file.
    pub fn settle(&mut self) -> bool
        ensures after { self.new ≡ settled self.old }
        ensures there { result ≡ is_some self.new.file }
    {
        self.earlier.clear();
        self.sync();
        self.file.is_some()
    }

    /// Becomes the image that a pick leaves, and nothing else is possible. Whether there is a file.
    pub fn cut(&mut self, pick: u64) -> bool
        ensures file { IsPickedOf pick (survivor pick (Some self.old)) self.new.file }
        ensures earlier { self.new.earlier ≡ [] }
        ensures there { result ≡ is_some self.new.file }
    {
        survive(&mut self.file, &mut self.earlier, pick);
        cut_file(&mut self.file, pick);
        self.file.is_some()
    }
}

/// Lets what stood at the last barrier stand again, unless the pick lets the rest have happened.
fn survive(file: &mut Option<File>, earlier: &mut Vec<Option<File>>, pick: u64)
    ensures file { file.new ≡ survivor pick (Some (record { file = file.old; earlier = earlier.old.items })) }
    ensures earlier { earlier.new.items ≡ [] }
{
    if !happens(pick) && !earlier.is_empty() {
        *file = earlier.swap_remove(0);
    }
    earlier.clear();
}

fn cut_file(file: &mut Option<File>, pick: u64)
    ensures { IsPickedOf pick file.old file.new }
{
    if let Some(file) = file {
        file.cut(pick);
    }
}
