ghost use Rattle.std.specs.Prelude.{◌≡◌, ℕ, ◌⊎◌, true, List, Option};
ghost use Rattle.pb_devices.specs.Contents.{MayLeave};
ghost use Rattle.pb_gate_log.specs.Payloads.{payloads_in};
ghost use Rattle.pebble_cli.specs.Folder.{log_name, HasFrom};
ghost use Rattle.pebble_cli.specs.StoreStates.{Acts, Keeps, Finds, HasReplyCause, IsSetBy, TellsFault, has_fallen, is_open, map_in};

use crate::opened::Opened;
use crate::step::Step;
use crate::store_error::StoreError;
use crate::word::Word;
use pb_devices::Disk;
use pb_reply::{Refusal, Reply, Text};
use std::alloc::Global;

/// A store of the family, over the disk that each call is given.
#[derive(Drop)]
pub enum Store {
    Closed,
    Open(Opened),
    /// A fault of the disk ended it. It can be opened again.
    Down,
}

impl Store {
    /// Runs a step: docs/MODEL.md, "Lines".
    pub fn step<D: Disk>(&mut self, alloc: Global, disk: &mut D, step: Step) -> Reply
        requires { D.told ≡ true → Keeps self.old (D.contents disk.old) }
        ensures kept { D.told ≡ true → Keeps self.new (D.contents disk.new) }
        ensures acts { Acts self.old step result self.new }
        ensures found { D.told ≡ true → Finds (payloads_in ((D.contents disk.old).seen log_name)) step result (map_in self.new) }
        ensures crash { D.told ≡ true → (image : Option (List ℕ)) → MayLeave (D.contents disk.new) log_name image
            → HasFrom (D.contents disk.old) image ⊎ IsSetBy self.old step image }
        ensures cause { HasReplyCause (D.fault_count disk.old) (D.fault_count disk.new) result }
    {
        match step {
            Step::Open => self.open(alloc, disk),
            Step::Set(key, value) => self.set(alloc, disk, key, value),
            Step::Get(key) => self.get(alloc, &key),
        }
    }

    fn open<D: Disk>(&mut self, alloc: Global, disk: &mut D) -> Reply
        requires { D.told ≡ true → Keeps self.old (D.contents disk.old) }
        ensures kept { D.told ≡ true → Keeps self.new (D.contents disk.new) }
        ensures acts { Acts self.old Step.Open result self.new }
        ensures found { D.told ≡ true → Finds (payloads_in ((D.contents disk.old).seen log_name)) Step.Open result (map_in self.new) }
        ensures crash { D.told ≡ true → (image : Option (List ℕ)) → MayLeave (D.contents disk.new) log_name image
            → HasFrom (D.contents disk.old) image }
        ensures cause { HasReplyCause (D.fault_count disk.old) (D.fault_count disk.new) result }
    {
        if self.is_open() {
            return Reply::Refused(Refusal::AlreadyOpen);
        }
        match Opened::open(alloc, disk) {
            Ok(opened) => {
                let count = opened.count();
                *self = Store::Open(opened);
                Reply::Opened(count)
            }
            Err(error) => {
                *self = Store::Closed;
                Reply::Refused(error.refusal())
            }
        }
    }

    fn set<D: Disk>(&mut self, alloc: Global, disk: &mut D, key: Word, value: Word) -> Reply
        requires { D.told ≡ true → Keeps self.old (D.contents disk.old) }
        ensures kept { D.told ≡ true → Keeps self.new (D.contents disk.new) }
        ensures acts { Acts self.old (Step.Set key value) result self.new }
        ensures crash { D.told ≡ true → (image : Option (List ℕ)) → MayLeave (D.contents disk.new) log_name image
            → HasFrom (D.contents disk.old) image ⊎ IsSetBy self.old (Step.Set key value) image }
        ensures cause { HasReplyCause (D.fault_count disk.old) (D.fault_count disk.new) result }
    {
        let Store::Open(opened) = self else {
            return Reply::Refused(Refusal::NotOpen);
        };
        match opened.set(alloc, disk, key, value) {
            Ok(count) => Reply::Accepted(count),
            Err(StoreError::DiskFault) => {
                *self = Store::Down;
                Reply::Refused(Refusal::DiskFault)
            }
            Err(error) => Reply::Refused(error.refusal()),
        }
    }

    fn get(&self, alloc: Global, key: &Word) -> Reply
        ensures acts { Acts self.now (Step.Get key.now) result self.now }
        ensures fault { TellsFault result → ⊥ }
    {
        let Store::Open(opened) = self else {
            return Reply::Refused(Refusal::NotOpen);
        };
        let Some(value) = opened.get(key) else {
            return Reply::Absent;
        };
        match Text::new(alloc, value.as_str().as_bytes()) {
            Ok(value) => Reply::Value(value),
            Err(_) => Reply::Refused(Refusal::NoMemory),
        }
    }

    fn is_open(&self) -> bool
        ensures { result ≡ is_open self.now }
    {
        matches!(self, Store::Open(_))
    }

    /// Whether a fault of the disk ended the store.
    pub fn is_down(&self) -> bool
        ensures { result ≡ has_fallen self.now }
    {
        matches!(self, Store::Down)
    }
}
