ghost use Rattle.std.specs.Prelude.{◌≡◌, ◌↔◌, IsTrue, IfOk, OnOk};
ghost use Rattle.std.specs.Option.{option_map};
ghost use Rattle.pb_keys.specs.Key.{IsKey};
ghost use Rattle.pb_rows.specs.ChangingLayers.{row_of};
ghost use Rattle.pb_rows.specs.Layer.{IsShortRow};

use pb_keys::{Bytes, Copies, Key, KeyError, MAX_VALUE};
use std::alloc::{AllocError, Global};
use std::marker::Model;

/// A key with its value, or with None where the key is deleted.
#[derive(Debug, Drop)]
pub struct Row {
    pub key: Key,
    pub value: Option<Bytes>,
}

impl Model for Row {
    ghost use Rattle.pb_rows.specs.Layer.{KeyRow};

    ghost Value = { KeyRow };

    ghost view = { λ r. record { key = r.key; value = r.value } };
}

impl Row {
    /// The row of this key with this value, or with None where the key is deleted.
    pub fn of(alloc: Global, key: &[u8], value: Option<&[u8]>) -> Result<Row, KeyError>
        ensures ok { IfOk result (λ row. row ≡ row_of key.now (option_map (λ bytes. bytes.now) value.entry)) }
        ensures in_form { OnOk result (IsKey key.now) }
        ensures bad { (result ≡ Err KeyError.BadKey) ↔ ¬ (IsKey key.now) }
    {
        let key = Key::new(alloc, key)?;
        let value = value_of(alloc, value)?;
        Ok(Row { key, value })
    }

    /// Whether the value, if there is one, has at most 65,536 bytes.
    pub fn is_short(&self) -> bool
        ensures { IsTrue result ↔ IsShortRow self.now }
    {
        match &self.value {
            None => true,
            Some(bytes) => bytes.as_slice().len() <= MAX_VALUE,
        }
    }

    /// Another value of the same row.
    pub fn copy(&self, alloc: Global) -> Result<Row, AllocError>
        ensures ok { IfOk result (λ row. row ≡ self.now) }
    {
        let key = self.key.copy(alloc)?;
        let value = copy_of(alloc, &self.value)?;
        Ok(Row { key, value })
    }
}

impl Copies for Row {
    fn copied(&self, alloc: Global) -> Result<Row, AllocError> {
        self.copy(alloc)
    }
}

fn value_of(alloc: Global, value: Option<&[u8]>) -> Result<Option<Bytes>, AllocError>
    ensures ok { IfOk result (λ copy. copy ≡ option_map (λ bytes. bytes.now) value.entry) }
{
    match value {
        None => Ok(None),
        Some(bytes) => {
            let bytes = Bytes::new(alloc, bytes)?;
            Ok(Some(bytes))
        }
    }
}

fn copy_of(alloc: Global, value: &Option<Bytes>) -> Result<Option<Bytes>, AllocError>
    ensures ok { IfOk result (λ copy. copy ≡ value.now) }
{
    match value {
        None => Ok(None),
        Some(bytes) => {
            let copy = bytes.copy(alloc)?;
            Ok(Some(copy))
        }
    }
}
