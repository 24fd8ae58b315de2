//! The bytes that tell the payloads of a catalogue apart. They stand in files, so none is ever used for another.

pub(crate) const ID: u8 = 1;

pub(crate) const SHARED: u8 = 2;

pub(crate) const EXTERNAL: u8 = 3;

pub(crate) const DROPPED: u8 = 4;
