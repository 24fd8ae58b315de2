//! The bytes that tell the commands apart. They stand in files, so none is ever used for another command.

pub(crate) const SET: u8 = 1;

pub(crate) const DEL: u8 = 2;

pub(crate) const DEL_RANGE: u8 = 3;
