//! The statuses with which calls about meshes end: those of `nav_handle`, on which nothing here stands otherwise.

pub(crate) const OK: u32 = 0;

pub(crate) const NO_MEMORY: u32 = 1;

pub(crate) const FAULTY: u32 = 3;

pub(crate) const OUT_OF_RANGE: u32 = 4;

pub(crate) const NO_ROOM: u32 = 14;

pub(crate) const TOO_MANY_SPANS: u32 = 18;
