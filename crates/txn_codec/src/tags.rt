// The first byte of each operation.
pub(crate) const TOUCH: u8 = 1;

pub(crate) const WRITE: u8 = 2;

pub(crate) const ZERO: u8 = 3;

pub(crate) const TRUNCATE: u8 = 4;

pub(crate) const REMOVE: u8 = 5;

pub(crate) const SET_ATTRS: u8 = 6;

pub(crate) const RM_ATTR: u8 = 7;

pub(crate) const RM_ATTRS: u8 = 8;

pub(crate) const CLONE: u8 = 9;

pub(crate) const CLONE_RANGE: u8 = 10;

pub(crate) const MOVE_RENAME: u8 = 11;

pub(crate) const MK_COLL: u8 = 12;

pub(crate) const RM_COLL: u8 = 13;

pub(crate) const OMAP_CLEAR: u8 = 14;

pub(crate) const OMAP_SET: u8 = 15;

pub(crate) const OMAP_REMOVE: u8 = 16;

pub(crate) const OMAP_RANGE: u8 = 17;
