use crate::{Blob, PairMap};

/// An object in memory.
#[derive(Debug, Drop)]
pub struct PlainObject {
    pub bytes: Blob,
    pub attrs: PairMap,
    /// The omap header.
    pub header: Blob,
    /// The omap pairs.
    pub pairs: PairMap,
}
