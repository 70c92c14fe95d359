use crate::OidList;
use fs_names::Oid;

/// A part of a listing.
#[derive(Drop)]
pub struct Page {
    pub oids: OidList,
    /// The object that follows them, if there is one.
    pub next: Option<Oid>,
}
