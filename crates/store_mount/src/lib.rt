//! What a mount does with a store's journal and the tree's side.
//!
//! It makes the tree stable, loads the journal's ring, which makes the device stable, reads the committed number and looks
//! over the tree (`find`). It does the entries above that number again (`replay`) and takes away what is left of files that
//! were being built, and then the ring begins a new epoch behind the number. The last writes come last: until then the ring
//! has its old epoch, and a mount that stops can be made again.
#![tactic(auto)]

mod fault;
mod finding;
mod mounting;
mod replaying;

pub use fault::MountFault;
pub use finding::{Found, find};
pub use mounting::{Mounted, mount};
pub use replaying::replay;
