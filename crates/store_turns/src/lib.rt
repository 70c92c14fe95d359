//! The order of a store's writes: a transaction is journalled, synced and applied, and a commit makes what was applied
//! stable, writes its number and then gives up the journal's part.
//!
//! The tree is seen through the trait `Side` alone, which says what a crash leaves of it in the words of one history.
#![tactic(auto)]

mod committing;
mod draining;
mod numbers;
mod replaying;
mod rounds;
mod side;

pub use committing::{commit, put_number};
pub use draining::drain;
pub use numbers::{How, Numbers, Queued, StoreFault};
pub use replaying::{RedoFault, redo};
pub use rounds::{make_room, round};
pub use side::Side;
