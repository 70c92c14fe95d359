//! Names of objects and of collections, their texts and their orders.
#![tactic(auto)]

mod coll;
mod coll_reading;
mod coll_text;
mod fault;
mod hash;
mod laws;
mod name;
mod number;
mod oid;
mod oid_reading;
mod oid_text;
mod order;
mod settings;
mod short_text;
mod spelling;
mod split;
mod text_order;
mod unit;
mod units;

pub use coll::{Coll, GroupId, group};
pub use coll_reading::decode_coll;
pub use coll_text::{CollText, encode_coll};
pub use fault::{CollFault, NameFault};
pub use hash::{digit, order_hash};
pub use laws::{coll_texts_law, oid_order_law, oid_texts_law};
pub use name::Name;
pub use number::{decimal, hexadecimal, number_law};
pub use oid::{Oid, Snap};
pub use oid_reading::decode_oid;
pub use oid_text::{OidText, encode_oid};
pub use settings::{Mode, Pos, Settings};

#[cfg(test)]
mod tests;
