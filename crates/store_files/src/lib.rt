//! The small files by which a directory is known as a store: its version, its identity and its settings.
#![tactic(auto)]

mod fault;
mod laws;
mod line;
mod making;
mod new_store;
mod paths;
mod reading;
mod settings;
mod steps;
mod texts;
mod values;

pub use fault::{MakeFault, StoreFault};
pub use laws::{made_law, one_law};
pub use new_store::{is_new, make_store};
pub use reading::{Identity, read_store};
pub use settings::{settings_of, settings_text};
pub use steps::{add_dir, add_file};
pub use texts::{fsid_of, fsid_text, version_of, version_text};

#[cfg(test)]
mod tests;
