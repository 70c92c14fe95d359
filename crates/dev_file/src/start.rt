//! What is supposed of a file as it is opened.
ghost use Rattle.std.specs.Prelude.{ℕ, List, []};

/// What the file held. Code over any `S: Start` is proved for all contents; no code can read it.
pub trait Start: Drop {
    ghost first: { List ℕ };
}

/// For `main` to name: it supposes nothing of a file that isn't empty.
#[derive(Drop)]
pub struct Unknown;

impl Start for Unknown {
    ghost first = { [] };
}
