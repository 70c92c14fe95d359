/// The place of an operation: its transaction's number, its transaction's place in a list, its place in that.
///
/// Positions are compared in this order.
#[derive(Clone, Copy, Debug, PartialEq, Eq, PartialOrd, Ord)]
pub struct Pos {
    pub seq: u64,
    pub txn: u32,
    pub op: u32,
}

/// When an operation may be applied.
#[derive(Clone, Copy, Debug, PartialEq, Eq)]
pub enum Mode {
    /// Only once its transaction is in the journal.
    WriteAhead,
    /// While its transaction is being journalled.
    Parallel,
}

/// How a store lays out its files.
#[derive(Clone, Copy, Debug, PartialEq, Eq)]
pub struct Settings {
    /// A directory with fewer files than this is merged into its parent; where it isn't positive, none is.
    pub merge: i32,
    /// A directory with more than `split * abs(merge) * 16` files is split.
    pub split: u32,
    /// How many digits of a checksum a long file name has.
    pub lfn: u8,
    pub mode: Mode,
}
