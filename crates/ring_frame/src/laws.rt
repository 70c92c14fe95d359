// What holds of the spellings themselves. These functions do nothing: their contracts are proved for all values.
ghost use Rattle.std.specs.Prelude.{◌≡◌, ℕ, ◌≤◌, List, ◌++◌, length, take, true, Some};
ghost use Rattle.ring_frame.specs.Frame.{Entry, AgreeOn, Fits, entry, entry_magic, need, spelled};
ghost use Rattle.ring_frame.specs.Heads.{Head, HeadFits, head_block, head_fits, head_in};

/// The spelling of an entry is read back, whatever follows it.
pub fn entry_is_read_back()
    ensures { (fsid rest : List ℕ) (place : ℕ) (e : Entry) → 16 ≤ length fsid → Fits e
        → entry fsid place (spelled fsid place e ++ rest) ≡ Some e }
{}

/// An entry takes whole blocks, `need` of its payload's length.
pub fn entry_fills_its_blocks()
    ensures { (fsid : List ℕ) (place : ℕ) (e : Entry) → 16 ≤ length fsid
        → length (spelled fsid place e) ≡ need (length e.payload) }
{}

/// A sealed entry begins with the magic.
pub fn entry_begins_with_magic()
    ensures { (fsid bytes : List ℕ) (place : ℕ) (e : Entry) → entry fsid place bytes ≡ Some e
        → take 8 bytes ≡ entry_magic }
{}

/// What is read of a sealed entry doesn't hang on the bytes behind it.
pub fn entry_stands_alone()
    ensures { (fsid bytes others : List ℕ) (place : ℕ) (e : Entry) → entry fsid place bytes ≡ Some e
        → AgreeOn e bytes others → entry fsid place others ≡ Some e }
{}

/// A header that fits the device is read back from its block.
pub fn head_is_read_back()
    ensures { (size : ℕ) (h : Head) → HeadFits h → head_fits size h ≡ true
        → head_in size (head_block h) ≡ Some h }
{}
