//! What a journal ring's bytes read as, and what a crash may leave of them.
//!
//! A device's ring begins with two blocks for headers, of which the newer sealed one counts. From its start place on
//! entries follow one another up to the device's end, and go on at place 8,192. `Readable.antt` says which entries are
//! read of a ring that was turned so that it begins at its start; `Held.antt` says the same of a device's bytes
//! (`readable`), which images of a device are sound (`IsSound`: no seal matches by chance), and what all sound images
//! leave (`Left`, `Leaves`). What the writes of a ring leave is proved in `proofs/`.
#![tactic(auto)]

ghost use Rattle.std.specs.Prelude.{◌≡◌, ◌<◌, ◌≤◌, ℕ, List, length, Some};
ghost use Rattle.ring_frame.specs.Frame.{Entry};
ghost use Rattle.ring_frame.specs.Heads.{Head, head_of};
ghost use Rattle.ring_images.specs.Readable.{AtMostOne, IsRead, Ring};
ghost use Rattle.ring_images.specs.Turned.{turned};
ghost use Rattle.ring_images.specs.Held.{ring_of, readable, Left};

/// A device's entries are read from the start of its newer header on, one behind the other, until none goes on, and
/// no other list of entries is read so.
pub fn readable_law()
    ensures read { (bytes : List ℕ) (h : Head) → head_of bytes ≡ Some h → IsRead (ring_of h (length bytes)) 0 h.seq 0 (turned h.start bytes) (readable bytes) }
    ensures only { (ring : Ring) (offset seq low : ℕ) (bytes : List ℕ) → AtMostOne (IsRead ring offset seq low bytes) }
{}

/// Where just some entries are left, these are read.
pub fn left_law()
    ensures { (h : Head) (es : List Entry) (image : List ℕ) → Left h es es image → readable image ≡ es }
{}
