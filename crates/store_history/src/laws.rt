//! What holds of pairs of a tree and a journal. A law is the contract of a function that does nothing.
ghost use Rattle.std.specs.Prelude.{◌≡◌, ℕ, ◌<◌, ◌≤◌, ◌^◌, List};
ghost use Rattle.fs_model.specs.Objects.{Objects};
ghost use Rattle.dev_api.specs.Disk.{Disk};
ghost use Rattle.ring_images.specs.Held.{EachSound};
ghost use Rattle.ring_journal.specs.State.{State};
ghost use Rattle.store_history.specs.History.{History, end_of};
ghost use Rattle.store_history.specs.Journal.{IsJournal, RingSide};
ghost use Rattle.store_history.specs.Images.{ImageLaws};
ghost use Rattle.store_history.specs.Pair.{StandsAt, StandsFor, Stands, Closed};

use ring_journal::held_law;

/// What a kind of tree shows of a history. Laws about pairs hold where `image` meets `ImageLaws`.
pub trait TreeImages {
    /// What is seen of such a tree.
    ghost tree: { Type 0 };

    /// Its committed number, how far each of its parts has gone, and how far none has gone beyond.
    ghost image: { History → ℕ → ℕ → ℕ → tree → Type 0 };
}

/// What a crash leaves of a ring is a journal of its history: behind the same number, with all that was synced, and
/// none that it doesn't hold.
pub fn journal_law()
    ensures { (fsid : List ℕ) (h : History) (p synced hi : ℕ) (s : State) (d : Disk)
        → RingSide fsid h p synced hi s d → EachSound (IsJournal fsid h p synced hi) d }
{
    held_law();
}

/// A tree and a journal stand for a state of their history where the journal begins at or before the committed number,
/// the tree is nowhere before that number, and all that it has begun is synced.
pub fn pair_law<S: TreeImages>()
    ensures { ImageLaws S.image → (fsid : List ℕ) (h : History) (n lo hi p synced top acked : ℕ) (t : S.tree) (c : List ℕ) → S.image h n lo hi t → IsJournal fsid h p synced top c
        → h.base ≤ p → p ≤ n → n ≤ lo → lo ≤ hi → hi ≤ synced → top ≤ end_of h → end_of h < 2 ^ 63 → acked ≤ synced → StandsFor S.image fsid h acked t c }
{}

/// A pair stands for one state of the objects at most, with one committed number and one last number, and a closed pair
/// for its own.
pub fn stands_law<S: TreeImages>()
    ensures unique { ImageLaws S.image → (fsid : List ℕ) (t : S.tree) (c : List ℕ) (o o2 : Objects) → Stands S.image fsid t c o → Stands S.image fsid t c o2 → o ≡ o2 }
    ensures numbers { ImageLaws S.image → (fsid : List ℕ) (t : S.tree) (c : List ℕ) (o o2 : Objects) (n m last last2 : ℕ)
        → StandsAt S.image fsid t c o n last → StandsAt S.image fsid t c o2 m last2 → (n ≡ m) × (last ≡ last2) }
    ensures closed { (fsid : List ℕ) (t : S.tree) (c : List ℕ) (o : Objects) → Closed S.image fsid t c o → Stands S.image fsid t c o }
{}
