// All snapshots.
ghost use Rattle.std.specs.Prelude.{◌≡◌, ◌↔◌, ℕ, Some, None, Contains, IsSome, OnOk, OnErr, IfOk};
ghost use Rattle.std.specs.Option.{option_map, option_copied};
ghost use Rattle.tree_api.specs.Answer.{RisingNumbers};
ghost use Rattle.tree_memory.specs.Kept.{content_of};
ghost use Rattle.tree_memory.specs.History.{put};
ghost use Rattle.tree_memory.specs.Snaps.{snaps_of};

use crate::snap::Snap;
use std::alloc::{AllocError, Global};
use std::collections::BTreeMap;

/// All snapshots, by number.
#[derive(Drop)]
pub struct Snaps {
    pub alloc: Global,
    pub map: BTreeMap<u64, Snap>,
}

impl Snaps {
    pub fn new(alloc: Global) -> Snaps
        ensures { snaps_of result ≡ (λ k. None) }
    {
        Snaps {
            alloc,
            map: BTreeMap::new(alloc),
        }
    }

    pub fn copy(&self) -> Result<Snaps, AllocError>
        ensures { IfOk result (λ s. snaps_of s ≡ snaps_of self.now) }
    {
        let mut map = BTreeMap::new(self.alloc);
        for (seq, snap) in self.map.iter() {
            map.insert(*seq, snap.copy(self.alloc)?)?;
        }
        Ok(Snaps {
            alloc: self.alloc,
            map,
        })
    }

    pub fn find(&self, seq: u64) -> Option<&Snap>
        ensures { option_map (λ s. content_of s.kept.items) (option_copied result) ≡ snaps_of self.now seq }
    {
        self.map.get(&seq)
    }

    pub fn insert(&mut self, seq: u64, snap: Snap) -> Result<(), AllocError>
        ensures ok { OnOk result (snaps_of self.new ≡ put (snaps_of self.old) seq (Some (content_of snap.kept.items))) }
        ensures err { OnErr result (snaps_of self.new ≡ snaps_of self.old) }
    {
        self.map.insert(seq, snap)?;
        Ok(())
    }

    pub fn remove(&mut self, seq: u64)
        ensures { snaps_of self.new ≡ put (snaps_of self.old) seq None }
    {
        self.map.remove(&seq);
    }

    /// The numbers, rising.
    pub fn numbers(&self) -> Result<Vec<u64>, AllocError>
        ensures rising { IfOk result (λ ks. RisingNumbers ks.items) }
        ensures numbers { IfOk result (λ ks. (k : ℕ) → Contains ks.items k ↔ IsSome (snaps_of self.now k)) }
    {
        let mut numbers = Vec::new(self.alloc);
        for seq in self.map.keys() {
            numbers.push(*seq)?;
        }
        Ok(numbers)
    }
}
