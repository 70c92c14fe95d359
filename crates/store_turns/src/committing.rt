// A commit: what was applied becomes stable, its number is written, and the journal gives it up.
ghost use Rattle.std.specs.Prelude.{◌≡◌, ◌≢◌, ◌⊎◌, ℕ, ◌<◌, ◌≤◌, ◌^◌, List, Err, OnOk, IsErrOf};
ghost use Rattle.fault_count.specs.Counted.{Counted};
ghost use Rattle.tree_api.specs.Tree.{Path};
ghost use Rattle.tree_api.specs.Disk.{Keeps, Everywhere};
ghost use Rattle.ring_journal.specs.State.{Holds};
ghost use Rattle.store_history.specs.History.{History};
ghost use Rattle.store_history.specs.Pair.{PairsStand};
ghost use Rattle.store_turns.specs.declared.numbers.How.TheVariants.{Live};
ghost use Rattle.store_turns.specs.Calls.{IsCommitting, WhereApplied};
ghost use Rattle.store_turns.specs.State.{Fits, Holding};

use crate::numbers::{Numbers, StoreFault};
use crate::side::Side;
use dev_api::Device;
use ring_journal::Ring;
use std::alloc::Global;
use store_history::journal_law;
use store_journal::give_up;
use tree_api::FileTree;

/// The tree's part of a commit: `number` is the last transaction applied.
pub fn put_number<T: FileTree, S: Side<T>>(
    alloc: Global,
    side: &S,
    tree: &mut T,
    number: u64,
) -> Result<(), StoreFault>
    requires ready { T.tells tree.old → S.ready (S.set side.now) (T.disk tree.old) }
    requires small { number < 2 ^ 63 }
    ensures ready { T.tells tree.new → OnOk result (S.ready (S.set side.now) (T.disk tree.new)) }
    ensures keeps { T.tells tree.new → WhereApplied (S.image (S.set side.now)) (S.reads (S.set side.now)) number (T.disk tree.old)
        (λ h n. Keeps (IsCommitting (S.image (S.set side.now)) h n number) (T.disk tree.old) (T.disk tree.new)) }
    ensures done { T.tells tree.new → WhereApplied (S.image (S.set side.now)) (S.reads (S.set side.now)) number (T.disk tree.old)
        (λ h n. OnOk result (Everywhere (T.disk tree.new) (S.image (S.set side.now) h number number number))) }
    ensures reads { T.tells tree.new → (h : History)
        → S.reads (S.set side.now) Live h number (T.disk tree.old).tree → S.reads (S.set side.now) Live h number (T.disk tree.new).tree }
    ensures undamaged { T.tells tree.new → (p : Path) → result ≢ Err (StoreFault.Damaged p) }
    ensures told { T.tells tree.new → T.tells tree.old }
    ensures faults { (T.disk tree.old).faults ≤ (T.disk tree.new).faults }
    ensures cause { IsErrOf result StoreFault.Tree → Counted (T.disk tree.old).faults (T.disk tree.new).faults }
    ensures other { IsErrOf result StoreFault.Device → ⊥ }
{
    match side.sync_all(tree) {
        Ok(()) => {}
        Err(_) => return Err(StoreFault::Tree),
    }
    side.write_seq(alloc, tree, number)?;
    Ok(())
}

/// What was applied becomes stable, its number is written, and the journal gives it up.
pub fn commit<T: FileTree, S: Side<T>, D: Device>(
    alloc: Global,
    core: &mut Numbers,
    side: &S,
    tree: &mut T,
    ring: &mut Ring,
    dev: &mut D,
) -> Result<(), StoreFault>
    requires counts { Fits core.old ring.old }
    requires raises { core.old.committed < core.old.journalled }
    requires extent { (D.state dev.old).size ≡ ring.old.head.size }
    requires ready { T.tells tree.old → S.ready (S.set side.now) (T.disk tree.old) }
    requires holds { D.tells dev.old → Holds ring.old (D.state dev.old).disk }
    ensures counts { OnOk result (Fits core.new ring.new) }
    ensures emptied { OnOk result (ring.new.used ≡ 0) }
    ensures size { OnOk result (ring.new.head.size ≡ ring.old.head.size) }
    ensures fsid { OnOk result (ring.new.head.fsid ≡ ring.old.head.fsid) }
    ensures core { OnOk result (core.new ≡ record core.old { committed = core.old.journalled }) }
    ensures same { core.new.journalled ≡ core.old.journalled }
    ensures ready { T.tells tree.new → OnOk result (S.ready (S.set side.now) (T.disk tree.new)) }
    ensures holds { D.tells dev.new → OnOk result (Holds ring.new (D.state dev.new).disk) }
    ensures exit { T.tells tree.new → D.tells dev.new → (fsid : List ℕ) (h : History)
        → Holding (S.image (S.set side.now)) (S.reads (S.set side.now)) fsid h core.old (T.disk tree.old) ring.old (D.state dev.old).disk
        → PairsStand (S.image (S.set side.now)) fsid h core.new.journalled (T.disk tree.new).may (D.state dev.new).disk }
    ensures done { T.tells tree.new → D.tells dev.new → (fsid : List ℕ) (h : History)
        → Holding (S.image (S.set side.now)) (S.reads (S.set side.now)) fsid h core.old (T.disk tree.old) ring.old (D.state dev.old).disk
        → OnOk result (Holding (S.image (S.set side.now)) (S.reads (S.set side.now)) fsid h core.new (T.disk tree.new) ring.new (D.state dev.new).disk) }
    ensures undamaged { T.tells tree.new → (p : Path) → result ≢ Err (StoreFault.Damaged p) }
    ensures told { T.tells tree.new → T.tells tree.old }
    ensures honest { D.tells dev.new → D.tells dev.old }
    ensures extent { (D.state dev.new).size ≡ (D.state dev.old).size }
    ensures tree { IsErrOf result StoreFault.Tree → Counted (T.disk tree.old).faults (T.disk tree.new).faults }
    ensures device { IsErrOf result StoreFault.Device → Counted (D.state dev.old).faults (D.state dev.new).faults }
    ensures tree_faults { (T.disk tree.old).faults ≤ (T.disk tree.new).faults }
    ensures device_faults { (D.state dev.old).faults ≤ (D.state dev.new).faults }
{
    let number = core.journalled;
    journal_law();
    put_number(alloc, side, tree, number)?;
    give_up(ring, dev, number)?;
    core.committed = number;
    Ok(())
}
