// A transaction comes into the journal.
ghost use Rattle.std.specs.Prelude.{◌≡◌, ℕ, ◌+◌, ◌<◌, ◌≤◌, ◌^◌, List, length, OnOk, IsErrOf};
ghost use Rattle.fault_count.specs.Counted.{Counted};
ghost use Rattle.dev_api.specs.Run.{Keeps};
ghost use Rattle.ring_frame.specs.Frame.{need};
ghost use Rattle.ring_images.specs.Held.{EachSound};
ghost use Rattle.ring_journal.specs.State.{Holds, free_of};
ghost use Rattle.store_history.specs.History.{History};
ghost use Rattle.store_history.specs.Journal.{IsJournal, IsNext, RingSide};

use crate::fault::JournalFault;
use dev_api::Device;
use ring_journal::Ring;
use std::alloc::Global;

/// Adds the transaction that a payload spells. It is synced by a later `sync`.
pub fn append<D: Device>(
    alloc: Global,
    ring: &mut Ring,
    dev: &mut D,
    seq: u64,
    payload: &[u8],
) -> Result<(), JournalFault>
    requires extent { (D.state dev.old).size ≡ ring.old.head.size }
    requires holds { D.tells dev.old → Holds ring.old (D.state dev.old).disk }
    requires number { seq ≡ ring.old.head.seq + ring.old.count }
    requires small { seq < 2 ^ 63 }
    requires short { length payload.now < 2 ^ 32 }
    requires room { need (length payload.now) ≤ free_of ring.old }
    ensures holds { D.tells dev.new → OnOk result (Holds ring.new (D.state dev.new).disk) }
    ensures crash { D.tells dev.new → (fsid : List ℕ) (h : History) (p synced hi : ℕ) → IsNext h hi seq payload.now → RingSide fsid h p synced hi ring.old (D.state dev.old).disk
        → Keeps (EachSound (IsJournal fsid h p synced (hi + 1))) (D.state dev.new).disk (D.state dev.old).past (D.state dev.new).past }
    ensures done { D.tells dev.new → (fsid : List ℕ) (h : History) (p synced hi : ℕ) → IsNext h hi seq payload.now → RingSide fsid h p synced hi ring.old (D.state dev.old).disk
        → OnOk result (RingSide fsid h p synced (hi + 1) ring.new (D.state dev.new).disk) }
    ensures head { ring.new.head ≡ ring.old.head }
    ensures count { OnOk result (ring.new.count ≡ ring.old.count + 1) }
    ensures used { OnOk result (ring.new.used ≡ ring.old.used + need (length payload.now)) }
    ensures honest { D.tells dev.new → D.tells dev.old }
    ensures extent { (D.state dev.new).size ≡ (D.state dev.old).size }
    ensures faults { (D.state dev.old).faults ≤ (D.state dev.new).faults }
    ensures cause { IsErrOf result JournalFault.Device → Counted (D.state dev.old).faults (D.state dev.new).faults }
{
    ring.append(alloc, dev, seq, payload)?;
    Ok(())
}

/// Syncs what was appended.
pub fn sync<D: Device>(ring: &mut Ring, dev: &mut D) -> Result<(), JournalFault>
    requires holds { D.tells dev.old → Holds ring.old (D.state dev.old).disk }
    ensures holds { D.tells dev.new → OnOk result (Holds ring.new (D.state dev.new).disk) }
    ensures crash { D.tells dev.new → (fsid : List ℕ) (h : History) (p synced hi : ℕ) → RingSide fsid h p synced hi ring.old (D.state dev.old).disk
        → Keeps (EachSound (IsJournal fsid h p synced hi)) (D.state dev.new).disk (D.state dev.old).past (D.state dev.new).past }
    ensures done { D.tells dev.new → (fsid : List ℕ) (h : History) (p synced hi : ℕ) → RingSide fsid h p synced hi ring.old (D.state dev.old).disk
        → OnOk result (RingSide fsid h p hi hi ring.new (D.state dev.new).disk) }
    ensures same { ring.new ≡ ring.old }
    ensures honest { D.tells dev.new → D.tells dev.old }
    ensures extent { (D.state dev.new).size ≡ (D.state dev.old).size }
    ensures faults { (D.state dev.old).faults ≤ (D.state dev.new).faults }
    ensures only { IsErrOf result JournalFault.Memory → ⊥ }
    ensures cause { IsErrOf result JournalFault.Device → Counted (D.state dev.old).faults (D.state dev.new).faults }
{
    ring.sync(dev)?;
    Ok(())
}

/// Adds the transaction that a payload spells, and syncs it with all before it.
pub fn enter<D: Device>(
    alloc: Global,
    ring: &mut Ring,
    dev: &mut D,
    seq: u64,
    payload: &[u8],
) -> Result<(), JournalFault>
    requires extent { (D.state dev.old).size ≡ ring.old.head.size }
    requires holds { D.tells dev.old → Holds ring.old (D.state dev.old).disk }
    requires number { seq ≡ ring.old.head.seq + ring.old.count }
    requires small { seq < 2 ^ 63 }
    requires short { length payload.now < 2 ^ 32 }
    requires room { need (length payload.now) ≤ free_of ring.old }
    ensures holds { D.tells dev.new → OnOk result (Holds ring.new (D.state dev.new).disk) }
    ensures crash { D.tells dev.new → (fsid : List ℕ) (h : History) (p synced hi : ℕ) → IsNext h hi seq payload.now → RingSide fsid h p synced hi ring.old (D.state dev.old).disk
        → Keeps (EachSound (IsJournal fsid h p synced (hi + 1))) (D.state dev.new).disk (D.state dev.old).past (D.state dev.new).past }
    ensures done { D.tells dev.new → (fsid : List ℕ) (h : History) (p synced hi : ℕ) → IsNext h hi seq payload.now → RingSide fsid h p synced hi ring.old (D.state dev.old).disk
        → OnOk result (RingSide fsid h p (hi + 1) (hi + 1) ring.new (D.state dev.new).disk) }
    ensures head { ring.new.head ≡ ring.old.head }
    ensures count { OnOk result (ring.new.count ≡ ring.old.count + 1) }
    ensures used { OnOk result (ring.new.used ≡ ring.old.used + need (length payload.now)) }
    ensures honest { D.tells dev.new → D.tells dev.old }
    ensures extent { (D.state dev.new).size ≡ (D.state dev.old).size }
    ensures faults { (D.state dev.old).faults ≤ (D.state dev.new).faults }
    ensures cause { IsErrOf result JournalFault.Device → Counted (D.state dev.old).faults (D.state dev.new).faults }
{
    append(alloc, ring, dev, seq, payload)?;
    sync(ring, dev)
}
