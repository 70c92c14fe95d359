// What a commit covers leaves the journal.
ghost use Rattle.std.specs.Prelude.{◌≡◌, ◌⊎◌, ℕ, ◌+◌, ◌<◌, ◌≤◌, ◌^◌, List, OnOk, IsErrOf};
ghost use Rattle.fault_count.specs.Counted.{Counted};
ghost use Rattle.dev_api.specs.Run.{Keeps};
ghost use Rattle.ring_images.specs.Held.{EachSound};
ghost use Rattle.ring_journal.specs.State.{Holds, GoesOn};
ghost use Rattle.store_history.specs.History.{History};
ghost use Rattle.store_history.specs.Journal.{IsJournal, RingSide};

use crate::fault::JournalFault;
use dev_api::Device;
use ring_journal::{Ring, numbers_law};

/// Gives up the transactions up to a number. At any moment the device has a journal from behind the old number on or
/// from behind this one. What was appended is synced before.
pub fn give_up<D: Device>(ring: &mut Ring, dev: &mut D, number: u64) -> Result<(), JournalFault>
    requires extent { (D.state dev.old).size ≡ ring.old.head.size }
    requires holds { D.tells dev.old → Holds ring.old (D.state dev.old).disk }
    requires rises { ring.old.head.generation + 1 < 2 ^ 64 }
    requires least { ring.old.head.seq ≤ number + 1 }
    requires most { number < ring.old.head.seq + ring.old.count }
    ensures holds { D.tells dev.new → OnOk result (Holds ring.new (D.state dev.new).disk) }
    ensures crash { D.tells dev.new → (fsid : List ℕ) (h : History) (p synced hi : ℕ) → number ≤ hi → RingSide fsid h p synced hi ring.old (D.state dev.old).disk
        → Keeps (EachSound (λ c. IsJournal fsid h p synced hi c ⊎ IsJournal fsid h number hi hi c)) (D.state dev.new).disk (D.state dev.old).past (D.state dev.new).past }
    ensures done { D.tells dev.new → (fsid : List ℕ) (h : History) (p synced hi : ℕ) → number ≤ hi → RingSide fsid h p synced hi ring.old (D.state dev.old).disk
        → OnOk result (RingSide fsid h number hi hi ring.new (D.state dev.new).disk) }
    ensures numbers { OnOk result (GoesOn ring.old ring.old.head.epoch (number + 1) ring.new) }
    ensures honest { D.tells dev.new → D.tells dev.old }
    ensures extent { (D.state dev.new).size ≡ (D.state dev.old).size }
    ensures faults { (D.state dev.old).faults ≤ (D.state dev.new).faults }
    ensures cause { IsErrOf result JournalFault.Device → Counted (D.state dev.old).faults (D.state dev.new).faults }
{
    numbers_law();
    ring.trim(dev, number)?;
    Ok(())
}
