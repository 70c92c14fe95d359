// A new epoch behind the committed number.
ghost use Rattle.std.specs.Prelude.{◌≡◌, ◌+◌, ◌<◌, ◌≤◌, ◌^◌, List, length, OnOk, IsErrOf};
ghost use Rattle.fault_count.specs.Counted.{Counted};
ghost use Rattle.fs_model.specs.declared.op.Op.{Op};
ghost use Rattle.fs_model.specs.Objects.{Objects};
ghost use Rattle.dev_api.specs.Run.{Keeps};
ghost use Rattle.ring_images.specs.Held.{EachSound, readable};
ghost use Rattle.ring_journal.specs.State.{Ended, Holds, GoesOn, IsUnspent};
ghost use Rattle.store_history.specs.History.{replay_of};
ghost use Rattle.store_history.specs.Journal.{Spells, above, IsAbove, RingSide};

use crate::fault::JournalFault;
use dev_api::Device;
use ring_journal::{Ring, numbers_law};

/// Begins a new epoch of a journal that was read to its end: what the committed number covers goes, the others are kept.
/// At any moment the device has just these above that number.
pub fn reopen<D: Device>(ring: &mut Ring, dev: &mut D, committed: u64) -> Result<(), JournalFault>
    requires extent { (D.state dev.old).size ≡ ring.old.head.size }
    requires ended { D.tells dev.old → Ended ring.old (D.state dev.old).disk }
    requires unspent { IsUnspent ring.old.head }
    requires no_gap { ring.old.head.seq ≤ committed + 1 }
    requires small { committed < 2 ^ 63 }
    ensures holds { D.tells dev.new → OnOk result (Holds ring.new (D.state dev.new).disk) }
    ensures crash { D.tells dev.new → (txns : List (List Op)) → Spells (above committed ring.old.head.seq (readable (D.state dev.old).disk.stable)) txns
        → Keeps (EachSound (IsAbove ring.old.head.fsid committed txns)) (D.state dev.new).disk (D.state dev.old).past (D.state dev.new).past }
    ensures done { D.tells dev.new → (txns : List (List Op)) (before : Objects) → Spells (above committed ring.old.head.seq (readable (D.state dev.old).disk.stable)) txns
        → OnOk result (RingSide ring.old.head.fsid (replay_of committed before txns) committed (committed + length txns) (committed + length txns) ring.new (D.state dev.new).disk) }
    ensures numbers { OnOk result (GoesOn ring.old (ring.old.head.epoch + 1) (committed + 1) ring.new) }
    ensures honest { D.tells dev.new → D.tells dev.old }
    ensures extent { (D.state dev.new).size ≡ (D.state dev.old).size }
    ensures faults { (D.state dev.old).faults ≤ (D.state dev.new).faults }
    ensures cause { IsErrOf result JournalFault.Device → Counted (D.state dev.old).faults (D.state dev.new).faults }
{
    numbers_law();
    ring.begin(dev, committed + 1)?;
    Ok(())
}
