ghost use Rattle.replay_laws.specs.Replay.{Raises};
ghost use Rattle.replay_laws.specs.Keeps.{KeepsLaw};
ghost use Rattle.replay_laws.specs.Places.{PlacesLaw};
ghost use Rattle.fs_cells.specs.declared.cell.Cell.{Cell};
ghost use Rattle.fs_cells.specs.Values.{Value, raise};
ghost use Rattle.fs_cells.specs.Laws.{DeterminedLaw, FoldLaw, LeavesOthers, OmapApart, ReadsOwn, ReplayOfOps, RowLaw, UniqueEnd};
ghost use Rattle.fs_cells.specs.Standing.{JoinLaw, OnceLaw, TxnsApart, TxnsWithin};
ghost use Rattle.fs_cells.specs.Starts.{CollsNeeded, DoneSoFar, HalfCloned, Renamed};

/// Objects are determined by which collections are there, and by their cells.
pub fn cells_law()
    ensures { DeterminedLaw }
{}

/// Where the collections that it names are there, an operation means for each cell what its action says; and so do
/// several, one after the other.
pub fn row_law()
    ensures one { RowLaw }
    ensures several { FoldLaw }
{}

/// From a good start guarded replay of any operations gives every cell its value in the objects that they mean, whatever
/// value a harmless copy gives. Each operation but one that makes a collection names collections that are there after the
/// operations before it.
pub fn replay_law()
    ensures { ReplayOfOps }
{}

/// A start is good for the objects of one end alone.
pub fn unique_law()
    ensures { UniqueEnd }
{}

/// An operation leaves the cells of collections that it doesn't name, and a copy reads none of these. No copy goes from the
/// omap to another part, nor the other way.
pub fn reads_law()
    ensures leaves_others { LeavesOthers }
    ensures reads_own { ReadsOwn }
    ensures apart { OmapApart }
{}

/// Transactions change and read cells of the groups that they name alone, so those that don't conflict have none in common.
/// A crash's image and the journal stand for the objects after the journal's last transaction, and for no others.
pub fn stands_law()
    ensures within { TxnsWithin }
    ensures apart { TxnsApart }
    ensures join { JoinLaw }
    ensures once { OnceLaw }
{}

/// What a store keeps while it applies operations, or replays them, so that each start that a crash leaves is good; with one
/// open transaction and with several.
pub fn keeps_law()
    ensures raising { Raises raise }
    ensures one { KeepsLaw Cell Value }
    ensures several { PlacesLaw Cell Value }
{}

/// Starts that a store's crashes leave of any journal are good: some of it is done and guarded; a clone is half done; a move
/// has renamed its file. And why operations have to name collections that are there.
pub fn starts_law()
    ensures done_so_far { DoneSoFar }
    ensures half_cloned { HalfCloned }
    ensures renamed { Renamed }
    ensures colls_needed { CollsNeeded }
{}
