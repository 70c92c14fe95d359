//! A store with several transactions open at once: its history, and what each of its turns does to the cells.
//!
//! Transactions start in the order of the journal. One starts only where no open one names a group of it; then its
//! operations are done one at a time, those of several open transactions in any order. So each cell has a place of its
//! own in the flat list of all operations: that of the open transaction which names its group, or else the end of all
//! that was started. `History.antt` has transactions and places, `Slots.antt` what a store keeps and what a crash's
//! image and the journal stand for together.
#![tactic(auto)]

ghost use Rattle.slot_laws.specs.Eight.{EightOpen};
ghost use Rattle.slot_laws.specs.Live.{LiveLaw};
ghost use Rattle.slot_laws.specs.Positions.{PositionsLaw};
ghost use Rattle.slot_laws.specs.Slots.{SlotsLaw};
ghost use Rattle.slot_laws.specs.Weaker.{WeakerLaw};

/// What a store with several transactions open keeps, and what is left for a mount.
pub fn slots_law<C, V>()
    ensures { SlotsLaw C V }
{}

/// What reads: each started transaction whole, but of an open one just the operations done.
pub fn live_law<C, V>()
    ensures { LiveLaw C V }
{}

/// The numbers of transactions and operations are in the order of places.
pub fn positions_law<C, V>()
    ensures { PositionsLaw C V }
{}

/// Two open transactions that share a cell, or a copy without a guard, leave starts that aren't good; and eight open
/// transactions that share none are open as a store wants them.
pub fn weaker_law()
    ensures weaker { WeakerLaw }
    ensures eight { EightOpen }
{}
