//! The slots of a store's turns as open transactions of its history: what a store owes where a transaction starts, and
//! where one of its operations is applied.
#![tactic(auto)]

ghost use Rattle.turn_history.specs.History.{HistoryLaw};
ghost use Rattle.turn_history.specs.Operations.{SlotMatches};

/// Every ready turn keeps the slots open in the history; Start and Apply turns lead what reads to what the turn says; and
/// what reads is an image past the number that a commit took.
pub fn history_law<C, V>()
    ensures { HistoryLaw C V }
{}

/// A slot that was given its transaction's groups and number of operations is that transaction in the history.
pub fn matching_law()
    ensures { SlotMatches }
{}
