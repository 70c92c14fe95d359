ghost use Rattle.std.specs.Prelude.{◌≡◌};
ghost use Rattle.io_edge.specs.Memory.{Incoming, Outgoing};

use crate::{MemorySink, MemorySource, Sink, Source};

/// In memory a source tells all that it has left, and a sink all that it has taken.
pub fn told_in_memory()
    ensures source { (s : Incoming) → ⟦<MemorySource as Source>⟧.tells s }
    ensures left { (s : Incoming) → (⟦<MemorySource as Source>⟧.inflow s).left ≡ s.left }
    ensures read_faults { (s : Incoming) → (⟦<MemorySource as Source>⟧.inflow s).faults ≡ s.plan.faults }
    ensures sink { (s : Outgoing) → ⟦<MemorySink as Sink>⟧.tells s }
    ensures written { (s : Outgoing) → (⟦<MemorySink as Sink>⟧.out s).written ≡ s.written }
    ensures write_faults { (s : Outgoing) → (⟦<MemorySink as Sink>⟧.out s).faults ≡ s.plan.faults }
{}
