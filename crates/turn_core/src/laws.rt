ghost use Rattle.turn_core.specs.Chain.{TurnsLaw};
ghost use Rattle.turn_core.specs.Drain.{DrainLaw};

/// Every ready turn keeps the chain of numbers, which holds after mount; what is acknowledged or committed stays so.
pub fn turns_law()
    ensures { TurnsLaw }
{}

/// Every ready turn but a sweep leaves less to do, so draining ends; and what holds then.
pub fn drain_law()
    ensures { DrainLaw }
{}
