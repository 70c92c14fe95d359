ghost use Rattle.replay_guard.specs.Guards.{GuardLaw};

/// The bytes of a guard are read as that guard, and bytes that are read as a guard are its bytes.
pub fn guard_law()
    ensures { GuardLaw }
{}
