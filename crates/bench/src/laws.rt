ghost use Rattle.bench.specs.Laws.{FailsAsPlanned};

// Of the acts since the making, the one that the plan names fails, and no other.
pub fn fails_as_planned()
    ensures { FailsAsPlanned }
{}
