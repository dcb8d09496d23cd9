ghost use Rattle.chained.specs.Laws.{WritesStand};

// Carries the law of the bytes: what an accepted operation writes into lawful bytes is lawful again,
// and spells the histories that the operation makes of those before it.
pub fn writes_stand()
    ensures { WritesStand }
{}
