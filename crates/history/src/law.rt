ghost use Rattle.history.specs.Laws.{HistoriesStand};

// Carries the law of histories: an accepted operation on a lawful chain leaves a lawful chain,
// in which every find answers what the finds before the operation tell.
pub fn histories_stand()
    ensures { HistoriesStand }
{}
