ghost use Rattle.std.specs.Prelude.{◌≡◌, ◌<◌};
ghost use Rattle.register.specs.Walk.{walked};

use ledger::record::Standing;

// How far a walk over an object's items came: the place of the next item, and how many were sealed and dropped.
#[derive(Clone, Copy)]
pub(crate) struct Walk {
    pub(crate) place: u32,
    pub(crate) sealed: u32,
    pub(crate) dropped: u32,
}

impl Walk {
    // Past one more item: a dropped one leaves its place to the next.
    pub(crate) fn past(self, fate: Standing) -> Walk
        requires place { self.place < 65536 }
        requires sealed { self.sealed < 65536 }
        requires dropped { self.dropped < 65536 }
        ensures { result ≡ walked self fate }
    {
        match fate {
            Standing::Open => Walk {
                place: self.place + 1,
                ..self
            },
            Standing::Committed => Walk {
                place: self.place + 1,
                sealed: self.sealed + 1,
                ..self
            },
            Standing::Aborted => Walk {
                dropped: self.dropped + 1,
                ..self
            },
        }
    }
}
