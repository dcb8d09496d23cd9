ghost use Rattle.std.specs.Prelude.{◌≡◌};
ghost use Rattle.ledger.specs.Records.{next};
ghost use Rattle.ledger.specs.Words.{standing_word};

#[derive(Clone, Copy, PartialEq, Eq, Debug)]
pub enum Standing {
    Open,
    Committed,
    Aborted,
}

// What may happen to a commit record.
#[derive(Clone, Copy, PartialEq, Eq, Debug)]
pub enum Event {
    Commit,
    Abort,
    Expiry,
}

impl Standing {
    // The standing after an event: only an open record changes.
    pub fn after(self, event: Event) -> Standing
        ensures { result ≡ next self event }
    {
        match (self, event) {
            (Standing::Open, Event::Commit) => Standing::Committed,
            (Standing::Open, Event::Abort | Event::Expiry) => Standing::Aborted,
            (standing, _) => standing,
        }
    }
}

// What a commit record holds while an action has it: its creation timestamp, the clock at which it
// expires, how many tokens are left to settle, and its standing.
#[derive(Clone, Copy, PartialEq, Eq, Debug)]
pub struct CommitRecord {
    pub creation: u32,
    pub expiry: u32,
    pub tokens: u32,
    pub standing: Standing,
}

// How a record stands, in a word.
pub fn standing_word(standing: Option<Standing>) -> &'static str
    ensures { result.now ≡ standing_word standing }
{
    match standing {
        None => "unused",
        Some(Standing::Open) => "open",
        Some(Standing::Committed) => "committed",
        Some(Standing::Aborted) => "aborted",
    }
}
