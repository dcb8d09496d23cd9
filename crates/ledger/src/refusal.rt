ghost use Rattle.std.specs.Prelude.{◌≡◌};
ghost use Rattle.ledger.specs.Refusals.{refusal_number, refusal_of, aborts};

use history::item::{Cause, Fault};

// Why a call is turned down, in the order of checking.
#[derive(Clone, Copy, PartialEq, Eq, Debug)]
pub enum Refusal {
    // The register is not fit.
    NotFit,
    // A record is not 1 to 64.
    NoRecord,
    // A site is not 0 to 15, or a lifetime not 2 to 1,048,576.
    OutOfRange,
    // Begin on a record that is not free.
    RecordInUse,
    // The ticket matches no action.
    StaleTicket,
    Committed,
    // The action was aborted, or has expired.
    Aborted,
    ClockSpent,
    // Tick to a clock that is not above the site's, or is spent.
    TickBack,
    NoObject(Fault),
    // Update inside a span.
    InsideSpan { object: u32, time: u64 },
    // Update where the object has no room.
    NoRoom(Fault),
    // The number read is no form of the kind.
    NoForm(u64),
    // Bytes that are not lawful.
    Unlawful,
    // A script line that cannot be read, or whose value is outside the kind.
    Unreadable,
    // Bytes that cannot be laid out as asked.
    Unfit,
}

impl From<Fault> for Refusal {
    ghost from_gives = { λ fault r. r ≡ refusal_of fault };

    fn from(fault: Fault) -> Refusal {
        match fault.cause {
            Cause::Overlap => Refusal::InsideSpan {
                object: fault.object,
                time: fault.time,
            },
            Cause::NoRoom => Refusal::NoRoom(fault),
            Cause::NoObject | Cause::OutOfRange | Cause::NoItem | Cause::IsVersion =>
                Refusal::NoObject(fault),
        }
    }
}

impl Refusal {
    // The number of the refusal, which is all that a caller at the far end sees.
    pub fn number(&self) -> u8
        ensures { result ≡ refusal_number self.now }
    {
        match self {
            Refusal::NotFit => 1,
            Refusal::NoRecord => 2,
            Refusal::OutOfRange => 3,
            Refusal::RecordInUse => 4,
            Refusal::StaleTicket => 5,
            Refusal::Committed => 6,
            Refusal::Aborted => 7,
            Refusal::ClockSpent => 8,
            Refusal::TickBack => 9,
            Refusal::NoObject(_) => 10,
            Refusal::InsideSpan { .. } => 11,
            Refusal::NoRoom(_) => 12,
            Refusal::NoForm(_) => 13,
            Refusal::Unlawful => 14,
            Refusal::Unreadable => 15,
            Refusal::Unfit => 16,
        }
    }

    // Whether a refused update aborts its action.
    pub fn aborts(&self) -> bool
        ensures { result ≡ aborts self.now }
    {
        matches!(self, Refusal::InsideSpan { .. } | Refusal::NoRoom(_))
    }
}
