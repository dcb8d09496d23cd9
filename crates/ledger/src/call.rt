ghost use Rattle.std.specs.Prelude.{◌≡◌};
ghost use Rattle.ledger.specs.Answers.{unread};
ghost use Rattle.ledger.specs.Refusals.{refusal_of};
ghost use Rattle.ledger.specs.declared.call.Unread.TheVariants.{Refused as RefusedRead};

use crate::record::Standing;
use crate::refusal::Refusal;
use history::item::Fault;

// A record's number and the creation timestamp of the action that has it.
pub type Ticket = (u32, u32);

#[derive(Clone, Copy, PartialEq, Eq, Debug)]
pub enum Call<V> {
    Begin {
        record: u32,
        site: u32,
        lifetime: u32,
    },
    Read {
        ticket: Ticket,
        object: u32,
    },
    Update {
        ticket: Ticket,
        object: u32,
        value: V,
    },
    Commit {
        ticket: Ticket,
    },
    Abort {
        ticket: Ticket,
    },
    Glance {
        site: u32,
        object: u32,
    },
    Tick {
        site: u32,
        clock: u32,
    },
    Settle {
        object: u32,
    },
    Standing {
        record: u32,
    },
}

#[derive(Clone, Copy, PartialEq, Eq, Debug)]
pub enum Answer<V> {
    Began(Ticket),
    Value(V),
    Wait(u32),
    Done,
    Settled((u32, u32)),
    Stands(Option<Standing>, u32),
    Refused(Refusal),
}

// Why a read or a glance gives no value: the open record to wait for, or a refusal.
#[derive(Clone, Copy, PartialEq, Eq, Debug)]
pub enum Unread {
    Wait(u32),
    Refused(Refusal),
}

impl From<Refusal> for Unread {
    ghost from_gives = { λ why got. got ≡ RefusedRead why };

    fn from(why: Refusal) -> Unread {
        Unread::Refused(why)
    }
}

impl From<Fault> for Unread {
    ghost from_gives = { λ fault got. got ≡ RefusedRead (refusal_of fault) };

    fn from(fault: Fault) -> Unread {
        Unread::Refused(fault.into())
    }
}

impl<V> From<Unread> for Answer<V> {
    ghost from_gives = { λ why answer. answer ≡ unread why };

    fn from(why: Unread) -> Answer<V> {
        match why {
            Unread::Wait(record) => Answer::Wait(record),
            Unread::Refused(refusal) => Answer::Refused(refusal),
        }
    }
}
