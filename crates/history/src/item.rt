ghost use Rattle.std.specs.Prelude.{◌≡◌};
ghost use Rattle.history.specs.Chain.{covers, extends, fresh_item, is_version, seals};
ghost use Rattle.history.specs.Alike.{version};
ghost use Rattle.history.specs.Meaning.{cause_number, bottom_fault};

// Every pseudo-time lies below this.
pub const TIME_LIMIT: u64 = 0x8000_0000_0000_0000;

// The mark of a version, and the greatest mark of a token.
pub const VERSION: u8 = 0;

pub const LAST_MARK: u8 = 64;

// The level of a store that lies on no other.
pub const BOTTOM: u8 = 0;

// One entry of an object's history: from pseudo-time start to end the object has this number.
// Mark 0 is a version; marks 1 to 64 are a token of that commit record. It is a number since it is stored as one,
// and a store refuses a greater one.
#[derive(Clone, Copy, PartialEq, Eq, Default, Debug)]
pub struct Item {
    pub start: u64,
    pub end: u64,
    pub mark: u8,
    pub number: u64,
}

// A version by what other stores may share of it.
#[derive(Clone, Copy, PartialEq, Eq, Debug)]
pub struct Version {
    pub start: u64,
    pub number: u64,
}

impl Item {
    // An item of one pseudo-time.
    pub fn fresh(time: u64, mark: u8, number: u64) -> Item
        ensures { result ≡ fresh_item time mark number }
    {
        Item {
            start: time,
            end: time,
            mark,
            number,
        }
    }

    // Whether a pseudo-time lies in the item's span.
    pub fn covers(self, time: u64) -> bool
        ensures { result ≡ covers time self }
    {
        self.start <= time && time <= self.end
    }

    pub fn is_version(self) -> bool
        ensures { result ≡ is_version self }
    {
        self.mark == VERSION
    }

    pub(crate) fn version(self) -> Version
        ensures { result ≡ version self }
    {
        Version {
            start: self.start,
            number: self.number,
        }
    }

    // The item with its end raised to `time`, if it starts at `start`.
    pub fn extended(self, start: u64, time: u64) -> Item
        ensures { result ≡ extends start time self }
    {
        if self.start == start {
            Item {
                end: self.end.max(time),
                ..self
            }
        } else {
            self
        }
    }

    // The item as a version, if it starts at `start`.
    pub fn sealed(self, start: u64) -> Item
        ensures { result ≡ seals start self }
    {
        if self.start == start {
            Item {
                mark: VERSION,
                ..self
            }
        } else {
            self
        }
    }
}

// Why a store turns an operation down, in the order of checking.
#[derive(Clone, Copy, PartialEq, Eq, Debug)]
pub enum Cause {
    // No such object.
    NoObject = 1,
    // A pseudo-time of 2^63 or more, or a mark above 64.
    OutOfRange = 2,
    // No item has that start.
    NoItem = 3,
    // Put inside another span, or extend to the next start or beyond.
    Overlap = 4,
    // Drop of a version.
    IsVersion = 5,
    // Put with room 0.
    NoRoom = 6,
}

impl Cause {
    // The number of the cause, for callers who see no more.
    pub fn number(self) -> u8
        ensures { result ≡ cause_number self }
    {
        self as u8
    }

    // The fault of a store that lies on no other.
    pub fn at_bottom(self, object: u32, time: u64) -> Fault
        ensures { result ≡ bottom_fault self object time }
    {
        Fault {
            cause: self,
            object,
            time,
            level: BOTTOM,
        }
    }
}

// A refused operation: its cause, the object and pseudo-time that it was given (0 if none),
// and the level of the store or layer that refused.
#[derive(Clone, Copy, PartialEq, Eq, Debug)]
pub struct Fault {
    pub cause: Cause,
    pub object: u32,
    pub time: u64,
    pub level: u8,
}
