ghost use Rattle.std.specs.Prelude.{◌≡◌, ◌<◌, ◌≤◌, ℕ, pred};
ghost use Rattle.ledger.specs.Checks.{record_check, site_check};
ghost use Rattle.ledger.specs.Refusals.{checked};
ghost use Rattle.ledger.specs.Time.{site_of};

use crate::limits::{RECORDS, SITES};
use crate::refusal::Refusal;
use std::marker::Model;

// The number of a commit record, from 1 to 64.
#[derive(Clone, Copy, PartialEq, Eq, Debug)]
pub(crate) struct RecordNumber {
    number: u32,
}

impl Model for RecordNumber {
    ghost Value = { ℕ };

    ghost view = { λ r. r.number };

    ghost invariant = { λ r. (1 ≤ r.number) × (r.number ≤ 64) };

    ghost inverse = { λ n. record { number = n } };
}

impl TryFrom<u32> for RecordNumber {
    type Error = Refusal;

    ghost try_from_gives = { λ number result. result ≡ checked (record_check number) number };

    fn try_from(number: u32) -> Result<RecordNumber, Refusal> {
        if !(1..=RECORDS).contains(&number) {
            return Err(Refusal::NoRecord);
        }
        Ok(RecordNumber { number })
    }
}

impl RecordNumber {
    // Where the record lies among the others.
    pub(crate) fn index(self) -> usize
        ensures index { result ≡ pred self }
        ensures within { result < 64 }
    {
        (self.number - 1) as usize
    }
}

// The number of a site, from 0 to 15.
#[derive(Clone, Copy, PartialEq, Eq, Debug)]
pub(crate) struct Site {
    number: u32,
}

impl Model for Site {
    ghost Value = { ℕ };

    ghost view = { λ s. s.number };

    ghost invariant = { λ s. s.number < 16 };

    ghost inverse = { λ n. record { number = n } };
}

impl TryFrom<u32> for Site {
    type Error = Refusal;

    ghost try_from_gives = { λ site result. result ≡ checked (site_check site) site };

    fn try_from(number: u32) -> Result<Site, Refusal> {
        if number >= SITES {
            return Err(Refusal::OutOfRange);
        }
        Ok(Site { number })
    }
}

impl Site {
    // The site that gave a timestamp.
    pub(crate) fn of(timestamp: u32) -> Site
        ensures { result ≡ site_of timestamp }
    {
        Site {
            number: timestamp % SITES,
        }
    }

    pub(crate) fn number(self) -> u32
        ensures number { result ≡ self }
        ensures within { result < 16 }
    {
        self.number
    }
}
