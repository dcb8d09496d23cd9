mod changes;
mod checks;
mod fates;

ghost use Rattle.std.specs.Prelude.{◌≡◌, pred, ◌+◌, ◌<◌, ◌≤◌, replicate, slice_set, None};
ghost use Rattle.ledger.specs.Records.{clock_at, record_at, take_stamp};
ghost use Rattle.ledger.specs.Ledger.{Counted, tokens_in, site_in};
ghost use Rattle.ledger.specs.Time.{spent_at};

use crate::number::{RecordNumber, Site};
use crate::record::CommitRecord;

// The commit records and the clocks of the sites.
#[derive(Drop)]
pub struct Ledger {
    records: [Option<CommitRecord>; 64],
    clocks: [u32; 16],
    ghost counted: { Counted records clocks },
}

impl Ledger {
    // No record in use, and every clock at the first.
    pub fn new(clock: u32) -> Ledger
        ensures records { result.records ≡ replicate 64 None }
        ensures clocks { result.clocks ≡ replicate 16 clock }
    {
        Ledger {
            records: [None; 64],
            clocks: [clock; 16],
        }
    }

    fn clock(&self, site: Site) -> u32
        ensures { result ≡ clock_at self.now.clocks site }
    {
        self.clocks[site.number() as usize]
    }

    fn record(&self, number: RecordNumber) -> Option<CommitRecord>
        ensures { result ≡ record_at self.now.records number }
    {
        self.records[number.index()]
    }

    // Writes a commit record. It takes the record and not a closure that changes one, so that the
    // contract can name what is written.
    fn write(&mut self, number: RecordNumber, new: Option<CommitRecord>)
        requires counted { tokens_in new ≤ clock_at self.old.clocks (site_in new) }
        ensures records { self.new.records ≡ slice_set self.old.records (pred number) new }
        ensures clocks { self.new.clocks ≡ self.old.clocks }
    {
        self.records[number.index()] = new;
    }

    // Moves a clock on.
    fn set_clock(&mut self, site: Site, clock: u32)
        requires onward { clock_at self.old.clocks site ≤ clock }
        ensures records { self.new.records ≡ self.old.records }
        ensures clocks { self.new.clocks ≡ slice_set self.old.clocks site clock }
        ensures there { clock_at self.new.clocks site ≡ clock }
    {
        self.clocks[site.number() as usize] = clock;
    }

    // Moves a clock past the timestamp that it gives.
    fn step_clock(&mut self, site: Site)
        requires unspent { clock_at self.old.clocks site < spent_at }
        ensures records { self.new.records ≡ self.old.records }
        ensures clocks { self.new.clocks ≡ take_stamp self.old.clocks site }
        ensures there { clock_at self.new.clocks site ≡ clock_at self.old.clocks site + 1 }
    {
        self.set_clock(site, self.clock(site) + 1);
    }
}
