ghost use Rattle.std.specs.Prelude.{◌≡◌};
ghost use Rattle.ledger.specs.Records.{record_at, standing_of, is_free, item_fate};
ghost use Rattle.ledger.specs.Checks.{record_check};
ghost use Rattle.ledger.specs.Refusals.{checked};
ghost use Rattle.ledger.specs.Ledger.{state_of};

use crate::ledger::Ledger;
use crate::number::{RecordNumber, Site};
use crate::record::{CommitRecord, Event, Standing};
use crate::refusal::Refusal;
use crate::time::starts_under;
use history::item::Item;

// How records stand, and with them the tokens that belong to them.
impl Ledger {
    // How a record stands now: it expires the moment its site's clock reaches the expiry.
    pub(super) fn standing_of(&self, used: CommitRecord) -> Standing
        ensures { result ≡ standing_of self.now.clocks used }
    {
        if used.expiry <= self.clock(Site::of(used.creation)) {
            used.standing.after(Event::Expiry)
        } else {
            used.standing
        }
    }

    pub(super) fn is_free(&self, number: RecordNumber) -> bool
        ensures { result ≡ is_free self.now.clocks (record_at self.now.records number) }
    {
        self.record(number).is_none_or(|record| self.standing_of(record) != Standing::Open
            && record.tokens == 0)
    }

    // How a record stands, none if it is unused, and how many of its tokens are left.
    pub fn standing(&self, number: u32) -> Result<(Option<Standing>, u32), Refusal>
        ensures { result ≡ checked (record_check number) (state_of self.now.clocks (record_at self.now.records number)) }
    {
        let number = RecordNumber::try_from(number)?;
        match self.record(number) {
            None => Ok((None, 0)),
            Some(record) => Ok((Some(self.standing_of(record)), record.tokens)),
        }
    }

    // The standing of the record that a token belongs to: aborted where it belongs to none.
    // A version counts as open, so that it stays.
    pub fn fate(&self, item: Item) -> Standing
        ensures { result ≡ item_fate self.now.records self.now.clocks item }
    {
        if item.is_version() {
            return Standing::Open;
        }
        let number = RecordNumber::try_from(u32::from(item.mark));
        match number.ok().and_then(|number| self.record(number)) {
            Some(record) if starts_under(item, record.creation) => self.standing_of(record),
            _ => Standing::Aborted,
        }
    }
}
