// Whether a row accepts an operation.
ghost use Rattle.std.specs.Prelude.{◌≡◌};
ghost use Rattle.history.specs.Chain.{some_item, has_start, starts_within, covers};
ghost use Rattle.history.specs.Meaning.{version_at};
ghost use Rattle.history.specs.Meaning.Op.{Find, Extend, Put, Seal, Drop};
ghost use Rattle.rows.specs.Rowed.{row_chain, row_verdict};

use crate::row::Row;
use history::item::{Cause, LAST_MARK, TIME_LIMIT};

impl Row {
    fn has_start(&self, start: u64) -> bool
        ensures { result ≡ some_item (has_start start) (row_chain self.now) }
    {
        self.items.iter().any(|item| item.start == start)
    }

    fn starts_within(&self, start: u64, time: u64) -> bool
        ensures { result ≡ some_item (starts_within start time) (row_chain self.now) }
    {
        self.items
            .iter()
            .any(|item| start < item.start && item.start <= time)
    }

    fn covers(&self, time: u64) -> bool
        ensures { result ≡ some_item (covers time) (row_chain self.now) }
    {
        self.items.iter().any(|item| item.covers(time))
    }

    fn version_at(&self, start: u64) -> bool
        ensures { result ≡ version_at start (row_chain self.now) }
    {
        self.items
            .iter()
            .any(|item| item.start == start && item.is_version())
    }

    pub(crate) fn may_find(&self, time: u64) -> Result<(), Cause>
        ensures { result ≡ row_verdict self.now (Find time) }
    {
        if time >= TIME_LIMIT {
            return Err(Cause::OutOfRange);
        }
        Ok(())
    }

    pub(crate) fn may_extend(&self, start: u64, time: u64) -> Result<(), Cause>
        ensures { result ≡ row_verdict self.now (Extend start time) }
    {
        if start >= TIME_LIMIT || time >= TIME_LIMIT {
            return Err(Cause::OutOfRange);
        }
        if !self.has_start(start) {
            return Err(Cause::NoItem);
        }
        if self.starts_within(start, time) {
            return Err(Cause::Overlap);
        }
        Ok(())
    }

    pub(crate) fn may_put(&self, time: u64, mark: u8, number: u64) -> Result<(), Cause>
        ensures { result ≡ row_verdict self.now (Put time mark number) }
    {
        if time >= TIME_LIMIT || mark > LAST_MARK {
            return Err(Cause::OutOfRange);
        }
        if self.covers(time) {
            return Err(Cause::Overlap);
        }
        if self.items.is_full() {
            return Err(Cause::NoRoom);
        }
        Ok(())
    }

    pub(crate) fn may_seal(&self, start: u64) -> Result<(), Cause>
        ensures { result ≡ row_verdict self.now (Seal start) }
    {
        if start >= TIME_LIMIT {
            return Err(Cause::OutOfRange);
        }
        if !self.has_start(start) {
            return Err(Cause::NoItem);
        }
        Ok(())
    }

    pub(crate) fn may_drop(&self, start: u64) -> Result<(), Cause>
        ensures { result ≡ row_verdict self.now (Drop start) }
    {
        if start >= TIME_LIMIT {
            return Err(Cause::OutOfRange);
        }
        if !self.has_start(start) {
            return Err(Cause::NoItem);
        }
        if self.version_at(start) {
            return Err(Cause::IsVersion);
        }
        Ok(())
    }
}
