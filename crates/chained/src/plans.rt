// What a store finds out before it changes a record.
ghost use Rattle.std.specs.Prelude.{◌≡◌, ◌+◌, ◌-◌};
ghost use Rattle.history.specs.Meaning.Op.{Find, At, Extend, Put, Seal, Drop};
ghost use Rattle.layout.specs.Layout.{free_in};
ghost use Rattle.chained.specs.Edits.{record_by};
ghost use Rattle.chained.specs.Plans.{Planned, IsPlace, IsStretch, IsLink};

use crate::chain::last_by;
use crate::table::Chained;
use history::item::{Cause, Item, LAST_MARK, TIME_LIMIT};
use layout::header::free_in;
use layout::record::item_at;

// A record and its item.
#[derive(Clone, Copy)]
pub(crate) struct Place {
    pub(crate) at: u16,
    pub(crate) item: Item,
}

// A record, and its new end.
#[derive(Clone, Copy)]
pub(crate) struct Stretch {
    pub(crate) at: u16,
    pub(crate) end: u64,
}

// A record, and the one that it follows in its chain.
#[derive(Clone, Copy)]
pub(crate) struct Link {
    pub(crate) previous: u16,
    pub(crate) at: u16,
}

impl<'a> Chained<'a> {
    // The first record of an object's chain.
    pub(crate) fn first(&self, object: u32) -> Result<u16, Cause>
        ensures { Planned self.now.table.bytes.now object At (λ k. k ≡ object + 1) result }
    {
        match u16::try_from(object) {
            Ok(o) if o < self.objects => Ok(o + 1),
            _ => Err(Cause::NoObject),
        }
    }

    // The last record of an object's chain that starts at `time` or before.
    pub(crate) fn place(&self, object: u32, time: u64) -> Result<Place, Cause>
        ensures { Planned self.now.table.bytes.now object (Find time) (IsPlace self.now.table.bytes.now object time) result }
    {
        let first = self.first(object)?;
        if time >= TIME_LIMIT {
            return Err(Cause::OutOfRange);
        }
        let at = last_by(self.table.bytes, first, time);
        let item = item_at(self.table.bytes, at);
        Ok(Place { at, item })
    }

    // The record to extend, and its new end.
    pub(crate) fn stretched(&self, object: u32, start: u64, time: u64) -> Result<Stretch, Cause>
        ensures { Planned self.now.table.bytes.now object (Extend start time) (IsStretch self.now.table.bytes.now object start time) result }
    {
        let place = self.place(object, start)?;
        let last = self.place(object, time)?;
        if place.item.start != start {
            return Err(Cause::NoItem);
        }
        if last.item.start > start {
            return Err(Cause::Overlap);
        }
        Ok(Stretch {
            at: place.at,
            end: place.item.end.max(time),
        })
    }

    // The record that a new one follows, and the record for it.
    pub(crate) fn placed(
        &self,
        object: u32,
        time: u64,
        mark: u8,
        number: u64,
    ) -> Result<Link, Cause>
        ensures { Planned self.now.table.bytes.now object (Put time mark number) (IsLink (record_by self.now.table.bytes.now object time) (free_in self.now.table.bytes.now)) result }
    {
        let previous = self.place(object, time)?;
        if mark > LAST_MARK {
            return Err(Cause::OutOfRange);
        }
        if previous.item.end >= time {
            return Err(Cause::Overlap);
        }
        let at = free_in(self.table.bytes);
        if at == 0 {
            return Err(Cause::NoRoom);
        }
        Ok(Link {
            previous: previous.at,
            at,
        })
    }

    // The record whose item starts at `start`.
    pub(crate) fn sealed(&self, object: u32, start: u64) -> Result<Place, Cause>
        ensures { Planned self.now.table.bytes.now object (Seal start) (IsPlace self.now.table.bytes.now object start) result }
    {
        let place = self.place(object, start)?;
        if place.item.start != start {
            return Err(Cause::NoItem);
        }
        Ok(place)
    }

    // The record before the one to drop, and that one.
    pub(crate) fn dropped(&self, object: u32, start: u64) -> Result<Link, Cause>
        ensures { Planned self.now.table.bytes.now object (Drop start) (IsLink (record_by self.now.table.bytes.now object (start - 1)) (record_by self.now.table.bytes.now object start)) result }
    {
        let place = self.sealed(object, start)?;
        if place.item.is_version() {
            return Err(Cause::IsVersion);
        }
        let previous = self.place(object, start - 1)?;
        Ok(Link {
            previous: previous.at,
            at: place.at,
        })
    }
}
