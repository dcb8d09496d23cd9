// A store over a table of records.
ghost use Rattle.std.specs.Prelude.{◌≡◌};
ghost use Rattle.chained.specs.Edits.{link, unlink};
ghost use Rattle.layout.specs.Edits.{with_end, with_mark};
ghost use Rattle.chained.specs.Means.{served};

use crate::plans::{Link, Stretch};
use history::item::{Item, VERSION};
use layout::header::free_in;
use layout::record::{next_at, set_end, set_free, set_item, set_mark, set_next};

// The bytes of a table. The store's ghost field speaks of them, so the writes to them are methods here.
#[derive(Drop)]
pub struct Table<'a> {
    pub(crate) bytes: &'a mut [u8],
}

impl<'a> Table<'a> {
    // Gives a record its new end.
    pub(crate) fn stretch(&mut self, stretch: Stretch)
        ensures { self.new.bytes.now ≡ with_end self.old.bytes.now stretch.at stretch.«end» }
    {
        set_end(self.bytes, stretch.at, stretch.end);
    }

    // Makes the item of a record a version.
    pub(crate) fn seal(&mut self, at: u16)
        ensures { self.new.bytes.now ≡ with_mark self.old.bytes.now at 0 }
    {
        set_mark(self.bytes, at, VERSION);
    }

    // Takes the first free record, and puts the item into the chain there.
    pub(crate) fn insert(&mut self, place: Link, item: Item)
        ensures { self.new.bytes.now ≡ link self.old.bytes.now place.previous place.at item }
    {
        let Link { previous, at } = place;
        let bytes = &mut *self.bytes;
        let rest = next_at(bytes, at);
        let next = next_at(bytes, previous);
        set_item(bytes, at, item);
        set_next(bytes, at, next);
        set_next(bytes, previous, at);
        set_free(bytes, rest);
    }

    // Takes the record out of its chain, and makes it the first free one.
    pub(crate) fn remove(&mut self, place: Link)
        ensures { self.new.bytes.now ≡ unlink self.old.bytes.now place.previous place.at }
    {
        let Link { previous, at } = place;
        let bytes = &mut *self.bytes;
        let free = free_in(bytes);
        let next = next_at(bytes, at);
        set_item(bytes, at, Item::default());
        set_next(bytes, at, free);
        set_next(bytes, previous, next);
        set_free(bytes, at);
    }

    pub(crate) fn into_bytes(self) -> &'a mut [u8]
        ensures { result.now ≡ self.entry.bytes.now }
    {
        let Table { bytes } = self;
        bytes
    }
}

// A store of the histories that the bytes lay out. It has no objects where they are not lawful: the count says so.
#[derive(Drop)]
pub struct Chained<'a> {
    pub(crate) table: Table<'a>,
    pub(crate) objects: u16,
    ghost lawful: { objects ≡ served table.bytes.now },
}
