// Walks along the chains of records.
ghost use Rattle.std.specs.Prelude.{◌≡◌};
ghost use Rattle.std.specs.Iterator.{YieldsFirst, item_count};
ghost use Rattle.layout.specs.Layout.{path};
ghost use Rattle.layout.specs.Walks.{left_of};

use crate::header::records_in;
use crate::record::next_at;

// The numbers of the records that are left of a chain.
#[derive(Clone, Drop)]
pub struct Walk<'a> {
    bytes: &'a [u8],
    next: u16,
    // No chain has more records than the table: a walk round a circle ends.
    left: u16,
}

impl<'a> Walk<'a> {
    // The chain that begins at record `from`.
    pub fn new(bytes: &'a [u8], from: u16) -> Walk<'a>
        ensures { left_of result ≡ path bytes.now from }
    {
        Walk {
            bytes,
            next: from,
            left: records_in(bytes),
        }
    }
}

impl<'a> Iterator for Walk<'a> {
    type Item = u16;

    ghost next_gives = { YieldsFirst left_of };

    ghost remaining = { item_count left_of };

    fn next(&mut self) -> Option<u16> {
        let k = self.next;
        if k == 0 || self.left == 0 {
            return None;
        }
        self.next = next_at(self.bytes, k);
        self.left -= 1;
        Some(k)
    }
}
