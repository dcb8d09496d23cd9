// Whether bytes are lawful.
ghost use Rattle.std.specs.Prelude.{◌≡◌, ◌+◌, List, length, Decides, ◌==◌, nat_eq};
ghost use Rattle.history.specs.declared.item.Item.{Item};
ghost use Rattle.history.specs.Chain.{Lawful};
ghost use Rattle.layout.specs.Field.{num};
ghost use Rattle.layout.specs.Layout.{lawful, header, sized, pad_at, items, history, each_below, objects_in, records_in};

use crate::chain::{blanks_from, history_from};
use crate::field::byte;
use crate::header::{free_in, objects_in, records_in};
use crate::marks::is_threaded;
use crate::record::offset;

// The first bytes of a table.
pub(crate) const MAGIC: [u8; 4] = *b"PTH1";

fn has_magic(bytes: &[u8]) -> bool
    ensures { result ≡ (num bytes.now 0 4 == 0x50544831) }
{
    bytes.starts_with(&MAGIC)
}

// Whether `count` bytes from `at` on are zero.
fn zero_at(bytes: &[u8], at: usize, count: usize) -> bool
    ensures { result ≡ (num bytes.now at count == 0) }
{
    (0..count).all(|i| byte(bytes, at, i) == 0)
}

// Whether a table of so many objects and records has this size.
pub(crate) fn is_sized(objects: u16, records: u16, size: usize) -> bool
    ensures { result ≡ sized objects records size }
{
    (1..=128).contains(&objects)
        && (objects..=2047).contains(&records)
        && size == 32 * (usize::from(records) + 1)
}

fn is_header(bytes: &[u8]) -> bool
    ensures { result ≡ header bytes.now }
{
    has_magic(bytes)
        && is_sized(objects_in(bytes), records_in(bytes), bytes.len())
        && zero_at(bytes, 10, 22)
}

// Whether the unused bytes of each record are zero.
fn pads_zero(bytes: &[u8]) -> bool
    ensures { result ≡ each_below (records_in bytes.now) (λ k. nat_eq (pad_at bytes.now (k + 1)) 0) }
{
    (0..records_in(bytes)).all(|k| zero_at(bytes, offset(k + 1) + 19, 5))
}

// Whether the chain of each object is a history.
fn histories(bytes: &[u8]) -> bool
    ensures { result ≡ each_below (objects_in bytes.now) (λ o. history (items bytes.now (o + 1))) }
{
    (0..objects_in(bytes)).all(|o| history_from(bytes, o + 1))
}

// Whether the bytes are lawful: each record is visited a few times at most.
// The test of a chain's items is the rule of a history.
pub fn is_lawful(bytes: &[u8]) -> bool
    ensures answer { result ≡ lawful bytes.now }
    ensures rules { (xs : List Item) → Decides (history xs) (Lawful xs) }
{
    is_header(bytes)
        && pads_zero(bytes)
        && is_threaded(bytes)
        && blanks_from(bytes, free_in(bytes))
        && histories(bytes)
}
