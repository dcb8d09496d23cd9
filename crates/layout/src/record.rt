// The records of a table of bytes, by their numbers from 1. Record 0 is the header.
ghost use Rattle.std.specs.Prelude.{◌≡◌, ◌*◌, ◌≤◌, true, length};
ghost use Rattle.layout.specs.Edits.{with_end, with_next, with_mark, with_item, with_free, ended, marked, Changed, Freed};
ghost use Rattle.layout.specs.Layout.{item_at, next_at, has_record, record_in};

use crate::field::{byte, bytes_at, put};
use history::item::Item;

// An item, and the number of the next record of its chain, or 0.
#[derive(Clone, Copy)]
pub struct Record {
    pub item: Item,
    pub next: u16,
}

// Where record k begins.
pub(crate) fn offset(k: u16) -> usize
    ensures { result ≡ 32 * k }
{
    32 * usize::from(k)
}

// The item of record k; bytes past the end count as 0.
pub fn item_at(bytes: &[u8], k: u16) -> Item
    ensures { result ≡ item_at bytes.now k }
{
    let at = offset(k);
    Item {
        start: u64::from_be_bytes(bytes_at(bytes, at)),
        end: u64::from_be_bytes(bytes_at(bytes, at + 8)),
        mark: byte(bytes, at, 18),
        number: u64::from_be_bytes(bytes_at(bytes, at + 24)),
    }
}

// The record after k in its chain, or 0.
pub fn next_at(bytes: &[u8], k: u16) -> u16
    ensures { result ≡ next_at bytes.now k }
{
    u16::from_be_bytes(bytes_at(bytes, offset(k) + 16))
}

// Record k, or nothing where k is 0 or the record does not lie wholly in the bytes.
pub fn record_at(bytes: &[u8], k: u16) -> Option<Record>
    ensures { result ≡ record_in bytes.now k }
{
    if k == 0 || bytes.len() < offset(k) + 32 {
        return None;
    }
    Some(Record {
        item: item_at(bytes, k),
        next: next_at(bytes, k),
    })
}

pub fn set_end(bytes: &mut [u8], k: u16, end: u64)
    ensures bytes { bytes.new ≡ with_end bytes.old k «end» }
    ensures change { has_record bytes.old k ≡ true → Changed bytes.old k (ended «end» (item_at bytes.old k)) (next_at bytes.old k) bytes.new }
{
    put(bytes, offset(k) + 8, &end.to_be_bytes());
}

pub fn set_next(bytes: &mut [u8], k: u16, next: u16)
    ensures bytes { bytes.new ≡ with_next bytes.old k next }
    ensures change { has_record bytes.old k ≡ true → Changed bytes.old k (item_at bytes.old k) next bytes.new }
{
    put(bytes, offset(k) + 16, &next.to_be_bytes());
}

pub fn set_mark(bytes: &mut [u8], k: u16, mark: u8)
    ensures bytes { bytes.new ≡ with_mark bytes.old k mark }
    ensures change { has_record bytes.old k ≡ true → Changed bytes.old k (marked mark (item_at bytes.old k)) (next_at bytes.old k) bytes.new }
{
    put(bytes, offset(k) + 18, &mark.to_be_bytes());
}

pub fn set_item(bytes: &mut [u8], k: u16, item: Item)
    ensures bytes { bytes.new ≡ with_item bytes.old k item }
    ensures change { has_record bytes.old k ≡ true → Changed bytes.old k item (next_at bytes.old k) bytes.new }
{
    let at = offset(k);
    put(bytes, at, &item.start.to_be_bytes());
    put(bytes, at + 8, &item.end.to_be_bytes());
    put(bytes, at + 18, &item.mark.to_be_bytes());
    put(bytes, at + 24, &item.number.to_be_bytes());
}

// Makes k the first free record.
pub fn set_free(bytes: &mut [u8], k: u16)
    ensures bytes { bytes.new ≡ with_free bytes.old k }
    ensures change { 10 ≤ length bytes.old → Freed bytes.old k bytes.new }
{
    put(bytes, 8, &k.to_be_bytes());
}
