// Bytes laid out anew.
ghost use Rattle.std.specs.Prelude.{◌≡◌, ◌+◌, ◌-◌, ◌≤◌, true, ◌++◌, map, length, codes, Some, is_ok, if◌then◌else◌};
ghost use Rattle.std.specs.List.{range_with_len};
ghost use Rattle.layout.specs.Laid.{fits, zeros, after, head, with_rows, laid_out, Laid};

use crate::field::put;
use crate::lawful::{MAGIC, is_sized};
use crate::record::set_next;
use std::error::Error;
use std::fmt;

// The objects, records and numbers do not fit the bytes.
#[derive(Clone, Copy, PartialEq, Eq, Debug)]
pub struct Unfit;

impl fmt::Display for Unfit {
    ghost output = { λ _. Some (codes "the objects, records and numbers do not fit the bytes") };

    fn fmt<W: fmt::Write>(&self, f: &mut fmt::Formatter<W>) -> fmt::Result {
        f.write_str("the objects, records and numbers do not fit the bytes")
    }
}

impl Error for Unfit {}

fn suits(bytes: &[u8], objects: u16, records: u16, numbers: &[u64]) -> bool
    ensures { result ≡ fits objects records (length bytes.now) (length numbers.now) }
{
    is_sized(objects, records, bytes.len()) && numbers.len() == usize::from(objects)
}

// The record after k, or 0 after the last.
fn follower(k: u16, last: u16) -> u16
    ensures { result ≡ after last k }
{
    if k < last { k + 1 } else { 0 }
}

// A header, and nothing else.
fn clear(bytes: &mut [u8], objects: u16, records: u16)
    requires { 32 ≤ length bytes.old }
    ensures { bytes.new ≡ head objects records ++ zeros (length bytes.old - 32) }
{
    bytes.fill(0);
    put(bytes, 0, &MAGIC);
    put(bytes, 4, &objects.to_be_bytes());
    put(bytes, 6, &records.to_be_bytes());
    put(bytes, 8, &follower(objects, records).to_be_bytes());
}

// The number of each version, from record 1 on.
fn number(bytes: &mut [u8], numbers: &[u64])
    requires { length numbers.now ≤ 128 }
    ensures { bytes.new ≡ with_rows 24 8 bytes.old 1 numbers.now }
{
    for (o, number) in numbers.iter().enumerate() {
        put(bytes, 32 * (o + 1) + 24, &number.to_be_bytes());
    }
}

// Chains the records after `objects`, up to `last`.
fn spare(bytes: &mut [u8], objects: u16, last: u16)
    requires order { objects ≤ last }
    requires most { last ≤ 2047 }
    ensures { bytes.new ≡ with_rows 16 2 bytes.old (objects + 1) (map (after last) (range_with_len (objects + 1) (last - objects))) }
{
    for k in objects..last {
        set_next(bytes, k + 1, follower(k + 1, last));
    }
}

// Lays out `objects` objects, each with one version from 0 to 0 and its number, and makes the other records free.
pub fn lay_out(bytes: &mut [u8], objects: u16, records: u16, numbers: &[u64]) -> Result<(), Unfit>
    ensures answer { is_ok result ≡ fits objects records (length bytes.old) (length numbers.now) }
    ensures bytes { bytes.new ≡ (if fits objects records (length bytes.old) (length numbers.now) then laid_out objects records numbers.now else bytes.old) }
    ensures laid { is_ok result ≡ true → Laid objects records numbers.now bytes.new }
{
    if !suits(bytes, objects, records, numbers) {
        return Err(Unfit);
    }
    clear(bytes, objects, records);
    number(bytes, numbers);
    spare(bytes, objects, records);
    Ok(())
}
