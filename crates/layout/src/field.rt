// Bytes at an offset of a slice of bytes. Fields hold their numbers with the highest byte first.
ghost use Rattle.std.specs.Prelude.{◌≡◌, ℕ, ◌+◌, ◌<◌, length, nat_le, slice_index, IfSome};
ghost use Rattle.layout.specs.Field.{put_bytes};

use std::array;

// Whether `width` bytes from `at` on lie in the bytes.
fn fits(bytes: &[u8], at: usize, width: usize) -> bool
    ensures { result ≡ nat_le (at + width) (length bytes.now) }
{
    at <= bytes.len() && width <= bytes.len() - at
}

// The byte i places after `at`, or 0 past the end.
pub(crate) fn byte(bytes: &[u8], at: usize, i: usize) -> u8
    ensures { result ≡ slice_index bytes.now (at + i) }
{
    if at < bytes.len() && i < bytes.len() - at {
        bytes[at + i]
    } else {
        0
    }
}

// The N bytes from `at` on, where they lie in the bytes.
fn chunk_at<const N: usize>(bytes: &[u8], at: usize) -> Option<&[u8; N]>
    ensures { IfSome result (λ part. (i : ℕ) → i < N → slice_index part.now i ≡ slice_index bytes.now (at + i)) }
{
    bytes.get(at..)?.first_chunk()
}

// The N bytes from `at` on, taken at once where they lie in the bytes.
pub(crate) fn bytes_at<const N: usize>(bytes: &[u8], at: usize) -> [u8; N]
    ensures { (i : ℕ) → i < N → slice_index result i ≡ slice_index bytes.now (at + i) }
{
    match chunk_at(bytes, at) {
        Some(part) => *part,
        None => array::from_fn(|i| byte(bytes, at, i)),
    }
}

// Writes the part over the bytes from `at` on, or nothing where it does not fit.
pub(crate) fn put(bytes: &mut [u8], at: usize, part: &[u8])
    ensures { bytes.new ≡ put_bytes bytes.old at part.now }
{
    if fits(bytes, at, part.len()) {
        bytes[at..at + part.len()].copy_from_slice(part);
    }
}
