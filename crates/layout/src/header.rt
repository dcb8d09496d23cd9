// The fields of the header.
ghost use Rattle.std.specs.Prelude.{◌≡◌};
ghost use Rattle.layout.specs.Layout.{objects_in, records_in, free_in};

use crate::field::bytes_at;

// How many objects the table has.
pub fn objects_in(bytes: &[u8]) -> u16
    ensures { result ≡ objects_in bytes.now }
{
    u16::from_be_bytes(bytes_at(bytes, 4))
}

// How many records the table has, the header not counted.
pub fn records_in(bytes: &[u8]) -> u16
    ensures { result ≡ records_in bytes.now }
{
    u16::from_be_bytes(bytes_at(bytes, 6))
}

// The first free record, or 0.
pub fn free_in(bytes: &[u8]) -> u16
    ensures { result ≡ free_in bytes.now }
{
    u16::from_be_bytes(bytes_at(bytes, 8))
}
