// Whether each record is in one chain.
ghost use Rattle.std.specs.Prelude.{◌≡◌, ℕ, ◌+◌, ◌*◌, ◌<◌, true, length};
ghost use Rattle.layout.specs.Layout.{header, records_in, threaded};
ghost use Rattle.layout.specs.Marks.{tick, Marked, AllMarked};

use crate::header::{free_in, objects_in, records_in};
use crate::record::record_at;

// Marks the records of a chain. Refused where the chain leaves the table or comes to a marked record:
// a `Walk` would end there and not tell.
fn mark_from(bytes: &[u8], from: u16, seen: &mut [bool]) -> bool
    requires size { length bytes.now ≡ 32 * (records_in bytes.now + 1) }
    requires few { records_in bytes.now < length seen.old }
    ensures { Marked bytes.now from seen.old seen.new result }
{
    let mut k = from;
    while k != 0 {
        let Some(record) = record_at(bytes, k) else {
            return false;
        };
        if seen[usize::from(k)] {
            return false;
        }
        seen[usize::from(k)] = true;
        k = record.next;
    }
    true
}

// Marks the records of all chains, the free one first.
fn mark_all(bytes: &[u8], seen: &mut [bool]) -> bool
    requires header { header bytes.now ≡ true }
    requires few { length seen.old ≡ 2048 }
    requires clear { (y : ℕ) → tick seen.old y ≡ 0 }
    ensures { AllMarked bytes.now seen.new result }
{
    if !mark_from(bytes, free_in(bytes), seen) {
        return false;
    }
    // A `for`: of the marks that a closure writes, nothing is known after `all`.
    for o in 0..objects_in(bytes) {
        if !mark_from(bytes, o + 1, seen) {
            return false;
        }
    }
    true
}

// Whether every chain ends in the table and each record is in one of them.
pub(crate) fn is_threaded(bytes: &[u8]) -> bool
    requires { header bytes.now ≡ true }
    ensures { result ≡ threaded bytes.now }
{
    let records = usize::from(records_in(bytes));
    let mut seen = [false; 2048];
    mark_all(bytes, &mut seen) && seen[1..=records].iter().all(|marked| *marked)
}
