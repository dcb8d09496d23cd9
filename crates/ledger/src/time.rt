ghost use Rattle.std.specs.Prelude.{◌≡◌, ◌==◌};
ghost use Rattle.ledger.specs.Time.{pseudo, creation_of};

use crate::limits::PER_CREATION;
use history::item::Item;

// The pseudo-time of a creation and a selection.
pub(crate) fn pseudo_time(creation: u32, selection: u32) -> u64
    ensures { result ≡ pseudo creation selection }
{
    u64::from(creation) * PER_CREATION + u64::from(selection)
}

// Whether an item starts at a pseudo-time of this creation.
pub fn starts_under(item: Item, creation: u32) -> bool
    ensures { result ≡ (creation_of item.start == creation) }
{
    item.start / PER_CREATION == u64::from(creation)
}
