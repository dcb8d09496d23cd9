// Searches along a chain of records.
ghost use Rattle.std.specs.Prelude.{◌≡◌};
ghost use Rattle.history.specs.Chain.{nth_item};
ghost use Rattle.layout.specs.Layout.{path, items};
ghost use Rattle.chained.specs.Edits.{last_by};

use history::item::Item;
use layout::record::item_at;
use layout::walk::Walk;

// The item at a place of the chain that begins at record `from`.
pub(crate) fn nth_from(bytes: &[u8], from: u16, place: u32) -> Option<Item>
    ensures { result ≡ nth_item (items bytes.now from) place }
{
    let k = Walk::new(bytes, from).nth(place as usize)?;
    Some(item_at(bytes, k))
}

// The last record before the first of the chain that starts after `time`, or 0.
pub(crate) fn last_by(bytes: &[u8], from: u16, time: u64) -> u16
    ensures { result ≡ last_by bytes.now time 0 (path bytes.now from) }
{
    Walk::new(bytes, from)
        .take_while(|k| item_at(bytes, *k).start <= time)
        .last()
        .unwrap_or(0)
}
