// The rules of the items along a chain.
ghost use Rattle.std.specs.Prelude.{◌≡◌, ◌&&◌, ◌==◌};
ghost use Rattle.std.specs.List.{list_all};
ghost use Rattle.layout.specs.Layout.{path, items, vacant, blank, spanned, ascends, history};

use crate::record::item_at;
use crate::walk::Walk;
use history::item::{Item, LAST_MARK, TIME_LIMIT};

fn is_vacant(item: Item) -> bool
    ensures { result ≡ vacant item }
{
    item.start == 0 && item.end == 0 && item.mark == 0 && item.number == 0
}

fn is_spanned(item: Item) -> bool
    ensures { result ≡ spanned item }
{
    item.start <= item.end && item.end < TIME_LIMIT && item.mark <= LAST_MARK
}

fn begins(item: Item) -> bool
    ensures { result ≡ (item.start == 0 && item.mark == 0) }
{
    item.start == 0 && item.is_version()
}

// Whether the items of a chain are blank.
pub(crate) fn blanks_from(bytes: &[u8], from: u16) -> bool
    ensures { result ≡ list_all (blank bytes.now) (path bytes.now from) }
{
    Walk::new(bytes, from).all(|k| is_vacant(item_at(bytes, k)))
}

// Whether the items of a chain ascend.
fn ascends_from(bytes: &[u8], from: u16) -> bool
    ensures { result ≡ ascends (items bytes.now from) }
{
    // The next item starts at `low` at the earliest.
    let mut low = 0;
    for k in Walk::new(bytes, from) {
        let item = item_at(bytes, k);
        if item.start < low || !is_spanned(item) {
            return false;
        }
        low = item.end + 1;
    }
    true
}

// Whether the items of a chain are a history.
pub(crate) fn history_from(bytes: &[u8], from: u16) -> bool
    ensures { result ≡ history (items bytes.now from) }
{
    Walk::new(bytes, from)
        .next()
        .is_some_and(|first| begins(item_at(bytes, first)))
        && ascends_from(bytes, from)
}
