ghost use Rattle.std.specs.Prelude.{◌≡◌, ◌<◌};
ghost use Rattle.history.specs.Meaning.{chain_of, objects_of};
ghost use Rattle.register.specs.Start.{fit_item, fit_chain, fit_chains};

use history::item::Item;
use history::store::Store;
use ledger::limits::PER_CLOCK;

// A store has fewer items of an object than this.
const PLACES: u32 = 65_536;

// Whether an item is a version that ends before a clock.
fn is_item_before(item: Item, clock: u32) -> bool
    ensures { result ≡ fit_item clock item }
{
    item.is_version() && item.end / PER_CLOCK < u64::from(clock)
}

// Whether every item of an object is a version that ends before a clock.
fn is_object_before<S: Store>(store: &S, object: u32, clock: u32) -> bool
    ensures { object < objects_of (S.Store.means store.now) → result ≡ fit_chain clock (chain_of (S.Store.means store.now) object) }
{
    // A store answers by place.
    for place in 0..PLACES {
        let Ok(next) = store.at(object, place) else {
            return false;
        };
        let Some(item) = next else {
            return true;
        };
        if !is_item_before(item, clock) {
            return false;
        }
    }
    false
}

// Whether every item of a store is a version that ends before a clock.
pub(crate) fn is_before<S: Store>(store: &S, clock: u32) -> bool
    ensures { result ≡ fit_chains clock (S.Store.means store.now).chains }
{
    for object in 0..store.objects() {
        if !is_object_before(store, object, clock) {
            return false;
        }
    }
    true
}
