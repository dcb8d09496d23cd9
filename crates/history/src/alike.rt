ghost use Rattle.std.specs.Prelude.{◌≡◌, Decides};
ghost use Rattle.std.specs.Iterator.{YieldsFirst, item_count};
ghost use Rattle.history.specs.Alike.{Alike, versions};
ghost use Rattle.history.specs.Chain.{nth_item};
ghost use Rattle.history.specs.Meaning.{chain_of};
ghost use Rattle.history.specs.Versions.{versions_left};

use crate::item::{Item, Version};
use crate::store::Store;

// The versions of an object, from a place of its chain on.
#[derive(Drop)]
struct Versions<'a, S> {
    store: &'a S,
    object: u32,
    place: u32,
}

impl<'a, S: Store> Versions<'a, S> {
    fn of(store: &'a S, object: u32) -> Self
        ensures { versions_left S.Store.means result ≡ versions (chain_of (S.Store.means store.now) object) }
    {
        Versions {
            store,
            object,
            place: 0,
        }
    }

    // The item at the place, or nothing past the end of the chain.
    fn item(&self) -> Option<Item>
        ensures { result ≡ nth_item (chain_of (S.Store.means self.now.store.now) self.now.object) self.now.place }
    {
        self.store.at(self.object, self.place).ok().flatten()
    }
}

impl<'a, S: Store> Iterator for Versions<'a, S> {
    type Item = Version;

    ghost next_gives = { YieldsFirst (versions_left S.Store.means) };

    ghost remaining = { item_count (versions_left S.Store.means) };

    fn next(&mut self) -> Option<Version> {
        while let Some(item) = self.item() {
            self.place += 1;
            if item.is_version() {
                return Some(item.version());
            }
        }
        None
    }
}

// Whether an object has the same versions in both stores.
fn alike_object<A: Store, B: Store>(a: &A, b: &B, object: u32) -> bool
    ensures { Decides result (versions (chain_of (A.Store.means a.now) object) ≡ versions (chain_of (B.Store.means b.now) object)) }
{
    Versions::of(a, object).eq(Versions::of(b, object))
}

// Whether two stores have equally many objects, each with the same versions by start and number.
pub fn alike<A: Store, B: Store>(a: &A, b: &B) -> bool
    ensures { Decides result (Alike (A.Store.means a.now) (B.Store.means b.now)) }
{
    let count = a.objects();
    count == b.objects() && (0..count).all(|object| alike_object(a, b, object))
}
