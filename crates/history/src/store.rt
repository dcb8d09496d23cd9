ghost use Rattle.std.specs.Prelude.{◌≡◌, ℕ};
ghost use Rattle.history.specs.Chain.{nth_item};
ghost use Rattle.history.specs.Meaning.{Meaning, Sound, Outcome, answered, chain_of, objects_of, FindAnswer};
ghost use Rattle.history.specs.Meaning.Op.{Find, At, Extend, Put, Seal, Drop};

use crate::item::{Fault, Item};

// Histories of objects, by what they mean. A layer over a store is a store.
pub trait Store {
    ghost means: { Self → Meaning };

    ghost height: { Self → ℕ };

    // 0 for a store, and for a layer one more than what it lies on, staying at 255.
    fn level(&self) -> u8
        ensures { result ≡ height self.now };

    fn objects(&self) -> u32
        ensures { result ≡ objects_of (means self.now) };

    // The last item whose start is at most `time`.
    fn find(&mut self, object: u32, time: u64) -> Result<Item, Fault>
        ensures answer { FindAnswer (means self.old) object time result }
        ensures after { Outcome (means self.old) object (Find time) (means self.new) };

    // The item at a place of the chain, from 0, or nothing past its end.
    fn at(&self, object: u32, place: u32) -> Result<Option<Item>, Fault>
        ensures { result ≡ answered (means self.now) object At (nth_item (chain_of (means self.now) object) place) };

    // Raises the end of the item at `start` to `time`, if it was lower.
    fn extend(&mut self, object: u32, start: u64, time: u64) -> Result<(), Fault>
        ensures answer { result ≡ answered (means self.old) object (Extend start time) tt }
        ensures after { Outcome (means self.old) object (Extend start time) (means self.new) };

    // Adds an item with the span from `time` to `time`.
    fn put(&mut self, object: u32, time: u64, mark: u8, number: u64) -> Result<(), Fault>
        ensures answer { result ≡ answered (means self.old) object (Put time mark number) tt }
        ensures after { Outcome (means self.old) object (Put time mark number) (means self.new) };

    // Makes the item at `start` a version.
    fn seal(&mut self, object: u32, start: u64) -> Result<(), Fault>
        ensures answer { result ≡ answered (means self.old) object (Seal start) tt }
        ensures after { Outcome (means self.old) object (Seal start) (means self.new) };

    // Removes the token at `start`.
    fn drop(&mut self, object: u32, start: u64) -> Result<(), Fault>
        ensures answer { result ≡ answered (means self.old) object (Drop start) tt }
        ensures after { Outcome (means self.old) object (Drop start) (means self.new) };

    // Whatever a store holds keeps the rules of histories.
    ghost sound: { (s : Self) → Sound (means s) };
}
