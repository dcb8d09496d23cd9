// The operations on one row.
ghost use Rattle.std.specs.Prelude.{◌≡◌, [], ◌∷◌};
ghost use Rattle.std.specs.List.{AllZip};
ghost use Rattle.history.specs.Chain.{nth_item, fresh_item};
ghost use Rattle.history.specs.Meaning.Op.{Extend, Put, Seal, Drop};
ghost use Rattle.rows.specs.Rowed.{row_chain, RowFound, RowChanged};

use crate::row::Row;
use arrayvec::ArrayVec;
use history::item::{Cause, Item, VERSION};

// Puts the changed item in the place of each.
fn change_each<F: Fn(Item) -> Item>(items: &mut [Item], change: F)
    requires { F.IsAlwaysCallable change }
    ensures { AllZip (F.post change) items.old items.new }
{
    for item in items.iter_mut() {
        *item = change(*item);
    }
}

impl Row {
    // One version, at 0.
    pub(crate) fn starting(number: u64) -> Row
        ensures { row_chain result ≡ fresh_item 0 0 number ∷ [] }
    {
        let mut items = ArrayVec::new();
        items.push(Item::fresh(0, VERSION, number));
        Row { items }
    }

    pub(crate) fn find(&self, time: u64) -> Result<Item, Cause>
        ensures { RowFound self.now time result }
    {
        self.may_find(time)?;
        match self.items.iter().rev().find(|item| item.start <= time) {
            Some(item) => Ok(*item),
            // A history starts at 0.
            None => unreachable(),
        }
    }

    pub(crate) fn at(&self, place: u32) -> Option<Item>
        ensures { result ≡ nth_item (row_chain self.now) place }
    {
        self.items.get(place as usize).copied()
    }

    pub(crate) fn extend(&mut self, start: u64, time: u64) -> Result<(), Cause>
        ensures { RowChanged self.old (Extend start time) result self.new }
    {
        self.may_extend(start, time)?;
        change_each(self.items.as_mut_slice(), |item| item.extended(start, time));
        Ok(())
    }

    pub(crate) fn put(&mut self, time: u64, mark: u8, number: u64) -> Result<(), Cause>
        ensures { RowChanged self.old (Put time mark number) result self.new }
    {
        self.may_put(time, mark, number)?;
        let later = self.items.iter().position(|item| time < item.start);
        let new = Item::fresh(time, mark, number);
        self.items.insert(later.unwrap_or(self.items.len()), new);
        Ok(())
    }

    pub(crate) fn seal(&mut self, start: u64) -> Result<(), Cause>
        ensures { RowChanged self.old (Seal start) result self.new }
    {
        self.may_seal(start)?;
        change_each(self.items.as_mut_slice(), |item| item.sealed(start));
        Ok(())
    }

    pub(crate) fn drop(&mut self, start: u64) -> Result<(), Cause>
        ensures { RowChanged self.old (Drop start) result self.new }
    {
        self.may_drop(start)?;
        self.items.retain(|item| item.start != start);
        Ok(())
    }
}
