ghost use Rattle.chained.specs.Means.{meaning};
ghost use Rattle.chained.specs.Served.{sound};
ghost use Rattle.chained.specs.Plans.{Told};

use crate::chain::nth_from;
use crate::table::Chained;
use history::item::{BOTTOM, Cause, Fault, Item};
use history::store::Store;

// A plan with the fault in place of its cause.
fn told<T>(plan: Result<T, Cause>, object: u32, time: u64) -> Result<T, Fault>
    ensures { Told plan object time result }
{
    plan.map_err(|cause| cause.at_bottom(object, time))
}

// The lowest of its layers. Whatever the bytes are, what they mean is sound.
impl<'a> Store for Chained<'a> {
    ghost means = { λ s. meaning s.table.bytes.now };

    ghost height = { λ _. 0 };

    fn level(&self) -> u8 {
        BOTTOM
    }

    fn objects(&self) -> u32 {
        u32::from(self.objects)
    }

    fn find(&mut self, object: u32, time: u64) -> Result<Item, Fault> {
        let place = told(self.place(object, time), object, time)?;
        Ok(place.item)
    }

    fn at(&self, object: u32, place: u32) -> Result<Option<Item>, Fault> {
        let first = told(self.first(object), object, 0)?;
        Ok(nth_from(self.table.bytes, first, place))
    }

    fn extend(&mut self, object: u32, start: u64, time: u64) -> Result<(), Fault> {
        let stretch = told(self.stretched(object, start, time), object, time)?;
        self.table.stretch(stretch);
        Ok(())
    }

    fn put(&mut self, object: u32, time: u64, mark: u8, number: u64) -> Result<(), Fault> {
        let link = told(self.placed(object, time, mark, number), object, time)?;
        self.table.insert(link, Item::fresh(time, mark, number));
        Ok(())
    }

    fn seal(&mut self, object: u32, start: u64) -> Result<(), Fault> {
        let place = told(self.sealed(object, start), object, start)?;
        self.table.seal(place.at);
        Ok(())
    }

    fn drop(&mut self, object: u32, start: u64) -> Result<(), Fault> {
        let link = told(self.dropped(object, start), object, start)?;
        self.table.remove(link);
        Ok(())
    }

    ghost sound = { λ s. sound s.table.bytes.now };
}
