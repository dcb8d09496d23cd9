ghost use Rattle.std.specs.Prelude.{◌≡◌, [], ◌∷◌, replicate};
ghost use Rattle.history.specs.Chain.{fresh_item};
ghost use Rattle.rows.specs.Tabled.{rows_means, RowIndex};
ghost use Rattle.rows.specs.Rowed.{row_chain};
ghost use Rattle.rows.specs.Keeping.{sound};

use crate::row::Row;
use crate::table::Rows;
use history::item::{BOTTOM, Cause, Fault, Item};
use history::store::Store;
use std::array;

const OBJECTS: u32 = 32;

// Where an object's row stands.
fn row_index(object: u32, time: u64) -> Result<usize, Fault>
    ensures { RowIndex object time result }
{
    if object >= OBJECTS {
        return Err(Cause::NoObject.at_bottom(object, time));
    }
    Ok(object as usize)
}

impl Rows {
    // Every object as one version from 0 to 0, with the number.
    pub fn starting(number: u64) -> Rows
        ensures { (rows_means result).chains ≡ replicate 32 (fresh_item 0 0 number ∷ []) }
    {
        Rows {
            rows: array::from_fn(|_| Row::starting(number)),
        }
    }
}

impl Store for Rows {
    ghost means = { rows_means };

    ghost height = { λ _. 0 };

    fn level(&self) -> u8 {
        BOTTOM
    }

    fn objects(&self) -> u32 {
        OBJECTS
    }

    fn find(&mut self, object: u32, time: u64) -> Result<Item, Fault> {
        let row = row_index(object, time)?;
        self.rows[row]
            .find(time)
            .map_err(|cause| cause.at_bottom(object, time))
    }

    fn at(&self, object: u32, place: u32) -> Result<Option<Item>, Fault> {
        let row = row_index(object, 0)?;
        Ok(self.rows[row].at(place))
    }

    fn extend(&mut self, object: u32, start: u64, time: u64) -> Result<(), Fault> {
        let row = row_index(object, time)?;
        let extended = self.rows[row].extend(start, time);
        extended.map_err(|cause| cause.at_bottom(object, time))
    }

    fn put(&mut self, object: u32, time: u64, mark: u8, number: u64) -> Result<(), Fault> {
        let row = row_index(object, time)?;
        let placed = self.rows[row].put(time, mark, number);
        placed.map_err(|cause| cause.at_bottom(object, time))
    }

    fn seal(&mut self, object: u32, start: u64) -> Result<(), Fault> {
        let row = row_index(object, start)?;
        let sealed = self.rows[row].seal(start);
        sealed.map_err(|cause| cause.at_bottom(object, start))
    }

    fn drop(&mut self, object: u32, start: u64) -> Result<(), Fault> {
        let row = row_index(object, start)?;
        let dropped = self.rows[row].drop(start);
        dropped.map_err(|cause| cause.at_bottom(object, start))
    }

    ghost sound = { sound };
}
