ghost use Rattle.std.specs.Prelude.{◌≡◌, ◌+◌, ◌%◌, min};
ghost use Rattle.history.specs.Meaning.{FindAnswer, Outcome, answered};
ghost use Rattle.history.specs.Meaning.Op.{Find, Extend, Put, Seal, Drop};
ghost use Rattle.encache.specs.Lines.{line_of, lines_found, lines_by, Spared, empty_lines};

use crate::line::{Line, changed, cleared, hit};
use history::item::{Fault, Item};
use history::store::Store;
use std::marker::Model;

const LINES: u32 = 8;

// A layer over a store: line o mod 8 holds the item of object o that was found last.
#[derive(Drop)]
pub struct Encache<S: Store> {
    below: S,
    lines: [Option<Line>; 8],
}

// Each line is empty or holds an item of its object's chain below.
impl<S: Store> Model for Encache<S> {
    ghost use Rattle.encache.specs.Lines.{Cached, Held};

    ghost Value = { Cached S };

    ghost view = { λ s. record { below = s.below; lines = s.lines } };

    ghost invariant = { λ s. Held (S.Store.means s.below).chains s.lines };
}

fn line_number(object: u32) -> usize
    ensures { result ≡ object % 8 }
{
    (object % LINES) as usize
}

impl<S: Store> Encache<S> {
    // With empty lines, which are right over any chains.
    pub fn over(below: S) -> Self
        ensures { result ≡ record { below = below; lines = empty_lines } }
    {
        Encache {
            below,
            lines: [None; 8],
        }
    }
}

impl<S: Store> Store for Encache<S> {
    ghost means = { λ s. S.Store.means s.below };

    ghost height = { λ s. min (S.Store.height s.below + 1) 255 };

    fn level(&self) -> u8 {
        self.below.level().saturating_add(1)
    }

    fn objects(&self) -> u32 {
        self.below.objects()
    }

    fn find(&mut self, object: u32, time: u64) -> Result<Item, Fault>
        ensures answer { FindAnswer (S.Store.means self.old.below) object time result }
        ensures after { Outcome (S.Store.means self.old.below) object (Find time) (S.Store.means self.new.below) }
        ensures lines { self.new.lines ≡ lines_found self.old.lines object result }
        ensures spared { Spared object time (line_of self.old.lines object) result self.old.below self.new.below }
    {
        let k = line_number(object);
        if let Some(item) = hit(self.lines[k], object, time) {
            return Ok(item);
        }
        let item = self.below.find(object, time)?;
        self.lines[k] = Some(Line { object, item });
        Ok(item)
    }

    fn at(&self, object: u32, place: u32) -> Result<Option<Item>, Fault> {
        self.below.at(object, place)
    }

    fn extend(&mut self, object: u32, start: u64, time: u64) -> Result<(), Fault>
        ensures answer { result ≡ answered (S.Store.means self.old.below) object (Extend start time) tt }
        ensures after { Outcome (S.Store.means self.old.below) object (Extend start time) (S.Store.means self.new.below) }
        ensures lines { self.new.lines ≡ lines_by self.old.lines object (Extend start time) result }
    {
        self.below.extend(object, start, time)?;
        let k = line_number(object);
        self.lines[k] = changed(self.lines[k], object, |item| item.extended(start, time));
        Ok(())
    }

    fn put(&mut self, object: u32, time: u64, mark: u8, number: u64) -> Result<(), Fault>
        ensures answer { result ≡ answered (S.Store.means self.old.below) object (Put time mark number) tt }
        ensures after { Outcome (S.Store.means self.old.below) object (Put time mark number) (S.Store.means self.new.below) }
        ensures lines { self.new.lines ≡ lines_by self.old.lines object (Put time mark number) result }
    {
        self.below.put(object, time, mark, number)
    }

    fn seal(&mut self, object: u32, start: u64) -> Result<(), Fault>
        ensures answer { result ≡ answered (S.Store.means self.old.below) object (Seal start) tt }
        ensures after { Outcome (S.Store.means self.old.below) object (Seal start) (S.Store.means self.new.below) }
        ensures lines { self.new.lines ≡ lines_by self.old.lines object (Seal start) result }
    {
        self.below.seal(object, start)?;
        let k = line_number(object);
        self.lines[k] = changed(self.lines[k], object, |item| item.sealed(start));
        Ok(())
    }

    fn drop(&mut self, object: u32, start: u64) -> Result<(), Fault>
        ensures answer { result ≡ answered (S.Store.means self.old.below) object (Drop start) tt }
        ensures after { Outcome (S.Store.means self.old.below) object (Drop start) (S.Store.means self.new.below) }
        ensures lines { self.new.lines ≡ lines_by self.old.lines object (Drop start) result }
    {
        self.below.drop(object, start)?;
        let k = line_number(object);
        self.lines[k] = cleared(self.lines[k], object, start);
        Ok(())
    }

    ghost sound = { λ s. S.Store.sound s.below };
}
