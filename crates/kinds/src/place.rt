ghost use Rattle.kinds.specs.Ranges.{InRange};

pub mod held;

// A number from 1 to MOST.
#[derive(Clone, Copy, PartialEq, Eq, Debug)]
pub struct Numbered<const MOST: u16> {
    number: u16,
    ghost in_range: { InRange MOST number },
}

pub type Teacher = Numbered<9999>;

pub type Classroom = Numbered<999>;

// Who holds a line of the evening table, and where.
#[derive(Clone, Copy, PartialEq, Eq, Debug)]
pub enum Place {
    Vacant,
    Held {
        teacher: Teacher,
        classroom: Classroom,
    },
}
