ghost use Rattle.std.specs.Prelude.{ℤ, pos, negsuc, ◌≤ℤ◌};

pub mod form;

// The free seats of a course: below zero where more are taken than there are.
#[derive(Clone, Copy, PartialEq, Eq, Debug)]
pub struct Seats {
    value: i16,
    ghost fits: { (negsuc 32767 ≤ℤ value) × (value ≤ℤ pos 32767) },
}

impl From<i16> for Seats {
    ghost use Rattle.std.specs.Prelude.{◌≡◌};

    ghost from_gives = { λ value seats. seats.value ≡ value };

    fn from(value: i16) -> Seats {
        Seats { value }
    }
}

impl From<Seats> for i16 {
    ghost use Rattle.std.specs.Prelude.{◌≡◌};

    ghost from_gives = { λ seats value. value ≡ seats.value };

    fn from(seats: Seats) -> i16 {
        seats.value
    }
}
