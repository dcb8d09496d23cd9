ghost use Rattle.std.specs.Prelude.{Some};
ghost use Rattle.kinds.specs.Forms.{seats_form, seats_parse};
ghost use Rattle.kinds.specs.Words.{seats_words};
ghost use Rattle.kinds.specs.Back.{seats_back, seats_only, seats_bounded, seats_attained};

use crate::kind::Kind;
use crate::seats::Seats;
use std::fmt;

impl Kind for Seats {
    const GREATEST: u64 = 65_535;

    ghost GREATEST = { 65535 };

    ghost form = { λ s. seats_form s.value };

    ghost parse = { seats_parse };

    ghost reads_back = { seats_back };

    ghost only_forms = { seats_only };

    ghost bounded = { seats_bounded };

    ghost attained = { seats_attained };

    fn to_form(&self) -> u64 {
        u64::from(self.value.cast_unsigned())
    }

    fn from_form(number: u64) -> Option<Self> {
        let value = u16::try_from(number).ok()?.cast_signed();
        Some(Seats { value })
    }
}

impl fmt::Display for Seats {
    ghost output = { λ s. Some (seats_words s.value) };

    fn fmt<W: fmt::Write>(&self, f: &mut fmt::Formatter<W>) -> fmt::Result {
        write!(f, "{} free seats", self.value)
    }
}
