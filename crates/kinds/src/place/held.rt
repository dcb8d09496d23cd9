ghost use Rattle.std.specs.Prelude.{◌≡◌, ◌+◌, ◌*◌, ◌↔◌, Some, IsSome, IfSome};
ghost use Rattle.kinds.specs.Ranges.{InRange};
ghost use Rattle.kinds.specs.Forms.{place_form, place_parse};
ghost use Rattle.kinds.specs.Words.{place_words};
ghost use Rattle.kinds.specs.Back.{place_back, place_only, place_bounded, place_attained};

use crate::kind::Kind;
use crate::place::{Numbered, Place};
use std::fmt;

impl<const MOST: u16> Numbered<MOST> {
    pub fn new(number: u16) -> Option<Self>
        ensures valid { IsSome result ↔ InRange MOST number }
        ensures value { IfSome result (λ n. n.number ≡ number) }
    {
        if number >= 1 && number <= MOST {
            Some(Numbered { number })
        } else {
            None
        }
    }

    pub fn number(&self) -> u16
        ensures { result ≡ self.now.number }
    {
        self.number
    }
}

impl Place {
    pub fn held(teacher: u16, classroom: u16) -> Option<Self>
        ensures valid { IsSome result ↔ InRange 9999 teacher × InRange 999 classroom }
        ensures value { IfSome result (λ p. place_form p ≡ teacher * 1000 + classroom) }
    {
        let teacher = Numbered::new(teacher)?;
        let classroom = Numbered::new(classroom)?;
        Some(Place::Held { teacher, classroom })
    }
}

impl Kind for Place {
    const GREATEST: u64 = 9_999_999;

    ghost GREATEST = { 9999999 };

    ghost form = { place_form };

    ghost parse = { place_parse };

    ghost reads_back = { place_back };

    ghost only_forms = { place_only };

    ghost bounded = { place_bounded };

    ghost attained = { place_attained };

    fn to_form(&self) -> u64 {
        match self {
            Place::Vacant => 0,
            Place::Held { teacher, classroom } => {
                u64::from(teacher.number) * 1000 + u64::from(classroom.number)
            }
        }
    }

    fn from_form(number: u64) -> Option<Self> {
        if number == 0 {
            return Some(Place::Vacant);
        }
        let teacher = u16::try_from(number / 1000).ok()?;
        let classroom = u16::try_from(number % 1000).ok()?;
        Place::held(teacher, classroom)
    }
}

impl fmt::Display for Place {
    ghost output = { λ p. Some (place_words p) };

    fn fmt<W: fmt::Write>(&self, f: &mut fmt::Formatter<W>) -> fmt::Result {
        match self {
            Place::Vacant => write!(f, "vacant"),
            Place::Held { teacher, classroom } => {
                let teacher = teacher.number;
                let classroom = classroom.number;
                write!(f, "teacher {teacher} in classroom {classroom}")
            }
        }
    }
}
