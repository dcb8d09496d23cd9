ghost use Rattle.std.specs.Prelude.{◌≡◌};
ghost use Rattle.evening.specs.declared.trouble.Trouble.TheVariants.{Refused};

use history::item::Fault;
use std::error::Error;
use std::fmt;

// Why a step cannot be taken: a store turned it down, or a number that was read is no form of its kind.
#[derive(Clone, Copy, Debug)]
pub enum Trouble {
    Refused(Fault),
    NoForm(u64),
}

impl From<Fault> for Trouble {
    ghost from_gives = { λ f r. r ≡ Refused f };

    fn from(fault: Fault) -> Trouble {
        Trouble::Refused(fault)
    }
}

impl fmt::Display for Trouble {
    fn fmt<W: fmt::Write>(&self, f: &mut fmt::Formatter<W>) -> fmt::Result {
        match self {
            Trouble::Refused(fault) => write!(
                f,
                "refused: cause {}, line {}, pseudo-time {}",
                fault.cause.number(),
                fault.object,
                fault.time
            ),
            Trouble::NoForm(number) => write!(f, "{number} is no form"),
        }
    }
}

impl Error for Trouble {}
