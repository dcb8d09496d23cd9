// The call that a line spells.
ghost use Rattle.std.specs.Prelude.{◌≡◌};
ghost use Rattle.script.specs.Format.{read_call, call_of, Takes};

use crate::fields::Fields;
use kinds::seats::Seats;
use ledger::call::Call;

// The call of a letter, with its fields.
fn read_call(letter: u8, fields: &mut Fields<'_>) -> Option<Call<Seats>>
    ensures { Takes (read_call letter fields.old.rest.now) result fields.new.rest.now }
{
    Some(match letter {
        b'b' => Call::Begin {
            record: fields.number()?,
            site: fields.number()?,
            lifetime: fields.number()?,
        },
        b'r' => Call::Read {
            ticket: fields.ticket()?,
            object: fields.number()?,
        },
        b'u' => Call::Update {
            ticket: fields.ticket()?,
            object: fields.number()?,
            value: fields.seats()?,
        },
        b'c' => Call::Commit {
            ticket: fields.ticket()?,
        },
        b'a' => Call::Abort {
            ticket: fields.ticket()?,
        },
        b'g' => Call::Glance {
            site: fields.number()?,
            object: fields.number()?,
        },
        b't' => Call::Tick {
            site: fields.number()?,
            clock: fields.number()?,
        },
        b's' => Call::Settle {
            object: fields.number()?,
        },
        b'q' => Call::Standing {
            record: fields.number()?,
        },
        _ => return None,
    })
}

// The call that a line spells, if it spells one.
pub fn call_of(line: &[u8]) -> Option<Call<Seats>>
    ensures { result ≡ call_of line.now }
{
    let [letter, rest @ ..] = line else {
        return None;
    };
    let mut fields = Fields { rest };
    let call = read_call(*letter, &mut fields)?;
    fields.is_empty().then_some(call)
}
