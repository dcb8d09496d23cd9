// The fields of a line, each after one blank.
ghost use Rattle.std.specs.Prelude.{◌≡◌, ◌≤◌, length, if◌then◌else◌, None, Some, MatchOption, ◌==◌};
ghost use Rattle.std.specs.Str.Parse.{digits_value};
ghost use Rattle.std.specs.Str.{all_ascii_digits};
ghost use Rattle.script.specs.Format.{number_in, seats_of, value_in, field, read_number, read_value, read_ticket, Takes};

use crate::piece::length_before;
use kinds::seats::Seats;
use ledger::call::Ticket;

// The most digits of a number.
const DIGITS: usize = 10;

// What digits write, and nothing where another byte stands among them. `parse` asks for a text that is known to be
// UTF-8, and is slower.
fn decimal(text: &[u8]) -> Option<u64>
    requires { length text.now ≤ 10 }
    ensures { result ≡ (if all_ascii_digits text.now then Some (digits_value 10 text.now) else None) }
{
    let mut number = 0;
    for byte in text {
        let digit = char::from(*byte).to_digit(10)?;
        number = number * 10 + u64::from(digit);
    }
    Some(number)
}

// A number: 1 to 10 digits, and at most 4,294,967,295.
fn number(text: &[u8]) -> Option<u32>
    ensures { result ≡ number_in text.now }
{
    if text.is_empty() || text.len() > DIGITS {
        return None;
    }
    u32::try_from(decimal(text)?).ok()
}

// The seats of a value from -32,768 to 32,767.
fn seats_of(value: i64) -> Option<Seats>
    ensures { result ≡ seats_of value }
{
    let value = i16::try_from(value).ok()?;
    Some(Seats::from(value))
}

// A value: a number, perhaps behind a minus sign, that seats may have.
fn seats(text: &[u8]) -> Option<Seats>
    ensures { result ≡ value_in text.now }
{
    match text {
        [b'-', digits @ ..] => seats_of(-i64::from(number(digits)?)),
        _ => seats_of(i64::from(number(text)?)),
    }
}

// What is left of a line to read.
#[derive(Drop)]
pub(crate) struct Fields<'a> {
    pub(crate) rest: &'a [u8],
}

impl<'a> Fields<'a> {
    // What stands after one blank, up to the next.
    fn next(&mut self) -> Option<&'a [u8]>
        ensures { MatchOption result (field self.old.rest.now ≡ None) (λ t. field self.old.rest.now ≡ Some (t.now, self.new.rest.now)) }
    {
        let [b' ', rest @ ..] = self.rest else {
            return None;
        };
        let (text, rest) = rest.split_at(length_before(rest, b' '));
        self.rest = rest;
        Some(text)
    }

    pub(crate) fn number(&mut self) -> Option<u32>
        ensures { Takes (read_number self.old.rest.now) result self.new.rest.now }
    {
        number(self.next()?)
    }

    pub(crate) fn seats(&mut self) -> Option<Seats>
        ensures { Takes (read_value self.old.rest.now) result self.new.rest.now }
    {
        seats(self.next()?)
    }

    pub(crate) fn ticket(&mut self) -> Option<Ticket>
        ensures { Takes (read_ticket self.old.rest.now) result self.new.rest.now }
    {
        let record = self.number()?;
        let creation = self.number()?;
        Some((record, creation))
    }

    // Whether the line ends here.
    pub(crate) fn is_empty(&self) -> bool
        ensures { result ≡ (length self.now.rest.now == 0) }
    {
        self.rest.is_empty()
    }
}
