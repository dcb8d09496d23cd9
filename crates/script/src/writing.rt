// The line that an answer is printed as.
ghost use Rattle.std.specs.Prelude.{◌≡◌, ◌<◌, ◌++◌, ℕ, List, decimal, OnOk};
ghost use Rattle.std.specs.String.{string_bytes};
ghost use Rattle.script.specs.Printed.{printed, shown};

use itoa::Buffer;
use kinds::seats::Seats;
use ledger::call::Answer;
use ledger::record::standing_word;
use std::alloc::AllocError;

// What texts and digits go behind. A line goes there by its pieces: by `Display` it takes up to twice as long.
trait Output {
    ghost bytes: { Self → List ℕ };

    fn put(&mut self, text: &str) -> Result<(), AllocError>
        ensures { OnOk result (bytes self.new ≡ bytes self.old ++ text.now) };

    fn put_digit(&mut self, digit: u8) -> Result<(), AllocError>
        requires { digit < 10 }
        ensures { OnOk result (bytes self.new ≡ bytes self.old ++ decimal digit) };
}

impl Output for String {
    ghost bytes = { string_bytes };

    fn put(&mut self, text: &str) -> Result<(), AllocError> {
        self.push_str(text)
    }

    fn put_digit(&mut self, digit: u8) -> Result<(), AllocError> {
        self.push(char::from(b'0' + digit))
    }
}

impl Output for Vec<u8> {
    ghost bytes = { λ v. v.items };

    fn put(&mut self, text: &str) -> Result<(), AllocError> {
        self.extend_from_slice(text.as_bytes())
    }

    fn put_digit(&mut self, digit: u8) -> Result<(), AllocError> {
        self.extend_from_slice(&[b'0' + digit])
    }
}

// A number in decimal. Most have one digit, and that is put without a call.
#[inline(always)]
fn put_number<O: Output>(output: &mut O, number: u32) -> Result<(), AllocError>
    ensures { OnOk result (O.Output.bytes output.new ≡ O.Output.bytes output.old ++ decimal number) }
{
    if number < 10 {
        return output.put_digit(number as u8);
    }
    output.put(Buffer::new().format(number))
}

// An answer's line without its end.
fn put_answer<O: Output>(output: &mut O, answer: &Answer<Seats>) -> Result<(), AllocError>
    ensures { OnOk result (O.Output.bytes output.new ≡ O.Output.bytes output.old ++ shown answer.now) }
{
    match *answer {
        Answer::Began((_, creation)) => {
            output.put("+ ")?;
            put_number(output, creation)
        }
        Answer::Value(seats) => {
            output.put("= ")?;
            output.put(Buffer::new().format(i16::from(seats)))
        }
        Answer::Wait(record) => {
            output.put("w ")?;
            put_number(output, record)
        }
        Answer::Done => output.put("."),
        Answer::Settled((sealed, dropped)) => {
            output.put("s ")?;
            put_number(output, sealed)?;
            output.put(" ")?;
            put_number(output, dropped)
        }
        Answer::Stands(standing, tokens) => {
            output.put("q ")?;
            output.put(standing_word(standing))?;
            output.put(" ")?;
            put_number(output, tokens)
        }
        Answer::Refused(refusal) => {
            output.put("- ")?;
            put_number(output, u32::from(refusal.number()))
        }
    }
}

// An answer's line goes behind what the text has.
pub fn write_line(text: &mut String, answer: &Answer<Seats>) -> Result<(), AllocError>
    ensures { OnOk result (string_bytes text.new ≡ string_bytes text.old ++ printed answer.now) }
{
    put_answer(text, answer)?;
    text.put("\n")
}

// An answer's line goes behind what the output has.
pub fn print(output: &mut Vec<u8>, answer: &Answer<Seats>) -> Result<(), AllocError>
    ensures { OnOk result (output.new.items ≡ output.old.items ++ printed answer.now) }
{
    put_answer(output, answer)?;
    output.put("\n")
}
