// The lines of a script, one after another.
ghost use Rattle.std.specs.Prelude.{IfOk};
ghost use Rattle.script.specs.Lines.{lines};
ghost use Rattle.playing.specs.Turns.{Takes, Runs};

use history::store::Store;
use kinds::seats::Seats;
use ledger::call::Answer;
use ledger::refusal::Refusal;
use register::register::Register;
use script::piece::Lines;
use script::reading::call_of;
use script::writing::print;
use serial::perform;
use std::alloc::{AllocError, Global};

// The answer to one line: no call is made where it is unreadable.
fn answer<S: Store>(register: &mut Register<S, Seats>, line: &[u8]) -> Answer<Seats>
    ensures { Takes S.Store.means register.old line.now result register.new }
{
    match call_of(line) {
        Some(call) => perform(register, call),
        None => Answer::Refused(Refusal::Unreadable),
    }
}

// What a script prints, a line for each of its lines.
pub(crate) fn run<S: Store>(
    heap: Global,
    register: &mut Register<S, Seats>,
    script: &[u8],
) -> Result<Vec<u8>, AllocError>
    ensures { IfOk result (λ v. Runs S.Store.means register.old (lines script.now) v.items register.new) }
{
    let mut output = Vec::new(heap);
    for line in Lines::of(script) {
        print(&mut output, &answer(register, line))?;
    }
    Ok(output)
}
