// A script played from the start.
ghost use Rattle.std.specs.Prelude.{IfOk};
ghost use Rattle.playing.specs.Table.{Plays};

use crate::turn::run;
use chained::table::Chained;
use encache::cache::Encache;
use kinds::seats::Seats;
use layout::laying::lay_out;
use serial::{open, serial_law};
use std::alloc::{AllocError, Global};

// A header and 20 records.
const SIZE: usize = 672;

// What a script prints: seats of four objects that start at 12, in a chained store of 20 records under a cache.
pub fn play(heap: Global, script: &[u8]) -> Result<Vec<u8>, AllocError>
    ensures { IfOk result (λ v. Plays script.now v.items) }
{
    let mut bytes = [0; SIZE];
    let _ = lay_out(&mut bytes, 4, 20, &[12, 12, 12, 12]);
    let mut register = open(Encache::over(Chained::new(&mut bytes)), 1);
    serial_law::<Seats>();
    run(heap, &mut register, script)
}

#[cfg(test)]
mod tests {
    use super::*;
    use ledger::call::Answer;
    use script::writing::{print, write_line};
    use std::test::Fail;

    #[test]
    fn an_empty_script_prints_nothing(rt: HostRuntime) -> Result<(), Fail> {
        let output = play(rt.alloc(), b"")?;
        assert!(rt; output.len() == 0);
        Ok(())
    }

    #[test]
    fn a_question_prints_its_answer(rt: HostRuntime) -> Result<(), Fail> {
        let output = play(rt.alloc(), b"q 1\n")?;
        assert!(rt; output.as_slice() == b"q unused 0\n".as_slice());
        Ok(())
    }

    // Here, since a crate with tests is proved twice.
    #[test]
    fn an_answer_goes_behind_what_is_there(rt: HostRuntime) -> Result<(), Fail> {
        let answer: Answer<Seats> = Answer::Settled((1, 4294967295));
        let mut text = String::new(rt.alloc());
        write_line(&mut text, &answer)?;
        write_line(&mut text, &answer)?;
        assert!(rt; text.as_str() == "s 1 4294967295\ns 1 4294967295\n");
        let mut output = Vec::new(rt.alloc());
        print(&mut output, &answer)?;
        print(&mut output, &answer)?;
        assert!(rt; output.as_slice() == text.as_bytes());
        Ok(())
    }
}
