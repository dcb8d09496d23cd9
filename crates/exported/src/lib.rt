// The player's function for callers in other languages.
#![tactic(auto)]

ghost use Rattle.exported.specs.Told.{Answers};

use playing::play::play;
use std::alloc::Global;

// Plays a script, writes as much of its answers into `output` as that holds, and says how long they are,
// or the greatest number where memory is wanting.
#[unsafe(no_mangle)]
pub extern "C" fn buvzhanik_play(heap: Global, script: &[u8], output: &mut [u8]) -> usize
    ensures { Answers script.now output.old result output.new }
{
    let Ok(answers) = play(heap, script) else {
        return usize::MAX;
    };
    let count = answers.len().min(output.len());
    output[0..count].copy_from_slice(&answers[0..count]);
    answers.len()
}
