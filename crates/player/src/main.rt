// Script lines in, answers out.
#![tactic(auto)]

use playing::play::play;
use std::io::{Read, Write};

fn main(rt: HostRuntime) -> anyhow::Result<()> {
    let mut script = Vec::new(rt.alloc());
    rt.stdin().read_to_end(&mut script)?;
    let output = play(rt.alloc(), &script)?;
    rt.stdout().write_all(&output)?;
    Ok(())
}
