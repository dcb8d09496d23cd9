// One evening: panels change the lines of a table and read them, with every step told.
#![tactic(auto)]

mod hall;
mod keeping;
mod reading;
mod scenes;
mod tell;
mod trouble;

use crate::keeping::keep;

fn main(rt: HostRuntime) -> anyhow::Result<()> {
    keep(&rt)
}
