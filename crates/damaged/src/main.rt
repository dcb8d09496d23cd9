// Damaged images of a small table: a store opens just those that an independent decision calls lawful.
#![tactic(auto)]

mod decision;
mod image;

use crate::decision::is_lawful_table;
use crate::image::{SIZE, lawful_image};
use chained::table::Chained;

// What byte `at` of the image is set to, one after another.
fn damages(was: u8) -> [u8; 7] {
    [0, 1, 2, 64, 65, 255, was ^ 128]
}

// Tells of every image in which one byte is set to another value.
fn compare(rt: &impl Print, image: [u8; SIZE]) -> anyhow::Result<()> {
    let mut opened: u32 = 0;
    let mut refused: u32 = 0;
    for (at, was) in image.iter().enumerate() {
        for value in damages(*was) {
            let mut bytes = image;
            bytes[at] = value;
            let lawful = is_lawful_table(&bytes);
            if Chained::new(&mut bytes).opened().is_ok() != lawful {
                println!(rt; "byte {at} set to {value}: the store and the decision differ")?;
            }
            if lawful {
                opened = opened.saturating_add(1);
            } else {
                refused = refused.saturating_add(1);
            }
        }
    }
    println!(rt; "{opened} images open and {refused} do not, as decided")?;
    Ok(())
}

fn main(rt: HostRuntime) -> anyhow::Result<()> {
    compare(&rt, lawful_image())
}
