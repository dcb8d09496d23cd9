// The bytes that keep the places: laid out, worked on, opened again, and damaged.
use crate::reading::{Reading, read};
use crate::scenes::evening;
use chained::table::Chained;
use kinds::place::Place;
use layout::laying::lay_out;
use ledger::refusal::Refusal;
use rows::table::Rows;

// A header and 20 records.
const SIZE: usize = 672;

// The greatest pseudo-time.
const LATEST: u64 = 0x7fff_ffff_ffff_ffff;

// Opens the bytes and reads the places from them, or tells that they do not open.
fn open_again(rt: &impl Print, bytes: &mut [u8]) -> anyhow::Result<()> {
    let mut places = Chained::new(bytes);
    if places.opened().is_err() {
        let number = Refusal::Unlawful.number();
        println!(rt; "The bytes do not open: refused with {number}.")?;
        return Ok(());
    }
    println!(rt; "The bytes open again, with these places:")?;
    for line in 0..3 {
        let place: Reading<Place> = read(&mut places, line, LATEST)?;
        let note = if place.settled { "" } else { " (not settled)" };
        println!(rt; "  line {line}: {}{note}", place.value)?;
    }
    Ok(())
}

pub fn keep(rt: &impl Print) -> anyhow::Result<()> {
    let mut bytes = [0; SIZE];
    println!(rt; "The places of 3 lines are laid out in {SIZE} bytes, 20 records.")?;
    lay_out(&mut bytes, 3, 20, &[0, 0, 0])?;
    evening(rt, Chained::new(&mut bytes), Rows::starting(12))?;
    open_again(rt, &mut bytes)?;
    println!(rt; "Byte 51, which every lawful table has as 0, is set to 1.")?;
    bytes[51] = 1;
    open_again(rt, &mut bytes)
}
