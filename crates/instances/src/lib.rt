// The serial order at stores and kinds that the box uses.
#![tactic(auto)]

ghost use Rattle.rows.specs.Tabled.{rows_means};
ghost use Rattle.chained.specs.Means.{meaning};
ghost use Rattle.kinds.specs.Forms.{seats_form, seats_parse, place_form, place_parse};
ghost use Rattle.serial.specs.Reaches.{Continues};

use chained::table::Chained;
use encache::cache::Encache;
use kinds::place::Place;
use kinds::seats::Seats;
use ledger::call::{Answer, Call};
use register::register::Register;
use rows::table::Rows;
use serial::perform;

// Seats in a row store.
pub fn perform_on_rows(register: &mut Register<Rows, Seats>, call: Call<Seats>) -> Answer<Seats>
    ensures { Continues rows_means (λ s. seats_form s.value) seats_parse register.old call result register.new }
{
    perform(register, call)
}

// Places in the caller's bytes, under two layers of cache.
pub fn perform_on_bytes(
    register: &mut Register<Encache<Encache<Chained>>, Place>,
    call: Call<Place>,
) -> Answer<Place>
    ensures { Continues (λ s. meaning s.below.below.table.bytes.now) place_form place_parse register.old call result register.new }
{
    perform(register, call)
}
