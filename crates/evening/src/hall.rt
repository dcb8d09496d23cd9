// The registers of the hall box, and calls on them that are told.
use crate::tell::Told;
use anyhow::bail;
use encache::cache::Encache;
use history::store::Store;
use kinds::kind::Kind;
use kinds::place::Place;
use kinds::seats::Seats;
use ledger::call::{Answer, Call, Ticket};
use register::register::Register;
use serial::{open, perform};
use std::fmt::Display;
use std::io;

// The places and the seats of the lines, each in a register over a cache.
#[derive(Drop)]
pub struct Hall<P: Store, Q: Store> {
    pub places: Register<Encache<P>, Place>,
    pub seats: Register<Encache<Q>, Seats>,
}

// Makes a call, and tells its answer after `what`.
pub fn tell<S: Store, V: Kind + Display + Drop>(
    rt: &impl Print,
    register: &mut Register<S, V>,
    what: &str,
    call: Call<V>,
) -> io::Result<Answer<V>> {
    let answer = perform(register, call);
    println!(rt; "{what}: {}", Told(&answer))?;
    Ok(answer)
}

// Tells calls, one after another.
pub fn tell_each<S: Store, V: Kind + Display + Copy + Drop>(
    rt: &impl Print,
    register: &mut Register<S, V>,
    steps: &[(&str, Call<V>)],
) -> io::Result<()> {
    for (what, call) in steps {
        tell(rt, register, what, *call)?;
    }
    Ok(())
}

// Tells the beginning of an action, and answers its ticket.
pub fn begin<S: Store, V: Kind + Display + Drop>(
    rt: &impl Print,
    register: &mut Register<S, V>,
    what: &str,
    call: Call<V>,
) -> anyhow::Result<Ticket> {
    match tell(rt, register, what, call)? {
        Answer::Began(ticket) => Ok(ticket),
        _ => bail!("no action began"),
    }
}

impl<P: Store, Q: Store> Hall<P, Q> {
    pub fn new(places: P, seats: Q) -> Hall<P, Q> {
        Hall {
            places: open(Encache::over(places), 1),
            seats: open(Encache::over(seats), 1),
        }
    }

    // Sets a site's clock forward in both registers.
    pub fn tick(&mut self, site: u32, clock: u32) {
        let _ = perform(&mut self.places, Call::Tick { site, clock });
        let _ = perform(&mut self.seats, Call::Tick { site, clock });
    }

    // Reads the table aloud from the hall, site 3, whose clock is set to `clock` first.
    pub fn aloud(&mut self, rt: &impl Print, clock: u32) -> io::Result<()> {
        self.tick(3, clock);
        println!(rt; "The table, read aloud in the hall:")?;
        for object in 0..3 {
            let place = perform(&mut self.places, Call::Glance { site: 3, object });
            let seats = perform(&mut self.seats, Call::Glance { site: 3, object });
            println!(rt; "  line {object}: {}, {}", Told(&place), Told(&seats))?;
        }
        Ok(())
    }
}
