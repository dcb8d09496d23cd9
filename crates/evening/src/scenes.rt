// What happens on the evening: the office is site 0, two door panels are sites 1 and 2, the hall is site 3.
use crate::hall::{Hall, begin, tell, tell_each};
use anyhow::{Context, Result};
use history::store::Store;
use kinds::place::Place;
use kinds::seats::Seats;
use ledger::call::{Answer, Call, Ticket};

fn held(teacher: u16, classroom: u16) -> Result<Place> {
    Place::held(teacher, classroom).context("no such place")
}

fn action<V>(record: u32, site: u32, lifetime: u32) -> Call<V> {
    Call::Begin {
        record,
        site,
        lifetime,
    }
}

fn read<V>(ticket: Ticket, object: u32) -> Call<V> {
    Call::Read { ticket, object }
}

fn update<V>(ticket: Ticket, object: u32, value: V) -> Call<V> {
    Call::Update {
        ticket,
        object,
        value,
    }
}

fn commit<V>(ticket: Ticket) -> Call<V> {
    Call::Commit { ticket }
}

// The office writes the table of the evening.
fn opening<P: Store, Q: Store>(rt: &impl Print, hall: &mut Hall<P, Q>) -> Result<()> {
    println!(rt; "The office writes the table.")?;
    let places = &mut hall.places;
    let ticket = begin(rt, places, "Office begins on places", action(1, 0, 100))?;
    let steps = [
        (
            "Line 0 to teacher 12, classroom 7",
            update(ticket, 0, held(12, 7)?),
        ),
        (
            "Line 1 to teacher 15, classroom 210",
            update(ticket, 1, held(15, 210)?),
        ),
        ("Office commits", commit(ticket)),
    ];
    tell_each(rt, places, &steps)?;
    let seats = &mut hall.seats;
    let ticket = begin(rt, seats, "Office begins on seats", action(1, 0, 100))?;
    let steps = [
        ("Line 1 to 1 free seat", update(ticket, 1, Seats::from(1))),
        ("Office commits", commit(ticket)),
    ];
    tell_each(rt, seats, &steps)?;
    hall.aloud(rt, 5)?;
    Ok(())
}

// Panel 1 swaps two teachers while panel 2 reads.
fn swap<P: Store, Q: Store>(rt: &impl Print, hall: &mut Hall<P, Q>) -> Result<()> {
    println!(rt; "Panel 1 swaps the teachers of lines 0 and 1 while panel 2 reads.")?;
    hall.tick(1, 20);
    hall.tick(2, 20);
    let places = &mut hall.places;
    let one = begin(rt, places, "Panel 1 begins", action(2, 1, 50))?;
    let two = begin(rt, places, "Panel 2 begins", action(3, 2, 50))?;
    let steps = [
        (
            "Panel 1, line 0 to teacher 15",
            update(one, 0, held(15, 7)?),
        ),
        ("Panel 2 reads line 0", read(two, 0)),
        (
            "Panel 1, line 1 to teacher 12",
            update(one, 1, held(12, 210)?),
        ),
        ("Panel 1 commits", commit(one)),
        ("Panel 2 reads line 0", read(two, 0)),
        ("Panel 2 reads line 1", read(two, 1)),
        ("Panel 2 commits", commit(two)),
    ];
    tell_each(rt, places, &steps)?;
    hall.aloud(rt, 40)?;
    Ok(())
}

// Panel 1 loses its plug after half a swap.
fn unplugged<P: Store, Q: Store>(rt: &impl Print, hall: &mut Hall<P, Q>) -> Result<()> {
    println!(rt; "Panel 1 begins to swap back, and its plug is pulled.")?;
    hall.tick(1, 60);
    hall.tick(2, 60);
    let places = &mut hall.places;
    let one = begin(
        rt,
        places,
        "Panel 1 begins, for 10 clocks",
        action(4, 1, 10),
    )?;
    tell(
        rt,
        places,
        "Panel 1, line 0 to teacher 12",
        update(one, 0, held(12, 7)?),
    )?;
    let two = begin(rt, places, "Panel 2 begins", action(5, 2, 50))?;
    let steps = [
        ("Panel 2 reads line 0", read(two, 0)),
        (
            "The clock of site 1 is set to 70",
            Call::Tick { site: 1, clock: 70 },
        ),
        ("Record 4 stands", Call::Standing { record: 4 }),
        ("Panel 2 reads line 0", read(two, 0)),
        ("Panel 2 reads line 1", read(two, 1)),
        ("Panel 2 commits", commit(two)),
    ];
    tell_each(rt, places, &steps)?;
    hall.aloud(rt, 80)?;
    Ok(())
}

// Both panels want the last seat of line 1.
fn last_seat<P: Store, Q: Store>(rt: &impl Print, hall: &mut Hall<P, Q>) -> Result<()> {
    println!(rt; "Both panels book the last seat of line 1.")?;
    hall.tick(1, 100);
    hall.tick(2, 100);
    let seats = &mut hall.seats;
    let one = begin(rt, seats, "Panel 1 begins", action(6, 1, 50))?;
    let two = begin(rt, seats, "Panel 2 begins", action(7, 2, 50))?;
    let steps = [
        ("Panel 1 reads line 1", read(one, 1)),
        ("Panel 2 reads line 1", read(two, 1)),
        ("Panel 1 books", update(one, 1, Seats::from(0))),
        ("Panel 2 books", update(two, 1, Seats::from(0))),
        ("Panel 2 commits", commit(two)),
    ];
    tell_each(rt, seats, &steps)?;
    let again = begin(rt, seats, "Panel 1 begins again", action(6, 1, 50))?;
    let steps = [
        ("Panel 1 reads line 1", read(again, 1)),
        (
            "Panel 1 aborts: no seat is left",
            Call::Abort { ticket: again },
        ),
    ];
    tell_each(rt, seats, &steps)?;
    hall.aloud(rt, 120)?;
    Ok(())
}

// The office writes one line until no record is free.
fn full<P: Store, Q: Store>(rt: &impl Print, hall: &mut Hall<P, Q>) -> Result<()> {
    println!(rt; "The office writes line 2 again and again, until the store is full.")?;
    hall.tick(0, 140);
    let places = &mut hall.places;
    let ticket = begin(rt, places, "Office begins", action(8, 0, 100))?;
    for classroom in 1..30 {
        let call = update(ticket, 2, held(77, classroom)?);
        if let Answer::Refused(_) = tell(rt, places, "Office writes line 2", call)? {
            break;
        }
    }
    let steps = [
        ("Record 8 stands", Call::Standing { record: 8 }),
        ("Line 2 is settled", Call::Settle { object: 2 }),
    ];
    tell_each(rt, places, &steps)?;
    hall.aloud(rt, 200)?;
    Ok(())
}

pub fn evening<P: Store + Drop, Q: Store + Drop>(
    rt: &impl Print,
    places: P,
    seats: Q,
) -> Result<()> {
    let mut hall = Hall::new(places, seats);
    opening(rt, &mut hall)?;
    swap(rt, &mut hall)?;
    unplugged(rt, &mut hall)?;
    last_seat(rt, &mut hall)?;
    full(rt, &mut hall)
}
