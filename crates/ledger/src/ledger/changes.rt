ghost use Rattle.std.specs.Prelude.{◌≡◌, pred, ◌<◌, ◌≤◌, if◌then◌else◌, None, slice_set};
ghost use Rattle.ledger.specs.Time.{stamp, site_of};
ghost use Rattle.ledger.specs.Records.{clock_at, record_at, lower_for, concluded, one_token_more, change_record, opened, take_stamp};
ghost use Rattle.ledger.specs.Checks.{record_check, ticket_check, action_check, glance_check, begin_check, tick_check};
ghost use Rattle.ledger.specs.Refusals.{aborts, checked, left};
ghost use Rattle.ledger.specs.declared.record.Event.TheVariants.{Abort};

use crate::call::Ticket;
use crate::ledger::Ledger;
use crate::limits::LONGEST;
use crate::number::{RecordNumber, Site};
use crate::record::{CommitRecord, Event, Standing};
use crate::refusal::Refusal;
use crate::time::starts_under;
use history::item::Item;

// What the calls change, each after its checks: a call that is turned down changes nothing.
impl Ledger {
    // Opens a record for an action of a site.
    pub fn begin(&mut self, number: u32, site: u32, lifetime: u32) -> Result<Ticket, Refusal>
        ensures answer { result ≡ checked (begin_check self.old.records self.old.clocks number site lifetime) (number, stamp (clock_at self.old.clocks site) site) }
        ensures records { self.new.records ≡ left (begin_check self.old.records self.old.clocks number site lifetime) (slice_set self.old.records (pred number) (opened (clock_at self.old.clocks site) site lifetime)) self.old.records }
        ensures clocks { self.new.clocks ≡ left (begin_check self.old.records self.old.clocks number site lifetime) (take_stamp self.old.clocks site) self.old.clocks }
    {
        let record = RecordNumber::try_from(number)?;
        let site = Site::try_from(site)?;
        if !(2..=LONGEST).contains(&lifetime) {
            return Err(Refusal::OutOfRange);
        }
        if !self.is_free(record) {
            return Err(Refusal::RecordInUse);
        }
        let creation = self.stamp(site)?;
        let opened = CommitRecord {
            creation,
            expiry: self.clock(site) + lifetime,
            tokens: 0,
            standing: Standing::Open,
        };
        self.write(record, Some(opened));
        self.step_clock(site);
        Ok((number, creation))
    }

    fn advance(&mut self, number: RecordNumber, event: Event)
        ensures records { self.new.records ≡ change_record (concluded event) self.old.records number }
        ensures clocks { self.new.clocks ≡ self.old.clocks }
    {
        let record = self.record(number).map(|record| CommitRecord {
            standing: record.standing.after(event),
            ..record
        });
        self.write(number, record);
    }

    // Commits or aborts an open action.
    pub fn conclude(&mut self, ticket: Ticket, event: Event) -> Result<(), Refusal>
        ensures answer { result ≡ checked (ticket_check self.old.records self.old.clocks ticket) tt }
        ensures records { self.new.records ≡ left (ticket_check self.old.records self.old.clocks ticket) (change_record (concluded event) self.old.records ticket.0) self.old.records }
        ensures clocks { self.new.clocks ≡ self.old.clocks }
    {
        let number = self.check_ticket(ticket)?;
        self.advance(number, event);
        Ok(())
    }

    // Aborts the action whose update was turned down, where the refusal says so.
    pub fn turn_down(&mut self, ticket: Ticket, refusal: Refusal)
        ensures records { self.new.records ≡ (if aborts refusal then left (ticket_check self.old.records self.old.clocks ticket) (change_record (concluded Abort) self.old.records ticket.0) self.old.records else self.old.records) }
        ensures clocks { self.new.clocks ≡ self.old.clocks }
    {
        if refusal.aborts() {
            let _ = self.conclude(ticket, Event::Abort);
        }
    }

    // Sets a site's clock forward.
    pub fn tick(&mut self, site: u32, clock: u32) -> Result<(), Refusal>
        ensures answer { result ≡ checked (tick_check self.old.clocks site clock) tt }
        ensures records { self.new.records ≡ self.old.records }
        ensures clocks { self.new.clocks ≡ left (tick_check self.old.clocks site clock) (slice_set self.old.clocks site clock) self.old.clocks }
    {
        let site = self.check_tick(site, clock)?;
        self.set_clock(site, clock);
        Ok(())
    }

    // Takes a timestamp of a site that has one left.
    pub fn take_stamp(&mut self, site: u32)
        ensures records { self.new.records ≡ self.old.records }
        ensures clocks { self.new.clocks ≡ left (glance_check self.old.clocks site) (take_stamp self.old.clocks site) self.old.clocks }
    {
        if let Ok(site) = self.check_glance(site) {
            self.step_clock(site);
        }
    }

    // Counts one more token of an open action, and takes a timestamp of its site.
    pub fn charge(&mut self, ticket: Ticket)
        ensures records { self.new.records ≡ left (action_check self.old.records self.old.clocks ticket) (change_record one_token_more self.old.records ticket.0) self.old.records }
        ensures clocks { self.new.clocks ≡ left (action_check self.old.records self.old.clocks ticket) (take_stamp self.old.clocks (site_of ticket.1)) self.old.clocks }
    {
        if let Ok(number) = self.check_action(ticket) {
            let record = self.record(number).map(|record| CommitRecord {
                tokens: record.tokens + 1,
                ..record
            });
            self.step_clock(Site::of(ticket.1));
            self.write(number, record);
        }
    }

    // One token less is left to settle.
    pub fn lower(&mut self, token: Item)
        ensures records { self.new.records ≡ left (record_check token.mark) (lower_for self.old.records token) self.old.records }
        ensures clocks { self.new.clocks ≡ self.old.clocks }
    {
        if let Ok(number) = RecordNumber::try_from(u32::from(token.mark)) {
            let record = match self.record(number) {
                Some(record) if starts_under(token, record.creation) => Some(CommitRecord {
                    tokens: record.tokens.saturating_sub(1),
                    ..record
                }),
                other => other,
            };
            self.write(number, record);
        }
    }
}
