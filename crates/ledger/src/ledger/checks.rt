ghost use Rattle.std.specs.Prelude.{◌≡◌};
ghost use Rattle.ledger.specs.Checks.{ticket_check, action_check, glance_check, tick_check, spent_check, time_of, glance_time};
ghost use Rattle.ledger.specs.Refusals.{checked};
ghost use Rattle.ledger.specs.Records.{clock_at};
ghost use Rattle.ledger.specs.Time.{stamp};

use crate::call::Ticket;
use crate::ledger::Ledger;
use crate::limits::{SITES, SPENT_AT};
use crate::number::{RecordNumber, Site};
use crate::record::Standing;
use crate::refusal::Refusal;
use crate::time::pseudo_time;

// What turns a call down, in the order of the refusals.
impl Ledger {
    // The timestamp that a site's clock gives.
    pub(super) fn stamp(&self, site: Site) -> Result<u32, Refusal>
        ensures { result ≡ checked (spent_check self.now.clocks site) (stamp (clock_at self.now.clocks site) site) }
    {
        let clock = self.clock(site);
        if clock >= SPENT_AT {
            return Err(Refusal::ClockSpent);
        }
        Ok(clock * SITES + site.number())
    }

    // The number of the open record that a ticket matches.
    pub(super) fn check_ticket(&self, ticket: Ticket) -> Result<RecordNumber, Refusal>
        ensures { result ≡ checked (ticket_check self.now.records self.now.clocks ticket) ticket.0 }
    {
        let number = RecordNumber::try_from(ticket.0)?;
        match self.record(number) {
            Some(record) if record.creation == ticket.1 => match self.standing_of(record) {
                Standing::Open => Ok(number),
                Standing::Committed => Err(Refusal::Committed),
                Standing::Aborted => Err(Refusal::Aborted),
            },
            _ => Err(Refusal::StaleTicket),
        }
    }

    pub(super) fn check_action(&self, ticket: Ticket) -> Result<RecordNumber, Refusal>
        ensures { result ≡ checked (action_check self.now.records self.now.clocks ticket) ticket.0 }
    {
        let number = self.check_ticket(ticket)?;
        self.stamp(Site::of(ticket.1))?;
        Ok(number)
    }

    pub(super) fn check_glance(&self, site: u32) -> Result<Site, Refusal>
        ensures { result ≡ checked (glance_check self.now.clocks site) site }
    {
        let site = Site::try_from(site)?;
        self.stamp(site)?;
        Ok(site)
    }

    pub(super) fn check_tick(&self, site: u32, clock: u32) -> Result<Site, Refusal>
        ensures { result ≡ checked (tick_check self.now.clocks site clock) site }
    {
        let site = Site::try_from(site)?;
        if clock <= self.clock(site) || clock >= SPENT_AT {
            return Err(Refusal::TickBack);
        }
        Ok(site)
    }

    // The pseudo-time that an action's read or update uses now.
    pub fn action_time(&self, ticket: Ticket) -> Result<u64, Refusal>
        ensures { result ≡ checked (action_check self.now.records self.now.clocks ticket) (time_of self.now.clocks ticket.1) }
    {
        self.check_ticket(ticket)?;
        let selection = self.stamp(Site::of(ticket.1))?;
        Ok(pseudo_time(ticket.1, selection))
    }

    // The pseudo-time that a glance at a site uses now.
    pub fn glance_time(&self, site: u32) -> Result<u64, Refusal>
        ensures { result ≡ checked (glance_check self.now.clocks site) (glance_time self.now.clocks site) }
    {
        let creation = self.stamp(Site::try_from(site)?)?;
        Ok(pseudo_time(creation, 0))
    }
}
