ghost use Rattle.std.specs.Prelude.{◌≡◌};
ghost use Rattle.ledger.specs.Answers.{told, unread};
ghost use Rattle.ledger.specs.declared.call.Call.TheVariants.{Read, Update, Glance};
ghost use Rattle.ledger.specs.declared.call.Answer.TheVariants.{Done, Refused, Value};
ghost use Rattle.register.specs.Calls.{Step, outcome};
ghost use Rattle.register.specs.View.{view, Does};

use crate::register::Register;
use history::store::Store;
use kinds::kind::Kind;
use ledger::call::{Ticket, Unread};
use ledger::limits::SITES;
use ledger::refusal::Refusal;

// The calls on objects.
impl<S: Store, V: Kind + Drop> Register<S, V> {
    pub fn update(&mut self, ticket: Ticket, object: u32, value: V) -> Result<(), Refusal>
        ensures { Does S.Store.means V.Kind.form V.Kind.parse self.old (Update ticket object value) (told Refused (λ _. Done) result) self.new }
    {
        self.check_fit()?;
        let time = self.ledger.action_time(ticket)?;
        match self
            .store
            .put(object, time, ticket.0 as u8, value.to_form())
        {
            Ok(()) => {
                self.ledger.charge(ticket);
                Ok(())
            }
            Err(fault) => {
                let refusal = Refusal::from(fault);
                self.ledger.turn_down(ticket, refusal);
                Err(refusal)
            }
        }
    }

    pub fn read(&mut self, ticket: Ticket, object: u32) -> Result<V, Unread>
        ensures { Does S.Store.means V.Kind.form V.Kind.parse self.old (Read ticket object) (told unread Value result) self.new }
    {
        self.check_fit()?;
        let time = self.ledger.action_time(ticket)?;
        self.look(Some(ticket), object, time, ticket.1 % SITES)
    }

    pub fn glance(&mut self, site: u32, object: u32) -> Result<V, Unread>
        ensures { Does S.Store.means V.Kind.form V.Kind.parse self.old (Glance site object) (told unread Value result) self.new }
    {
        self.check_fit()?;
        let time = self.ledger.glance_time(site)?;
        self.look(None, object, time, site)
    }
}
