ghost use Rattle.std.specs.Prelude.{◌≡◌};
ghost use Rattle.ledger.specs.Answers.{told, unread};
ghost use Rattle.register.specs.Calls.{Step};
ghost use Rattle.register.specs.View.{view, Does};

use crate::register::Register;
use history::store::Store;
use kinds::kind::Kind;
use ledger::call::{Answer, Call, Unread};

impl<S: Store, V: Kind + Drop> Register<S, V> {
    // What a call answers, or why it is turned down or has to wait.
    fn answer(&mut self, call: Call<V>) -> Result<Answer<V>, Unread>
        ensures { Does S.Store.means V.Kind.form V.Kind.parse self.old call (told unread (λ answer. answer) result) self.new }
    {
        match call {
            Call::Begin {
                record,
                site,
                lifetime,
            } => Ok(Answer::Began(self.begin(record, site, lifetime)?)),
            Call::Read { ticket, object } => Ok(Answer::Value(self.read(ticket, object)?)),
            Call::Update {
                ticket,
                object,
                value,
            } => {
                self.update(ticket, object, value)?;
                Ok(Answer::Done)
            }
            Call::Commit { ticket } => {
                self.commit(ticket)?;
                Ok(Answer::Done)
            }
            Call::Abort { ticket } => {
                self.abort(ticket)?;
                Ok(Answer::Done)
            }
            Call::Glance { site, object } => Ok(Answer::Value(self.glance(site, object)?)),
            Call::Tick { site, clock } => {
                self.tick(site, clock)?;
                Ok(Answer::Done)
            }
            Call::Settle { object } => Ok(Answer::Settled(self.settle(object)?)),
            Call::Standing { record } => {
                let (standing, tokens) = self.standing(record)?;
                Ok(Answer::Stands(standing, tokens))
            }
        }
    }

    // Answers a call.
    pub fn call(&mut self, call: Call<V>) -> Answer<V>
        ensures { Does S.Store.means V.Kind.form V.Kind.parse self.old call result self.new }
    {
        self.answer(call).unwrap_or_else(|why| why.into())
    }
}
