ghost use Rattle.std.specs.Prelude.{◌≡◌};
ghost use Rattle.ledger.specs.Answers.{told};
ghost use Rattle.ledger.specs.Refusals.{checked};
ghost use Rattle.ledger.specs.declared.call.Call.TheVariants.{Begin, Commit, Abort, Tick, Standing as StandingCall};
ghost use Rattle.ledger.specs.declared.call.Answer.TheVariants.{Began, Done, Refused, Stands};
ghost use Rattle.register.specs.Calls.{Step, outcome, fit_check};
ghost use Rattle.register.specs.View.{view, Does};

use crate::register::Register;
use history::store::Store;
use kinds::kind::Kind;
use ledger::call::Ticket;
use ledger::record::{Event, Standing};
use ledger::refusal::Refusal;

// The calls that touch no object.
impl<S: Store, V: Kind> Register<S, V> {
    pub(super) fn check_fit(&self) -> Result<(), Refusal>
        ensures { result ≡ checked (fit_check (view S.Store.means self.now)) tt }
    {
        if self.fit {
            Ok(())
        } else {
            Err(Refusal::NotFit)
        }
    }

    pub fn begin(&mut self, number: u32, site: u32, lifetime: u32) -> Result<Ticket, Refusal>
        ensures { Does S.Store.means V.Kind.form V.Kind.parse self.old (Begin number site lifetime) (told Refused Began result) self.new }
    {
        self.check_fit()?;
        self.ledger.begin(number, site, lifetime)
    }

    pub fn commit(&mut self, ticket: Ticket) -> Result<(), Refusal>
        ensures { Does S.Store.means V.Kind.form V.Kind.parse self.old (Commit ticket) (told Refused (λ _. Done) result) self.new }
    {
        self.check_fit()?;
        self.ledger.conclude(ticket, Event::Commit)
    }

    pub fn abort(&mut self, ticket: Ticket) -> Result<(), Refusal>
        ensures { Does S.Store.means V.Kind.form V.Kind.parse self.old (Abort ticket) (told Refused (λ _. Done) result) self.new }
    {
        self.check_fit()?;
        self.ledger.conclude(ticket, Event::Abort)
    }

    pub fn tick(&mut self, site: u32, clock: u32) -> Result<(), Refusal>
        ensures { Does S.Store.means V.Kind.form V.Kind.parse self.old (Tick site clock) (told Refused (λ _. Done) result) self.new }
    {
        self.check_fit()?;
        self.ledger.tick(site, clock)
    }

    pub fn standing(&self, number: u32) -> Result<(Option<Standing>, u32), Refusal>
        ensures { Does S.Store.means V.Kind.form V.Kind.parse self.now (StandingCall number) (told Refused (λ stands. Stands stands.0 stands.1) result) self.now }
    {
        self.check_fit()?;
        self.ledger.standing(number)
    }
}
