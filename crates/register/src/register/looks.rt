ghost use Rattle.std.specs.Prelude.{◌≡◌, Some, None};
ghost use Rattle.history.specs.Chain.{find_in};
ghost use Rattle.history.specs.Meaning.{chain_of, cause_of};
ghost use Rattle.history.specs.Meaning.Op.{Find, Extend};
ghost use Rattle.register.specs.Calls.{look, read_item};
ghost use Rattle.register.specs.Meets.{Meets};
ghost use Rattle.ledger.specs.Checks.{glance_check};
ghost use Rattle.register.specs.View.{view, Follows};
ghost use Rattle.ledger.specs.Answers.{told, unread};
ghost use Rattle.ledger.specs.declared.call.Answer.TheVariants.{Value};

use crate::meet::is_plain;
use crate::register::Register;
use history::item::Item;
use history::store::Store;
use kinds::kind::Kind;
use ledger::call::{Ticket, Unread};
use ledger::record::Standing;
use ledger::refusal::Refusal;

impl<S: Store, V: Kind + Drop> Register<S, V> {
    // Goes on from the item that is found at a pseudo-time, past the aborted tokens, which it drops.
    fn meet(
        &mut self,
        own: Option<Ticket>,
        object: u32,
        time: u64,
        found: Item,
    ) -> Result<Item, Unread>
        requires passes { cause_of (S.Store.means self.old.store) object (Find time) ≡ None }
        requires finds { find_in (chain_of (S.Store.means self.old.store) object) time ≡ Some found }
        ensures { Meets (view S.Store.means self.old) own object time result (view S.Store.means self.new) }
    {
        let mut item = found;
        // Each turn changes the store that is searched.
        while !is_plain(own, item) {
            match self.settle_item(object, item)? {
                Standing::Open => return Err(Unread::Wait(u32::from(item.mark))),
                Standing::Committed => return Ok(item),
                Standing::Aborted => item = self.store.find(object, time)?,
            }
        }
        Ok(item)
    }

    // Reads an item that was found at a pseudo-time, and extends it to there.
    fn read_item(&mut self, object: u32, time: u64, site: u32, item: Item) -> Result<V, Unread>
        requires passes { cause_of (S.Store.means self.old.store) object (Extend item.start time) ≡ None }
        requires ready { glance_check self.old.ledger.clocks site ≡ None }
        ensures { Follows S.Store.means (λ s. read_item V.Kind.parse s object time site item) self.old (told unread Value result) self.new }
    {
        let value = V::from_form(item.number).ok_or(Refusal::NoForm(item.number))?;
        self.store.extend(object, item.start, time)?;
        self.ledger.take_stamp(site);
        Ok(value)
    }

    // Searches an object from a pseudo-time down, and reads what it meets, if a timestamp of the site is left.
    pub(super) fn look(
        &mut self,
        own: Option<Ticket>,
        object: u32,
        time: u64,
        site: u32,
    ) -> Result<V, Unread>
        requires { glance_check self.old.ledger.clocks site ≡ None }
        ensures { Follows S.Store.means (λ s. look V.Kind.parse s own object time site) self.old (told unread Value result) self.new }
    {
        let found = self.store.find(object, time)?;
        let item = self.meet(own, object, time, found)?;
        self.read_item(object, time, site, item)
    }
}
