ghost use Rattle.std.specs.Prelude.{◌≡◌, false, None};
ghost use Rattle.history.specs.Chain.{is_version};
ghost use Rattle.history.specs.Meaning.{cause_of};
ghost use Rattle.history.specs.Meaning.Op.{At};
ghost use Rattle.ledger.specs.Answers.{told};
ghost use Rattle.ledger.specs.declared.call.Call.TheVariants.{Settle};
ghost use Rattle.ledger.specs.declared.call.Answer.TheVariants.{Refused, Settled as SettledAnswer};
ghost use Rattle.register.specs.Calls.{Step};
ghost use Rattle.register.specs.Settled.{Settled};
ghost use Rattle.register.specs.Settling.{Gives, Held, Settles};
ghost use Rattle.register.specs.View.{view, Does};

use crate::register::Register;
use crate::walk::Walk;
use history::item::Item;
use history::store::Store;
use kinds::kind::Kind;
use ledger::record::Standing;
use ledger::refusal::Refusal;

impl<S: Store, V: Kind + Drop> Register<S, V> {
    // Settles an item, and says its fate: seals a committed token and drops an aborted one.
    // A version and an open token stay as they are.
    pub(super) fn settle_item(&mut self, object: u32, item: Item) -> Result<Standing, Refusal>
        requires { is_version item ≡ false → Held (S.Store.means self.old.store) object item }
        ensures { Gives (λ f. Settles (view S.Store.means self.old) object item f (view S.Store.means self.new)) result }
    {
        let fate = self.ledger.fate(item);
        match fate {
            Standing::Open => {}
            Standing::Committed => {
                self.store.seal(object, item.start)?;
                self.ledger.lower(item);
            }
            Standing::Aborted => {
                self.store.drop(object, item.start)?;
                self.ledger.lower(item);
            }
        }
        Ok(fate)
    }

    // Settles every token of an object, and says how many were sealed and dropped.
    fn settle_all(&mut self, object: u32) -> Result<Walk, Refusal>
        requires { cause_of (S.Store.means self.old.store) object At ≡ None }
        ensures { Gives (λ w. Settled (view S.Store.means self.old) object w (view S.Store.means self.new)) result }
    {
        let mut walk = Walk {
            place: 0,
            sealed: 0,
            dropped: 0,
        };
        // Each turn changes the store that is walked.
        while let Some(item) = self.store.at(object, walk.place)? {
            let fate = self.settle_item(object, item)?;
            walk = walk.past(fate);
        }
        Ok(walk)
    }

    pub fn settle(&mut self, object: u32) -> Result<(u32, u32), Refusal>
        ensures { Does S.Store.means V.Kind.form V.Kind.parse self.old (Settle object) (told Refused SettledAnswer result) self.new }
    {
        self.check_fit()?;
        let _ = self.store.at(object, 0)?;
        let walk = self.settle_all(object)?;
        Ok((walk.sealed, walk.dropped))
    }
}
