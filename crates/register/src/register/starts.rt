ghost use Rattle.std.specs.Prelude.{◌≡◌};
ghost use Rattle.register.specs.Start.{started};
ghost use Rattle.register.specs.View.{view};

use crate::register::Register;
use crate::start::is_before;
use history::store::Store;
use kinds::kind::Kind;
use ledger::ledger::Ledger;
use ledger::limits::SPENT_AT;
use std::marker::PhantomData;

impl<S: Store, V: Kind> Register<S, V> {
    // Starts a register over a store. It is fit if the clock is in range, and every item is a version from before it.
    pub fn start(store: S, clock: u32) -> Register<S, V>
        ensures { view S.Store.means result ≡ started (S.Store.means store) clock }
    {
        let before = is_before(&store, clock);
        let fit = (1..SPENT_AT).contains(&clock) && before;
        Register {
            store,
            ledger: Ledger::new(clock),
            fit,
            kind: PhantomData,
        }
    }
}
