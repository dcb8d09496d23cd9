// What every history of calls on a register shows: a serial order by creation.
#![tactic(auto)]

ghost use Rattle.std.specs.Prelude.{◌≡◌, ℕ};
ghost use Rattle.history.specs.Meaning.{Meaning};
ghost use Rattle.register.specs.Start.{started};
ghost use Rattle.register.specs.View.{view, Does};
ghost use Rattle.serial.specs.Reaches.{Opens, Continues};
ghost use Rattle.serial.specs.SerialOrder.{SerialLaw};

use history::store::Store;
use kinds::kind::Kind;
use ledger::call::{Answer, Call};
use register::register::Register;

// Starts a register over a store, with every site's clock at `clock`.
pub fn open<S: Store, V: Kind>(store: S, clock: u32) -> Register<S, V>
    ensures starts { view S.Store.means result ≡ started (S.Store.means store) clock }
    ensures opens { Opens S.Store.means V.Kind.form V.Kind.parse clock (S.Store.means store) result }
{
    Register::start(store, clock)
}

// Makes a call on a register.
pub fn perform<S: Store, V: Kind + Drop>(register: &mut Register<S, V>, call: Call<V>) -> Answer<V>
    ensures step { Does S.Store.means V.Kind.form V.Kind.parse register.old call result register.new }
    ensures serial { Continues S.Store.means V.Kind.form V.Kind.parse register.old call result register.new }
{
    register.call(call)
}

// Whatever a register's values, its store and its clocks at first, every state that calls lead to is in serial order with its history.
pub fn serial_law<K: Kind>()
    ensures { (c : ℕ) (m : Meaning) → SerialLaw K.Kind.form K.Kind.parse c m }
{}
