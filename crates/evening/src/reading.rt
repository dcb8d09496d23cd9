// What a line of the table says at a pseudo-time.
ghost use Rattle.history.specs.Meaning.{Outcome};
ghost use Rattle.history.specs.Meaning.Op.{Find};
ghost use Rattle.evening.specs.Reading.{Reads};

use crate::trouble::Trouble;
use history::store::Store;
use kinds::kind::Kind;

// A value, and whether it is settled: a version, and no token.
#[derive(Clone, Copy, Debug)]
pub struct Reading<K> {
    pub value: K,
    pub settled: bool,
}

// What an object says at a pseudo-time.
pub fn read<K: Kind + Drop, S: Store>(
    store: &mut S,
    object: u32,
    time: u64,
) -> Result<Reading<K>, Trouble>
    ensures answer { Reads K.Kind.parse (S.Store.means store.old) object time result }
    ensures after { Outcome (S.Store.means store.old) object (Find time) (S.Store.means store.new) }
{
    let item = store.find(object, time)?;
    let value = K::from_form(item.number).ok_or(Trouble::NoForm(item.number))?;
    Ok(Reading {
        value,
        settled: item.is_version(),
    })
}
