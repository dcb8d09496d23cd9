ghost use Rattle.std.specs.Prelude.{◌≡◌, ◌||◌};
ghost use Rattle.history.specs.Chain.{is_version};
ghost use Rattle.register.specs.Calls.{is_own};

use history::item::Item;
use ledger::call::Ticket;
use ledger::time::starts_under;

// Whether a search reads an item as it stands: a version, or a token of the action that searches.
pub fn is_plain(own: Option<Ticket>, item: Item) -> bool
    ensures { result ≡ (is_version item || is_own own item) }
{
    item.is_version()
        || own.is_some_and(|(number, creation)| {
            u32::from(item.mark) == number && starts_under(item, creation)
        })
}
