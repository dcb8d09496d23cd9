ghost use Rattle.std.specs.Prelude.{◌≤◌, length};
ghost use Rattle.history.specs.Chain.{Lawful};

use arrayvec::ArrayVec;
use history::item::Item;

mod change;
mod check;

// The items of one object, at most 8.
#[derive(Drop)]
pub(crate) struct Row {
    items: ArrayVec<Item, 8>,
    ghost short: { length items.items ≤ 8 },
    ghost lawful: { ∥ Lawful items.items ∥₁ },
}
