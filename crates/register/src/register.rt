mod actions;
mod calls;
mod looks;
mod objects;
mod starts;
mod tokens;

use ledger::ledger::Ledger;
use std::marker::PhantomData;

// Objects of one kind of value over a store of histories, with commit records and the sites' clocks.
// One that is not fit refuses every call.
// Contracts see it by `view`: a Model's value must be data, and what a store means has functions in it.
#[derive(Drop)]
pub struct Register<S, V> {
    store: S,
    ledger: Ledger,
    fit: bool,
    kind: PhantomData<V>,
}
