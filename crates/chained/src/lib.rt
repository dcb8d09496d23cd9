// A store of object histories over the caller's bytes.
#![tactic(auto)]

mod chain;
pub mod law;
pub mod open;
mod plans;
pub mod store;
pub mod table;
