// The byte layout of a store of object histories: its fields and records, which bytes are lawful, and laying out.
#![tactic(auto)]

mod chain;
mod field;
pub mod header;
pub mod lawful;
pub mod laying;
mod marks;
pub mod record;
pub mod walk;
