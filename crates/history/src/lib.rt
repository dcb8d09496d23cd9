// Object histories: chains of versions and tokens over pseudo-time, and what every store of them promises.
#![tactic(auto)]

pub mod alike;
pub mod item;
pub mod law;
pub mod store;
