// Timestamps, commit records and tickets, the calls on a register with their answers and refusals,
// and the ledger: the commit records with the sites' clocks.
#![tactic(auto)]

pub mod call;
pub mod ledger;
pub mod limits;
mod number;
pub mod record;
pub mod refusal;
pub mod time;
