// The register: object histories over any store, commit records, sites' clocks, and nine calls.
#![tactic(auto)]

pub mod meet;
pub mod register;
mod start;
mod walk;
