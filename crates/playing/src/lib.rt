// A script played on a register over bytes.
#![tactic(auto)]

pub mod play;
mod turn;
