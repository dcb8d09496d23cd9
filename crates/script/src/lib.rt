// Script lines: the calls that they spell, and the lines that answers are printed as.
#![tactic(auto)]

mod fields;
pub mod law;
pub mod piece;
pub mod reading;
pub mod writing;
