// Sites are numbered from 0, and commit records from 1.
pub const SITES: u32 = 16;

pub const RECORDS: u32 = 64;

// The longest lifetime of an action.
pub const LONGEST: u32 = 1_048_576;

// A clock that has reached this is spent.
pub const SPENT_AT: u32 = 134_217_728;

// A pseudo-time is a creation times this, and a selection.
pub const PER_CREATION: u64 = 4_294_967_296;

// The pseudo-times of one clock.
pub const PER_CLOCK: u64 = 68_719_476_736;
