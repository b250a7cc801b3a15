// The bases and flags of a .2bit record: bases from our order of bits to that of the file and back, 32 at a time, and runs of flags.
#![tactic(auto)]

pub mod inner;
