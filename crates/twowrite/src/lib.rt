// .2bit files written, one sequence at a time, into a lent buffer.
#![tactic(auto)]

pub mod answers;
pub mod inner;
pub mod writing;
