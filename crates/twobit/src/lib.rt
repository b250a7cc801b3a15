// .2bit files: what one is, and how it is read from lent bytes.
#![tactic(auto)]

pub mod answers;
pub mod inner;
pub mod reading;
