// A view written out to a lent buffer: its letters, and its reverse complement.
#![tactic(auto)]

pub mod calls;
pub mod inner;
