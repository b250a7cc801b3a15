// Stores: a lent buffer and a length in characters, at the width of bases or of flags.
#![tactic(auto)]

pub mod answers;
pub mod calls;
pub mod inner;
