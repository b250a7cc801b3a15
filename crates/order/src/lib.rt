// Two views: compared, searched one in the other, chosen between.
#![tactic(auto)]

pub mod answers;
pub mod calls;
pub mod inner;
