// Lane streams: eight lanes over a view, with none, one or two delays.
#![tactic(auto)]

pub mod answers;
pub mod calls;
pub mod inner;
