// The stored form of a base track and a flag track, edition 1.
#![tactic(auto)]

pub mod forms;
pub mod inner;
