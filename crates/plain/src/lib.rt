// The calls of the C face that have no width: plain numbers in, the refusal number back, and the other numbers through pointers.
#![tactic(auto)]

pub mod inner;
