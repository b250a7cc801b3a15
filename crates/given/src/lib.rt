// How a call of the C face gives its answer: the refusal number back, the other numbers through pointers.
#![tactic(auto)]

pub mod inner;
