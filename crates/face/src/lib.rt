// The calls of the C face over the width: plain numbers in, the refusal number back, and the other numbers through pointers.
#![tactic(auto)]

pub mod inner;
