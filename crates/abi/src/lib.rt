// The C face: one exported function for each public call, which returns the refusal number and gives its other numbers through pointers.
// Each C name is a function of its own, so `bases` and `flags` both say them all.
#![tactic(auto)]

pub mod bases;
pub mod files;
pub mod flags;
pub mod form;
pub mod letters;
pub mod rooms;
pub mod words;
