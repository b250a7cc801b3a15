// Runs of bytes in a buffer, made anew: letters, or a view's characters behind their gap. The calls on a store are made of these.
#![tactic(auto)]

pub mod inner;
