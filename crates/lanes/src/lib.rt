// The numbers of a stream, its refusals, and eight lanes over a view, at any delay. The calls on lane streams and flag windows are made of these.
#![tactic(auto)]

pub mod inner;
