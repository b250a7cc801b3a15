// Recorded cases of the calls on letters, words and views: each runs a call and writes what it answers as a line of numbers. What a case
// is given, and how an answer is written, serve all cases.
#![tactic(auto)]

pub mod inner;
